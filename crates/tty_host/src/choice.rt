//! Which command the words of a command line choose.
ghost use Rattle.std.specs.Prelude.{◌≡◌, ℕ, ◌<◌, ◌≤◌, List, length, map, Some};
ghost use Rattle.std.specs.String.{string_bytes};
ghost use Rattle.script_model.specs.Load.{LOAD_EVENTS};
ghost use Rattle.tty_host.specs.Tops.{choice_of, load_of};

use script_text::{DECIMAL, read_number, read_u64};

/// The number of events that a load draws is below this.
const LOAD_LIMIT: u32 = 262_141;

/// A command.
#[derive(Clone, Copy, PartialEq, Eq)]
pub enum Choice {
    /// `script` or `script BOOT`: the index of BOOT among the words, if it is named.
    Script { boot: Option<usize> },
    /// `load N START`: how many events are drawn, at most 262,140, and from which state of the generator.
    Load { n: u32, start: u64 },
    /// The words have none of the forms.
    Usage,
}

/// The load that two words ask for, each a number in decimal without a sign or a leading zero.
fn choose_load(n: &[u8], start: &[u8]) -> Choice
    ensures choice { result ≡ load_of n.now start.now }
    ensures most { (n start : ℕ) → result ≡ Choice.Load n start → n ≤ LOAD_EVENTS }
{
    match (read_number(n, DECIMAL, LOAD_LIMIT), read_u64(start)) {
        (Some(n), Some(start)) => Choice::Load { n, start },
        _ => Choice::Usage,
    }
}

/// The command that the words after the program's name choose. It takes no memory.
pub fn choose(words: &[String]) -> Choice
    ensures choice { result ≡ choice_of (map string_bytes words.now) }
    // A word that is named is there.
    ensures named { (i : ℕ) → result ≡ Choice.Script (Some i) → i < length words.now }
    ensures most { (n start : ℕ) → result ≡ Choice.Load n start → n ≤ LOAD_EVENTS }
{
    match words {
        [word] if word.as_bytes() == b"script".as_slice() => Choice::Script { boot: None },
        [word, _] if word.as_bytes() == b"script".as_slice() => Choice::Script { boot: Some(1) },
        [word, n, start] if word.as_bytes() == b"load".as_slice() => {
            choose_load(n.as_bytes(), start.as_bytes())
        }
        _ => Choice::Usage,
    }
}
