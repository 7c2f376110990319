//! A termios as text.
ghost use Rattle.std.specs.Prelude.{◌≡◌, ◌+◌, ◌*◌, ◌<◌, ◌≤◌, [], ◌∷◌, ◌++◌, length, map, filter, if◌then◌else◌};
ghost use Rattle.std.specs.List.{join_with_byte};
ghost use Rattle.std.specs.Fmt.{decimal};
ghost use Rattle.arrayvec.specs.ArrayVec.{array_vec_len};
ghost use Rattle.termios_core.specs.Flags.{is_on};
ghost use Rattle.termios_core.specs.Text.{plus, flags_text, termios_text};

use crate::flags::{Flag, Flags};
use crate::termios::Termios;
use arrayvec::ArrayVec;

/// How many bytes the text has at most that a termios is printed to.
pub const TEXT_ROOM: usize = 4096;

/// How many bytes are free before a termios is printed.
pub const TERMIOS_ROOM: usize = 300;

type Text = ArrayVec<u8, TEXT_ROOM>;

/// Bytes as they are.
fn push_all(out: &mut Text, bytes: &[u8])
    requires { array_vec_len out.old + length bytes.now ≤ TEXT_ROOM }
    ensures text { out.new.items ≡ out.old.items ++ bytes.now }
    ensures len { array_vec_len out.new ≡ array_vec_len out.old + length bytes.now }
{
    // They fit, by the condition.
    let _ = out.try_extend_from_slice(bytes);
}

/// A byte in decimal, at most three digits.
#[tactic(auto, using(crate::proofs::DecimalLemmas::decimals))]
fn push_number(out: &mut Text, number: u8)
    requires { array_vec_len out.old + 3 ≤ TEXT_ROOM }
    ensures text { out.new.items ≡ out.old.items ++ decimal number }
    ensures room { array_vec_len out.new ≤ array_vec_len out.old + 3 }
{
    push_all(out, itoa::Buffer::new().format(number).as_bytes());
}

/// A separator, unless nothing stands before it.
fn push_separator(out: &mut Text, separator: u8, is_first: bool)
    requires { array_vec_len out.old < TEXT_ROOM }
    ensures text { out.new.items ≡ out.old.items ++ (if is_first then [] else separator ∷ []) }
    ensures room { array_vec_len out.new ≤ array_vec_len out.old + 1 }
{
    if !is_first {
        out.push(separator);
    }
}

/// Bytes in decimal, with a plus between each two. Each takes at most three digits and a plus.
fn push_numbers(out: &mut Text, numbers: &[u8])
    requires { array_vec_len out.old + 4 * length numbers.now ≤ TEXT_ROOM }
    ensures text { out.new.items ≡ out.old.items ++ join_with_byte plus (map decimal numbers.now) }
    ensures room { array_vec_len out.new ≤ array_vec_len out.old + 4 * length numbers.now }
{
    for (i, number) in numbers.iter().enumerate() {
        push_separator(out, b'+', i == 0);
        push_number(out, *number);
    }
}

/// The words of those of `candidates` that are on, or a dash. Each takes at most seven letters and
/// a comma.
fn push_flags(out: &mut Text, flags: &Flags, candidates: &[Flag])
    requires { array_vec_len out.old + 8 * length candidates.now < TEXT_ROOM }
    ensures text { out.new.items ≡ out.old.items ++ flags_text (filter (is_on flags.now) candidates.now) }
    ensures room { array_vec_len out.new ≤ array_vec_len out.old + 8 * length candidates.now + 1 }
{
    let mut none_yet = true;
    for flag in candidates {
        if flags.is_on(*flag) {
            push_separator(out, b',', none_yet);
            push_all(out, flag.word());
            none_yet = false;
        }
    }
    if none_yet {
        out.push(b'-');
    }
}

/// Appends the text of a termios (termios(4), stty(1)): the words of the flags that are on, in the
/// order of `Flag::ALL` and with commas, or a dash where none is on; a colon; and the eleven numbers
/// in decimal, with pluses. It has at most 300 bytes, and so many of the 4,096 are to be free.
pub fn print_termios(t: &Termios, out: &mut ArrayVec<u8, TEXT_ROOM>)
    requires { array_vec_len out.old + TERMIOS_ROOM ≤ TEXT_ROOM }
    ensures text { out.new.items ≡ out.old.items ++ termios_text t.now }
    ensures room { array_vec_len out.new ≤ array_vec_len out.old + TERMIOS_ROOM }
{
    push_flags(out, &t.flags, &Flag::ALL);
    out.push(b':');
    push_numbers(out, &t.numbers());
}
