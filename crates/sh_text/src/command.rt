//! Commands.
ghost use Rattle.std.specs.Prelude.{◌≡◌, ◌<◌, ◌≤◌, length, IfOk, IfErr, IsTrue};
ghost use Rattle.sh_text.specs.Reading.{Gives, left_of, begins_item, output_at, item_at, items_at, command_at};

use crate::bytes::{after_blanks, ends_word};
use crate::fault::{Halt, stop_at};
use crate::tree::{Command, Words};
use crate::words::{target, word};
use std::alloc::Global;

/// Whether a word or a redirection of this command comes next. A second input or output does not
/// belong to it.
fn begins_item(command: &Command, bytes: &[u8]) -> bool
    ensures { result ≡ begins_item command.now bytes.now }
{
    match bytes {
        [b'<', ..] => command.input.is_none(),
        [b'>', ..] => command.output.is_none(),
        [byte, ..] => !ends_word(*byte),
        [] => false,
    }
}

/// The command with an output to the word that comes next, and the bytes after it.
#[tactic(auto, unfolding(crate::specs::Reading::output_at))]
fn output(
    alloc: Global,
    mut command: Command,
    append: bool,
    bytes: &[u8],
) -> Result<(Command, &[u8]), Halt>
    ensures gives { Gives (λ x. (x.0, x.1.now)) result (output_at command append bytes.now) }
    ensures within { IfErr result (λ halt. left_of halt ≤ length bytes.now) }
    ensures shorter { IfOk result (λ x. length x.1.now < length bytes.now) }
{
    let (word, rest) = target(alloc, bytes)?;
    command.output = Some(word);
    command.append = append;
    Ok((command, rest))
}

/// The command with one word or redirection more, and the bytes after that.
#[tactic(auto, unfolding(crate::specs::Reading::item_at))]
fn item(alloc: Global, mut command: Command, bytes: &[u8]) -> Result<(Command, &[u8]), Halt>
    ensures gives { Gives (λ x. (x.0, x.1.now)) result (item_at command bytes.now) }
    ensures within { IfErr result (λ halt. left_of halt ≤ length bytes.now) }
    ensures shorter { IfOk result (λ x. length x.1.now < length bytes.now) }
{
    match bytes {
        [b'<', rest @ ..] => {
            let (word, rest) = target(alloc, rest)?;
            command.input = Some(word);
            Ok((command, rest))
        }
        [b'>', b'>', rest @ ..] => output(alloc, command, true, rest),
        [b'>', rest @ ..] => output(alloc, command, false, rest),
        _ => {
            let (word, rest) = word(alloc, bytes)?;
            command.words.push(word)?;
            Ok((command, rest))
        }
    }
}

/// Words and redirections as far as they go, and the bytes after them and after blanks.
#[tactic(auto, unfolding(crate::specs::Reading::items_at))]
fn items(alloc: Global, bytes: &[u8]) -> Result<(Command, &[u8]), Halt>
    ensures gives { Gives (λ x. (x.0, x.1.now)) result (items_at bytes.now) }
    ensures within { IfErr result (λ halt. left_of halt ≤ length bytes.now) }
    ensures shorter { IfOk result (λ x. length x.1.now ≤ length bytes.now) }
{
    let mut command = Command {
        words: Words::new(alloc),
        input: None,
        output: None,
        append: false,
    };
    let mut rest = after_blanks(bytes);
    while begins_item(&command, rest) {
        let (longer, after) = item(alloc, command, rest)?;
        command = longer;
        rest = after_blanks(after);
    }
    Ok((command, rest))
}

/// A command, which has at least one word, and the bytes after it and after blanks.
#[tactic(auto, unfolding(crate::specs::Reading::command_at))]
pub(crate) fn command(alloc: Global, bytes: &[u8]) -> Result<(Command, &[u8]), Halt>
    ensures gives { Gives (λ x. (x.0, x.1.now)) result (command_at bytes.now) }
    ensures within { IfErr result (λ halt. left_of halt ≤ length bytes.now) }
    ensures shorter { IfOk result (λ x. length x.1.now ≤ length bytes.now) }
{
    let (command, rest) = items(alloc, bytes)?;
    if command.words.is_empty() {
        return Err(Halt::Text(stop_at(rest)));
    }
    Ok((command, rest))
}
