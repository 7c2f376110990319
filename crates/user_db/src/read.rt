//! A boot text as a boot.
ghost use Rattle.std.specs.Prelude.{◌≡◌, ◌==◌, ◌<◌, ◌≤◌, [], ◌∷◌, length, position, MatchOption, IfSome, IfOk};
ghost use Rattle.user_db.specs.Lines.{is_newline, lines};
ghost use Rattle.user_db.specs.Boot.{with_line_at, boot_of, Reads, IsBoot};

use crate::boot::{Boot, Draft};
use crate::fault::BootFault;
use crate::line::{BOOT_LINES, read_boot_line};
use std::alloc::Global;

/// Where the first newline is.
fn newline_at(text: &[u8]) -> Option<usize>
    ensures { result ≡ position is_newline text.now }
{
    text.iter().position(|byte| *byte == b'\n')
}

/// The first line without its newline, and what follows that. `None` exactly where there is no line.
fn next_line(text: &[u8]) -> Option<(&[u8], &[u8])>
    ensures lines { MatchOption result (lines text.now ≡ []) (λ x. lines text.now ≡ x.0.now ∷ lines x.1.now) }
    ensures shorter { IfSome result (λ x. length x.1.now < length text.now) }
{
    if text.is_empty() {
        return None;
    }
    match newline_at(text) {
        Some(at) => Some((&text[..at], &text[at + 1..])),
        None => Some((text, &[])),
    }
}

/// What the lines say with line number `number` too. `None` exactly where that line is bad.
fn with_line_of_number(draft: Draft, number: u32, line: &[u8]) -> Option<Draft>
    ensures said { result ≡ with_line_at number line.now draft }
    ensures within { IfSome result (λ _. number ≤ BOOT_LINES) }
{
    if number > BOOT_LINES {
        return None;
    }
    let line = read_boot_line(line)?;
    draft.with_line(line)
}

/// Reads a boot text.
///
/// It has at most 256 lines, each ended by a newline, which the last may lack, and each
/// `recheck on` or `recheck off`, of which one may stand once. What it does not speak of is off.
///
/// `Line` comes for each text that is none, with the number of its first bad line, which is 257
/// where there are too many. The only other fault is `NoMemory`, where memory runs out.
#[tactic(auto, unfolding(crate::specs::Boot::boot_of))]
pub fn read_boot(alloc: Global, text: &[u8]) -> Result<Boot, BootFault>
    // What the grammar says of the text.
    ensures reads { Reads result (boot_of text.now) }
    // So what is read is a boot that some text gives.
    ensures boot { IfOk result IsBoot }
{
    let mut draft = Draft::new(alloc);
    let mut number = 1;
    let mut rest = text;
    while let Some((line, after)) = next_line(rest) {
        match with_line_of_number(draft, number, line) {
            Some(longer) => draft = longer,
            None => return Err(BootFault::Line(number)),
        }
        number += 1;
        rest = after;
    }
    Ok(draft.finish())
}
