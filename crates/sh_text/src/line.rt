//! A whole line.
ghost use Rattle.std.specs.Prelude.{◌≡◌};
ghost use Rattle.sh_text.specs.Reading.{Reads, line_of};
ghost use Rattle.sh_text.specs.Faults.{ReadsByGrammar};

use crate::fault::{Halt, ShFault};
use crate::jobs::jobs;
use crate::tree::Line;
use std::alloc::Global;

/// Reads a whole line, without its newline, as a tree (sh(1); POSIX.1, XCU 2.2 for quotes, 2.7 for
/// redirections, 2.9 for pipelines and lists).
///
/// Jobs are separated by `;` or `&`, and `&` puts the job before it in the background. Nothing but
/// blanks may follow the last of these marks, and a line of nothing but blanks has no job; no other
/// job is empty. A job is 1 to 8 commands joined by `|`. A command is words, of which it has at
/// least one, and among them at most one `<` and at most one `>` or `>>`, each before a word, which
/// is none of the command's own.
///
/// Words are separated by blanks and tabs, and end before each of these marks. `'` quotes all bytes
/// up to the next `'`, and `\` quotes the byte after it where it is not quoted itself; two quotes
/// with nothing between them are a word without bytes.
///
/// `Text` comes for each text that is no such line, at the first byte that no line has after those
/// before it, or at the length in bytes where the text ends early. The only other fault is
/// `NoMemory`, where memory runs out.
#[tactic(auto, unfolding(crate::specs::Reading::line_of))]
pub fn read_line(alloc: Global, text: &[u8]) -> Result<Line, ShFault>
    // By the grammar.
    ensures grammar { ReadsByGrammar text.now result }
    // The same, as a function that computes.
    ensures value { Reads result (line_of text.now) }
{
    match jobs(alloc, text) {
        Ok(jobs) => Ok(Line { jobs }),
        Err(Halt::Text(stop)) => Err(ShFault::Text {
            at: text.len() - stop.left,
        }),
        Err(Halt::OutOfMemory) => Err(ShFault::NoMemory),
    }
}
