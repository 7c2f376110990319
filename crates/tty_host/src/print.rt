//! The last lines of a script that does not end well.
ghost use Rattle.std.specs.Prelude.{◌≡◌, ◌+◌, ◌≤◌, ◌++◌, Some};
ghost use Rattle.script_model.specs.Script.{text_end, boot_end};

use call_words::{push_bytes, push_number};
use script_text::AnswerLine;

/// The last line of a script with a bad line.
#[tactic(auto, unfolding(script_model::specs::Script::text_end))]
pub fn bad_line(number: u32) -> AnswerLine
    ensures { result.items ≡ (text_end (Some number)).bytes }
{
    let mut out = AnswerLine::new();
    push_bytes(&mut out, b"line ");
    push_number(&mut out, number);
    push_bytes(&mut out, b"\n");
    out
}

/// The one line that is written for a bad boot text.
pub fn bad_boot_line(number: u32) -> AnswerLine
    ensures { result.items ≡ (boot_end number).bytes }
{
    let mut out = AnswerLine::new();
    push_bytes(&mut out, b"boot line ");
    push_number(&mut out, number);
    push_bytes(&mut out, b"\n");
    out
}
