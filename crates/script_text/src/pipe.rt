//! The calls on pipes, as their words give them.
ghost use Rattle.std.specs.Prelude.{◌≡◌, ◌+◌, ◌*◌, ◌≤◌, ◌++◌, OnSome, option_map};
ghost use Rattle.std.specs.List.{AllByRecursion};
ghost use Rattle.arrayvec.specs.ArrayVec.{array_vec_len};
ghost use Rattle.call_words.specs.Calls.{HasFitMode, group_of_call, pipe_call};
ghost use Rattle.script_text.specs.Grammar.{Fits, call_fields};
ghost use Rattle.script_text.specs.Args.{alone};
ghost use Rattle.script_text.specs.Printing.{behind_blanks};
ghost use Rattle.script_text.specs.Pipe.{pipe_call_of};

use crate::proc::read_proc_call;
use crate::push::{LINE_ROOM, Line, WORD_ROOM, push_word};
use crate::words::{Words, alone, is_word};
use call_words::Call;

/// `pipe`
fn read_pipe(words: &mut Words, call: &mut Call) -> Option<()>
    ensures { option_map (λ _. call.new) result ≡ alone Call.Pipe words.old }
{
    alone(words, ())?;
    *call = Call::Pipe;
    Some(())
}

/// A call on pipes: its name and its words, or one of the next groups.
#[tactic(auto, unfolding(crate::specs::Pipe::pipe_call_of))]
pub fn read_pipe_call(name: &[u8], words: &mut Words, call: &mut Call) -> Option<()>
    ensures call { option_map (λ _. call.new) result ≡ pipe_call_of name.now words.old }
    ensures fit { OnSome result (HasFitMode call.new) }
{
    if is_word(name, b"pipe") {
        read_pipe(words, call)
    } else {
        read_proc_call(name, words, call)
    }
}

/// The name of a call on pipes and its words, each behind a blank.
pub fn push_pipe_call(out: &mut Line, call: &Call)
    requires kind { group_of_call call.now ≡ pipe_call }
    requires mode { HasFitMode call.now }
    requires fits { array_vec_len out.old + 5 * WORD_ROOM ≤ LINE_ROOM }
    ensures bytes { out.new.items ≡ out.old.items ++ behind_blanks (call_fields call.now) }
    ensures len { array_vec_len out.new ≤ array_vec_len out.old + 5 * WORD_ROOM }
    ensures fit { AllByRecursion Fits (call_fields call.now) }
{
    match call {
        Call::Pipe => push_word(out, b"pipe"),
        _ => unreachable!(),
    }
}
