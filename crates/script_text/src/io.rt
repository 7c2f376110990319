//! The calls on reads and writes, as their words give them.
ghost use Rattle.std.specs.Prelude.{◌≡◌, ◌+◌, ◌*◌, ◌≤◌, ◌++◌, OnSome, option_map};
ghost use Rattle.std.specs.List.{AllByRecursion};
ghost use Rattle.arrayvec.specs.ArrayVec.{array_vec_len};
ghost use Rattle.call_words.specs.Calls.{HasFitMode, group_of_call, io_call};
ghost use Rattle.script_text.specs.Grammar.{Fits, call_fields};
ghost use Rattle.script_text.specs.Printing.{behind_blanks};
ghost use Rattle.script_text.specs.Io.{io_call_of, read_of, write_of};

use crate::dir::read_dir_call;
use crate::numbers::read_bytes;
use crate::push::{LINE_ROOM, Line, WORD_ROOM, push_decimal, push_piece, push_word};
use crate::values::{read_fd, read_max};
use crate::words::{Words, both, is_word};
use call_words::Call;

/// `read FD MAX`
fn read_read(words: &mut Words, call: &mut Call) -> Option<()>
    ensures { option_map (λ _. call.new) result ≡ read_of words.old }
{
    let (fd, max) = both(words)?;
    let fd = read_fd(fd)?;
    let max = read_max(max)?;
    *call = Call::Read { fd, max };
    Some(())
}

/// `write FD HEX`
fn read_write(words: &mut Words, call: &mut Call) -> Option<()>
    ensures { option_map (λ _. call.new) result ≡ write_of words.old }
{
    let (fd, bytes) = both(words)?;
    let fd = read_fd(fd)?;
    let bytes = read_bytes(bytes)?;
    *call = Call::Write { fd, bytes };
    Some(())
}

/// A call on reads and writes: its name and its words, or one of the next groups.
#[tactic(auto, unfolding(crate::specs::Io::io_call_of))]
pub fn read_io_call(name: &[u8], words: &mut Words, call: &mut Call) -> Option<()>
    ensures call { option_map (λ _. call.new) result ≡ io_call_of name.now words.old }
    ensures fit { OnSome result (HasFitMode call.new) }
{
    if is_word(name, b"read") {
        read_read(words, call)
    } else if is_word(name, b"write") {
        read_write(words, call)
    } else {
        read_dir_call(name, words, call)
    }
}

/// The name of a call on reads and writes and its words, each behind a blank.
pub fn push_io_call(out: &mut Line, call: &Call)
    requires kind { group_of_call call.now ≡ io_call }
    requires mode { HasFitMode call.now }
    requires fits { array_vec_len out.old + 5 * WORD_ROOM ≤ LINE_ROOM }
    ensures bytes { out.new.items ≡ out.old.items ++ behind_blanks (call_fields call.now) }
    ensures len { array_vec_len out.new ≤ array_vec_len out.old + 5 * WORD_ROOM }
    ensures fit { AllByRecursion Fits (call_fields call.now) }
{
    match call {
        Call::Read { fd, max } => {
            push_word(out, b"read");
            push_decimal(out, u32::from(*fd));
            push_decimal(out, u32::from(*max));
        }
        Call::Write { fd, bytes } => {
            push_word(out, b"write");
            push_decimal(out, u32::from(*fd));
            push_piece(out, bytes.as_slice());
        }
        _ => unreachable!(),
    }
}
