//! Events as lines.
ghost use Rattle.std.specs.Prelude.{◌≡◌, ◌+◌, ◌*◌, ◌≤◌, [], ◌∷◌, ◌++◌, length, Some, codes};
ghost use Rattle.std.specs.List.{AllByRecursion};
ghost use Rattle.std.specs.Fmt.{decimal};
ghost use Rattle.arrayvec.specs.ArrayVec.{array_vec_len};
ghost use Rattle.call_words.specs.Calls.{HasFitMode};
ghost use Rattle.call_words.specs.Events.{MayBeUsed};
ghost use Rattle.script_text.specs.Grammar.{Fits, call_fields, fields};
ghost use Rattle.script_text.specs.Reading.{events_of_line};
ghost use Rattle.script_text.specs.Printing.{behind_blanks, event_line, HasLine};

use crate::attr::push_attr_call;
use crate::cred::push_cred_call;
use crate::dir::push_dir_call;
use crate::io::push_io_call;
use crate::open::push_open_call;
use crate::pipe::push_pipe_call;
use crate::proc::push_proc_call;
use crate::push::{LINE_ROOM, Line, WORD_ROOM, push_decimal, push_piece, push_word};
use crate::signal::push_signal_call;
use crate::tty::push_tty_call;
use arrayvec::ArrayVec;
use call_words::{Call, Event, SCRIPT_LINE_BYTES, push_bytes, push_number};

/// An event line, without its newline, in place.
pub type EventLine = ArrayVec<u8, SCRIPT_LINE_BYTES>;

/// The name of a call and its words, each behind a blank.
fn push_call(out: &mut Line, call: &Call)
    requires mode { HasFitMode call.now }
    requires fits { array_vec_len out.old + 5 * WORD_ROOM ≤ LINE_ROOM }
    ensures bytes { out.new.items ≡ out.old.items ++ behind_blanks (call_fields call.now) }
    ensures len { array_vec_len out.new ≤ array_vec_len out.old + 5 * WORD_ROOM }
    ensures fit { AllByRecursion Fits (call_fields call.now) }
{
    match call {
        Call::Open { .. } | Call::Close { .. } | Call::Dup { .. } | Call::Dup2 { .. } => {
            push_open_call(out, call)
        }
        Call::Read { .. } | Call::Write { .. } => push_io_call(out, call),
        Call::Pipe => push_pipe_call(out, call),
        Call::Chdir { .. }
        | Call::Mkdir { .. }
        | Call::Rmdir { .. }
        | Call::Unlink { .. }
        | Call::List { .. } => push_dir_call(out, call),
        Call::Info { .. }
        | Call::Chmod { .. }
        | Call::Chown { .. }
        | Call::SetAcl { .. }
        | Call::GetAcl { .. }
        | Call::SetLabel { .. }
        | Call::GetLabel { .. } => push_attr_call(out, call),
        Call::SetProcLabel { .. } | Call::Ident | Call::SetCred { .. } | Call::Umask { .. } => {
            push_cred_call(out, call)
        }
        Call::Begin
        | Call::Fork { .. }
        | Call::Exec { .. }
        | Call::Exit { .. }
        | Call::Wait { .. }
        | Call::SetSid
        | Call::SetPgid { .. }
        | Call::Ps
        | Call::Halt => push_proc_call(out, call),
        Call::Kill { .. } | Call::SigSet { .. } | Call::SigTake | Call::Pause => {
            push_signal_call(out, call)
        }
        Call::SetCtty { .. }
        | Call::TcGetAttr { .. }
        | Call::TcSetAttr { .. }
        | Call::TcFlush { .. }
        | Call::TcDrain { .. }
        | Call::TcSetPgrp { .. }
        | Call::TcGetPgrp { .. }
        | Call::FdName { .. }
        | Call::Revoke { .. } => push_tty_call(out, call),
    }
}

/// The name of a device's event and its line.
fn push_device(out: &mut Line, name: &[u8], line: u8)
    requires room { array_vec_len out.old + 100 ≤ LINE_ROOM }
    requires most { length name.now ≤ 4 }
    ensures bytes { out.new.items ≡ out.old.items ++ (name.now ++ codes " tty" ++ decimal line) }
    ensures len { array_vec_len out.new ≤ array_vec_len out.old + 18 }
{
    push_bytes(out, name);
    push_bytes(out, b" tty");
    push_number(out, u32::from(line));
}

fn push_event(out: &mut Line, event: &Event)
    requires used { MayBeUsed event.now }
    requires none { out.old.items ≡ [] }
    ensures line { out.new.items ≡ event_line event.now }
    ensures fit { AllByRecursion Fits (fields event.now) }
{
    match event {
        Event::Call { slot, call } => {
            push_number(out, u32::from(*slot));
            push_call(out, call);
        }
        Event::Again { slot } => {
            push_number(out, u32::from(*slot));
            push_word(out, b"again");
        }
        Event::Byte { line, byte } => {
            push_device(out, b"in", *line);
            push_piece(out, &[*byte]);
        }
        Event::Carrier { line, up } => {
            let name = if *up { b"up".as_slice() } else { b"down" };
            push_device(out, name, *line);
        }
        Event::Take { line, max } => {
            push_device(out, b"take", *line);
            push_decimal(out, u32::from(*max));
        }
        Event::Ended { line } => push_device(out, b"end", *line),
    }
}

/// Writes the line of an event, without its newline: its words, with a blank between each two, and none left out. Read again, it is
/// this event alone. The line has at most 4,096 bytes, and `out` is empty before.
pub fn print_event(event: &Event, out: &mut EventLine)
    requires used { MayBeUsed event.now }
    requires fits { HasLine event.now }
    requires none { out.old.items ≡ [] }
    ensures line { out.new.items ≡ event_line event.now }
    ensures back { events_of_line out.new.items ≡ Some (event.now ∷ []) }
{
    let mut line: Line = ArrayVec::new();
    push_event(&mut line, event);
    push_bytes(out, line.as_slice());
}
