//! The calls on descriptors, as their words give them.
ghost use Rattle.std.specs.Prelude.{◌≡◌, ◌+◌, ◌*◌, ◌≤◌, ◌++◌, OnSome, option_map};
ghost use Rattle.std.specs.List.{AllByRecursion};
ghost use Rattle.arrayvec.specs.ArrayVec.{array_vec_len};
ghost use Rattle.call_words.specs.Calls.{HasFitMode, group_of_call, open_call};
ghost use Rattle.script_text.specs.Grammar.{Fits, call_fields};
ghost use Rattle.script_text.specs.Printing.{behind_blanks};
ghost use Rattle.script_text.specs.Open.{close_of, dup2_of, dup_of, open_call_of, open_of};

use crate::io::read_io_call;
use crate::paths::read_path;
use crate::push::{
    LINE_ROOM, Line, WORD_ROOM, push_access, push_decimal, push_flags, push_mode, push_path,
    push_word,
};
use crate::values::{DEFAULT_MODE, read_access, read_fd, read_flags, read_mode};
use crate::words::{Words, both, is_word, only};
use call_words::{Call, OpenFlags};

/// `open PATH ACCESS FLAGS MODE`, where FLAGS and MODE may be absent from the right.
fn read_open(words: &mut Words, call: &mut Call) -> Option<()>
    ensures call { option_map (λ _. call.new) result ≡ open_of words.old }
    ensures fit { OnSome result (HasFitMode call.new) }
{
    let path = words.next()?;
    let access = words.next()?;
    let flags = match words.next() {
        Some(word) => read_flags(word)?,
        None => OpenFlags::default(),
    };
    let mode = match words.next() {
        Some(word) => read_mode(word)?,
        None => DEFAULT_MODE,
    };
    if words.next().is_some() {
        return None;
    }
    *call = Call::Open {
        path: read_path(path)?,
        access: read_access(access)?,
        flags,
        mode,
    };
    Some(())
}

/// `close FD`
fn read_close(words: &mut Words, call: &mut Call) -> Option<()>
    ensures { option_map (λ _. call.new) result ≡ close_of words.old }
{
    let fd = read_fd(only(words)?)?;
    *call = Call::Close { fd };
    Some(())
}

/// `dup FD`
fn read_dup(words: &mut Words, call: &mut Call) -> Option<()>
    ensures { option_map (λ _. call.new) result ≡ dup_of words.old }
{
    let fd = read_fd(only(words)?)?;
    *call = Call::Dup { fd };
    Some(())
}

/// `dup2 FD TO`
fn read_dup2(words: &mut Words, call: &mut Call) -> Option<()>
    ensures { option_map (λ _. call.new) result ≡ dup2_of words.old }
{
    let (fd, to) = both(words)?;
    let fd = read_fd(fd)?;
    let to = read_fd(to)?;
    *call = Call::Dup2 { fd, to };
    Some(())
}

/// A call on descriptors: its name and its words, or one of the next groups.
#[tactic(auto, unfolding(crate::specs::Open::open_call_of))]
pub fn read_open_call(name: &[u8], words: &mut Words, call: &mut Call) -> Option<()>
    ensures call { option_map (λ _. call.new) result ≡ open_call_of name.now words.old }
    ensures fit { OnSome result (HasFitMode call.new) }
{
    if is_word(name, b"open") {
        read_open(words, call)
    } else if is_word(name, b"close") {
        read_close(words, call)
    } else if is_word(name, b"dup") {
        read_dup(words, call)
    } else if is_word(name, b"dup2") {
        read_dup2(words, call)
    } else {
        read_io_call(name, words, call)
    }
}

/// The name of a call on descriptors and its words, each behind a blank.
pub fn push_open_call(out: &mut Line, call: &Call)
    requires kind { group_of_call call.now ≡ open_call }
    requires mode { HasFitMode call.now }
    requires fits { array_vec_len out.old + 5 * WORD_ROOM ≤ LINE_ROOM }
    ensures bytes { out.new.items ≡ out.old.items ++ behind_blanks (call_fields call.now) }
    ensures len { array_vec_len out.new ≤ array_vec_len out.old + 5 * WORD_ROOM }
    ensures fit { AllByRecursion Fits (call_fields call.now) }
{
    match call {
        Call::Open {
            path,
            access,
            flags,
            mode,
        } => {
            push_word(out, b"open");
            push_path(out, path);
            push_access(out, *access);
            push_flags(out, *flags);
            push_mode(out, *mode);
        }
        Call::Close { fd } => {
            push_word(out, b"close");
            push_decimal(out, u32::from(*fd));
        }
        Call::Dup { fd } => {
            push_word(out, b"dup");
            push_decimal(out, u32::from(*fd));
        }
        Call::Dup2 { fd, to } => {
            push_word(out, b"dup2");
            push_decimal(out, u32::from(*fd));
            push_decimal(out, u32::from(*to));
        }
        _ => unreachable!(),
    }
}
