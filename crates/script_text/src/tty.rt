//! The calls on terminal lines, as their words give them.
ghost use Rattle.std.specs.Prelude.{◌≡◌, ◌+◌, ◌*◌, ◌≤◌, ◌++◌, codes, OnSome, option_map};
ghost use Rattle.std.specs.List.{AllByRecursion};
ghost use Rattle.arrayvec.specs.ArrayVec.{array_vec_len};
ghost use Rattle.call_words.specs.Calls.{HasFitMode, group_of_call, tty_call};
ghost use Rattle.termios_core.specs.Text.{termios_text};
ghost use Rattle.script_text.specs.Grammar.{Fits, call_fields};
ghost use Rattle.script_text.specs.Grammar as grammar;
ghost use Rattle.script_text.specs.Printing.{behind_blanks};
ghost use Rattle.script_text.specs.Tty.{fdname_of, queue_of, revoke_of, setctty_of, tcdrain_of, tcflush_of, tcgetattr_of, tcgetpgrp_of, tcsetattr_of};
ghost use Rattle.script_text.specs.Tty.{tcsetpgrp_of, tty_call_of, when_of, queue_word, when_word};

use crate::paths::only_path;
use crate::push::{LINE_ROOM, Line, WORD_ROOM, look_at_bytes, push_decimal, push_path, push_word};
use crate::values::{read_fd, read_pid};
use crate::words::{Words, all_three, both, is_word, only};
use arrayvec::ArrayVec;
use call_words::{Call, When, WhichQueue, push_bytes};
use termios_core::{Termios, print_termios, read_termios};

/// `now` or `flush`.
fn read_when(word: &[u8]) -> Option<When>
    ensures { result ≡ when_of word.now }
{
    match word {
        b"now" => Some(When::Now),
        b"flush" => Some(When::Flush),
        _ => None,
    }
}

/// `in`, `out` or `both`.
fn read_queue(word: &[u8]) -> Option<WhichQueue>
    ensures { result ≡ queue_of word.now }
{
    match word {
        b"in" => Some(WhichQueue::In),
        b"out" => Some(WhichQueue::Out),
        b"both" => Some(WhichQueue::Both),
        _ => None,
    }
}

/// `setctty FD`
fn read_setctty(words: &mut Words, call: &mut Call) -> Option<()>
    ensures { option_map (λ _. call.new) result ≡ setctty_of words.old }
{
    let fd = read_fd(only(words)?)?;
    *call = Call::SetCtty { fd };
    Some(())
}

/// `tcgetattr FD`
fn read_tcgetattr(words: &mut Words, call: &mut Call) -> Option<()>
    ensures { option_map (λ _. call.new) result ≡ tcgetattr_of words.old }
{
    let fd = read_fd(only(words)?)?;
    *call = Call::TcGetAttr { fd };
    Some(())
}

/// `tcsetattr FD WHEN TERMIOS`
fn read_tcsetattr(words: &mut Words, call: &mut Call) -> Option<()>
    ensures { option_map (λ _. call.new) result ≡ tcsetattr_of words.old }
{
    let (fd, when, termios) = all_three(words)?;
    let fd = read_fd(fd)?;
    let when = read_when(when)?;
    let termios = read_termios(termios)?;
    *call = Call::TcSetAttr { fd, when, termios };
    Some(())
}

/// `tcflush FD WHICH`
fn read_tcflush(words: &mut Words, call: &mut Call) -> Option<()>
    ensures { option_map (λ _. call.new) result ≡ tcflush_of words.old }
{
    let (fd, which) = both(words)?;
    let fd = read_fd(fd)?;
    let which = read_queue(which)?;
    *call = Call::TcFlush { fd, which };
    Some(())
}

/// `tcdrain FD`
fn read_tcdrain(words: &mut Words, call: &mut Call) -> Option<()>
    ensures { option_map (λ _. call.new) result ≡ tcdrain_of words.old }
{
    let fd = read_fd(only(words)?)?;
    *call = Call::TcDrain { fd };
    Some(())
}

/// `tcsetpgrp FD GROUP`
fn read_tcsetpgrp(words: &mut Words, call: &mut Call) -> Option<()>
    ensures { option_map (λ _. call.new) result ≡ tcsetpgrp_of words.old }
{
    let (fd, group) = both(words)?;
    let fd = read_fd(fd)?;
    let group = read_pid(group)?;
    *call = Call::TcSetPgrp { fd, group };
    Some(())
}

/// `tcgetpgrp FD`
fn read_tcgetpgrp(words: &mut Words, call: &mut Call) -> Option<()>
    ensures { option_map (λ _. call.new) result ≡ tcgetpgrp_of words.old }
{
    let fd = read_fd(only(words)?)?;
    *call = Call::TcGetPgrp { fd };
    Some(())
}

/// `fdname FD`
fn read_fdname(words: &mut Words, call: &mut Call) -> Option<()>
    ensures { option_map (λ _. call.new) result ≡ fdname_of words.old }
{
    let fd = read_fd(only(words)?)?;
    *call = Call::FdName { fd };
    Some(())
}

/// `revoke PATH`
fn read_revoke(words: &mut Words, call: &mut Call) -> Option<()>
    ensures { option_map (λ _. call.new) result ≡ revoke_of words.old }
{
    let path = only_path(words)?;
    *call = Call::Revoke { path };
    Some(())
}

/// A call on terminal lines: its name and its words.
#[tactic(auto, unfolding(crate::specs::Tty::tty_call_of))]
pub fn read_tty_call(name: &[u8], words: &mut Words, call: &mut Call) -> Option<()>
    ensures call { option_map (λ _. call.new) result ≡ tty_call_of name.now words.old }
    ensures fit { OnSome result (HasFitMode call.new) }
{
    if is_word(name, b"setctty") {
        read_setctty(words, call)
    } else if is_word(name, b"tcgetattr") {
        read_tcgetattr(words, call)
    } else if is_word(name, b"tcsetattr") {
        read_tcsetattr(words, call)
    } else if is_word(name, b"tcflush") {
        read_tcflush(words, call)
    } else if is_word(name, b"tcdrain") {
        read_tcdrain(words, call)
    } else if is_word(name, b"tcsetpgrp") {
        read_tcsetpgrp(words, call)
    } else if is_word(name, b"tcgetpgrp") {
        read_tcgetpgrp(words, call)
    } else if is_word(name, b"fdname") {
        read_fdname(words, call)
    } else if is_word(name, b"revoke") {
        read_revoke(words, call)
    } else {
        None
    }
}

/// `now` or `flush`.
fn push_when(out: &mut Line, when: When)
    requires { array_vec_len out.old + WORD_ROOM ≤ LINE_ROOM }
    ensures bytes { out.new.items ≡ out.old.items ++ (codes " " ++ when_word when) }
    ensures len { array_vec_len out.new ≤ array_vec_len out.old + WORD_ROOM }
{
    match when {
        When::Now => push_word(out, b"now"),
        When::Flush => push_word(out, b"flush"),
    }
}

/// `in`, `out` or `both`.
fn push_queue(out: &mut Line, which: WhichQueue)
    requires { array_vec_len out.old + WORD_ROOM ≤ LINE_ROOM }
    ensures bytes { out.new.items ≡ out.old.items ++ (codes " " ++ queue_word which) }
    ensures len { array_vec_len out.new ≤ array_vec_len out.old + WORD_ROOM }
{
    match which {
        WhichQueue::In => push_word(out, b"in"),
        WhichQueue::Out => push_word(out, b"out"),
        WhichQueue::Both => push_word(out, b"both"),
    }
}

/// The settings of a line.
fn push_settings(out: &mut Line, termios: &Termios)
    requires { array_vec_len out.old + WORD_ROOM ≤ LINE_ROOM }
    ensures bytes { out.new.items ≡ out.old.items ++ (codes " " ++ termios_text termios.now) }
    ensures len { array_vec_len out.new ≤ array_vec_len out.old + WORD_ROOM }
    ensures fit { grammar.Fits (grammar.termios termios.now) }
{
    look_at_bytes(&[
        termios.intr,
        termios.quit,
        termios.erase,
        termios.kill,
        termios.eof,
        termios.eol,
        termios.start,
        termios.stop,
        termios.susp,
        termios.min,
        termios.time,
    ]);
    let mut text = ArrayVec::new();
    print_termios(termios, &mut text);
    push_bytes(out, b" ");
    push_bytes(out, text.as_slice());
}

/// The name of a call on terminal lines and its words, each behind a blank.
pub fn push_tty_call(out: &mut Line, call: &Call)
    requires kind { group_of_call call.now ≡ tty_call }
    requires mode { HasFitMode call.now }
    requires fits { array_vec_len out.old + 5 * WORD_ROOM ≤ LINE_ROOM }
    ensures bytes { out.new.items ≡ out.old.items ++ behind_blanks (call_fields call.now) }
    ensures len { array_vec_len out.new ≤ array_vec_len out.old + 5 * WORD_ROOM }
    ensures fit { AllByRecursion Fits (call_fields call.now) }
{
    match call {
        Call::SetCtty { fd } => {
            push_word(out, b"setctty");
            push_decimal(out, u32::from(*fd));
        }
        Call::TcGetAttr { fd } => {
            push_word(out, b"tcgetattr");
            push_decimal(out, u32::from(*fd));
        }
        Call::TcSetAttr { fd, when, termios } => {
            push_word(out, b"tcsetattr");
            push_decimal(out, u32::from(*fd));
            push_when(out, *when);
            push_settings(out, termios);
        }
        Call::TcFlush { fd, which } => {
            push_word(out, b"tcflush");
            push_decimal(out, u32::from(*fd));
            push_queue(out, *which);
        }
        Call::TcDrain { fd } => {
            push_word(out, b"tcdrain");
            push_decimal(out, u32::from(*fd));
        }
        Call::TcSetPgrp { fd, group } => {
            push_word(out, b"tcsetpgrp");
            push_decimal(out, u32::from(*fd));
            push_decimal(out, *group);
        }
        Call::TcGetPgrp { fd } => {
            push_word(out, b"tcgetpgrp");
            push_decimal(out, u32::from(*fd));
        }
        Call::FdName { fd } => {
            push_word(out, b"fdname");
            push_decimal(out, u32::from(*fd));
        }
        Call::Revoke { path } => {
            push_word(out, b"revoke");
            push_path(out, path);
        }
        _ => unreachable!(),
    }
}
