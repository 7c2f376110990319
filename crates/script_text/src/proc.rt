//! The calls on processes, as their words give them.
ghost use Rattle.std.specs.Prelude.{◌≡◌, ◌+◌, ◌*◌, ◌≤◌, ◌++◌, codes, OnSome, option_map};
ghost use Rattle.std.specs.List.{AllByRecursion};
ghost use Rattle.arrayvec.specs.ArrayVec.{array_vec_len};
ghost use Rattle.call_words.specs.Calls.{HasFitMode, group_of_call, proc_call};
ghost use Rattle.script_text.specs.Grammar.{Fits, call_fields};
ghost use Rattle.script_text.specs.Args.{alone};
ghost use Rattle.script_text.specs.Printing.{behind_blanks};
ghost use Rattle.script_text.specs.Proc.{exec_of, exit_of, fork_of, proc_call_of, setpgid_of, wait_flags_of, wait_of, wait_flags_word};

use crate::numbers::read_bytes;
use crate::paths::read_path;
use crate::push::{LINE_ROOM, Line, WORD_ROOM, push_decimal, push_path, push_piece, push_word};
use crate::signal::read_signal_call;
use crate::values::{read_pid, read_status};
use crate::words::{Words, alone, both, is_word, only};
use call_words::{Call, Piece, WaitFlags};

/// A dash for no flags of a wait, or the letters n and u, each at most once, in either order.
fn read_wait_flags(word: &[u8]) -> Option<WaitFlags>
    ensures { result ≡ wait_flags_of word.now }
{
    let (no_hang, untraced) = match word {
        b"-" => (false, false),
        b"n" => (true, false),
        b"u" => (false, true),
        b"nu" | b"un" => (true, true),
        _ => return None,
    };
    Some(WaitFlags { no_hang, untraced })
}

/// `fork HEX`, where HEX may be absent.
fn read_fork(words: &mut Words, call: &mut Call) -> Option<()>
    ensures { option_map (λ _. call.new) result ≡ fork_of words.old }
{
    let note = match words.next() {
        Some(word) => read_bytes(word)?,
        None => Piece::empty(),
    };
    if words.next().is_some() {
        return None;
    }
    *call = Call::Fork { note };
    Some(())
}

/// `exec PATH HEX`
fn read_exec(words: &mut Words, call: &mut Call) -> Option<()>
    ensures { option_map (λ _. call.new) result ≡ exec_of words.old }
{
    let (path, args) = both(words)?;
    let path = read_path(path)?;
    let args = read_bytes(args)?;
    *call = Call::Exec { path, args };
    Some(())
}

/// `exit N`
fn read_exit(words: &mut Words, call: &mut Call) -> Option<()>
    ensures { option_map (λ _. call.new) result ≡ exit_of words.old }
{
    let status = read_status(only(words)?)?;
    *call = Call::Exit { status };
    Some(())
}

/// `wait PID FLAGS`, where FLAGS may be absent.
fn read_wait(words: &mut Words, call: &mut Call) -> Option<()>
    ensures { option_map (λ _. call.new) result ≡ wait_of words.old }
{
    let pid = words.next()?;
    let flags = match words.next() {
        Some(word) => read_wait_flags(word)?,
        None => WaitFlags::default(),
    };
    if words.next().is_some() {
        return None;
    }
    *call = Call::Wait {
        pid: read_pid(pid)?,
        flags,
    };
    Some(())
}

/// `setpgid PID GROUP`
fn read_setpgid(words: &mut Words, call: &mut Call) -> Option<()>
    ensures { option_map (λ _. call.new) result ≡ setpgid_of words.old }
{
    let (pid, group) = both(words)?;
    let pid = read_pid(pid)?;
    let group = read_pid(group)?;
    *call = Call::SetPgid { pid, group };
    Some(())
}

/// `begin`
fn read_begin(words: &mut Words, call: &mut Call) -> Option<()>
    ensures { option_map (λ _. call.new) result ≡ alone Call.Begin words.old }
{
    alone(words, ())?;
    *call = Call::Begin;
    Some(())
}

/// `setsid`
fn read_setsid(words: &mut Words, call: &mut Call) -> Option<()>
    ensures { option_map (λ _. call.new) result ≡ alone Call.SetSid words.old }
{
    alone(words, ())?;
    *call = Call::SetSid;
    Some(())
}

/// `ps`
fn read_ps(words: &mut Words, call: &mut Call) -> Option<()>
    ensures { option_map (λ _. call.new) result ≡ alone Call.Ps words.old }
{
    alone(words, ())?;
    *call = Call::Ps;
    Some(())
}

/// `halt`
fn read_halt(words: &mut Words, call: &mut Call) -> Option<()>
    ensures { option_map (λ _. call.new) result ≡ alone Call.Halt words.old }
{
    alone(words, ())?;
    *call = Call::Halt;
    Some(())
}

/// A call on processes: its name and its words, or one of the next groups.
#[tactic(auto, unfolding(crate::specs::Proc::proc_call_of))]
pub fn read_proc_call(name: &[u8], words: &mut Words, call: &mut Call) -> Option<()>
    ensures call { option_map (λ _. call.new) result ≡ proc_call_of name.now words.old }
    ensures fit { OnSome result (HasFitMode call.new) }
{
    if is_word(name, b"begin") {
        read_begin(words, call)
    } else if is_word(name, b"fork") {
        read_fork(words, call)
    } else if is_word(name, b"exec") {
        read_exec(words, call)
    } else if is_word(name, b"exit") {
        read_exit(words, call)
    } else if is_word(name, b"wait") {
        read_wait(words, call)
    } else if is_word(name, b"setsid") {
        read_setsid(words, call)
    } else if is_word(name, b"setpgid") {
        read_setpgid(words, call)
    } else if is_word(name, b"ps") {
        read_ps(words, call)
    } else if is_word(name, b"halt") {
        read_halt(words, call)
    } else {
        read_signal_call(name, words, call)
    }
}

/// The letters of the flags of a wait that are on, n before u, or a dash for none.
fn push_wait_flags(out: &mut Line, flags: WaitFlags)
    requires { array_vec_len out.old + WORD_ROOM ≤ LINE_ROOM }
    ensures bytes { out.new.items ≡ out.old.items ++ (codes " " ++ wait_flags_word flags) }
    ensures len { array_vec_len out.new ≤ array_vec_len out.old + WORD_ROOM }
{
    match (flags.no_hang, flags.untraced) {
        (true, true) => push_word(out, b"nu"),
        (true, false) => push_word(out, b"n"),
        (false, true) => push_word(out, b"u"),
        (false, false) => push_word(out, b"-"),
    }
}

/// The name of a call on processes and its words, each behind a blank.
pub fn push_proc_call(out: &mut Line, call: &Call)
    requires kind { group_of_call call.now ≡ proc_call }
    requires mode { HasFitMode call.now }
    requires fits { array_vec_len out.old + 5 * WORD_ROOM ≤ LINE_ROOM }
    ensures bytes { out.new.items ≡ out.old.items ++ behind_blanks (call_fields call.now) }
    ensures len { array_vec_len out.new ≤ array_vec_len out.old + 5 * WORD_ROOM }
    ensures fit { AllByRecursion Fits (call_fields call.now) }
{
    match call {
        Call::Begin => push_word(out, b"begin"),
        Call::Fork { note } => {
            push_word(out, b"fork");
            push_piece(out, note.as_slice());
        }
        Call::Exec { path, args } => {
            push_word(out, b"exec");
            push_path(out, path);
            push_piece(out, args.as_slice());
        }
        Call::Exit { status } => {
            push_word(out, b"exit");
            push_decimal(out, u32::from(*status));
        }
        Call::Wait { pid, flags } => {
            push_word(out, b"wait");
            push_decimal(out, *pid);
            push_wait_flags(out, *flags);
        }
        Call::SetSid => push_word(out, b"setsid"),
        Call::SetPgid { pid, group } => {
            push_word(out, b"setpgid");
            push_decimal(out, *pid);
            push_decimal(out, *group);
        }
        Call::Ps => push_word(out, b"ps"),
        Call::Halt => push_word(out, b"halt"),
        _ => unreachable!(),
    }
}
