//! The calls on signals, as their words give them.
ghost use Rattle.std.specs.Prelude.{◌≡◌, ◌+◌, ◌*◌, ◌≤◌, ◌++◌, codes, OnSome, option_map};
ghost use Rattle.std.specs.List.{AllByRecursion};
ghost use Rattle.arrayvec.specs.ArrayVec.{array_vec_len};
ghost use Rattle.call_words.specs.Calls.{HasFitMode, group_of_call, signal_call};
ghost use Rattle.sys_types.specs.Signals.{sig_word};
ghost use Rattle.script_text.specs.Grammar.{Fits, call_fields};
ghost use Rattle.script_text.specs.Grammar as grammar;
ghost use Rattle.script_text.specs.Args.{alone};
ghost use Rattle.script_text.specs.Printing.{behind_blanks};
ghost use Rattle.script_text.specs.Signal.{action_of, kill_of, signal_call_of, signal_of, sigset_of, target_of, action_word, target_word};

use crate::push::{LINE_ROOM, Line, WORD_ROOM, push_decimal, push_word};
use crate::tty::read_tty_call;
use crate::values::read_pid;
use crate::words::{Words, alone, both, is_word};
use call_words::{Action, Call, Sig, To, push_bytes, push_number};

/// The signal of a word.
#[tactic(auto, unfolding(crate::specs::Signal::signal_of))]
fn read_signal(word: &[u8]) -> Option<Sig>
    ensures { result ≡ signal_of word.now }
{
    let all = Sig::all();
    all.iter().copied().find(|sig| sig.word() == word)
}

/// `default`, `ignore` or `catch`.
fn read_action(word: &[u8]) -> Option<Action>
    ensures { result ≡ action_of word.now }
{
    if is_word(word, b"default") {
        Some(Action::Normal)
    } else if is_word(word, b"ignore") {
        Some(Action::Ignore)
    } else if is_word(word, b"catch") {
        Some(Action::Catch)
    } else {
        None
    }
}

/// To whom a signal goes: the number of a process, or that of a group behind a `g`.
fn read_target(word: &[u8]) -> Option<To>
    ensures { result ≡ target_of word.now }
{
    match word.strip_prefix(b"g".as_slice()) {
        Some(group) => Some(To::Group(read_pid(group)?)),
        None => Some(To::Pid(read_pid(word)?)),
    }
}

/// `kill PID SIG` or `kill gGROUP SIG`
fn read_kill(words: &mut Words, call: &mut Call) -> Option<()>
    ensures { option_map (λ _. call.new) result ≡ kill_of words.old }
{
    let (to, sig) = both(words)?;
    let to = read_target(to)?;
    let sig = read_signal(sig)?;
    *call = Call::Kill { to, sig };
    Some(())
}

/// `sigset SIG ACTION`
fn read_sigset(words: &mut Words, call: &mut Call) -> Option<()>
    ensures { option_map (λ _. call.new) result ≡ sigset_of words.old }
{
    let (sig, action) = both(words)?;
    let sig = read_signal(sig)?;
    let action = read_action(action)?;
    *call = Call::SigSet { sig, action };
    Some(())
}

/// `sigtake`
fn read_sigtake(words: &mut Words, call: &mut Call) -> Option<()>
    ensures { option_map (λ _. call.new) result ≡ alone Call.SigTake words.old }
{
    alone(words, ())?;
    *call = Call::SigTake;
    Some(())
}

/// `pause`
fn read_pause(words: &mut Words, call: &mut Call) -> Option<()>
    ensures { option_map (λ _. call.new) result ≡ alone Call.Pause words.old }
{
    alone(words, ())?;
    *call = Call::Pause;
    Some(())
}

/// A call on signals: its name and its words, or one of the next groups.
#[tactic(auto, unfolding(crate::specs::Signal::signal_call_of))]
pub fn read_signal_call(name: &[u8], words: &mut Words, call: &mut Call) -> Option<()>
    ensures call { option_map (λ _. call.new) result ≡ signal_call_of name.now words.old }
    ensures fit { OnSome result (HasFitMode call.new) }
{
    if is_word(name, b"kill") {
        read_kill(words, call)
    } else if is_word(name, b"sigset") {
        read_sigset(words, call)
    } else if is_word(name, b"sigtake") {
        read_sigtake(words, call)
    } else if is_word(name, b"pause") {
        read_pause(words, call)
    } else {
        read_tty_call(name, words, call)
    }
}

/// The word of a signal.
fn push_signal(out: &mut Line, sig: Sig)
    requires { array_vec_len out.old + WORD_ROOM ≤ LINE_ROOM }
    ensures bytes { out.new.items ≡ out.old.items ++ (codes " " ++ sig_word sig) }
    ensures len { array_vec_len out.new ≤ array_vec_len out.old + WORD_ROOM }
{
    push_word(out, sig.word());
}

/// `default`, `ignore` or `catch`.
fn push_action(out: &mut Line, action: Action)
    requires { array_vec_len out.old + WORD_ROOM ≤ LINE_ROOM }
    ensures bytes { out.new.items ≡ out.old.items ++ (codes " " ++ action_word action) }
    ensures len { array_vec_len out.new ≤ array_vec_len out.old + WORD_ROOM }
{
    match action {
        Action::Normal => push_word(out, b"default"),
        Action::Ignore => push_word(out, b"ignore"),
        Action::Catch => push_word(out, b"catch"),
    }
}

/// The number of a process, or that of a group behind a `g`.
fn push_target(out: &mut Line, to: To)
    requires { array_vec_len out.old + WORD_ROOM ≤ LINE_ROOM }
    ensures bytes { out.new.items ≡ out.old.items ++ (codes " " ++ target_word to) }
    ensures len { array_vec_len out.new ≤ array_vec_len out.old + WORD_ROOM }
    ensures fit { grammar.Fits (grammar.target to) }
{
    match to {
        To::Pid(pid) => push_decimal(out, pid),
        To::Group(group) => {
            push_bytes(out, b" g");
            push_number(out, group);
        }
    }
}

/// The name of a call on signals and its words, each behind a blank.
pub fn push_signal_call(out: &mut Line, call: &Call)
    requires kind { group_of_call call.now ≡ signal_call }
    requires mode { HasFitMode call.now }
    requires fits { array_vec_len out.old + 5 * WORD_ROOM ≤ LINE_ROOM }
    ensures bytes { out.new.items ≡ out.old.items ++ behind_blanks (call_fields call.now) }
    ensures len { array_vec_len out.new ≤ array_vec_len out.old + 5 * WORD_ROOM }
    ensures fit { AllByRecursion Fits (call_fields call.now) }
{
    match call {
        Call::Kill { to, sig } => {
            push_word(out, b"kill");
            push_target(out, *to);
            push_signal(out, *sig);
        }
        Call::SigSet { sig, action } => {
            push_word(out, b"sigset");
            push_signal(out, *sig);
            push_action(out, *action);
        }
        Call::SigTake => push_word(out, b"sigtake"),
        Call::Pause => push_word(out, b"pause"),
        _ => unreachable!(),
    }
}
