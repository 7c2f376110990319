//! The calls on who asks, as their words give them.
ghost use Rattle.std.specs.Prelude.{◌≡◌, ◌+◌, ◌*◌, ◌≤◌, ◌++◌, OnSome, option_map};
ghost use Rattle.std.specs.List.{AllByRecursion};
ghost use Rattle.arrayvec.specs.ArrayVec.{array_vec_len};
ghost use Rattle.call_words.specs.Calls.{HasFitMode, group_of_call, cred_call};
ghost use Rattle.script_text.specs.Grammar.{Fits, call_fields};
ghost use Rattle.script_text.specs.Args.{alone};
ghost use Rattle.script_text.specs.Printing.{behind_blanks};
ghost use Rattle.script_text.specs.Cred.{cred_call_of, setcred_of, setproclabel_of, umask_of};

use crate::pipe::read_pipe_call;
use crate::push::{
    LINE_ROOM, Line, WORD_ROOM, push_decimal, push_groups, push_mode, push_subject, push_word,
};
use crate::rights::{read_groups, read_id};
use crate::values::read_mode;
use crate::words::{Words, all_three, alone, is_word, only};
use acl_core::Cred;
use call_words::Call;
use label_core::read_subject;

/// `setproclabel SUBJECT`
fn read_setproclabel(words: &mut Words, call: &mut Call) -> Option<()>
    ensures { option_map (λ _. call.new) result ≡ setproclabel_of words.old }
{
    let subject = read_subject(only(words)?).ok()?;
    *call = Call::SetProcLabel { subject };
    Some(())
}

/// `setcred UID GID GROUPS`
fn read_setcred(words: &mut Words, call: &mut Call) -> Option<()>
    ensures { option_map (λ _. call.new) result ≡ setcred_of words.old }
{
    let (uid, gid, groups) = all_three(words)?;
    let uid = read_id(uid)?;
    let gid = read_id(gid)?;
    let groups = read_groups(groups)?;
    let cred = Cred { uid, gid, groups };
    *call = Call::SetCred { cred };
    Some(())
}

/// `umask MODE`
fn read_umask(words: &mut Words, call: &mut Call) -> Option<()>
    ensures call { option_map (λ _. call.new) result ≡ umask_of words.old }
    ensures fit { OnSome result (HasFitMode call.new) }
{
    let mode = read_mode(only(words)?)?;
    *call = Call::Umask { mode };
    Some(())
}

/// `ident`
fn read_ident(words: &mut Words, call: &mut Call) -> Option<()>
    ensures { option_map (λ _. call.new) result ≡ alone Call.Ident words.old }
{
    alone(words, ())?;
    *call = Call::Ident;
    Some(())
}

/// A call on who asks: its name and its words, or one of the next groups.
#[tactic(auto, unfolding(crate::specs::Cred::cred_call_of))]
pub fn read_cred_call(name: &[u8], words: &mut Words, call: &mut Call) -> Option<()>
    ensures call { option_map (λ _. call.new) result ≡ cred_call_of name.now words.old }
    ensures fit { OnSome result (HasFitMode call.new) }
{
    if is_word(name, b"setproclabel") {
        read_setproclabel(words, call)
    } else if is_word(name, b"ident") {
        read_ident(words, call)
    } else if is_word(name, b"setcred") {
        read_setcred(words, call)
    } else if is_word(name, b"umask") {
        read_umask(words, call)
    } else {
        read_pipe_call(name, words, call)
    }
}

/// The name of a call on who asks and its words, each behind a blank.
pub fn push_cred_call(out: &mut Line, call: &Call)
    requires kind { group_of_call call.now ≡ cred_call }
    requires mode { HasFitMode call.now }
    requires fits { array_vec_len out.old + 5 * WORD_ROOM ≤ LINE_ROOM }
    ensures bytes { out.new.items ≡ out.old.items ++ behind_blanks (call_fields call.now) }
    ensures len { array_vec_len out.new ≤ array_vec_len out.old + 5 * WORD_ROOM }
    ensures fit { AllByRecursion Fits (call_fields call.now) }
{
    match call {
        Call::SetProcLabel { subject } => {
            push_word(out, b"setproclabel");
            push_subject(out, subject);
        }
        Call::Ident => push_word(out, b"ident"),
        Call::SetCred { cred } => {
            push_word(out, b"setcred");
            push_decimal(out, cred.uid);
            push_decimal(out, cred.gid);
            push_groups(out, cred.groups.as_slice());
        }
        Call::Umask { mode } => {
            push_word(out, b"umask");
            push_mode(out, *mode);
        }
        _ => unreachable!(),
    }
}
