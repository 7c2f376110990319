//! The calls on what a node is, as their words give them.
ghost use Rattle.std.specs.Prelude.{◌≡◌, ◌+◌, ◌*◌, ◌≤◌, ◌++◌, OnSome, option_map};
ghost use Rattle.std.specs.List.{AllByRecursion};
ghost use Rattle.arrayvec.specs.ArrayVec.{array_vec_len};
ghost use Rattle.call_words.specs.Calls.{HasFitMode, group_of_call, attr_call};
ghost use Rattle.script_text.specs.Grammar.{Fits, call_fields};
ghost use Rattle.script_text.specs.Printing.{behind_blanks};
ghost use Rattle.script_text.specs.Attr.{attr_call_of, chmod_of, chown_of, getacl_of, getlabel_of, info_of, setacl_of, setlabel_of};

use crate::cred::read_cred_call;
use crate::paths::{only_path, path_and_mode, read_path};
use crate::push::{
    LINE_ROOM, Line, WORD_ROOM, push_decimal, push_element, push_entries, push_mode, push_path,
    push_which, push_word,
};
use crate::rights::{read_id, read_which};
use crate::words::{Words, all_three, both, is_word};
use call_words::{Call, Entries};
use label_core::read_element;

/// `info PATH`
fn read_info(words: &mut Words, call: &mut Call) -> Option<()>
    ensures { option_map (λ _. call.new) result ≡ info_of words.old }
{
    let path = only_path(words)?;
    *call = Call::Info { path };
    Some(())
}

/// `chmod PATH MODE`
fn read_chmod(words: &mut Words, call: &mut Call) -> Option<()>
    ensures call { option_map (λ _. call.new) result ≡ chmod_of words.old }
    ensures fit { OnSome result (HasFitMode call.new) }
{
    let (path, mode) = path_and_mode(words)?;
    *call = Call::Chmod { path, mode };
    Some(())
}

/// `chown PATH UID GID`
fn read_chown(words: &mut Words, call: &mut Call) -> Option<()>
    ensures { option_map (λ _. call.new) result ≡ chown_of words.old }
{
    let (path, uid, gid) = all_three(words)?;
    let path = read_path(path)?;
    let uid = read_id(uid)?;
    let gid = read_id(gid)?;
    *call = Call::Chown { path, uid, gid };
    Some(())
}

/// `setacl PATH WHICH LIST`
fn read_setacl(words: &mut Words, call: &mut Call) -> Option<()>
    ensures { option_map (λ _. call.new) result ≡ setacl_of words.old }
{
    let (path, which, list) = all_three(words)?;
    let path = read_path(path)?;
    let which = read_which(which)?;
    let list = Entries::new(acl_core::read_list(list).ok()?);
    *call = Call::SetAcl { path, which, list };
    Some(())
}

/// `getacl PATH WHICH`
fn read_getacl(words: &mut Words, call: &mut Call) -> Option<()>
    ensures { option_map (λ _. call.new) result ≡ getacl_of words.old }
{
    let (path, which) = both(words)?;
    let path = read_path(path)?;
    let which = read_which(which)?;
    *call = Call::GetAcl { path, which };
    Some(())
}

/// `setlabel PATH ELEMENT`
fn read_setlabel(words: &mut Words, call: &mut Call) -> Option<()>
    ensures { option_map (λ _. call.new) result ≡ setlabel_of words.old }
{
    let (path, element) = both(words)?;
    let path = read_path(path)?;
    let element = read_element(element).ok()?;
    *call = Call::SetLabel { path, element };
    Some(())
}

/// `getlabel PATH`
fn read_getlabel(words: &mut Words, call: &mut Call) -> Option<()>
    ensures { option_map (λ _. call.new) result ≡ getlabel_of words.old }
{
    let path = only_path(words)?;
    *call = Call::GetLabel { path };
    Some(())
}

/// A call on what a node is: its name and its words, or one of the next groups.
#[tactic(auto, unfolding(crate::specs::Attr::attr_call_of))]
pub fn read_attr_call(name: &[u8], words: &mut Words, call: &mut Call) -> Option<()>
    ensures call { option_map (λ _. call.new) result ≡ attr_call_of name.now words.old }
    ensures fit { OnSome result (HasFitMode call.new) }
{
    if is_word(name, b"info") {
        read_info(words, call)
    } else if is_word(name, b"chmod") {
        read_chmod(words, call)
    } else if is_word(name, b"chown") {
        read_chown(words, call)
    } else if is_word(name, b"setacl") {
        read_setacl(words, call)
    } else if is_word(name, b"getacl") {
        read_getacl(words, call)
    } else if is_word(name, b"setlabel") {
        read_setlabel(words, call)
    } else if is_word(name, b"getlabel") {
        read_getlabel(words, call)
    } else {
        read_cred_call(name, words, call)
    }
}

/// The name of a call on what a node is and its words, each behind a blank.
pub fn push_attr_call(out: &mut Line, call: &Call)
    requires kind { group_of_call call.now ≡ attr_call }
    requires mode { HasFitMode call.now }
    requires fits { array_vec_len out.old + 5 * WORD_ROOM ≤ LINE_ROOM }
    ensures bytes { out.new.items ≡ out.old.items ++ behind_blanks (call_fields call.now) }
    ensures len { array_vec_len out.new ≤ array_vec_len out.old + 5 * WORD_ROOM }
    ensures fit { AllByRecursion Fits (call_fields call.now) }
{
    match call {
        Call::Info { path } => {
            push_word(out, b"info");
            push_path(out, path);
        }
        Call::Chmod { path, mode } => {
            push_word(out, b"chmod");
            push_path(out, path);
            push_mode(out, *mode);
        }
        Call::Chown { path, uid, gid } => {
            push_word(out, b"chown");
            push_path(out, path);
            push_decimal(out, *uid);
            push_decimal(out, *gid);
        }
        Call::SetAcl { path, which, list } => {
            push_word(out, b"setacl");
            push_path(out, path);
            push_which(out, *which);
            push_entries(out, list);
        }
        Call::GetAcl { path, which } => {
            push_word(out, b"getacl");
            push_path(out, path);
            push_which(out, *which);
        }
        Call::SetLabel { path, element } => {
            push_word(out, b"setlabel");
            push_path(out, path);
            push_element(out, element);
        }
        Call::GetLabel { path } => {
            push_word(out, b"getlabel");
            push_path(out, path);
        }
        _ => unreachable!(),
    }
}
