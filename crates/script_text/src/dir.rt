//! The calls on directories, as their words give them.
ghost use Rattle.std.specs.Prelude.{◌≡◌, ◌+◌, ◌*◌, ◌≤◌, ◌++◌, OnSome, option_map};
ghost use Rattle.std.specs.List.{AllByRecursion};
ghost use Rattle.arrayvec.specs.ArrayVec.{array_vec_len};
ghost use Rattle.call_words.specs.Calls.{HasFitMode, group_of_call, dir_call};
ghost use Rattle.script_text.specs.Grammar.{Fits, call_fields};
ghost use Rattle.script_text.specs.Printing.{behind_blanks};
ghost use Rattle.script_text.specs.Dir.{chdir_of, dir_call_of, list_of, mkdir_of, rmdir_of, unlink_of};

use crate::attr::read_attr_call;
use crate::paths::{only_path, path_and_mode, read_path};
use crate::push::{LINE_ROOM, Line, WORD_ROOM, push_decimal, push_mode, push_path, push_word};
use crate::values::read_from;
use crate::words::{Words, both, is_word};
use call_words::Call;

/// `chdir PATH`
fn read_chdir(words: &mut Words, call: &mut Call) -> Option<()>
    ensures { option_map (λ _. call.new) result ≡ chdir_of words.old }
{
    let path = only_path(words)?;
    *call = Call::Chdir { path };
    Some(())
}

/// `mkdir PATH MODE`
fn read_mkdir(words: &mut Words, call: &mut Call) -> Option<()>
    ensures call { option_map (λ _. call.new) result ≡ mkdir_of words.old }
    ensures fit { OnSome result (HasFitMode call.new) }
{
    let (path, mode) = path_and_mode(words)?;
    *call = Call::Mkdir { path, mode };
    Some(())
}

/// `rmdir PATH`
fn read_rmdir(words: &mut Words, call: &mut Call) -> Option<()>
    ensures { option_map (λ _. call.new) result ≡ rmdir_of words.old }
{
    let path = only_path(words)?;
    *call = Call::Rmdir { path };
    Some(())
}

/// `unlink PATH`
fn read_unlink(words: &mut Words, call: &mut Call) -> Option<()>
    ensures { option_map (λ _. call.new) result ≡ unlink_of words.old }
{
    let path = only_path(words)?;
    *call = Call::Unlink { path };
    Some(())
}

/// `list PATH FROM`
fn read_list(words: &mut Words, call: &mut Call) -> Option<()>
    ensures { option_map (λ _. call.new) result ≡ list_of words.old }
{
    let (path, from) = both(words)?;
    let path = read_path(path)?;
    let from = read_from(from)?;
    *call = Call::List { path, from };
    Some(())
}

/// A call on directories: its name and its words, or one of the next groups.
#[tactic(auto, unfolding(crate::specs::Dir::dir_call_of))]
pub fn read_dir_call(name: &[u8], words: &mut Words, call: &mut Call) -> Option<()>
    ensures call { option_map (λ _. call.new) result ≡ dir_call_of name.now words.old }
    ensures fit { OnSome result (HasFitMode call.new) }
{
    if is_word(name, b"chdir") {
        read_chdir(words, call)
    } else if is_word(name, b"mkdir") {
        read_mkdir(words, call)
    } else if is_word(name, b"rmdir") {
        read_rmdir(words, call)
    } else if is_word(name, b"unlink") {
        read_unlink(words, call)
    } else if is_word(name, b"list") {
        read_list(words, call)
    } else {
        read_attr_call(name, words, call)
    }
}

/// The name of a call on directories and its words, each behind a blank.
pub fn push_dir_call(out: &mut Line, call: &Call)
    requires kind { group_of_call call.now ≡ dir_call }
    requires mode { HasFitMode call.now }
    requires fits { array_vec_len out.old + 5 * WORD_ROOM ≤ LINE_ROOM }
    ensures bytes { out.new.items ≡ out.old.items ++ behind_blanks (call_fields call.now) }
    ensures len { array_vec_len out.new ≤ array_vec_len out.old + 5 * WORD_ROOM }
    ensures fit { AllByRecursion Fits (call_fields call.now) }
{
    match call {
        Call::Chdir { path } => {
            push_word(out, b"chdir");
            push_path(out, path);
        }
        Call::Mkdir { path, mode } => {
            push_word(out, b"mkdir");
            push_path(out, path);
            push_mode(out, *mode);
        }
        Call::Rmdir { path } => {
            push_word(out, b"rmdir");
            push_path(out, path);
        }
        Call::Unlink { path } => {
            push_word(out, b"unlink");
            push_path(out, path);
        }
        Call::List { path, from } => {
            push_word(out, b"list");
            push_path(out, path);
            push_decimal(out, u32::from(*from));
        }
        _ => unreachable!(),
    }
}
