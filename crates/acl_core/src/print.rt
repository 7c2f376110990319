//! Printing lists.
ghost use Rattle.std.specs.Prelude.{◌≡◌, ◌+◌, ◌*◌, ◌≤◌, ◌++◌, length, take, codes};
ghost use Rattle.std.specs.List.{flat_map};
ghost use Rattle.std.specs.Fmt.{decimal};
ghost use Rattle.arrayvec.specs.ArrayVec.{array_vec_len};
ghost use Rattle.acl_core.specs.Text.{tag_text, perm_text, entry_text, next_text, list_text};

use crate::text::{COLON, COMMA, DASH, LETTER_R, LETTER_W, LETTER_X, LIST_ROOM, TEXT_ROOM};
use crate::{Acl, Entry, MOST_ENTRIES, Perm, Tag};
use arrayvec::ArrayVec;

type Text = ArrayVec<u8, TEXT_ROOM>;

/// The longest word of a tag is `group:`.
const WORD_MOST: usize = 6;

/// A word, a number of at most ten digits, and a colon.
const TAG_MOST: usize = 17;

/// The letters of a permission.
const PERM_LENGTH: usize = 3;

/// A tag and a permission.
const ENTRY_MOST: usize = 20;

/// An entry after a comma.
const NEXT_MOST: usize = 21;

fn push_word(out: &mut Text, word: &[u8])
    requires { array_vec_len out.old + length word.now ≤ TEXT_ROOM }
    ensures text { out.new.items ≡ out.old.items ++ word.now }
    ensures len { array_vec_len out.new ≡ array_vec_len out.old + length word.now }
{
    let _ = out.try_extend_from_slice(word);
}

/// Appends a number in decimal.
fn push_decimal(out: &mut Text, number: u32)
    requires { array_vec_len out.old + length (decimal number) ≤ TEXT_ROOM }
    ensures text { out.new.items ≡ out.old.items ++ decimal number }
    ensures len { array_vec_len out.new ≡ array_vec_len out.old + length (decimal number) }
{
    push_word(out, itoa::Buffer::new().format(number).as_bytes());
}

/// Appends a word, a number and a colon.
#[tactic(auto, using(crate::proofs::DecimalLemmas::length_ten))]
fn push_named(out: &mut Text, word: &[u8], number: u32)
    requires room { array_vec_len out.old + TAG_MOST ≤ TEXT_ROOM }
    requires short { length word.now ≤ WORD_MOST }
    ensures text { out.new.items ≡ out.old.items ++ (word.now ++ decimal number ++ codes ":") }
    ensures len { array_vec_len out.new ≤ array_vec_len out.old + TAG_MOST }
{
    push_word(out, word);
    push_decimal(out, number);
    out.push(COLON);
}

fn push_tag(out: &mut Text, tag: Tag)
    requires { array_vec_len out.old + TAG_MOST ≤ TEXT_ROOM }
    ensures text { out.new.items ≡ out.old.items ++ tag_text tag }
    ensures len { array_vec_len out.new ≤ array_vec_len out.old + TAG_MOST }
{
    match tag {
        Tag::UserObj => push_word(out, b"user::"),
        Tag::User(uid) => push_named(out, b"user:", uid),
        Tag::GroupObj => push_word(out, b"group::"),
        Tag::Group(gid) => push_named(out, b"group:", gid),
        Tag::Mask => push_word(out, b"mask::"),
        Tag::Other => push_word(out, b"other::"),
    }
}

fn push_perm(out: &mut Text, perm: Perm)
    requires { array_vec_len out.old + PERM_LENGTH ≤ TEXT_ROOM }
    ensures { out.new.items ≡ out.old.items ++ perm_text perm }
{
    out.push(if perm.read { LETTER_R } else { DASH });
    out.push(if perm.write { LETTER_W } else { DASH });
    out.push(if perm.exec { LETTER_X } else { DASH });
}

fn push_entry(out: &mut Text, entry: &Entry)
    requires { array_vec_len out.old + ENTRY_MOST ≤ TEXT_ROOM }
    ensures text { out.new.items ≡ out.old.items ++ entry_text entry.now }
    ensures len { array_vec_len out.new ≤ array_vec_len out.old + ENTRY_MOST }
{
    push_tag(out, entry.tag);
    push_perm(out, entry.perm);
}

/// Appends each entry after a comma.
fn push_others(out: &mut Text, entries: &[Entry])
    requires { array_vec_len out.old + NEXT_MOST * length entries.now ≤ TEXT_ROOM }
    ensures text { out.new.items ≡ out.old.items ++ flat_map next_text entries.now }
    ensures len { array_vec_len out.new ≤ array_vec_len out.old + NEXT_MOST * length entries.now }
{
    for entry in entries {
        out.push(COMMA);
        push_entry(out, entry);
    }
}

/// Appends the text of a list: the entries joined by commas, or `-` where there is none.
#[tactic(auto, unfolding(crate::specs::Text::list_text))]
fn push_list(out: &mut Text, entries: &[Entry])
    requires room { array_vec_len out.old + LIST_ROOM ≤ TEXT_ROOM }
    requires most { length entries.now ≤ MOST_ENTRIES }
    ensures text { out.new.items ≡ out.old.items ++ list_text entries.now }
    ensures len { array_vec_len out.new ≤ array_vec_len out.old + LIST_ROOM }
{
    match entries.split_first() {
        None => out.push(DASH),
        Some((first, others)) => {
            push_entry(out, first);
            push_others(out, others);
        }
    }
}

/// Appends the text of at most 64 entries, the first ones, in the order given (acl_to_text(3)): the
/// entries joined by commas, or `-` where there is none. It has at most 1,343 bytes, and 1,400 of the
/// 4,096 are to be free.
#[tactic(auto, using(std::proofs::lemmas::List::take_min))]
pub fn print_entries(entries: &[Entry], out: &mut ArrayVec<u8, TEXT_ROOM>)
    requires { array_vec_len out.old + LIST_ROOM ≤ TEXT_ROOM }
    ensures text { out.new.items ≡ out.old.items ++ list_text (take MOST_ENTRIES entries.now) }
    ensures len { array_vec_len out.new ≤ array_vec_len out.old + LIST_ROOM }
{
    push_list(out, &entries[..MOST_ENTRIES.min(entries.len())]);
}

/// Appends the text of a list (acl_to_text(3)): user, users by number, group, groups by number, mask
/// and other, joined by commas. It has at most 1,343 bytes, and 1,400 of the 4,096 are to be free.
pub fn print_list(list: &Acl, out: &mut ArrayVec<u8, TEXT_ROOM>)
    requires { array_vec_len out.old + LIST_ROOM ≤ TEXT_ROOM }
    ensures text { out.new.items ≡ out.old.items ++ list_text list.now }
    ensures len { array_vec_len out.new ≤ array_vec_len out.old + LIST_ROOM }
{
    push_list(out, list.entries());
}
