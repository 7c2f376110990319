//! The words of a line that is made, each behind a blank, and what they are made of.
ghost use Rattle.std.specs.Prelude.{◌≡◌, ◌+◌, ◌*◌, ◌≤◌, ◌<◌, [], ◌∷◌, ◌++◌, length, flat_map, codes};
ghost use Rattle.std.specs.Fmt.{decimal};
ghost use Rattle.hex.specs.Hex.{encode_lower};
ghost use Rattle.arrayvec.specs.ArrayVec.{array_vec_len};
ghost use Rattle.label_core.specs.Text.{element_text, subject_text};
ghost use Rattle.acl_core.specs.Text.{list_text};
ghost use Rattle.acl_core.specs.Entry as acl;
ghost use Rattle.std.specs.List.{AllByRecursion};
ghost use Rattle.acl_core.specs.declared.mode.TheConstants.{MODE_MOST};
ghost use Rattle.acl_core.specs.declared.cred.TheConstants.{MOST_GROUPS};
ghost use Rattle.sys_types.specs.declared.limits.TheConstants.{PIECE_BYTES};
ghost use Rattle.call_words.specs.Groups.{groups_word};
ghost use Rattle.script_text.specs.Words.{hex_word};
ghost use Rattle.script_text.specs.Paths.{byte_text, path_word};
ghost use Rattle.script_text.specs.Values.{mode_word, access_word, letter_if, letters_of, flags_word};
ghost use Rattle.script_text.specs.Rights.{which_word};
ghost use Rattle.script_text.specs.Grammar as grammar;

use crate::paths::is_plain;
use acl_core::{Entry, MOST_GROUPS, Tag, print_entries};
use arrayvec::ArrayVec;
use call_words::{
    Access, Entries, OpenFlags, PATH_TEXT_BYTES, PIECE_BYTES, PathText, WhichList, push_bytes,
    push_number,
};
use label_core::{Element, Subject, print_element, print_subject};

/// How many bytes a line that is made has at most.
pub const LINE_ROOM: usize = 16_384;

/// How many bytes a word of an event and the blank before it have at most: the longest is a path, of which each byte takes
/// at most three.
pub const WORD_ROOM: usize = 1 + 3 * PATH_TEXT_BYTES;

/// A line that is made, in place.
pub type Line = ArrayVec<u8, LINE_ROOM>;

/// The hex digits of bytes, in lower case. `room` has two places for each byte.
fn push_pairs(out: &mut Line, bytes: &[u8], room: &mut [u8])
    requires places { length room.old ≡ 2 * length bytes.now }
    requires fits { array_vec_len out.old + length room.old ≤ LINE_ROOM }
    ensures bytes { out.new.items ≡ out.old.items ++ encode_lower bytes.now }
    ensures len { array_vec_len out.new ≡ array_vec_len out.old + length room.old }
{
    let _ = hex::encode_to_slice(bytes, room);
    push_bytes(out, room);
}

/// The hex digits of at most 512 bytes, or a dash for none.
#[tactic(auto, unfolding(crate::specs::Words::hex_word))]
pub fn push_hex(out: &mut Line, bytes: &[u8])
    requires most { length bytes.now ≤ PIECE_BYTES }
    requires fits { array_vec_len out.old + 1024 ≤ LINE_ROOM }
    ensures bytes { out.new.items ≡ out.old.items ++ hex_word bytes.now }
    ensures len { array_vec_len out.new ≤ array_vec_len out.old + 1024 }
{
    if bytes.is_empty() {
        push_bytes(out, b"-");
        return;
    }
    let mut room = [0; 2 * PIECE_BYTES];
    push_pairs(out, bytes, &mut room[..2 * bytes.len()]);
}

/// A byte as itself, or as a percent sign and two hex digits.
fn push_byte(out: &mut Line, byte: u8)
    requires { array_vec_len out.old + 3 ≤ LINE_ROOM }
    ensures bytes { out.new.items ≡ out.old.items ++ byte_text byte }
    ensures len { array_vec_len out.new ≤ array_vec_len out.old + 3 }
{
    if is_plain(byte) {
        push_bytes(out, &[byte]);
        return;
    }
    push_bytes(out, b"%");
    push_pairs(out, &[byte], &mut [0; 2]);
}

/// Bytes, each as itself or as a percent sign and two hex digits.
pub fn push_escapes(out: &mut Line, bytes: &[u8])
    requires { array_vec_len out.old + 3 * length bytes.now ≤ LINE_ROOM }
    ensures bytes { out.new.items ≡ out.old.items ++ flat_map byte_text bytes.now }
    ensures len { array_vec_len out.new ≤ array_vec_len out.old + 3 * length bytes.now }
{
    for byte in bytes {
        push_byte(out, *byte);
    }
}

/// A word of at most 12 bytes as it is.
pub fn push_word(out: &mut Line, word: &[u8])
    requires most { length word.now ≤ 12 }
    requires fits { array_vec_len out.old + WORD_ROOM ≤ LINE_ROOM }
    ensures bytes { out.new.items ≡ out.old.items ++ (codes " " ++ word.now) }
    ensures len { array_vec_len out.new ≤ array_vec_len out.old + WORD_ROOM }
{
    push_bytes(out, b" ");
    push_bytes(out, word);
}

/// A number in decimal.
pub fn push_decimal(out: &mut Line, number: u32)
    requires { array_vec_len out.old + WORD_ROOM ≤ LINE_ROOM }
    ensures bytes { out.new.items ≡ out.old.items ++ (codes " " ++ decimal number) }
    ensures len { array_vec_len out.new ≤ array_vec_len out.old + WORD_ROOM }
{
    push_bytes(out, b" ");
    push_number(out, number);
}

/// A path: a percent sign for the empty one, or its bytes, of which those that are not plain are escaped.
#[tactic(auto, unfolding(crate::specs::Paths::path_word))]
pub fn push_path(out: &mut Line, path: &PathText)
    requires { array_vec_len out.old + WORD_ROOM ≤ LINE_ROOM }
    ensures bytes { out.new.items ≡ out.old.items ++ (codes " " ++ path_word path.now) }
    ensures len { array_vec_len out.new ≤ array_vec_len out.old + WORD_ROOM }
    ensures fit { grammar.Fits (grammar.path path.now) }
{
    push_bytes(out, b" ");
    let bytes = path.as_slice();
    if bytes.is_empty() {
        push_bytes(out, b"%");
        return;
    }
    push_escapes(out, bytes);
}

/// The hex digits of at most 512 bytes, or a dash for none.
pub fn push_piece(out: &mut Line, bytes: &[u8])
    requires most { length bytes.now ≤ PIECE_BYTES }
    requires fits { array_vec_len out.old + WORD_ROOM ≤ LINE_ROOM }
    ensures bytes { out.new.items ≡ out.old.items ++ (codes " " ++ hex_word bytes.now) }
    ensures len { array_vec_len out.new ≤ array_vec_len out.old + WORD_ROOM }
    ensures fit { grammar.Fits (grammar.bytes bytes.now) }
{
    push_bytes(out, b" ");
    push_hex(out, bytes);
}

/// A mode in octal, without leading zeros.
#[tactic(auto, using(crate::proofs::OctalDigits::octal_digits))]
pub fn push_mode(out: &mut Line, mode: u16)
    requires most { mode ≤ MODE_MOST }
    requires fits { array_vec_len out.old + WORD_ROOM ≤ LINE_ROOM }
    ensures bytes { out.new.items ≡ out.old.items ++ (codes " " ++ mode_word mode) }
    ensures len { array_vec_len out.new ≤ array_vec_len out.old + WORD_ROOM }
{
    let user = b'0' + (mode / 64) as u8;
    let group = b'0' + (mode / 8 % 8) as u8;
    let other = b'0' + (mode % 8) as u8;
    if mode >= 64 {
        push_word(out, &[user, group, other]);
    } else if mode >= 8 {
        push_word(out, &[group, other]);
    } else {
        push_word(out, &[other]);
    }
}

/// `r`, `w` or `rw`.
pub fn push_access(out: &mut Line, access: Access)
    requires { array_vec_len out.old + WORD_ROOM ≤ LINE_ROOM }
    ensures bytes { out.new.items ≡ out.old.items ++ (codes " " ++ access_word access) }
    ensures len { array_vec_len out.new ≤ array_vec_len out.old + WORD_ROOM }
{
    match access {
        Access::Read => push_word(out, b"r"),
        Access::Write => push_word(out, b"w"),
        Access::ReadWrite => push_word(out, b"rw"),
    }
}

/// A letter, where it is on.
fn push_letter(letters: &mut ArrayVec<u8, 6>, on: bool, letter: u8)
    requires { array_vec_len letters.old < 6 }
    ensures bytes { letters.new.items ≡ letters.old.items ++ letter_if on letter }
    ensures len { array_vec_len letters.new ≤ array_vec_len letters.old + 1 }
{
    if on {
        letters.push(letter);
    }
}

/// The letters of the flags that are on, in the order c x t a n e, or a dash for none.
#[tactic(auto, unfolding(crate::specs::Values::flags_word))]
pub fn push_flags(out: &mut Line, flags: OpenFlags)
    requires { array_vec_len out.old + WORD_ROOM ≤ LINE_ROOM }
    ensures bytes { out.new.items ≡ out.old.items ++ (codes " " ++ flags_word flags) }
    ensures len { array_vec_len out.new ≤ array_vec_len out.old + WORD_ROOM }
{
    let mut letters = ArrayVec::new();
    push_letter(&mut letters, flags.create, b'c');
    push_letter(&mut letters, flags.exclusive, b'x');
    push_letter(&mut letters, flags.truncate, b't');
    push_letter(&mut letters, flags.append, b'a');
    push_letter(&mut letters, flags.nonblock, b'n');
    push_letter(&mut letters, flags.on_exec, b'e');
    if letters.is_empty() {
        push_word(out, b"-");
        return;
    }
    push_word(out, letters.as_slice());
}

/// Numbers, each behind a plus sign.
fn push_others(out: &mut Line, groups: &[u32])
    requires { array_vec_len out.old + 11 * length groups.now ≤ LINE_ROOM }
    ensures bytes { out.new.items ≡ out.old.items ++ flat_map (λ group. codes "+" ++ decimal group) groups.now }
    ensures len { array_vec_len out.new ≤ array_vec_len out.old + 11 * length groups.now }
{
    for group in groups {
        push_bytes(out, b"+");
        push_number(out, *group);
    }
}

/// The numbers of at most 16 groups, joined by plus signs, or a dash for none.
fn push_group_numbers(out: &mut Line, groups: &[u32])
    requires room { array_vec_len out.old + 11 * MOST_GROUPS ≤ LINE_ROOM }
    requires most { length groups.now ≤ MOST_GROUPS }
    ensures bytes { out.new.items ≡ out.old.items ++ groups_word groups.now }
    ensures len { array_vec_len out.new ≤ array_vec_len out.old + 11 * MOST_GROUPS }
{
    match groups.split_first() {
        None => push_bytes(out, b"-"),
        Some((first, others)) => {
            push_number(out, *first);
            push_others(out, others);
        }
    }
}

/// The word of at most 16 groups.
pub fn push_groups(out: &mut Line, groups: &[u32])
    requires most { length groups.now ≤ MOST_GROUPS }
    requires fits { array_vec_len out.old + WORD_ROOM ≤ LINE_ROOM }
    ensures bytes { out.new.items ≡ out.old.items ++ (codes " " ++ groups_word groups.now) }
    ensures len { array_vec_len out.new ≤ array_vec_len out.old + WORD_ROOM }
    ensures fit { grammar.Fits (grammar.groups groups.now) }
{
    push_bytes(out, b" ");
    push_group_numbers(out, groups);
}

/// `access` or `default`.
pub fn push_which(out: &mut Line, which: WhichList)
    requires { array_vec_len out.old + WORD_ROOM ≤ LINE_ROOM }
    ensures bytes { out.new.items ≡ out.old.items ++ (codes " " ++ which_word which) }
    ensures len { array_vec_len out.new ≤ array_vec_len out.old + WORD_ROOM }
{
    match which {
        WhichList::Access => push_word(out, b"access"),
        WhichList::Default => push_word(out, b"default"),
    }
}

/// Looks at bytes: each is below 256.
pub fn look_at_bytes(bytes: &[u8])
    ensures { AllByRecursion grammar.IsByte bytes.now }
{
    let _len = bytes.len();
}

/// Looks at an entry: the number of a user or a group has 32 bits.
fn look_at(entry: &Entry)
    ensures { acl.Fits entry.now }
{
    if let Tag::User(number) | Tag::Group(number) = entry.tag {
        let _number = number;
    }
}

/// Looks at each entry.
fn look_at_all(entries: &[Entry])
    ensures { AllByRecursion acl.Fits entries.now }
{
    for entry in entries {
        look_at(entry);
    }
}

/// The entries of an access list, as they were given.
#[tactic(auto, using(crate::proofs::OctalDigits::all_entries))]
pub fn push_entries(out: &mut Line, entries: &Entries)
    requires { array_vec_len out.old + WORD_ROOM ≤ LINE_ROOM }
    ensures bytes { out.new.items ≡ out.old.items ++ (codes " " ++ list_text entries.now) }
    ensures len { array_vec_len out.new ≤ array_vec_len out.old + WORD_ROOM }
    ensures fit { grammar.Fits (grammar.entries entries.now) }
{
    look_at_all(entries.as_slice());
    let mut text = ArrayVec::new();
    print_entries(entries.as_slice(), &mut text);
    push_bytes(out, b" ");
    push_bytes(out, text.as_slice());
}

/// The label of a node.
pub fn push_element(out: &mut Line, element: &Element)
    requires { array_vec_len out.old + WORD_ROOM ≤ LINE_ROOM }
    ensures bytes { out.new.items ≡ out.old.items ++ (codes " " ++ element_text element.now) }
    ensures len { array_vec_len out.new ≤ array_vec_len out.old + WORD_ROOM }
    ensures fit { grammar.Fits (grammar.element element.now) }
{
    let mut text = ArrayVec::new();
    print_element(element, &mut text);
    push_bytes(out, b" ");
    push_bytes(out, text.as_slice());
}

/// The label of a process.
pub fn push_subject(out: &mut Line, subject: &Subject)
    requires { array_vec_len out.old + WORD_ROOM ≤ LINE_ROOM }
    ensures bytes { out.new.items ≡ out.old.items ++ (codes " " ++ subject_text subject.now) }
    ensures len { array_vec_len out.new ≤ array_vec_len out.old + WORD_ROOM }
    ensures fit { grammar.Fits (grammar.subject subject.now) }
{
    let mut text = ArrayVec::new();
    print_subject(subject, &mut text);
    push_bytes(out, b" ");
    push_bytes(out, text.as_slice());
}
