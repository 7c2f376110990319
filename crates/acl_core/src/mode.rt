//! Entries and the nine bits of a file's mode.
ghost use Rattle.std.specs.Prelude.{◌≡◌, ◌≤◌, ◌<◌, length, option_map};
ghost use Rattle.acl_core.specs.Entry.{perms_at};
ghost use Rattle.acl_core.specs.Mode.{owner_bits, group_bits, other_bits, minimal_list, class_tag, digit_of_one, mode_of, bits_for, with_mode, inherited_list};

use crate::valid::has_tag;
use crate::{Entry, MOST_ENTRIES, Perm, Tag};
use arrayvec::ArrayVec;

/// The greatest mode (chmod(2)): all bits for the owner, the group and others.
pub const MODE_MOST: u16 = 0o777;

fn owner_bits(mode: u16) -> Perm
    requires { mode ≤ MODE_MOST }
    ensures { result ≡ owner_bits mode }
{
    Perm::from_digit(mode / 0o100)
}

fn group_bits(mode: u16) -> Perm
    ensures { result ≡ group_bits mode }
{
    Perm::from_digit(mode / 0o10 % 0o10)
}

fn other_bits(mode: u16) -> Perm
    ensures { result ≡ other_bits mode }
{
    Perm::from_digit(mode % 0o10)
}

/// The three entries that have the bits of a mode.
#[tactic(auto, unfolding(crate::specs::Mode::minimal_list))]
pub(crate) fn minimal_list(mode: u16) -> ArrayVec<Entry, MOST_ENTRIES>
    requires { mode ≤ MODE_MOST }
    ensures { result.items ≡ minimal_list mode }
{
    let mut list = ArrayVec::new();
    list.push(Entry {
        tag: Tag::UserObj,
        perm: owner_bits(mode),
    });
    list.push(Entry {
        tag: Tag::GroupObj,
        perm: group_bits(mode),
    });
    list.push(Entry {
        tag: Tag::Other,
        perm: other_bits(mode),
    });
    list
}

/// The tag that the group digit of a mode speaks of.
fn class_tag(entries: &[Entry]) -> Tag
    ensures { result ≡ class_tag entries.now }
{
    if has_tag(entries, Tag::Mask) {
        Tag::Mask
    } else {
        Tag::GroupObj
    }
}

/// The digit of the first entry with a tag, or 0.
fn digit_at(entries: &[Entry], tag: Tag) -> u16
    ensures value { result ≡ digit_of_one (perms_at tag entries.now) }
    ensures below { result < 8 }
{
    for entry in entries {
        if entry.tag == tag {
            return entry.perm.digit();
        }
    }
    0
}

/// The bits of the owner, of the group or the mask, and of others.
#[tactic(auto, unfolding(crate::specs::Mode::mode_of))]
pub(crate) fn mode_of(entries: &[Entry]) -> u16
    ensures value { result ≡ mode_of entries.now }
    ensures most { result ≤ MODE_MOST }
{
    let owner = digit_at(entries, Tag::UserObj);
    let group = digit_at(entries, class_tag(entries));
    let other = digit_at(entries, Tag::Other);
    owner * 0o100 + group * 0o10 + other
}

/// The bits of a mode that speak of a tag.
fn bits_for(class: Tag, mode: u16, tag: Tag) -> Option<Perm>
    requires { mode ≤ MODE_MOST }
    ensures { result ≡ bits_for class mode tag }
{
    if tag == Tag::UserObj {
        return Some(owner_bits(mode));
    }
    if tag == class {
        return Some(group_bits(mode));
    }
    if tag == Tag::Other {
        return Some(other_bits(mode));
    }
    None
}

/// The entries, with the bits of a mode in place of those of the tags that it speaks of.
#[tactic(auto, unfolding(crate::specs::Mode::with_mode))]
pub(crate) fn with_mode(entries: &[Entry], mode: u16) -> ArrayVec<Entry, MOST_ENTRIES>
    requires most { length entries.now ≤ MOST_ENTRIES }
    requires mode_most { mode ≤ MODE_MOST }
    ensures { result.items ≡ with_mode entries.now mode }
{
    let class = class_tag(entries);
    let mut list = ArrayVec::new();
    for entry in entries {
        let perm = bits_for(class, mode, entry.tag).unwrap_or(entry.perm);
        list.push(Entry {
            tag: entry.tag,
            perm,
        });
    }
    list
}

/// The entries, limited by the bits of a mode at the tags that it speaks of.
#[tactic(auto, unfolding(crate::specs::Mode::inherited_list))]
pub(crate) fn inherited_list(entries: &[Entry], mode: u16) -> ArrayVec<Entry, MOST_ENTRIES>
    requires most { length entries.now ≤ MOST_ENTRIES }
    requires mode_most { mode ≤ MODE_MOST }
    ensures { result.items ≡ inherited_list entries.now mode }
{
    let class = class_tag(entries);
    let mut list = ArrayVec::new();
    for entry in entries {
        let perm = match bits_for(class, mode, entry.tag) {
            Some(bits) => entry.perm.common(bits),
            None => entry.perm,
        };
        list.push(Entry {
            tag: entry.tag,
            perm,
        });
    }
    list
}
