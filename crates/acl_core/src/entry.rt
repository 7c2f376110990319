//! The entries of a list.

use crate::Perm;

/// How many entries a list has at most (acl(3)).
pub const MOST_ENTRIES: usize = 64;

/// Whom an entry is about. The order is the one in which a list is printed. The default is for the
/// unused places of an `ArrayVec`.
#[derive(Clone, Copy, Default, PartialEq, Eq, PartialOrd, Ord)]
pub enum Tag {
    /// The file's owner.
    #[default]
    UserObj,
    /// The user of this number.
    User(u32),
    /// The file's group.
    GroupObj,
    /// The group of this number.
    Group(u32),
    /// The most that the entries of users and of groups grant.
    Mask,
    /// Everyone else.
    Other,
}

/// What a list grants to those whom a tag is about.
#[derive(Clone, Copy, Default, PartialEq, Eq)]
pub struct Entry {
    pub tag: Tag,
    pub perm: Perm,
}
