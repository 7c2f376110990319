//! The one walk over a list's entries that a check makes.
ghost use Rattle.std.specs.Prelude.{◌≡◌};
ghost use Rattle.std.specs.List.{fold};
ghost use Rattle.acl_core.specs.Walk.{either, with_entry, nothing_found, answer};

use crate::{Cred, Entry, Perm, Tag};

/// What is found out for a caller: for each class whether its permission has all bits that are
/// wanted, and whether the mask has them, where there is one.
#[derive(Clone, Copy)]
pub(crate) struct Findings {
    pub(crate) owner: bool,
    pub(crate) user: Option<bool>,
    pub(crate) groups: Option<bool>,
    pub(crate) mask: bool,
    pub(crate) other: bool,
}

impl Findings {
    /// What the entries tell about a caller and the file's group.
    pub(crate) fn of(entries: &[Entry], cred: &Cred, group: u32, want: Perm) -> Self
        ensures { result ≡ fold (with_entry cred.now group want) nothing_found entries.now }
    {
        let mut found = Findings {
            owner: false,
            user: None,
            groups: None,
            mask: true,
            other: false,
        };
        for entry in entries {
            found = found.with_entry(cred, group, want, entry);
        }
        found
    }

    /// The same with one more entry.
    fn with_entry(self, cred: &Cred, group: u32, want: Perm, entry: &Entry) -> Self
        ensures { result ≡ with_entry cred.now group want self entry.now }
    {
        let covers = entry.perm.covers(want);
        match entry.tag {
            Tag::UserObj => Findings {
                owner: covers,
                ..self
            },
            Tag::User(uid) if uid == cred.uid => Findings {
                user: Some(covers),
                ..self
            },
            Tag::GroupObj if cred.in_group(group) => self.with_group(covers),
            Tag::Group(gid) if cred.in_group(gid) => self.with_group(covers),
            Tag::Mask => Findings {
                mask: covers,
                ..self
            },
            Tag::Other => Findings {
                other: covers,
                ..self
            },
            Tag::User(_) | Tag::GroupObj | Tag::Group(_) => self,
        }
    }

    /// The same with one more group that the caller is in.
    fn with_group(self, covers: bool) -> Self
        ensures { result ≡ record self { groups = either self.groups covers } }
    {
        let groups = Some(self.groups == Some(true) || covers);
        Findings { groups, ..self }
    }

    /// The answer, by the first class that the caller is in.
    pub(crate) fn answer(self, is_owner: bool) -> bool
        ensures { result ≡ answer is_owner self }
    {
        if is_owner {
            return self.owner;
        }
        match self.user.or(self.groups) {
            Some(covers) => covers && self.mask,
            None => self.other,
        }
    }
}
