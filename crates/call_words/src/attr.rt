//! The calls on what a node is: info, chmod, chown, setacl, getacl, setlabel and getlabel; and access lists as calls name them
//! (acl(3)).
ghost use Rattle.std.specs.Prelude.{◌≡◌, ◌≤◌, length};
ghost use Rattle.call_words.specs.Calls.{group_of_call, attr_call};

use crate::call::Call;
use acl_core::{Entry, MOST_ENTRIES};
use arrayvec::ArrayVec;
use std::marker::Model;

/// Which list of a node: the one that says who may do what with it, or the one that new nodes in a
/// directory get.
#[derive(Clone, Copy, PartialEq, Eq)]
pub enum WhichList {
    Access,
    Default,
}

/// At most 64 entries as they were given, whether they make a list or not, in place. Contracts see
/// the list of them.
#[derive(Drop)]
pub struct Entries {
    entries: ArrayVec<Entry, MOST_ENTRIES>,
}

impl Model for Entries {
    ghost use Rattle.std.specs.Prelude.{◌≤◌, List, length};
    ghost use Rattle.acl_core.specs.declared.entry.Entry.{Entry};
    ghost use Rattle.acl_core.specs.declared.entry.TheConstants.{MOST_ENTRIES};

    ghost Value = { List Entry };

    ghost view = { λ e. e.entries.items };

    ghost invariant = { λ e. length e.entries.items ≤ MOST_ENTRIES };
}

impl Entries {
    ghost use Rattle.acl_core.specs.declared.entry.TheConstants.{MOST_ENTRIES};

    /// These entries.
    pub fn new(entries: ArrayVec<Entry, MOST_ENTRIES>) -> Self
        ensures { result ≡ entries.items }
    {
        Entries { entries }
    }

    /// The entries, as a slice of at most 64.
    pub fn as_slice(&self) -> &[Entry]
        ensures entries { result.now ≡ self.now }
        ensures most { length result.now ≤ MOST_ENTRIES }
    {
        self.entries.as_slice()
    }

    /// Equal entries.
    pub fn copy(&self) -> Self
        ensures { result ≡ self.now }
    {
        let mut entries = ArrayVec::new();
        let _ = entries.try_extend_from_slice(self.entries.as_slice());
        Entries { entries }
    }
}

impl Call {
    /// An equal call on what a node is.
    pub(crate) fn copy_attr(&self) -> Self
        requires { group_of_call self.now ≡ attr_call }
        ensures { result ≡ self.now }
    {
        match self {
            Call::Info { path } => Call::Info { path: path.copy() },
            Call::Chmod { path, mode } => Call::Chmod {
                path: path.copy(),
                mode: *mode,
            },
            Call::Chown { path, uid, gid } => Call::Chown {
                path: path.copy(),
                uid: *uid,
                gid: *gid,
            },
            Call::SetAcl { path, which, list } => Call::SetAcl {
                path: path.copy(),
                which: *which,
                list: list.copy(),
            },
            Call::GetAcl { path, which } => Call::GetAcl {
                path: path.copy(),
                which: *which,
            },
            Call::SetLabel { path, element } => Call::SetLabel {
                path: path.copy(),
                element: element.copy(),
            },
            Call::GetLabel { path } => Call::GetLabel { path: path.copy() },
            _ => unreachable!(),
        }
    }
}
