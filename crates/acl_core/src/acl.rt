//! Lists: what they grant (draft POSIX.1e, 23.1.5), and how they go with a file's mode.
ghost use Rattle.std.specs.Prelude.{◌≡◌, ◌≤◌, IfOk};
ghost use Rattle.std.specs.List.Sorted.{IsPermutation};
ghost use Rattle.acl_core.specs.Acl.{acl_of, IsAcl};
ghost use Rattle.acl_core.specs.Deciding.{grants, has_exec};
ghost use Rattle.acl_core.specs.Mode.{minimal_list, mode_of, with_mode, inherited_list};

use crate::mode::{self, MODE_MOST};
use crate::valid::{fault_of, in_order};
use crate::walk::Findings;
use crate::{AclFault, Cred, Entry, MOST_ENTRIES, Perm};
use arrayvec::ArrayVec;
use std::marker::Model;

/// A valid list in place, seen as its entries in the printed order.
#[derive(Drop)]
pub struct Acl {
    entries: ArrayVec<Entry, MOST_ENTRIES>,
}

impl Model for Acl {
    ghost use Rattle.std.specs.Prelude.{List};
    ghost use Rattle.acl_core.specs.declared.entry.Entry.{Entry};
    ghost use Rattle.acl_core.specs.Acl.{IsAcl};

    ghost Value = { List Entry };

    ghost view = { λ a. a.entries.items };

    ghost invariant = { λ a. IsAcl a.entries.items };
}

impl Acl {
    /// The list of the entries, which may come in any order, or their first fault (acl_valid(3)):
    /// `TooMany` where there are over 64, else `Twice` where a tag stands twice, else `Missing` where
    /// the owner, the file's group or others have no entry, else `NoMask` where a user or a group is
    /// named and there is no mask.
    #[tactic(auto, unfolding(crate::specs::Acl::acl_of))]
    pub fn new(entries: &[Entry]) -> Result<Acl, AclFault>
        ensures exact { result ≡ acl_of entries.now }
        ensures same { IfOk result (λ list. IsPermutation entries.now list × IsAcl list) }
    {
        match fault_of(entries) {
            Some(fault) => Err(fault),
            None => Ok(Acl {
                entries: in_order(entries),
            }),
        }
    }

    /// Its entries in the printed order.
    pub fn entries(&self) -> &[Entry]
        ensures same { result.now ≡ self.now }
        ensures valid { IsAcl self.now }
    {
        self.entries.as_slice()
    }

    /// Whether the list of a file with this owner and group grants all bits of `want` to a caller.
    /// The entry of the owner decides about the owner, else a user's entry about that user, limited
    /// by the mask. Else, where the entries of the file's group and of named groups match the
    /// caller's groups, one of those that match has to grant all bits by itself, limited by the
    /// mask if there is one. Others' entry decides about everyone else.
    pub fn check(&self, cred: &Cred, owner: u32, group: u32, want: Perm) -> bool
        ensures { result ≡ grants self.now cred.now owner group want }
    {
        let found = Findings::of(self.entries(), cred, group, want);
        found.answer(cred.uid == owner)
    }

    /// The list of a mode, at most octal 777 (chmod(2)): an entry for the owner, one for the group and
    /// one for others.
    pub fn minimal(mode: u16) -> Acl
        requires { mode ≤ MODE_MOST }
        ensures { result ≡ minimal_list mode }
    {
        Acl {
            entries: mode::minimal_list(mode),
        }
    }

    /// The mode of the list, at most octal 777, with the mask as the bits of the group where there is
    /// one (acl(3)).
    pub fn mode_of(&self) -> u16
        ensures value { result ≡ mode_of self.now }
        ensures most { result ≤ MODE_MOST }
    {
        mode::mode_of(self.entries())
    }

    /// The list with the bits of a mode, at most octal 777 (chmod(2)): the owner's, others', and the
    /// group's in the mask, or in the group's entry where there is no mask. The other entries stay as
    /// they are.
    pub fn with_mode(&self, mode: u16) -> Acl
        requires { mode ≤ MODE_MOST }
        ensures { result ≡ with_mode self.now mode }
    {
        Acl {
            entries: mode::with_mode(self.entries.as_slice(), mode),
        }
    }

    /// The list of a new file below a directory with this default list: the owner's entry, others',
    /// and the mask, or the group's entry where there is no mask, are limited by the bits of the mode
    /// that the file is made with, at most octal 777 (acl(3)). The other entries stay as they are.
    pub fn inherit(&self, mode: u16) -> Acl
        requires { mode ≤ MODE_MOST }
        ensures { result ≡ inherited_list self.now mode }
    {
        Acl {
            entries: mode::inherited_list(self.entries.as_slice(), mode),
        }
    }

    /// Whether some entry, the mask too, has the bit to execute.
    #[tactic(auto, unfolding(crate::specs::Deciding::has_exec))]
    pub fn has_x(&self) -> bool
        ensures { result ≡ has_exec self.now }
    {
        self.entries.iter().any(|entry| entry.perm.exec)
    }

    /// An equal list.
    pub fn copy(&self) -> Self
        ensures { result ≡ self.now }
    {
        let mut entries = ArrayVec::new();
        let _ = entries.try_extend_from_slice(self.entries.as_slice());
        Acl { entries }
    }
}
