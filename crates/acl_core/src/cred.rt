//! Credentials.
ghost use Rattle.std.specs.Prelude.{◌≡◌};
ghost use Rattle.acl_core.specs.Deciding.{in_group};

use arrayvec::ArrayVec;

/// How many supplementary groups a credential has at most (getgroups(2)).
pub const MOST_GROUPS: usize = 16;

/// Who asks: a user, a group, and supplementary groups. The groups are kept as they are given, in
/// their order and with repeats; a check looks at them as a set.
#[derive(Drop)]
pub struct Cred {
    pub uid: u32,
    pub gid: u32,
    pub groups: ArrayVec<u32, MOST_GROUPS>,
}

impl Cred {
    /// Whether the caller is in the group, by its gid or its supplementary groups.
    pub(crate) fn in_group(&self, group: u32) -> bool
        ensures { result ≡ in_group self.now group }
    {
        self.gid == group || self.groups.contains(&group)
    }

    /// An equal credential.
    pub fn copy(&self) -> Self
        ensures { result ≡ self.now }
    {
        let mut groups = ArrayVec::new();
        let _ = groups.try_extend_from_slice(self.groups.as_slice());
        Cred {
            uid: self.uid,
            gid: self.gid,
            groups,
        }
    }
}
