//! Users.
ghost use Rattle.std.specs.Prelude.{◌≡◌, [], ◌∷◌, ◌++◌, length, slice_get, IfOk, is_ok, if◌then◌else◌, option_copied};

use crate::fault::NoMemory;
use crate::name::Name;
use acl_core::Cred;
use arrayvec::ArrayVec;
use label_core::Subject;
use std::alloc::Global;
use std::marker::Model;

/// How many bytes a salt has at most.
pub const SALT_BYTES: usize = 16;

/// How many bytes a digest of SHA-256 has.
pub const DIGEST_BYTES: usize = 32;

/// A user, as boot texts and the file of users have one.
#[derive(Drop)]
pub struct User {
    pub name: Name,
    /// What the user's processes are: uid, gid and supplementary groups.
    pub cred: Cred,
    /// The label of the user's processes.
    pub label: Subject,
    /// What stands before the password where the digest is made.
    pub salt: ArrayVec<u8, SALT_BYTES>,
    /// SHA-256 of the salt followed by the password. A user without it does not log in.
    pub digest: Option<[u8; DIGEST_BYTES]>,
}

impl User {
    /// An equal user.
    pub fn copy(&self) -> Self
        ensures { result ≡ self.now }
    {
        let mut salt = ArrayVec::new();
        let _ = salt.try_extend_from_slice(self.salt.as_slice());
        User {
            name: self.name.copy(),
            cred: self.cred.copy(),
            label: self.label.copy(),
            salt,
            digest: self.digest,
        }
    }
}

/// The users of a machine in order, seen as their list.
#[derive(Drop)]
pub struct Users {
    items: Vec<User>,
}

impl Model for Users {
    ghost use Rattle.std.specs.Prelude.{List};
    ghost use Rattle.user_db.specs.declared.user.User.{User};

    ghost Value = { List User };

    ghost view = { λ u. u.items.items };
}

impl Users {
    /// No users.
    pub fn new(alloc: Global) -> Self
        ensures { result ≡ [] }
    {
        Users {
            items: Vec::new(alloc),
        }
    }

    /// Puts a user behind the others. Without memory nothing changes.
    pub fn push(&mut self, user: User) -> Result<(), NoMemory>
        ensures { self.new ≡ (if is_ok result then self.old ++ user ∷ [] else self.old) }
    {
        self.items.push(user)?;
        Ok(())
    }

    /// How many there are.
    pub fn len(&self) -> usize
        ensures { result ≡ length self.now }
    {
        self.items.len()
    }

    /// The user at a place, counted from 0. `None` exactly behind the last.
    pub fn get(&self, at: usize) -> Option<&User>
        ensures { option_copied result ≡ slice_get self.now at }
    {
        self.items.get(at)
    }

    /// The users in order.
    pub fn as_slice(&self) -> &[User]
        ensures { result.now ≡ self.now }
    {
        &self.items
    }

    /// Equal users.
    pub fn copy(&self, alloc: Global) -> Result<Self, NoMemory>
        ensures { IfOk result (λ users. users ≡ self.now) }
    {
        let mut users = Users::new(alloc);
        for user in self.as_slice() {
            users.push(user.copy())?;
        }
        Ok(users)
    }
}
