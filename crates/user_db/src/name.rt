//! Names of users.
ghost use Rattle.std.specs.Prelude.{◌≡◌, length, Some, None, if◌then◌else◌};
ghost use Rattle.user_db.specs.Name.{is_name, IsName};

use arrayvec::ArrayVec;
use std::marker::Model;

/// How many bytes a name has at most.
pub const NAME_BYTES: usize = 32;

/// The name of a user: 1 to 32 bytes in place, seen as their list.
#[derive(Drop)]
pub struct Name {
    bytes: ArrayVec<u8, NAME_BYTES>,
}

impl Model for Name {
    ghost use Rattle.std.specs.Prelude.{ℕ, List};
    ghost use Rattle.user_db.specs.Name.{IsName};

    ghost Value = { List ℕ };

    ghost view = { λ n. n.bytes.items };

    ghost invariant = { λ n. IsName n.bytes.items };
}

impl Name {
    /// The name of these bytes. `None` exactly where there is none, or where there are more than 32.
    pub fn from_slice(bytes: &[u8]) -> Option<Self>
        ensures { result ≡ (if is_name bytes.now then Some bytes.now else None) }
    {
        if bytes.is_empty() {
            return None;
        }
        let mut copied = ArrayVec::new();
        match copied.try_extend_from_slice(bytes) {
            Ok(()) => Some(Name { bytes: copied }),
            Err(_) => None,
        }
    }

    /// The bytes of the name.
    pub fn as_slice(&self) -> &[u8]
        ensures bytes { result.now ≡ self.now }
        ensures name { IsName result.now }
    {
        self.bytes.as_slice()
    }

    /// An equal name.
    pub fn copy(&self) -> Self
        ensures { result ≡ self.now }
    {
        let mut bytes = ArrayVec::new();
        let _ = bytes.try_extend_from_slice(self.bytes.as_slice());
        Name { bytes }
    }
}
