//! Permissions.
ghost use Rattle.std.specs.Prelude.{◌≡◌, ◌<◌};
ghost use Rattle.acl_core.specs.Perm.{digit_of, perm_of, has_all, common};

const READ: u16 = 4;

const WRITE: u16 = 2;

const EXEC: u16 = 1;

/// The permission to read, to write, and to execute or, of a directory, to search. It is one of
/// eight, as it has three bits.
#[derive(Clone, Copy, Default, PartialEq, Eq)]
pub struct Perm {
    pub read: bool,
    pub write: bool,
    pub exec: bool,
}

impl Perm {
    /// The permission of an octal digit, 0 to 7: read is 4, write is 2 and execute is 1 (chmod(2)).
    pub fn from_digit(digit: u16) -> Self
        requires { digit < 8 }
        ensures { result ≡ perm_of digit }
    {
        Perm {
            read: digit & READ != 0,
            write: digit & WRITE != 0,
            exec: digit & EXEC != 0,
        }
    }

    /// Its octal digit, 0 to 7.
    pub fn digit(self) -> u16
        ensures value { result ≡ digit_of self }
        ensures below { result < 8 }
    {
        u16::from(self.read) * READ + u16::from(self.write) * WRITE + u16::from(self.exec) * EXEC
    }

    /// Whether it has all bits of `want`.
    pub(crate) fn covers(self, want: Perm) -> bool
        ensures { result ≡ has_all self want }
    {
        (self.read || !want.read) && (self.write || !want.write) && (self.exec || !want.exec)
    }

    /// The bits that both have.
    pub(crate) fn common(self, mask: Perm) -> Self
        ensures { result ≡ common self mask }
    {
        Perm {
            read: self.read && mask.read,
            write: self.write && mask.write,
            exec: self.exec && mask.exec,
        }
    }
}
