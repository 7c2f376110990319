//! The calls on descriptors: open, close, dup and dup2.
ghost use Rattle.std.specs.Prelude.{◌≡◌};
ghost use Rattle.call_words.specs.Calls.{can_read, can_write, group_of_call, open_call};

use crate::call::Call;

/// For what a file is opened (open(2)): `r`, `w` or `rw`.
#[derive(Clone, Copy, PartialEq, Eq)]
pub enum Access {
    Read,
    Write,
    ReadWrite,
}

impl Access {
    /// Whether the file may then be read.
    pub fn reads(self) -> bool
        ensures { result ≡ can_read self }
    {
        matches!(self, Access::Read | Access::ReadWrite)
    }

    /// Whether the file may then be written.
    pub fn writes(self) -> bool
        ensures { result ≡ can_write self }
    {
        matches!(self, Access::Write | Access::ReadWrite)
    }
}

/// The flags of an open (open(2)), all off by default.
#[derive(Clone, Copy, Default, PartialEq, Eq)]
pub struct OpenFlags {
    /// `c`: an absent file is created.
    pub create: bool,
    /// `x`: the file must be absent.
    pub exclusive: bool,
    /// `t`: the contents go.
    pub truncate: bool,
    /// `a`: each write goes to the end.
    pub append: bool,
    /// `n`: a call that would have to wait is denied.
    pub nonblock: bool,
    /// `e`: the descriptor is closed by an exec.
    pub on_exec: bool,
}

impl Call {
    /// An equal call on descriptors.
    pub(crate) fn copy_open(&self) -> Self
        requires { group_of_call self.now ≡ open_call }
        ensures { result ≡ self.now }
    {
        match self {
            Call::Open {
                path,
                access,
                flags,
                mode,
            } => Call::Open {
                path: path.copy(),
                access: *access,
                flags: *flags,
                mode: *mode,
            },
            Call::Close { fd } => Call::Close { fd: *fd },
            Call::Dup { fd } => Call::Dup { fd: *fd },
            Call::Dup2 { fd, to } => Call::Dup2 { fd: *fd, to: *to },
            _ => unreachable!(),
        }
    }
}
