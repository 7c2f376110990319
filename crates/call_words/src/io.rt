//! The calls that move bytes through an open file: read and write.
ghost use Rattle.std.specs.Prelude.{◌≡◌};
ghost use Rattle.call_words.specs.Calls.{group_of_call, io_call};

use crate::call::Call;

impl Call {
    /// An equal read or write.
    pub(crate) fn copy_io(&self) -> Self
        requires { group_of_call self.now ≡ io_call }
        ensures { result ≡ self.now }
    {
        match self {
            Call::Read { fd, max } => Call::Read { fd: *fd, max: *max },
            Call::Write { fd, bytes } => Call::Write {
                fd: *fd,
                bytes: bytes.copy(),
            },
            _ => unreachable!(),
        }
    }
}
