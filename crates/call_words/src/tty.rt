//! The calls on terminal lines: setctty, tcgetattr, tcsetattr, tcflush, tcdrain, tcsetpgrp, tcgetpgrp, fdname and revoke.
ghost use Rattle.std.specs.Prelude.{◌≡◌};
ghost use Rattle.call_words.specs.Calls.{group_of_call, tty_call};

use crate::call::Call;

/// When new settings of a line act (tcsetattr(3)).
#[derive(Clone, Copy, PartialEq, Eq)]
pub enum When {
    /// At once (TCSANOW).
    Now,
    /// At once, and what came in before is let go (the input part of TCSAFLUSH).
    Flush,
}

/// Which queues of a line a flush empties (tcflush(3)).
#[derive(Clone, Copy, PartialEq, Eq)]
pub enum WhichQueue {
    /// The input (TCIFLUSH).
    In,
    /// The output (TCOFLUSH).
    Out,
    /// Both (TCIOFLUSH).
    Both,
}

impl Call {
    /// An equal call on terminal lines.
    pub(crate) fn copy_tty(&self) -> Self
        requires { group_of_call self.now ≡ tty_call }
        ensures { result ≡ self.now }
    {
        match self {
            Call::SetCtty { fd } => Call::SetCtty { fd: *fd },
            Call::TcGetAttr { fd } => Call::TcGetAttr { fd: *fd },
            Call::TcSetAttr { fd, when, termios } => Call::TcSetAttr {
                fd: *fd,
                when: *when,
                termios: *termios,
            },
            Call::TcFlush { fd, which } => Call::TcFlush {
                fd: *fd,
                which: *which,
            },
            Call::TcDrain { fd } => Call::TcDrain { fd: *fd },
            Call::TcSetPgrp { fd, group } => Call::TcSetPgrp {
                fd: *fd,
                group: *group,
            },
            Call::TcGetPgrp { fd } => Call::TcGetPgrp { fd: *fd },
            Call::FdName { fd } => Call::FdName { fd: *fd },
            Call::Revoke { path } => Call::Revoke { path: path.copy() },
            _ => unreachable!(),
        }
    }
}
