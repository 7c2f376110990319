//! The calls on processes: begin, fork, exec, exit, wait, setsid, setpgid, ps and halt.
ghost use Rattle.std.specs.Prelude.{◌≡◌};
ghost use Rattle.call_words.specs.Calls.{group_of_call, proc_call};

use crate::call::Call;

/// The flags of a wait (wait4(2)), all off by default.
#[derive(Clone, Copy, Default, PartialEq, Eq)]
pub struct WaitFlags {
    /// `n`: a wait that would have to sleep answers 0 (WNOHANG).
    pub no_hang: bool,
    /// `u`: a child that was stopped counts too (WUNTRACED).
    pub untraced: bool,
}

impl Call {
    /// An equal call on processes.
    pub(crate) fn copy_proc(&self) -> Self
        requires { group_of_call self.now ≡ proc_call }
        ensures { result ≡ self.now }
    {
        match self {
            Call::Begin => Call::Begin,
            Call::Fork { note } => Call::Fork { note: note.copy() },
            Call::Exec { path, args } => Call::Exec {
                path: path.copy(),
                args: args.copy(),
            },
            Call::Exit { status } => Call::Exit { status: *status },
            Call::Wait { pid, flags } => Call::Wait {
                pid: *pid,
                flags: *flags,
            },
            Call::SetSid => Call::SetSid,
            Call::SetPgid { pid, group } => Call::SetPgid {
                pid: *pid,
                group: *group,
            },
            Call::Ps => Call::Ps,
            Call::Halt => Call::Halt,
            _ => unreachable!(),
        }
    }
}
