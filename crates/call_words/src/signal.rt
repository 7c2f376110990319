//! The calls on signals: kill, sigset, sigtake and pause.
ghost use Rattle.std.specs.Prelude.{◌≡◌};
ghost use Rattle.call_words.specs.Calls.{group_of_call, signal_call};

use crate::call::Call;

/// To whom a signal is sent (kill(2)): a process, or each process of a group.
#[derive(Clone, Copy, PartialEq, Eq)]
pub enum To {
    Pid(u32),
    Group(u32),
}

/// What a process does at a signal (sigaction(2)).
#[derive(Clone, Copy, PartialEq, Eq)]
pub enum Action {
    /// What the signal does by default.
    Normal,
    /// Nothing.
    Ignore,
    /// The signal becomes pending, and interrupts a sleep.
    Catch,
}

impl Call {
    /// An equal call on signals.
    pub(crate) fn copy_signal(&self) -> Self
        requires { group_of_call self.now ≡ signal_call }
        ensures { result ≡ self.now }
    {
        match self {
            Call::Kill { to, sig } => Call::Kill { to: *to, sig: *sig },
            Call::SigSet { sig, action } => Call::SigSet {
                sig: *sig,
                action: *action,
            },
            Call::SigTake => Call::SigTake,
            Call::Pause => Call::Pause,
            _ => unreachable!(),
        }
    }
}
