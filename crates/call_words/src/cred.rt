//! The calls on who asks: setproclabel, ident, setcred and umask.
ghost use Rattle.std.specs.Prelude.{◌≡◌};
ghost use Rattle.call_words.specs.Calls.{group_of_call, cred_call};

use crate::call::Call;

impl Call {
    /// An equal call on who asks.
    pub(crate) fn copy_cred(&self) -> Self
        requires { group_of_call self.now ≡ cred_call }
        ensures { result ≡ self.now }
    {
        match self {
            Call::SetProcLabel { subject } => Call::SetProcLabel {
                subject: subject.copy(),
            },
            Call::Ident => Call::Ident,
            Call::SetCred { cred } => Call::SetCred { cred: cred.copy() },
            Call::Umask { mode } => Call::Umask { mode: *mode },
            _ => unreachable!(),
        }
    }
}
