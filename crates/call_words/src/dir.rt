//! The calls on directories and the names in them: chdir, mkdir, rmdir, unlink and list.
ghost use Rattle.std.specs.Prelude.{◌≡◌};
ghost use Rattle.call_words.specs.Calls.{group_of_call, dir_call};

use crate::call::Call;

impl Call {
    /// An equal call on a directory.
    pub(crate) fn copy_dir(&self) -> Self
        requires { group_of_call self.now ≡ dir_call }
        ensures { result ≡ self.now }
    {
        match self {
            Call::Chdir { path } => Call::Chdir { path: path.copy() },
            Call::Mkdir { path, mode } => Call::Mkdir {
                path: path.copy(),
                mode: *mode,
            },
            Call::Rmdir { path } => Call::Rmdir { path: path.copy() },
            Call::Unlink { path } => Call::Unlink { path: path.copy() },
            Call::List { path, from } => Call::List {
                path: path.copy(),
                from: *from,
            },
            _ => unreachable!(),
        }
    }
}
