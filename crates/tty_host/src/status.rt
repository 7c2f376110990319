//! How a command ends.
ghost use Rattle.std.specs.Prelude.{◌≡◌};
ghost use Rattle.tty_host.specs.Ends.{code_of};

/// How a command ends: the status of the program.
#[derive(Clone, Copy, PartialEq, Eq)]
pub enum Status {
    /// 0: the input was read to its end.
    Done,
    /// 1: the words have none of the forms.
    Usage,
    /// 2: a bad line.
    Input,
    /// 3: a source failed.
    ReadFault,
    /// 4: the sink failed.
    WriteFault,
    /// 5: no memory was left.
    Memory,
    /// 6: one event more was asked than a run has.
    Full,
    /// 8: no worker could be started.
    NoWorker,
}

impl Status {
    /// The exit status of the program.
    pub fn code(self) -> u8
        ensures { result ≡ code_of self }
    {
        match self {
            Status::Done => 0,
            Status::Usage => 1,
            Status::Input => 2,
            Status::ReadFault => 3,
            Status::WriteFault => 4,
            Status::Memory => 5,
            Status::Full => 6,
            Status::NoWorker => 8,
        }
    }
}
