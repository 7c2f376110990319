//! Open files, and what refers to them.
ghost use Rattle.std.specs.Prelude.{◌≡◌};
ghost use Rattle.fd_table.specs.Opens.{same_target};

use sys_types::Node;

/// What was opened.
#[derive(Clone, Copy, PartialEq, Eq)]
pub enum Target {
    /// A regular file or a device, by its node.
    File(Node),
    /// The end of a pipe that is read, by the pipe's number.
    PipeRead(u16),
    /// The end of a pipe that is written, by the pipe's number.
    PipeWrite(u16),
    /// A terminal line, and which of its openings it was: a line that was revoked since is another opening.
    Line { line: u8, opened: u64 },
}

impl Target {
    /// Whether both are the same; of a line only where they are the same opening.
    pub fn is_same(&self, other: &Target) -> bool
        ensures { result ≡ same_target self.now other.now }
    {
        match (self, other) {
            (Target::File(node), Target::File(other)) => node.number() == other.number(),
            (Target::PipeRead(pipe), Target::PipeRead(other)) => pipe == other,
            (Target::PipeWrite(pipe), Target::PipeWrite(other)) => pipe == other,
            (
                Target::Line { line, opened },
                Target::Line {
                    line: other,
                    opened: since,
                },
            ) => line == other && opened == since,
            _ => false,
        }
    }
}

/// An open file (open(2)): what was opened, and for what.
#[derive(Clone, Copy, PartialEq, Eq)]
pub struct Open {
    pub target: Target,
    pub readable: bool,
    pub writable: bool,
    /// Each write goes to the end (O_APPEND).
    pub append: bool,
    /// No read or write waits (O_NONBLOCK).
    pub nonblock: bool,
    /// How many bytes before the place of the next read or write.
    pub offset: u32,
}

/// What an open number refers to: an entry of the table of open files, and whether the number is closed at an execve(2).
#[derive(Clone, Copy)]
pub struct Descriptor {
    pub entry: u16,
    pub on_exec: bool,
}
