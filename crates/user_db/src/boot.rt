//! What a machine is told before its first event, and what the lines of its text say so far.
ghost use Rattle.std.specs.Prelude.{◌≡◌, IfOk};
ghost use Rattle.user_db.specs.Boot.{no_lines, with_line, boot_of_draft};

use crate::fault::NoMemory;
use crate::line::BootLine;
use crate::user::Users;
use std::alloc::Global;
use sys_types::LINES;

/// What a machine is told before its first event.
#[derive(Drop)]
pub struct Boot {
    /// Whether each read and write of a file or a line checks the labels anew, and not the open
    /// alone.
    pub recheck: bool,
    /// The users, in the order of the text.
    pub users: Users,
    /// For each of the 8 terminal lines whether someone may log in there (ttys(5)).
    pub on: [bool; LINES],
}

impl Boot {
    /// An equal boot.
    pub fn copy(&self, alloc: Global) -> Result<Self, NoMemory>
        ensures { IfOk result (λ boot. boot ≡ self.now) }
    {
        let users = self.users.copy(alloc)?;
        Ok(Boot {
            recheck: self.recheck,
            users,
            on: self.on,
        })
    }
}

/// What the lines of a boot text say so far.
#[derive(Drop)]
pub(crate) struct Draft {
    /// What the line of recheck says, where there is one.
    pub(crate) recheck: Option<bool>,
    pub(crate) users: Users,
}

impl Draft {
    /// What no lines say.
    pub(crate) fn new(alloc: Global) -> Self
        ensures { result ≡ no_lines }
    {
        Draft {
            recheck: None,
            users: Users::new(alloc),
        }
    }

    /// The same with one line more. `None` exactly where a line before it has said that.
    pub(crate) fn with_line(self, line: BootLine) -> Option<Self>
        ensures { result ≡ with_line line self }
    {
        match line {
            BootLine::Recheck(on) => {
                if self.recheck.is_some() {
                    return None;
                }
                Some(Draft {
                    recheck: Some(on),
                    users: self.users,
                })
            }
        }
    }

    /// What the whole text says. What no line speaks of is off.
    pub(crate) fn finish(self) -> Boot
        ensures { result ≡ boot_of_draft self }
    {
        Boot {
            recheck: self.recheck.unwrap_or(false),
            users: self.users,
            on: [false; LINES],
        }
    }
}
