//! The settings of a terminal line.
ghost use Rattle.std.specs.Prelude.{◌≡◌, ◌↔◌, IsTrue};
ghost use Rattle.termios_core.specs.Termios.{numbers, cooked, raw, with_default_characters};

use crate::flags::Flags;

/// How many numbers a termios has: nine control characters, MIN and TIME.
pub(crate) const NUMBERS: usize = 11;

/// A control character that is disabled (termios(4), `_POSIX_VDISABLE`).
pub const DISABLED: u8 = 255;

/// The delete character of ASCII.
const DELETE: u8 = 127;

/// How far a control character is below its letter in ASCII.
const CONTROL: u8 = 64;

/// The settings of a terminal line (termios(4)).
#[derive(Clone, Copy, PartialEq, Eq)]
pub struct Termios {
    pub flags: Flags,
    /// Sends INT.
    pub intr: u8,
    /// Sends QUIT.
    pub quit: u8,
    /// Erases the last byte of the line.
    pub erase: u8,
    /// Erases the line.
    pub kill: u8,
    /// Ends the input.
    pub eof: u8,
    /// Ends a line beside the newline.
    pub eol: u8,
    /// Lets output go on.
    pub start: u8,
    /// Stops output.
    pub stop: u8,
    /// Sends TSTP.
    pub susp: u8,
    /// How many bytes a read waits for, without icanon.
    pub min: u8,
    /// How long such a read waits at most, in tenths of a second.
    pub time: u8,
}

impl Termios {
    /// Lines are edited and echoed, and signal characters act.
    pub fn cooked() -> Termios
        ensures { result ≡ cooked }
    {
        Termios::with_default_characters(Flags {
            icrnl: true,
            ixon: true,
            opost: true,
            onlcr: true,
            hupcl: true,
            isig: true,
            icanon: true,
            echo: true,
            echoe: true,
            echok: true,
            echoctl: true,
            ..Flags::none()
        })
    }

    /// Each byte passes as it is.
    pub fn raw() -> Termios
        ensures { result ≡ raw }
    {
        Termios::with_default_characters(Flags {
            clocal: true,
            ..Flags::none()
        })
    }

    fn with_default_characters(flags: Flags) -> Termios
        ensures { result ≡ with_default_characters flags }
    {
        Termios {
            flags,
            intr: b'C' - CONTROL,
            quit: b'\\' - CONTROL,
            erase: DELETE,
            kill: b'U' - CONTROL,
            eof: b'D' - CONTROL,
            eol: DISABLED,
            start: b'Q' - CONTROL,
            stop: b'S' - CONTROL,
            susp: b'Z' - CONTROL,
            min: 1,
            time: 0,
        }
    }

    /// Whether a line may have these settings. TIME is not supported.
    pub fn valid(&self) -> bool
        ensures { IsTrue result ↔ (self.now.time ≡ 0) }
    {
        self.time == 0
    }

    /// An equal termios.
    pub fn copy(&self) -> Termios
        ensures { result ≡ self.now }
    {
        *self
    }

    /// The control characters, MIN and TIME, in the order in which they are printed.
    pub(crate) fn numbers(&self) -> [u8; NUMBERS]
        ensures { result ≡ numbers self.now }
    {
        [
            self.intr, self.quit, self.erase, self.kill, self.eof, self.eol, self.start, self.stop,
            self.susp, self.min, self.time,
        ]
    }
}
