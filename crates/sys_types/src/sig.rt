//! Signals.
ghost use Rattle.std.specs.Prelude.{◌≡◌, ◌≤◌, length};
ghost use Rattle.sys_types.specs.Signals.{sig_number, sig_word, signals};

/// How many signals there are.
pub const SIGNALS: usize = 14;

/// A signal, with the number of signal(3).
#[derive(Clone, Copy, PartialEq, Eq)]
pub enum Sig {
    /// The line was lost.
    HUP = 1,
    /// Interrupted from the line.
    INT = 2,
    /// Quit from the line.
    QUIT = 3,
    /// Ended, whatever the process does.
    KILL = 9,
    /// A write to a pipe without a reader.
    PIPE = 13,
    /// Asked to end.
    TERM = 15,
    /// Stopped, whatever the process does.
    STOP = 17,
    /// Stopped from the line.
    TSTP = 18,
    /// Continued after a stop.
    CONT = 19,
    /// A child ended or stopped.
    CHLD = 20,
    /// A read in the background of the line.
    TTIN = 21,
    /// A write in the background of the line.
    TTOU = 22,
    /// For the user.
    USR1 = 30,
    /// For the user.
    USR2 = 31,
}

impl Sig {
    /// All signals, in the order of their numbers.
    pub fn all() -> [Sig; SIGNALS]
        ensures { result ≡ signals }
    {
        [
            Sig::HUP,
            Sig::INT,
            Sig::QUIT,
            Sig::KILL,
            Sig::PIPE,
            Sig::TERM,
            Sig::STOP,
            Sig::TSTP,
            Sig::CONT,
            Sig::CHLD,
            Sig::TTIN,
            Sig::TTOU,
            Sig::USR1,
            Sig::USR2,
        ]
    }

    /// The signal's number: 1 to 31.
    pub fn number(self) -> u8
        ensures number { result ≡ sig_number self }
        ensures most { result ≤ 31 }
    {
        self as u8
    }

    /// The word that is printed of this signal: at most 4 bytes.
    pub fn word(self) -> &'static [u8]
        ensures word { result.now ≡ sig_word self }
        ensures most { length result.now ≤ 4 }
    {
        match self {
            Sig::HUP => b"HUP",
            Sig::INT => b"INT",
            Sig::QUIT => b"QUIT",
            Sig::KILL => b"KILL",
            Sig::PIPE => b"PIPE",
            Sig::TERM => b"TERM",
            Sig::STOP => b"STOP",
            Sig::TSTP => b"TSTP",
            Sig::CONT => b"CONT",
            Sig::CHLD => b"CHLD",
            Sig::TTIN => b"TTIN",
            Sig::TTOU => b"TTOU",
            Sig::USR1 => b"USR1",
            Sig::USR2 => b"USR2",
        }
    }
}
