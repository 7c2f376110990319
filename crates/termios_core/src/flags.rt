//! The flags of a terminal, each with its word.
ghost use Rattle.std.specs.Prelude.{◌≡◌, ◌≤◌, [], length};
ghost use Rattle.termios_core.specs.Flags.{word, is_on, flags_of, with_flag};
ghost use Rattle.termios_core.specs.Reading.{flag_of};

/// A flag of a terminal by its name in termios(4). `Flags` says what each does.
#[derive(Clone, Copy, PartialEq, Eq)]
pub enum Flag {
    Istrip,
    Inlcr,
    Igncr,
    Icrnl,
    Ixon,
    Opost,
    Onlcr,
    Ocrnl,
    Clocal,
    Hupcl,
    Isig,
    Icanon,
    Echo,
    Echoe,
    Echok,
    Echonl,
    Echoctl,
    Noflsh,
    Tostop,
}

/// The flags of a terminal (termios(4)), nineteen in all.
#[derive(Clone, Copy, PartialEq, Eq)]
pub struct Flags {
    /// Input bytes are cut to seven bits.
    pub istrip: bool,
    /// A newline that is read becomes a carriage return.
    pub inlcr: bool,
    /// Carriage returns that are read are dropped.
    pub igncr: bool,
    /// A carriage return that is read becomes a newline.
    pub icrnl: bool,
    /// STOP and START stop output and let it go on.
    pub ixon: bool,
    /// Output is changed as `onlcr` and `ocrnl` say.
    pub opost: bool,
    /// A newline that is written becomes a carriage return and a newline.
    pub onlcr: bool,
    /// A carriage return that is written becomes a newline.
    pub ocrnl: bool,
    /// Carrier is not looked at.
    pub clocal: bool,
    /// Kept here. What it does is for the device to say.
    pub hupcl: bool,
    /// INTR, QUIT and SUSP send signals.
    pub isig: bool,
    /// Input is edited line by line.
    pub icanon: bool,
    /// Input is echoed.
    pub echo: bool,
    /// ERASE wipes the byte from the screen.
    pub echoe: bool,
    /// KILL echoes a newline.
    pub echok: bool,
    /// A newline is echoed even without `echo`.
    pub echonl: bool,
    /// Control characters are echoed as `^` and a letter.
    pub echoctl: bool,
    /// INTR, QUIT and SUSP leave the queues as they are.
    pub noflsh: bool,
    /// Output of a background process stops it.
    pub tostop: bool,
}

impl Flag {
    /// Every flag, in the order in which they are printed.
    pub const ALL: [Flag; 19] = [
        Flag::Istrip,
        Flag::Inlcr,
        Flag::Igncr,
        Flag::Icrnl,
        Flag::Ixon,
        Flag::Opost,
        Flag::Onlcr,
        Flag::Ocrnl,
        Flag::Clocal,
        Flag::Hupcl,
        Flag::Isig,
        Flag::Icanon,
        Flag::Echo,
        Flag::Echoe,
        Flag::Echok,
        Flag::Echonl,
        Flag::Echoctl,
        Flag::Noflsh,
        Flag::Tostop,
    ];

    /// The word of the flag (stty(1)): at most 7 letters.
    pub fn word(self) -> &'static [u8]
        ensures text { result.now ≡ word self }
        ensures most { length result.now ≤ 7 }
    {
        match self {
            Flag::Istrip => b"istrip",
            Flag::Inlcr => b"inlcr",
            Flag::Igncr => b"igncr",
            Flag::Icrnl => b"icrnl",
            Flag::Ixon => b"ixon",
            Flag::Opost => b"opost",
            Flag::Onlcr => b"onlcr",
            Flag::Ocrnl => b"ocrnl",
            Flag::Clocal => b"clocal",
            Flag::Hupcl => b"hupcl",
            Flag::Isig => b"isig",
            Flag::Icanon => b"icanon",
            Flag::Echo => b"echo",
            Flag::Echoe => b"echoe",
            Flag::Echok => b"echok",
            Flag::Echonl => b"echonl",
            Flag::Echoctl => b"echoctl",
            Flag::Noflsh => b"noflsh",
            Flag::Tostop => b"tostop",
        }
    }

    /// The flag of a word (stty(1)), and `None` where no flag has it.
    pub fn of_word(word: &[u8]) -> Option<Flag>
        ensures { result ≡ flag_of word.now }
    {
        Flag::ALL.iter().copied().find(|flag| flag.word() == word)
    }
}

impl Flags {
    /// No flag is on.
    pub fn none() -> Flags
        ensures { result ≡ flags_of [] }
    {
        Flags {
            istrip: false,
            inlcr: false,
            igncr: false,
            icrnl: false,
            ixon: false,
            opost: false,
            onlcr: false,
            ocrnl: false,
            clocal: false,
            hupcl: false,
            isig: false,
            icanon: false,
            echo: false,
            echoe: false,
            echok: false,
            echonl: false,
            echoctl: false,
            noflsh: false,
            tostop: false,
        }
    }

    /// Whether a flag is on.
    pub fn is_on(&self, flag: Flag) -> bool
        ensures { result ≡ is_on self.now flag }
    {
        match flag {
            Flag::Istrip => self.istrip,
            Flag::Inlcr => self.inlcr,
            Flag::Igncr => self.igncr,
            Flag::Icrnl => self.icrnl,
            Flag::Ixon => self.ixon,
            Flag::Opost => self.opost,
            Flag::Onlcr => self.onlcr,
            Flag::Ocrnl => self.ocrnl,
            Flag::Clocal => self.clocal,
            Flag::Hupcl => self.hupcl,
            Flag::Isig => self.isig,
            Flag::Icanon => self.icanon,
            Flag::Echo => self.echo,
            Flag::Echoe => self.echoe,
            Flag::Echok => self.echok,
            Flag::Echonl => self.echonl,
            Flag::Echoctl => self.echoctl,
            Flag::Noflsh => self.noflsh,
            Flag::Tostop => self.tostop,
        }
    }

    /// Puts a flag on or off, and leaves the others.
    pub fn set(&mut self, flag: Flag, on: bool)
        ensures { self.new ≡ with_flag self.old flag on }
    {
        match flag {
            Flag::Istrip => self.istrip = on,
            Flag::Inlcr => self.inlcr = on,
            Flag::Igncr => self.igncr = on,
            Flag::Icrnl => self.icrnl = on,
            Flag::Ixon => self.ixon = on,
            Flag::Opost => self.opost = on,
            Flag::Onlcr => self.onlcr = on,
            Flag::Ocrnl => self.ocrnl = on,
            Flag::Clocal => self.clocal = on,
            Flag::Hupcl => self.hupcl = on,
            Flag::Isig => self.isig = on,
            Flag::Icanon => self.icanon = on,
            Flag::Echo => self.echo = on,
            Flag::Echoe => self.echoe = on,
            Flag::Echok => self.echok = on,
            Flag::Echonl => self.echonl = on,
            Flag::Echoctl => self.echoctl = on,
            Flag::Noflsh => self.noflsh = on,
            Flag::Tostop => self.tostop = on,
        }
    }

    /// Equal flags.
    pub fn copy(&self) -> Flags
        ensures { result ≡ self.now }
    {
        *self
    }
}
