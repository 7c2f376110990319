//! One step of the kernel, and what it answers.
ghost use Rattle.std.specs.Prelude.{◌≡◌, ◌≤◌, [], length};
ghost use Rattle.call_words.specs.Events.{reason_word};

use crate::call::Call;
use arrayvec::ArrayVec;
use sys_types::{Image, LINES, Piece, Rule, SLOTS, Sig, TextBuf};

/// One step of the kernel, taken in one turn.
///
/// Each use has these conditions: a slot is below 32, a line below 8, `max` is 1 to 512, and a mode
/// that the call names is at most octal 777.
#[derive(Drop)]
pub enum Event {
    /// The process of a slot asks a call.
    Call { slot: u8, call: Call },
    /// The pending call of a slot is tried again.
    Again { slot: u8 },
    /// A byte arrives at a line.
    Byte { line: u8, byte: u8 },
    /// The carrier of a line comes, or is lost.
    Carrier { line: u8, up: bool },
    /// At most `max` bytes of a line's output are taken for sending.
    Take { line: u8, max: u16 },
    /// The other side of a line is gone for good.
    Ended { line: u8 },
}

impl Event {
    /// An equal event.
    pub fn copy(&self) -> Self
        ensures { result ≡ self.now }
    {
        match self {
            Event::Call { slot, call } => Event::Call {
                slot: *slot,
                call: call.copy(),
            },
            Event::Again { slot } => Event::Again { slot: *slot },
            Event::Byte { line, byte } => Event::Byte {
                line: *line,
                byte: *byte,
            },
            Event::Carrier { line, up } => Event::Carrier {
                line: *line,
                up: *up,
            },
            Event::Take { line, max } => Event::Take {
                line: *line,
                max: *max,
            },
            Event::Ended { line } => Event::Ended { line: *line },
        }
    }
}

/// What became of a child (wait4(2)).
#[derive(Clone, Copy, PartialEq, Eq)]
pub enum How {
    /// It exited with this status.
    Exit(u8),
    /// This signal ended it.
    Signal(Sig),
    /// This signal stopped it.
    Stop(Sig),
}

/// An exit with status 0: for the unused places of an `ArrayVec`.
impl Default for How {
    fn default() -> Self {
        How::Exit(0)
    }
}

/// For what a pending call sleeps.
#[derive(Clone, Copy, PartialEq, Eq)]
pub enum Reason {
    /// For bytes to read.
    Read,
    /// For room to write.
    Write,
    /// For the carrier of a line.
    Carrier,
    /// For news of a child.
    Child,
    /// For a caught signal.
    Pause,
    /// For all output of a line to be taken.
    Drain,
    /// Until the process is continued.
    Stop,
    /// For a process in the slot.
    Begin,
}

impl Reason {
    /// The word of the reason.
    pub fn word(self) -> &'static [u8]
        ensures word { result.now ≡ reason_word self }
        ensures most { length result.now ≤ 7 }
    {
        match self {
            Reason::Read => b"read",
            Reason::Write => b"write",
            Reason::Carrier => b"carrier",
            Reason::Child => b"child",
            Reason::Pause => b"pause",
            Reason::Drain => b"drain",
            Reason::Stop => b"stop",
            Reason::Begin => b"begin",
        }
    }
}

/// What a call is answered.
#[derive(Drop)]
pub enum Reply {
    /// Done, with a number: a descriptor, a count, a pid, or 0.
    Num(u32),
    /// The two descriptors of a pipe: the one to read, and the one to write.
    Pair(u8, u8),
    /// What became of the child of this pid.
    Child { pid: u32, how: How },
    /// The program that the process runs, and its arguments.
    Image { image: Image, args: Piece },
    /// The bytes that a read gives.
    Bytes(Piece),
    /// What a call tells as a text: names, attributes, a list or a label.
    Text(TextBuf),
    /// Refused, by the first rule that denies.
    Denied(Rule),
    /// The slot has no running process, or the system is halted.
    Gone,
}

impl Reply {
    /// An equal reply.
    pub fn copy(&self) -> Self
        ensures { result ≡ self.now }
    {
        match self {
            Reply::Num(number) => Reply::Num(*number),
            Reply::Pair(read, write) => Reply::Pair(*read, *write),
            Reply::Child { pid, how } => Reply::Child {
                pid: *pid,
                how: *how,
            },
            Reply::Image { image, args } => Reply::Image {
                image: *image,
                args: args.copy(),
            },
            Reply::Bytes(bytes) => Reply::Bytes(bytes.copy()),
            Reply::Text(text) => Reply::Text(text.copy()),
            Reply::Denied(rule) => Reply::Denied(*rule),
            Reply::Gone => Reply::Gone,
        }
    }
}

/// What an event is answered.
#[derive(Drop)]
pub enum Decision {
    /// A call is answered.
    Answer(Reply),
    /// The call sleeps, and is pending from then on.
    Sleep(Reason),
    /// These bytes were taken from a line's output.
    Taken(Piece),
    /// The event was noted.
    Noted,
}

impl Decision {
    /// Refused by a rule.
    pub fn denied(rule: Rule) -> Self
        ensures { result ≡ Decision.Answer (Reply.Denied rule) }
    {
        Decision::Answer(Reply::Denied(rule))
    }

    /// Done, with a number.
    pub fn number(number: u32) -> Self
        ensures { result ≡ Decision.Answer (Reply.Num number) }
    {
        Decision::Answer(Reply::Num(number))
    }

    /// Done, with nothing to tell: the number 0.
    pub fn nothing() -> Self
        ensures { result ≡ Decision.Answer (Reply.Num 0) }
    {
        Decision::number(0)
    }

    /// Done, with bytes.
    pub fn bytes(bytes: Piece) -> Self
        ensures { result ≡ Decision.Answer (Reply.Bytes bytes) }
    {
        Decision::Answer(Reply::Bytes(bytes))
    }

    /// Done, with a text.
    pub fn text(text: TextBuf) -> Self
        ensures { result ≡ Decision.Answer (Reply.Text text) }
    {
        Decision::Answer(Reply::Text(text))
    }

    /// An equal decision.
    pub fn copy(&self) -> Self
        ensures { result ≡ self.now }
    {
        match self {
            Decision::Answer(reply) => Decision::Answer(reply.copy()),
            Decision::Sleep(reason) => Decision::Sleep(*reason),
            Decision::Taken(bytes) => Decision::Taken(bytes.copy()),
            Decision::Noted => Decision::Noted,
        }
    }
}

/// The wakeup list of an event (wakeup(9)), each part in rising order: the slots whose pending call an
/// `again` would not leave asleep, and the lines that have output to take.
#[derive(Drop)]
pub struct Wakes {
    pub slots: ArrayVec<u8, SLOTS>,
    pub lines: ArrayVec<u8, LINES>,
}

impl Wakes {
    /// Nobody.
    pub fn none() -> Self
        ensures slots { result.slots.items ≡ [] }
        ensures lines { result.lines.items ≡ [] }
    {
        Wakes {
            slots: ArrayVec::new(),
            lines: ArrayVec::new(),
        }
    }

    /// An equal list.
    pub fn copy(&self) -> Self
        ensures slots { result.slots.items ≡ self.now.slots.items }
        ensures lines { result.lines.items ≡ self.now.lines.items }
    {
        let mut copied = Wakes::none();
        let _ = copied.slots.try_extend_from_slice(self.slots.as_slice());
        let _ = copied.lines.try_extend_from_slice(self.lines.as_slice());
        copied
    }
}
