//! The port of a terminal line: what is heard of its other side, and what is sent there.
ghost use Rattle.std.specs.Prelude.{◌≡◌, ℕ, ◌<◌, ◌≤◌, List, length, take, Option, IfOk, OnOk, OnErr};
ghost use Rattle.edge_io.specs.Outside.{Rose, Appended};
ghost use Rattle.edge_io.specs.Port.{FitsRoom, inputs, end_count_after};

use crate::outside::Failed;
use std::sync::Wait;

/// What a wait answers.
#[derive(Clone, Copy, Debug, PartialEq, Eq)]
pub enum Heard {
    /// The wait came to an end, and nothing was heard.
    Quiet,
    /// The carrier is up: a client came.
    Up,
    /// So many bytes came, at least one.
    Bytes(usize),
    /// The carrier is down: the client went.
    Down,
    /// Nothing will come any more.
    Ended,
}

/// One thing that comes in at a line.
#[derive(Clone, Copy, Debug, PartialEq, Eq)]
pub enum LineInput {
    /// The carrier came up.
    Up,
    /// A byte came.
    Byte(u8),
    /// The carrier went down.
    Down,
}

/// The other side of one terminal line. Where ports are handed to threads they are `Send` too.
pub trait LinePort: Drop {
    ghost use Rattle.edge_io.specs.declared.port.LineInput.{LineInput};

    /// How many faults there were.
    ghost faults: { Self → ℕ };
    /// The carrier changes and bytes that waits answered, in order, where the port tells them.
    ghost heard: { Self → Option (List LineInput) };
    /// The bytes that were sent, in order, where the port tells them.
    ghost sent: { Self → Option (List ℕ) };
    /// How often Ended was answered. At 2^64 - 1 the count stays.
    ghost end_count: { Self → ℕ };

    /// Waits until there is something to hear, or until the wait is ended from outside. Bytes are put at the front of
    /// `into`: at least one, at most all of its places.
    ///
    /// `Failed` exactly where the count of faults rose; then what was heard is as it was. What was sent stays.
    fn wait<R: Wait>(&mut self, rt: &R, into: &mut [u8]) -> Result<Heard, Failed>
        requires { 0 < length into.old }
        ensures fits { IfOk result (λ h. FitsRoom h (length into.old)) }
        ensures heard { IfOk result (λ h. Appended (heard self.old) (heard self.new) (inputs h into.new)) }
        ensures end { IfOk result (λ h. end_count self.new ≡ end_count_after h (end_count self.old)) }
        ensures same_sent { sent self.new ≡ sent self.old }
        ensures failed { OnErr result (Rose (faults self.old) (faults self.new)) }
        ensures kept { OnErr result (heard self.new ≡ heard self.old) }
        ensures same_end { OnErr result (end_count self.new ≡ end_count self.old) }
        ensures no_fault { OnOk result (faults self.new ≡ faults self.old) }
        ensures grows { faults self.old ≤ faults self.new };

    /// Sends some bytes from the front of `from`, and answers how many: at least one. It may wait for room.
    ///
    /// `Failed` exactly where the count of faults rose; then what was sent is as it was. What was heard stays.
    fn send<R: Wait>(&mut self, rt: &R, from: &[u8]) -> Result<usize, Failed>
        requires { 0 < length from.now }
        ensures some { IfOk result (λ n. 0 < n) }
        ensures within { IfOk result (λ n. n ≤ length from.now) }
        ensures took { IfOk result (λ n. Appended (sent self.old) (sent self.new) (take n from.now)) }
        ensures same_heard { heard self.new ≡ heard self.old }
        ensures same_end { end_count self.new ≡ end_count self.old }
        ensures failed { OnErr result (Rose (faults self.old) (faults self.new)) }
        ensures kept { OnErr result (sent self.new ≡ sent self.old) }
        ensures no_fault { OnOk result (faults self.new ≡ faults self.old) }
        ensures grows { faults self.old ≤ faults self.new };
}
