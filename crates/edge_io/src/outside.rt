//! The traits of the outside.
ghost use Rattle.std.specs.Prelude.{ℕ, ◌≡◌, ◌<◌, ◌≤◌, List, length, take, Option, IfOk, OnOk, OnErr};
ghost use Rattle.edge_io.specs.Outside.{Rose, Gave, Appended, count_after};

/// The outside failed: the count of faults rose. At 2^64 - 1 that count stays, and counts as risen.
#[derive(Clone, Copy, Debug, PartialEq, Eq)]
pub struct Failed;

impl Failed {
    /// Counts one fault more in `faults`, which stays at its last value, and is the answer that goes with it.
    pub(crate) fn count_in(faults: &mut u64) -> Failed
        ensures count { faults.new ≡ count_after faults.old 1 }
        ensures grows { faults.old ≤ faults.new }
    {
        *faults = faults.saturating_add(1);
        Failed
    }
}

/// Where bytes come from.
pub trait Source {
    /// How many faults there were.
    ghost faults: { Self → ℕ };
    /// What is left to be read, where the source tells it.
    ghost left: { Self → Option (List ℕ) };

    /// Reads some bytes into the front of `into`, and answers how many. Zero is the end.
    ///
    /// `Failed` exactly where the count of faults rose; then what is left is as it was.
    fn read(&mut self, into: &mut [u8]) -> Result<usize, Failed>
        requires { 0 < length into.old }
        ensures within { IfOk result (λ n. n ≤ length into.old) }
        ensures gave { IfOk result (λ n. Gave (left self.old) (left self.new) into.new n) }
        ensures failed { OnErr result (Rose (faults self.old) (faults self.new)) }
        ensures kept { OnErr result (left self.new ≡ left self.old) }
        ensures no_fault { OnOk result (faults self.new ≡ faults self.old) }
        ensures grows { faults self.old ≤ faults self.new };
}

/// Where bytes go.
pub trait Sink {
    /// How many faults there were.
    ghost faults: { Self → ℕ };
    /// What was written, where the sink tells it.
    ghost written: { Self → Option (List ℕ) };

    /// Writes some bytes from the front of `from`, and answers how many: at least one.
    ///
    /// `Failed` exactly where the count of faults rose; then what was written is as it was.
    fn write(&mut self, from: &[u8]) -> Result<usize, Failed>
        requires { 0 < length from.now }
        ensures some { IfOk result (λ n. 0 < n) }
        ensures within { IfOk result (λ n. n ≤ length from.now) }
        ensures took { IfOk result (λ n. Appended (written self.old) (written self.new) (take n from.now)) }
        ensures failed { OnErr result (Rose (faults self.old) (faults self.new)) }
        ensures kept { OnErr result (written self.new ≡ written self.old) }
        ensures no_fault { OnOk result (faults self.new ≡ faults self.old) }
        ensures grows { faults self.old ≤ faults self.new };
}
