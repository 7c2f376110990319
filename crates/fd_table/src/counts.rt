//! How many numbers refer to each entry.
ghost use Rattle.std.specs.Prelude.{◌≡◌, ℕ, ◌+◌, ◌-◌, ◌<◌, ◌≤◌, length, count_by, slice_index, slice_set, replicate, IfOk};
ghost use Rattle.sys_types.specs.declared.limits.TheConstants.{OPEN_FILES};
ghost use Rattle.fd_table.specs.Shared.{refers};

use crate::open::Descriptor;
use std::alloc::{AllocError, Global};
use std::marker::Model;
use sys_types::OPEN_FILES;

/// For each of the 256 entries a count. Contracts see the list of them.
#[derive(Drop)]
pub(crate) struct Counts {
    counts: Vec<u16>,
}

impl Model for Counts {
    ghost use Rattle.std.specs.Prelude.{◌≡◌, ℕ, List, length};
    ghost use Rattle.sys_types.specs.declared.limits.TheConstants.{OPEN_FILES};

    ghost Value = { List ℕ };

    ghost view = { λ c. c.counts.items };

    ghost invariant = { λ c. length c.counts.items ≡ OPEN_FILES };
}

impl Counts {
    /// Every count is 0.
    pub(crate) fn new(alloc: Global) -> Result<Counts, AllocError>
        ensures { IfOk result (λ counts. counts ≡ replicate OPEN_FILES 0) }
    {
        Ok(Counts {
            counts: vec![in alloc; 0; OPEN_FILES]?,
        })
    }

    /// Counts one more. The count is below 65,535.
    pub(crate) fn raise(&mut self, entry: u16)
        requires entry { entry < OPEN_FILES }
        requires fits { slice_index self.old entry + 1 < 65536 }
        ensures counts { self.new ≡ slice_set self.old entry (slice_index self.old entry + 1) }
        ensures size { length self.old ≡ OPEN_FILES }
    {
        self.counts[usize::from(entry)] += 1;
    }

    /// Counts one less, and says how many that leaves. The count is not 0.
    pub(crate) fn lower(&mut self, entry: u16) -> u16
        requires entry { entry < OPEN_FILES }
        requires some { 0 < slice_index self.old entry }
        ensures counts { self.new ≡ slice_set self.old entry (slice_index self.old entry - 1) }
        ensures left { result ≡ slice_index self.old entry - 1 }
    {
        let left = self.counts[usize::from(entry)] - 1;
        self.counts[usize::from(entry)] = left;
        left
    }

    /// Counts, for each entry, the numbers of a row that refer to it once more.
    pub(crate) fn raise_all(&mut self, row: &[Option<Descriptor>])
        requires there { (entry : ℕ) → 0 < count_by (refers entry) row.now → entry < OPEN_FILES }
        requires fits { (entry : ℕ) → slice_index self.old entry + length row.now < 65536 }
        ensures size { length self.new ≡ length self.old }
        ensures counts { (entry : ℕ) → slice_index self.new entry ≡ slice_index self.old entry + count_by (refers entry) row.now }
    {
        for descriptor in row {
            if let Some(descriptor) = descriptor {
                self.raise(descriptor.entry);
            }
        }
    }
}
