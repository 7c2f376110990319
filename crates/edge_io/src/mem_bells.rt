//! Bells in memory, which count how often they are rung, with a list of the rings that are to fail.
ghost use Rattle.std.specs.Prelude.{◌≡◌, ◌<◌};
ghost use Rattle.edge_io.specs.Outside.{count_after};

use crate::bells::{Bells, Ear};
use std::sync::Wait;
use std::sync::atomic::{AtomicU64, Ordering};
use std::thread;

/// Bells in memory. Their waits come to an end at once.
#[derive(Drop)]
pub struct MemBells {
    calls: AtomicU64,
    failing: Vec<u64>,
    rings: AtomicU64,
    faults: AtomicU64,
}

impl MemBells {
    /// Bells of whose rings, at slots and lines together, those with these numbers fail. The first has number 1.
    pub fn new(failing: Vec<u64>) -> Self {
        MemBells {
            calls: AtomicU64::new(0),
            failing,
            rings: AtomicU64::new(0),
            faults: AtomicU64::new(0),
        }
    }

    /// How often a bell rang, at slots and lines together.
    pub fn rings(&self) -> u64 {
        self.rings.load(Ordering::SeqCst)
    }

    /// How many rings failed.
    pub fn faults(&self) -> u64 {
        self.faults.load(Ordering::SeqCst)
    }

    /// Counts a ring, or a fault where this ring's number is listed.
    fn count_ring(&self) {
        let number = self.calls.fetch_add(1, Ordering::SeqCst).wrapping_add(1);
        if self.failing.contains(&number) {
            self.faults.fetch_add(1, Ordering::SeqCst);
        } else {
            self.rings.fetch_add(1, Ordering::SeqCst);
        }
    }
}

impl Bells for MemBells {
    fn ring(&self, _slot: u8) {
        self.count_ring();
    }

    fn ring_line(&self, _line: u8) {
        self.count_ring();
    }

    fn wait<R: Wait>(&self, _rt: &R, _slot: u8, ear: &mut Ear) {
        ear.count_wait();
        thread::yield_now();
    }
}
