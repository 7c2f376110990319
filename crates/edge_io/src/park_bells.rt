//! Bells over parkers, one for each slot, and over the wakers of ports.
ghost use Rattle.std.specs.Prelude.{◌≡◌, ◌<◌, ◌≤◌, ℕ, vec_len};
ghost use Rattle.edge_io.specs.Outside.{count_after};

use crate::bells::{Bells, Ear};
use crossbeam_utils::sync::{Parker, Unparker};
use mio::Waker;
use std::alloc::{AllocError, Global};
use std::sync::atomic::{AtomicU64, Ordering};
use std::sync::{Mutex, Wait};
use sys_types::SLOTS;

/// The bell of a slot: a parker, which its worker alone takes, and what ends its wait.
#[derive(Drop)]
struct SlotBell {
    parker: Mutex<Parker>,
    unparker: Unparker,
}

impl SlotBell {
    /// A bell that was not rung.
    fn new(alloc: Global) -> Result<Self, AllocError> {
        let parker = Parker::new(alloc)?;
        let unparker = parker.unparker().clone()?;
        Ok(SlotBell {
            parker: Mutex::new(parker),
            unparker,
        })
    }
}

/// Bells for 32 slots, and for the lines that have a waker.
#[derive(Drop)]
pub struct ParkBells {
    slots: Vec<SlotBell>,
    lines: Vec<Option<Waker>>,
    faults: AtomicU64,
    ghost all_slots: { vec_len slots ≡ 32 },
}

impl ParkBells {
    /// Bells for 32 slots, and for the lines of these wakers, from line 0 on. Fails for want of memory alone.
    pub fn new(alloc: Global, lines: Vec<Option<Waker>>) -> Result<Self, AllocError> {
        let mut slots = Vec::with_capacity(alloc, SLOTS)?;
        for _ in 0..SLOTS {
            slots.push(SlotBell::new(alloc)?)?;
        }
        Ok(ParkBells {
            slots,
            lines,
            faults: AtomicU64::new(0),
        })
    }

    /// How often a port could not be woken.
    pub fn faults(&self) -> u64 {
        self.faults.load(Ordering::SeqCst)
    }
}

impl Bells for ParkBells {
    fn ring(&self, slot: u8) {
        self.slots[usize::from(slot)].unparker.unpark();
    }

    /// A line without a waker has no bell. A wake that fails is a fault.
    fn ring_line(&self, line: u8) {
        if let Some(Some(waker)) = self.lines.get(usize::from(line))
            && waker.wake().is_err()
        {
            self.faults.fetch_add(1, Ordering::SeqCst);
        }
    }

    fn wait<R: Wait>(&self, rt: &R, slot: u8, ear: &mut Ear) {
        self.slots[usize::from(slot)].parker.lock(rt).park(rt);
        ear.count_wait();
    }
}
