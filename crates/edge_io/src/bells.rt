//! The bells at which the workers of slots wait, and the ear that counts the waits.
ghost use Rattle.std.specs.Prelude.{◌≡◌, ◌<◌};
ghost use Rattle.edge_io.specs.Outside.{count_after};

use std::marker::Model;
use std::sync::Wait;

/// How often a worker waited at its bell. At 2^64 - 1 the count stays. Only the bells of this crate raise it.
#[derive(Drop)]
pub struct Ear {
    waits: u64,
}

impl Model for Ear {
    ghost use Rattle.std.specs.Prelude.{ℕ};

    ghost Value = { ℕ };

    ghost view = { λ e. e.waits };
}

impl Ear {
    /// The ear of a worker that did not wait yet.
    pub fn new() -> Self
        ensures { result ≡ 0 }
    {
        Ear { waits: 0 }
    }

    /// How often its worker waited.
    pub fn count(&self) -> u64
        ensures { result ≡ self.now }
    {
        self.waits
    }

    /// Counts one wait more.
    pub(crate) fn count_wait(&mut self)
        ensures { self.new ≡ count_after self.old 1 }
    {
        self.waits = self.waits.saturating_add(1);
    }
}

/// A bell for each of 32 slots and for each of 8 lines. Nothing is claimed of waking. Where bells are shared among
/// threads they are `Sync` too.
pub trait Bells {
    /// Rings the bell of a slot, below 32: ends the wait of its worker, or its next one.
    fn ring(&self, slot: u8)
        requires { slot < 32 };

    /// Rings the bell of a line, below 8: ends the wait of its port, or its next one.
    fn ring_line(&self, line: u8)
        requires { line < 8 };

    /// Waits until the bell of a slot, below 32, is rung. The ear counts the wait.
    fn wait<R: Wait>(&self, rt: &R, slot: u8, ear: &mut Ear)
        requires { slot < 32 }
        ensures { ear.new ≡ count_after ear.old 1 };
}
