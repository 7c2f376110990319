//! A small machine on which what stands over machines is tried.
ghost use Rattle.std.specs.Prelude.{◌≡◌};
ghost use Rattle.trail_core.specs.Tally.{sum_of, decision_at, MustWait};

use crate::machine::{Machine, NoMemory};
use std::marker::Model;

/// What a tally may be asked, each at any time. None of it wants memory.
#[derive(Clone, Copy)]
pub enum TallyEvent {
    /// Adds a number, modulo 2^32.
    Add(u8),
    /// Takes a number away, or waits where the sum is less.
    Draw(u8),
}

/// What a tally answers.
#[derive(Clone, Copy, PartialEq, Eq)]
pub enum TallyDecision {
    /// The sum after the event.
    Sum(u32),
    /// The sum is less than what is drawn, and stays.
    Wait,
}

/// A sum, first 0, which contracts see as a number.
#[derive(Clone, Copy, Default)]
pub struct Tally {
    sum: u32,
}

impl Model for Tally {
    ghost use Rattle.std.specs.Prelude.{ℕ};

    ghost Value = { ℕ };

    ghost view = { λ tally. tally.sum };

    ghost inverse = { λ sum. record { sum = sum } };
}

impl Tally {
    /// A sum of 0.
    pub fn new() -> Self
        ensures { result ≡ 0 }
    {
        Tally { sum: 0 }
    }
}

impl Machine for Tally {
    type Event = TallyEvent;

    type Decision = TallyDecision;

    type Wakes = ();

    type Root = ();

    ghost root = { λ _. tt };

    ghost stands = { λ tally events. tally ≡ sum_of events };

    ghost may_ask = { λ _. Unit {0} };

    ghost needs_no_memory = { λ _. Unit {0} };

    ghost may_run_out = { λ _ _ _. ⊥ };

    ghost decision = { λ _ events event. decision_at (sum_of events) event };

    ghost wakeups = { λ _ _ _. tt };

    ghost is_idle = { λ _ events event. MustWait (sum_of events) event };

    ghost no_wakeups = { tt };

    fn step(
        &mut self,
        _pos: u32,
        event: &TallyEvent,
        _wakes: &mut (),
    ) -> Result<TallyDecision, NoMemory> {
        match event {
            TallyEvent::Add(n) => self.sum = self.sum.wrapping_add(u32::from(*n)),
            TallyEvent::Draw(n) => match self.sum.checked_sub(u32::from(*n)) {
                Some(rest) => self.sum = rest,
                None => return Ok(TallyDecision::Wait),
            },
        }
        Ok(TallyDecision::Sum(self.sum))
    }

    fn step_into(
        &mut self,
        pos: u32,
        event: &TallyEvent,
        into: &mut TallyDecision,
        wakes: &mut (),
    ) -> Result<(), NoMemory> {
        *into = self.step(pos, event, wakes)?;
        Ok(())
    }

    fn no_wakes() {}

    fn still_waits(&self, event: &TallyEvent) -> bool {
        match event {
            TallyEvent::Add(_) => false,
            TallyEvent::Draw(n) => self.sum < u32::from(*n),
        }
    }
}
