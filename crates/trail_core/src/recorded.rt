//! A machine and the trail of its events.
ghost use Rattle.std.specs.Prelude.{◌≡◌, ◌+◌, ◌≤◌, ◌↔◌, [], ◌∷◌, ◌++◌, length, IsTrue, IfOk, IfErr, OnOk, OnErr, Err};

use crate::machine::{MOST_EVENTS, Machine, NoMemory};
use std::alloc::Global;
use std::marker::Model;

/// Why an event is not in the trail. It is handed back.
#[derive(Debug, Drop)]
pub enum Refused<E> {
    /// The trail is at its limit.
    Full(E),
    /// Memory ran out.
    NoMemory(E),
}

/// A machine with the trail of its events, of which there are at most as many as it was made for.
///
/// Contracts see of it a `Trail`: the machine's root, that number, and the events.
#[derive(Drop)]
pub struct Recorded<M: Machine> {
    machine: M,
    most: u32,
    events: Vec<M::Event>,
}

impl<M: Machine> Model for Recorded<M> {
    ghost use Rattle.std.specs.Prelude.{vec_capacity};
    ghost use Rattle.trail_core.specs.Trail.{Trail, KeepsTrail};

    ghost Value = { Trail M.Root M.Event };

    ghost view = { λ r. record { root = M.root r.machine; most = r.most; events = r.events.items } };

    ghost invariant = { λ r. KeepsTrail (M.stands r.machine) r.most (vec_capacity r.events) r.events.items };
}

impl<M: Machine> Recorded<M> {
    ghost use Rattle.trail_core.specs.Trail.{event_of};

    /// A fresh machine with an empty trail, and room for `most` events.
    ///
    /// The machine stands for no events yet, and `most` is at most 2,147,483,648. The one error is
    /// want of memory for that room; no event wants memory for the trail later.
    pub fn new(alloc: Global, machine: M, most: u32) -> Result<Self, NoMemory>
        requires fresh { M.stands machine [] }
        requires most { most ≤ MOST_EVENTS }
        ensures { IfOk result (λ r. r ≡ record { root = M.root machine; most = most; events = [] }) }
    {
        let events = Vec::with_capacity(alloc, most as usize)?;
        Ok(Recorded {
            machine,
            most,
            events,
        })
    }

    /// How many events the trail has.
    pub fn len(&self) -> u32
        ensures len { result ≡ length self.now.events }
        ensures most { result ≤ self.now.most }
    {
        self.events.len() as u32
    }

    /// Whether the trail has no event.
    pub fn is_empty(&self) -> bool
        ensures { IsTrue result ↔ (self.now.events ≡ []) }
    {
        self.events.is_empty()
    }

    /// Whether the trail is at its limit, beyond which it never is.
    pub fn is_full(&self) -> bool
        ensures full { IsTrue result ↔ (length self.now.events ≡ self.now.most) }
        ensures within { length self.now.events ≤ self.now.most }
    {
        self.len() == self.most
    }

    /// The events of the trail, in order.
    pub fn events(&self) -> &[M::Event]
        ensures { result.now ≡ self.now.events }
    {
        &self.events
    }

    /// Whether the event, as the next one, would sleep and change nothing. It may be asked.
    pub fn still_waits(&self, event: &M::Event) -> bool
        requires { M.may_ask event.now }
        ensures { IsTrue result ↔ M.is_idle self.now.root self.now.events event.now }
    {
        self.machine.still_waits(event)
    }

    /// The position of the next event, counted from 1.
    fn next_position(&self) -> u32
        ensures { result ≡ length self.now.events + 1 }
    {
        let _ = &self.events;
        self.len() + 1
    }

    /// Takes the event, which may be asked, and records it: answers its decision, and writes its
    /// wakeup list to `wakes`.
    ///
    /// A refusal changes nothing and hands the event back: `Full` exactly where the trail is at its
    /// limit, and else `NoMemory`, only where memory may run out and never for an event that needs
    /// none.
    pub fn apply(
        &mut self,
        event: M::Event,
        wakes: &mut M::Wakes,
    ) -> Result<M::Decision, Refused<M::Event>>
        requires { M.may_ask event }
        ensures decision { IfOk result (λ d. d ≡ M.decision self.old.root self.old.events event) }
        ensures wakeups { OnOk result (wakes.new ≡ M.wakeups self.old.root self.old.events event) }
        ensures trail { OnOk result (self.new ≡ record self.old { events = self.old.events ++ event ∷ [] }) }

        ensures full { (result ≡ Err (Refused.Full event)) ↔ (length self.old.events ≡ self.old.most) }
        ensures memory { M.needs_no_memory event → IfErr result (λ refused. refused ≡ Refused.Full event) }
        ensures wants { result ≡ Err (Refused.NoMemory event) → M.may_run_out self.old.root self.old.events event }
        ensures event { IfErr result (λ refused. event_of refused ≡ event) }
        ensures nothing { OnErr result ((self.new ≡ self.old) × (wakes.new ≡ wakes.old)) }
    {
        if self.is_full() {
            return Err(Refused::Full(event));
        }
        let pos = self.next_position();
        match self.machine.step(pos, &event, wakes) {
            Ok(decision) => {
                self.events.push_reserved(event);
                Ok(decision)
            }
            Err(NoMemory) => Err(Refused::NoMemory(event)),
        }
    }

    /// Takes the event and records it as `apply` does, and writes its decision to `into`, which is for decisions that are large in place.
    ///
    /// Its refusals are those of `apply`. Where there is one, what stands in `into` is not told.
    pub fn apply_into(
        &mut self,
        event: M::Event,
        into: &mut M::Decision,
        wakes: &mut M::Wakes,
    ) -> Result<(), Refused<M::Event>>
        requires { M.may_ask event }
        ensures decision { OnOk result (into.new ≡ M.decision self.old.root self.old.events event) }
        ensures wakeups { OnOk result (wakes.new ≡ M.wakeups self.old.root self.old.events event) }
        ensures trail { OnOk result (self.new ≡ record self.old { events = self.old.events ++ event ∷ [] }) }

        ensures full { (result ≡ Err (Refused.Full event)) ↔ (length self.old.events ≡ self.old.most) }
        ensures memory { M.needs_no_memory event → IfErr result (λ refused. refused ≡ Refused.Full event) }
        ensures wants { result ≡ Err (Refused.NoMemory event) → M.may_run_out self.old.root self.old.events event }
        ensures event { IfErr result (λ refused. event_of refused ≡ event) }
        ensures nothing { OnErr result ((self.new ≡ self.old) × (wakes.new ≡ wakes.old)) }
    {
        if self.is_full() {
            return Err(Refused::Full(event));
        }
        let pos = self.next_position();
        if let Err(NoMemory) = self.machine.step_into(pos, &event, into, wakes) {
            return Err(Refused::NoMemory(event));
        }
        self.events.push_reserved(event);
        Ok(())
    }
}
