//! What a machine is.
ghost use Rattle.std.specs.Prelude.{◌≡◌, ◌+◌, ◌≤◌, ◌↔◌, List, ◌∷◌, [], ◌++◌, length, IsTrue, IsOk, IfOk, OnOk, OnErr};
ghost use Rattle.trail_core.specs.Machine.{IsNextPosition};

/// Memory ran out. It changes nothing.
pub use std::alloc::AllocError as NoMemory;

/// How many events a trail has at most: 2,147,483,648, which is 2^31.
pub const MOST_EVENTS: u32 = 0x8000_0000;

/// A machine that takes one event at a time.
///
/// Its answers are functions of its root, which is plain data that no step changes, of the events
/// so far and of the next event. A machine stands for a list of events where it is what these
/// events, in order, make of a fresh machine of its root.
pub trait Machine: Drop {
    type Event: Drop;

    type Decision: Drop;

    /// The wakeup list of an event: who can go on once the event is decided.
    type Wakes: Drop;

    /// What a machine is made of. Only contracts speak of it.
    type Root;

    /// What this machine is made of.
    ghost root: { Self → Self.Root };
    /// For which lists of events the machine stands.
    ghost stands: { Self → List Self.Event → Type 0 };
    /// Which events may be asked.
    ghost may_ask: { Self.Event → Type 0 };
    /// Which events never want memory.
    ghost needs_no_memory: { Self.Event → Type 0 };
    /// Whether memory may run out at the next event after a list.
    ghost may_run_out: { Self.Root → List Self.Event → Self.Event → Type 0 };
    /// The decision of the next event after a list.
    ghost decision: { Self.Root → List Self.Event → Self.Event → Self.Decision };
    /// The wakeup list of that event.
    ghost wakeups: { Self.Root → List Self.Event → Self.Event → Self.Wakes };
    /// Whether that event sleeps and changes nothing.
    ghost is_idle: { Self.Root → List Self.Event → Self.Event → Type 0 };
    /// The empty wakeup list.
    ghost no_wakeups: { Self.Wakes };

    /// Takes the next event: decides it, and writes its wakeup list to `wakes`.
    ///
    /// The event may be asked. `pos` is its position in the trail, counted from 1: one more than
    /// the number of events so far, and at most 2,147,483,648. The one error is `NoMemory`, only
    /// where memory may run out and never for an event that needs none, and it changes nothing.
    fn step(
        &mut self,
        pos: u32,
        event: &Self::Event,
        wakes: &mut Self::Wakes,
    ) -> Result<Self::Decision, NoMemory>
        requires event { may_ask event.now }
        requires position { IsNextPosition (stands self.old) pos }
        requires most { pos ≤ MOST_EVENTS }

        // Of each list for which the machine stands and of which this is the next position:
        ensures decision { (events : List Self.Event) → stands self.old events → pos ≡ length events + 1 →
            IfOk result (λ d. d ≡ decision (root self.old) events event.now) }
        ensures wakeups { (events : List Self.Event) → stands self.old events → pos ≡ length events + 1 →
            OnOk result (wakes.new ≡ wakeups (root self.old) events event.now) }
        ensures stands { (events : List Self.Event) → stands self.old events → pos ≡ length events + 1 →
            OnOk result (stands self.new (events ++ event.now ∷ [])) }

        ensures wants { (events : List Self.Event) → stands self.old events → pos ≡ length events + 1 →
            OnErr result (may_run_out (root self.old) events event.now) }

        ensures root { root self.new ≡ root self.old }
        ensures memory { needs_no_memory event.now → IsOk result }
        ensures nothing { OnErr result ((self.new ≡ self.old) × (wakes.new ≡ wakes.old)) };

    /// Takes the next event as `step` does, and writes its decision to `into`, which is for decisions that are large in place.
    ///
    /// Its conditions and its error are those of `step`. Where memory runs out, what stands in `into` is not told.
    fn step_into(
        &mut self,
        pos: u32,
        event: &Self::Event,
        into: &mut Self::Decision,
        wakes: &mut Self::Wakes,
    ) -> Result<(), NoMemory>
        requires event { may_ask event.now }
        requires position { IsNextPosition (stands self.old) pos }
        requires most { pos ≤ MOST_EVENTS }

        // Of each list for which the machine stands and of which this is the next position:
        ensures decision { (events : List Self.Event) → stands self.old events → pos ≡ length events + 1 →
            OnOk result (into.new ≡ decision (root self.old) events event.now) }
        ensures wakeups { (events : List Self.Event) → stands self.old events → pos ≡ length events + 1 →
            OnOk result (wakes.new ≡ wakeups (root self.old) events event.now) }
        ensures stands { (events : List Self.Event) → stands self.old events → pos ≡ length events + 1 →
            OnOk result (stands self.new (events ++ event.now ∷ [])) }

        ensures wants { (events : List Self.Event) → stands self.old events → pos ≡ length events + 1 →
            OnErr result (may_run_out (root self.old) events event.now) }

        ensures root { root self.new ≡ root self.old }
        ensures memory { needs_no_memory event.now → IsOk result }
        ensures nothing { OnErr result ((self.new ≡ self.old) × (wakes.new ≡ wakes.old)) };

    /// The empty wakeup list, for `step` to write to.
    fn no_wakes() -> Self::Wakes
        ensures { result ≡ no_wakeups };

    /// Whether the event, as the next one, sleeps and changes nothing. It may be asked.
    fn still_waits(&self, event: &Self::Event) -> bool
        requires { may_ask event.now }
        ensures { (events : List Self.Event) → stands self.now events →
            (IsTrue result ↔ is_idle (root self.now) events event.now) };
}
