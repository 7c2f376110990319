//! One event of the machine, in a turn.
ghost use Rattle.std.specs.Prelude.{◌≡◌, ◌++◌};
ghost use Rattle.turn_lock.specs.Answers.{Answers, new_events};

use trail_core::{Machine, Recorded, Refused};

/// What a turn came to. An event is entered at `Done` alone.
#[derive(Drop)]
pub enum Turn<M: Machine> {
    /// The event is entered, as the last of the history.
    Done {
        /// The machine's decision there.
        decision: M::Decision,
        /// The event's wakeup list: who can go on once it is decided.
        wakes: M::Wakes,
    },
    /// The event would sleep and change nothing.
    StillWaiting,
    /// The history is at the limit of the machine. The event is handed back.
    Full(M::Event),
    /// Memory ran out. The event is handed back.
    NoMemory(M::Event),
}

/// Asks the machine, which may be asked the event, unless its trail is full or the event is idle there.
pub(crate) fn decide<M: Machine>(machine: &mut Recorded<M>, event: M::Event) -> Turn<M>
    requires { M.may_ask event }
    ensures answer { Answers M.decision M.wakeups M.is_idle M.needs_no_memory machine.old event result }
    ensures trail { machine.new ≡ record machine.old { events = machine.old.events ++ new_events event result } }
{
    if machine.is_full() {
        return Turn::Full(event);
    }
    if machine.still_waits(&event) {
        return Turn::StillWaiting;
    }
    let mut wakes = M::no_wakes();
    match machine.apply(event, &mut wakes) {
        Ok(decision) => Turn::Done { decision, wakes },
        Err(Refused::Full(event)) => Turn::Full(event),
        Err(Refused::NoMemory(event)) => Turn::NoMemory(event),
    }
}
