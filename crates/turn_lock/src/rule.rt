//! What the words, the slot and the seats of a lock have to do with one another.
ghost use Rattle.std.specs.Prelude.{◌≡◌};

use atomic_table::TableRule;
use std::collections::LinkedList;
use std::snapshot::Snapshot;
use trail_core::{Machine, Recorded};

/// The word with the next ticket.
pub const TICKET: usize = 0;

/// The word with the ticket that is served.
pub const SERVING: usize = 1;

/// The word with the length of the history.
pub const COUNT: usize = 2;

/// What a lock is made of: the machine as it was then, and how many passes there are.
#[derive(Drop)]
pub struct Setup<T> {
    pub machine: Snapshot<T>,
    pub passes: u8,
}

/// One event of a history, and the number of the pass that entered it.
pub struct Entry<E> {
    pub number: u8,
    pub event: E,
}

/// A number, and the events that it entered.
pub struct Claim<E> {
    pub number: u8,
    pub mine: LinkedList<E>,
}

/// What a seat knows. No value of it is made.
pub struct SeatView<T, E> {
    /// None where another seat took this one in.
    pub setup: Option<Setup<T>>,
    pub claims: LinkedList<Claim<E>>,
    /// The ticket that it drew, if it has one: how many were drawn before.
    pub tickets: LinkedList<u64>,
    /// Whether the machine is out with this seat.
    pub has_machine: bool,
    /// The prefix of the history that it saw.
    pub seen: LinkedList<Entry<E>>,
    /// The one that a seat saw which it took in.
    pub other_seen: LinkedList<Entry<E>>,
}

pub struct ByTurns;

impl<M: Machine> TableRule<Recorded<M>, SeatView<Recorded<M>, M::Event>, Setup<Recorded<M>>>
    for ByTurns {
    ghost use Rattle.turn_lock.specs.Rule.{LockRule, first_view};

    ghost holds = { LockRule };

    ghost first = { first_view };
}
