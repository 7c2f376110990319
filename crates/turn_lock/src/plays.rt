//! What each step on a word tells the seat that makes it. These types are for the proofs alone.
use crate::rule::SeatView;
use atomic_table::{Join, Play, Split};
use trail_core::{Machine, Recorded};

/// Draws a ticket.
pub struct Draw;

impl<M: Machine> Play<Recorded<M>, SeatView<Recorded<M>, M::Event>> for Draw {
    ghost use Rattle.turn_lock.specs.Steps.{DrawsTicket};

    ghost then = { DrawsTicket };
}

/// Looks whether the turn has come, and then takes the machine out.
pub struct Look;

impl<M: Machine> Play<Recorded<M>, SeatView<Recorded<M>, M::Event>> for Look {
    ghost use Rattle.turn_lock.specs.Steps.{LooksForTurn};

    ghost then = { LooksForTurn };
}

/// Counts the events that the machine took.
pub struct Count;

impl<M: Machine> Play<Recorded<M>, SeatView<Recorded<M>, M::Event>> for Count {
    ghost use Rattle.turn_lock.specs.Steps.{CountsEvents};

    ghost then = { CountsEvents };
}

/// Gives the machine back, and passes the turn.
pub struct PassTurn;

impl<M: Machine> Play<Recorded<M>, SeatView<Recorded<M>, M::Event>> for PassTurn {
    ghost use Rattle.turn_lock.specs.Steps.{PassesTurn};

    ghost then = { PassesTurn };
}

/// Comes as a seat without a number.
pub struct Come;

impl<M: Machine> Play<Recorded<M>, SeatView<Recorded<M>, M::Event>> for Come {
    ghost use Rattle.turn_lock.specs.Steps.{Comes};

    ghost then = { Comes };
}

/// Sees the whole history.
pub struct See;

impl<M: Machine> Play<Recorded<M>, SeatView<Recorded<M>, M::Event>> for See {
    ghost use Rattle.turn_lock.specs.Steps.{SeesHistory};

    ghost then = { SeesHistory };
}

/// A new seat gets the first number.
pub struct OneNumber;

impl<M: Machine> Split<SeatView<Recorded<M>, M::Event>> for OneNumber {
    ghost use Rattle.turn_lock.specs.Rule.{first_claim, other_claims};
    ghost use Rattle.turn_lock.specs.Steps.{with_claims, new_view};

    ghost left = { λ v. with_claims (other_claims v.claims) v };

    ghost right = { λ v. new_view (first_claim v.claims) v };
}

/// A new seat gets no number.
pub struct NoNumber;

impl<M: Machine> Split<SeatView<Recorded<M>, M::Event>> for NoNumber {
    ghost use Rattle.std.specs.Prelude.{[]};
    ghost use Rattle.turn_lock.specs.Steps.{with_claims, new_view};

    ghost left = { λ v. with_claims v.claims v };

    ghost right = { λ v. new_view [] v };
}

/// A seat takes in another, with its numbers.
pub struct Both;

impl<M: Machine> Join<SeatView<Recorded<M>, M::Event>> for Both {
    ghost use Rattle.turn_lock.specs.Steps.{both_views, empty_view};

    ghost both = { both_views };

    ghost spent = { empty_view };
}
