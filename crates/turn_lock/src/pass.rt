//! The passes of a lock.
use crate::rule::SeatView;
use atomic_table::Seat;
use std::marker::Model;
use trail_core::{Machine, Recorded};

/// A seat at the words and the slot of a lock.
pub(crate) type LockSeat<M> = Seat<Recorded<M>, SeatView<Recorded<M>, <M as Machine>::Event>>;

/// The right to enter events under one number of one lock.
///
/// Contracts see of it a `PassView`: its lock and its number, which never change, `seen`, the
/// history that it has seen, and `mine`, the events that its number entered.
#[derive(Drop)]
pub struct Pass<M: Machine> {
    pub(crate) seat: Seat<Recorded<M>, SeatView<Recorded<M>, M::Event>>,
}

impl<M: Machine> Model for Pass<M> {
    ghost use Rattle.turn_lock.specs.Passes.{PassView};
    ghost use Rattle.turn_lock.specs.Seats.{pass_of, Rests};

    ghost Value = { PassView M.Root M.Event };

    ghost view = { λ p. pass_of p.seat };

    ghost invariant = { λ p. Rests p.seat.me };
}
