//! The lock.
ghost use Rattle.std.specs.Prelude.{◌≡◌, ◌+◌, ◌%◌, ◌^◌, ◌<◌, ◌≤◌, ◌≢◌, [], ◌∷◌, ◌++◌, ℕ, length, All, sum_by, Some, false, IfOk, IsOk, vec_capacity};
ghost use mathlib.Core.List.{IsPrefix};
ghost use Rattle.turn_lock.specs.Passes.{machine_at, fresh_passes, AreAllPasses, HasSeenMine, IsHistory};
ghost use Rattle.turn_lock.specs.Answers.{TakesTurn, Answers, new_events};
ghost use Rattle.turn_lock.specs.Rule.{other_claims, fresh_claims, ClaimsHold};
ghost use Rattle.turn_lock.specs.Steps.{with_ticket, with_machine, with_events, with_claims, after_turn, both_views, TakesMachine};
ghost use Rattle.turn_lock.specs.Seats.{lock_of, first_pass, IsSame, IsFree, Rests, HasTurn, Covers};

use crate::pass::{LockSeat, Pass};
use crate::plays::{Both, Come, Count, Draw, Look, NoNumber, OneNumber, PassTurn, See};
use crate::rule::{ByTurns, COUNT, SERVING, SeatView, Setup, TICKET};
use crate::turn::{Turn, decide};
use atomic_table::Table;
use std::alloc::Global;
use std::marker::Model;
use std::snapshot::Snapshot;
use std::sync::Wait;
use trail_core::{Machine, NoMemory, Recorded};

/// A recorded machine that threads enter events into by turns, each through a pass of its own.
///
/// Contracts see of it a `LockView`: which lock it is, how many passes it has, and the root and the
/// limit of its machine. No call changes these.
#[derive(Drop)]
pub struct TurnLock<M: Machine> {
    // The machine lies in the table's one slot, and is lent there: no event moves it.
    table: Table<Recorded<M>, SeatView<Recorded<M>, M::Event>, Setup<Recorded<M>>, ByTurns, Global>,
}

impl<M: Machine> Model for TurnLock<M> {
    ghost use Rattle.std.specs.Prelude.{◌≡◌};
    ghost use Rattle.turn_lock.specs.Passes.{LockView};
    ghost use Rattle.turn_lock.specs.Seats.{lock_at};

    ghost Value = { LockView M.Root };

    ghost view = { λ l. lock_at l.table.shared.table_id l.table.shared.key };

    ghost invariant = { λ l. (l.table.shared.table_id.words ≡ 3) × (l.table.shared.table_id.slots ≡ 1) };
}

impl<M: Machine> TurnLock<M> {
    /// A lock around a machine that has no events yet, and its passes, at least 1, with the numbers
    /// 0 to below `passes` in this order. No pass is made later. The one error is `NoMemory`.
    pub fn new(
        alloc: Global,
        inner: Recorded<M>,
        passes: u8,
    ) -> Result<(Self, Vec<Pass<M>>), NoMemory>
        requires fresh { inner.events ≡ [] }
        requires some { 0 < passes }
        ensures lock { IfOk result (λ r. (r.0.passes ≡ passes) × (r.0.root ≡ inner.root) × (r.0.most ≡ inner.most)) }
        ensures passes { IfOk result (λ r. r.1.items ≡ fresh_passes r.0) }
    {
        let setup = Setup {
            machine: Snapshot::of(&inner),
            passes,
        };
        let room = Vec::with_capacity(alloc, usize::from(passes))?;
        let mut slots = Vec::with_capacity(alloc, 1)?;
        slots.push_reserved(inner);
        let Ok((table, seat)) = Table::new(alloc, &[0, 0, 0], slots, &setup) else {
            return Err(NoMemory);
        };
        let lock = TurnLock { table };
        let passes = lock.deal(seat, passes, room);
        Ok((lock, passes))
    }

    // A pass with the first number of the seat.
    fn split(&self, seat: &mut LockSeat<M>) -> Pass<M>
        requires lock { lock_of seat.old ≡ Some self.now }
        requires some { 0 < length seat.old.me.0.claims }
        requires free { IsFree seat.old.me }
        ensures same { IsSame seat.old seat.new }
        ensures seat { seat.new.me ≡ (with_claims (other_claims seat.old.me.0.claims) seat.old.me.0, []) }
        ensures pass { result ≡ first_pass self.now seat.old.me.0 }
    {
        let seat = self.table.shared.split_seat::<OneNumber>(seat);
        Pass { seat }
    }

    // A pass for each number of the seat.
    fn deal(&self, mut seat: LockSeat<M>, passes: u8, room: Vec<Pass<M>>) -> Vec<Pass<M>>
        requires lock { lock_of seat ≡ Some self.now }
        requires number { self.now.passes ≡ passes }
        requires free { IsFree seat.me }
        requires fresh { (seat.me.0.claims ≡ fresh_claims 0 passes) × (seat.me.0.seen ≡ []) }
        requires room { (room.items ≡ []) × (passes ≤ vec_capacity room) }
        ensures { result.items ≡ fresh_passes self.now }
    {
        let mut all = room;
        for number in 0..passes {
            let pass = self.split(&mut seat);
            all.push_reserved(pass);
        }
        all
    }

    // Draws a ticket.
    fn draw(&self, seat: &mut LockSeat<M>) -> u64
        requires lock { lock_of seat.old ≡ Some self.now }
        requires rests { Rests seat.old.me }
        ensures same { IsSame seat.old seat.new }
        ensures ticket { (ticket : ℕ) × (result ≡ ticket % 2 ^ 64) × (seat.new.me ≡ (with_ticket ticket seat.old.me.0, [])) }
    {
        self.table.shared.fetch_add::<Draw>(seat, TICKET, 1)
    }

    // Waits until the ticket is served, and takes the machine out.
    fn wait<R: Wait>(&self, rt: &R, seat: &mut LockSeat<M>, ticket: u64)
        requires lock { lock_of seat.old ≡ Some self.now }
        requires ticket { (place : ℕ) × (ticket ≡ place % 2 ^ 64) × (seat.old.me.0.tickets ≡ place ∷ []) }
        requires machine { seat.old.me.0.has_machine ≡ false }
        ensures same { IsSame seat.old seat.new }
        ensures takes { TakesMachine seat.old.me seat.new.me }
    {
        for _ in rt.forever() {
            let serving = self.table.shared.load::<Look>(seat, SERVING);
            if serving == ticket {
                return;
            }
            self.table
                .shared
                .park(rt, SERVING, (serving % (1 << 32)) as u32);
        }
        unreachable!()
    }

    // Waits for a turn of the seat, and takes the machine out.
    fn take<R: Wait>(&self, rt: &R, seat: &mut LockSeat<M>)
        requires lock { lock_of seat.old ≡ Some self.now }
        requires rests { Rests seat.old.me }
        ensures same { IsSame seat.old seat.new }
        ensures seen { IsPrefix seat.old.me.0.seen seat.new.me.0.seen }
        ensures claims { ClaimsHold seat.new.me.0.seen seat.old.me.0.claims }
        ensures seat { (ticket : ℕ) × (seat.new.me ≡
            (with_machine seat.new.me.0.seen (with_ticket ticket seat.old.me.0), (0, machine_at self.now seat.new.me.0.seen) ∷ [])) }
    {
        let ticket = self.draw(seat);
        self.wait(rt, seat, ticket);
    }

    // Asks the machine, which is out with the seat, and counts the events that it took.
    fn ask(&self, seat: &mut LockSeat<M>, event: M::Event) -> Turn<M>
        requires lock { lock_of seat.old ≡ Some self.now }
        requires turn { HasTurn self.now seat.old.me }
        requires event { M.may_ask event }
        ensures same { IsSame seat.old seat.new }
        ensures answer { Answers M.decision M.wakeups M.is_idle M.needs_no_memory (machine_at self.now seat.old.me.0.seen) event result }
        ensures seat { (seat.new.me.0 ≡ with_events (new_events event result) seat.old.me.0.claims seat.old.me.0) × HasTurn self.now seat.new.me }
    {
        let machine = seat.slot_mut(&self.table.shared, 0);
        let before = machine.len();
        let turn = decide(machine, event);
        let count = machine.len() - before;
        self.table
            .shared
            .fetch_add::<Count>(seat, COUNT, u64::from(count));
        turn
    }

    // Gives the machine back, and passes the turn.
    fn pass_turn(&self, seat: &mut LockSeat<M>)
        requires lock { lock_of seat.old ≡ Some self.now }
        requires turn { HasTurn self.now seat.old.me }
        ensures same { IsSame seat.old seat.new }
        ensures seat { seat.new.me ≡ (after_turn seat.old.me.0, []) }
    {
        self.table.shared.fetch_add::<PassTurn>(seat, SERVING, 1);
        self.table.shared.wake_all(SERVING);
    }

    /// Waits for a turn of the pass, and enters the event there.
    ///
    /// The pass is of this lock, and the event may be asked. The answer is by the history at that
    /// turn, which begins with all that the pass had seen:
    ///
    /// - `Full` hands the event back exactly where that history is at the limit of the machine.
    /// - `StillWaiting` comes exactly where it is below the limit, and the event is idle there.
    /// - `NoMemory` hands the event back where the machine finds no memory for it, never for an
    ///   event that needs none.
    /// - Else the event is entered: `Done` has the machine's decision there and its wakeup list.
    ///
    /// Afterwards the pass has seen that history, with the event as its last entry where it was
    /// entered, and only then has its number entered one event more. The call may wait for ever.
    pub fn enter<R: Wait>(&self, rt: &R, pass: &mut Pass<M>, event: M::Event) -> Turn<M>
        requires lock { pass.old.lock ≡ Some self.now }
        requires event { M.may_ask event }
        ensures same { (pass.new.lock ≡ pass.old.lock) × (pass.new.number ≡ pass.old.number) }
        ensures turn { TakesTurn M.decision M.wakeups M.is_idle M.needs_no_memory self.now pass.old pass.new event result }
        ensures mine { HasSeenMine pass.new }
    {
        self.take(rt, &mut pass.seat);
        let turn = self.ask(&mut pass.seat, event);
        self.pass_turn(&mut pass.seat);
        turn
    }

    // The seat takes in the other one, and sees the whole history.
    fn absorb(&self, seat: &mut LockSeat<M>, other: LockSeat<M>)
        requires lock { (seat.old.table_id ≡ self.now.table) × (other.table_id ≡ self.now.table) }
        requires seat { (seat.old.me.0.has_machine ≡ false) × (seat.old.me.1 ≡ []) }
        requires other { IsFree other.me }
        ensures same { IsSame seat.old seat.new }
        ensures seen { IsPrefix seat.old.me.0.seen seat.new.me.0.seen × IsPrefix other.me.0.seen seat.new.me.0.seen }
        ensures claims { ClaimsHold seat.new.me.0.seen seat.new.me.0.claims }
        ensures seat { seat.new.me ≡ (record (both_views seat.old.me.0 other.me.0) { seen = seat.new.me.0.seen }, []) }
    {
        self.table.shared.join_seat::<Both>(seat, other);
        self.table.shared.load::<See>(seat, COUNT);
    }

    // The second pass sees all that either has seen.
    fn tell(&self, from: &mut Pass<M>, to: &mut Pass<M>)
        requires lock { (from.old.lock ≡ Some self.now) × (to.old.lock ≡ Some self.now) }
        ensures from { from.new ≡ from.old }
        ensures to { to.new ≡ record to.old { seen = to.new.seen } }
        ensures seen { IsPrefix from.old.seen to.new.seen × IsPrefix to.old.seen to.new.seen }
        ensures mine { HasSeenMine to.new }
    {
        let note = self.table.shared.split_seat::<NoNumber>(&mut from.seat);
        self.absorb(&mut to.seat, note);
    }

    /// Each of the two passes, both of this lock, sees all that either has seen, and the first all
    /// that the second then has. It enters nothing, and waits for nobody.
    pub fn meet(&self, pass: &mut Pass<M>, other: &mut Pass<M>)
        requires lock { (pass.old.lock ≡ Some self.now) × (other.old.lock ≡ Some self.now) }
        ensures pass { pass.new ≡ record pass.old { seen = pass.new.seen } }
        ensures other { other.new ≡ record other.old { seen = other.new.seen } }
        ensures own_seen { IsPrefix pass.old.seen pass.new.seen × IsPrefix other.old.seen other.new.seen }
        ensures other_seen { IsPrefix other.old.seen pass.new.seen × IsPrefix pass.old.seen other.new.seen }
        ensures one { IsPrefix other.new.seen pass.new.seen }
        ensures mine { HasSeenMine pass.new × HasSeenMine other.new }
    {
        self.tell(pass, other);
        self.tell(other, pass);
    }

    // Takes in all passes.
    fn gather(&self, keeper: LockSeat<M>, mut passes: Vec<Pass<M>>) -> LockSeat<M>
        requires lock { keeper.table_id ≡ self.now.table }
        requires keeper { (keeper.me.0.claims ≡ []) × IsFree keeper.me }
        requires passes { All (λ p. p.lock ≡ Some self.now) passes.items }
        ensures same { IsSame keeper result }
        ensures keeper { (result.me.0.has_machine ≡ false) × (length result.me.0.claims ≡ length passes.items) }
        ensures covers { Covers result.me.0.seen result.me.0.claims passes.items }
    {
        let mut keeper = keeper;
        while let Some(pass) = passes.pop() {
            let Pass { seat } = pass;
            self.absorb(&mut keeper, seat);
        }
        passes.destroy_empty();
        keeper
    }

    /// Ends the lock, and gives its machine back.
    ///
    /// The passes are all that were made, in the order of their numbers. There is one history,
    /// whose events are those of the machine, of which each pass has seen a prefix, and whose
    /// entries of each number are the events that its pass entered; so the machine has as many
    /// events as all passes entered. It needs no memory, so the answer is always `Ok`; an `Err`
    /// would hand the lock and the passes back as they were.
    pub fn close(
        self,
        passes: Vec<Pass<M>>,
    ) -> Result<Recorded<M>, (NoMemory, TurnLock<M>, Vec<Pass<M>>)>
        requires { AreAllPasses self passes.items }
        ensures ok { IsOk result }
        ensures history { IfOk result (λ machine. IsHistory self machine passes.items) }
        // So no event is lost, and none is there twice.
        ensures count { IfOk result (λ machine. length machine.events ≡ sum_by (λ p. length p.mine) passes.items) }
    {
        let (_, keeper) = self.table.shared.load_new_seat::<Come>(COUNT);
        let keeper = self.gather(keeper, passes);
        let TurnLock { table } = self;
        let mut closed = table.close_with(keeper);
        let machine = closed.take(0);
        closed.free();
        Ok(machine)
    }
}
