//! The input queue of a line: ready lines and a current line, over the blocks of a lease.
ghost use Rattle.std.specs.Prelude.{◌≡◌, ℕ, ◌+◌, ◌<◌, ◌≤◌, ◌↔◌, not, true, false, List, [], ◌∷◌, ◌++◌, length, nat_le, None, option_to_list};
ghost use Rattle.sys_types.specs.declared.limits.TheConstants.{INPUT_PLACES, PIECE_BYTES};
ghost use Rattle.block_pool.specs.Pool.{PoolState, AreOf, WritesTo};
ghost use Rattle.line_disc.specs.Discipline.{no_input, places, all_cells};
ghost use Rattle.line_disc.specs.Transfers.{has_none, as_line, turn};
ghost use Rattle.line_disc.specs.Places.{places_in, input_of, with_back, all_bytes, walk};

use crate::place::{PlaceKind, PlaceKinds};
use crate::transfer::piece_of;
use arrayvec::ArrayVec;
use block_pool::{Chain, Lease, Pool};
use std::marker::Model;
use sys_types::{INPUT_PLACES, PIECE_BYTES, Piece};

/// The input queue of a line. An end of file takes a place as a byte does, so its chain has a byte for it that nobody reads.
#[derive(Drop)]
pub(crate) struct Input {
    chain: Chain,
    kinds: PlaceKinds,
    current: u16,
}

impl Model for Input {
    ghost use Rattle.line_disc.specs.Places.{InputState, IsWholeInput};

    ghost Value = { InputState };

    ghost view = { λ i. record { chain = i.chain; kinds = i.kinds } };

    ghost invariant = { λ i. IsWholeInput (record { chain = i.chain; kinds = i.kinds }) i.current };
}

#[tactic(auto, using(crate::proofs::InputLemmas::queue))]
impl Input {
    /// No input, over the blocks of a lease, which are eight.
    pub(crate) fn over(lease: Lease) -> Input
        requires { length lease ≡ 8 }
        ensures blocks { result.chain.blocks ≡ lease }
        ensures none { (pool : PoolState) → input_of pool result ≡ no_input }
        ensures bytes { all_bytes result.kinds ≡ true }
    {
        Input {
            chain: Chain::over(lease),
            kinds: PlaceKinds::new(),
            current: 0,
        }
    }

    /// The lease of its blocks.
    pub(crate) fn into_lease(self) -> Lease
        ensures { result ≡ self.chain.blocks }
    {
        let Input {
            chain,
            kinds: _,
            current: _,
        } = self;
        chain.into_lease()
    }

    /// Whether all 1,024 places are taken.
    pub(crate) fn is_full(&self) -> bool
        ensures kinds { result ≡ nat_le INPUT_PLACES (length self.now.kinds) }
        ensures places { (pool : PoolState) → result ≡ nat_le INPUT_PLACES (places (input_of pool self.now)) }
    {
        self.chain.room() == 0
    }

    /// Whether there is a ready line.
    pub(crate) fn has_line(&self) -> bool
        ensures kinds { result ≡ not (all_bytes self.now.kinds) }
        ensures lines { (pool : PoolState) → result ≡ not (has_none (input_of pool self.now).ready) }
    {
        self.current < self.chain.len()
    }

    /// How many bytes the current line has.
    pub(crate) fn current_len(&self) -> u16
        ensures len { (pool : PoolState) → result ≡ length (input_of pool self.now).current }
        ensures seen { (pool : PoolState) → has_none (input_of pool self.now).ready ≡ all_bytes self.now.kinds }
    {
        self.current
    }

    /// Takes one more place, for a byte or an end of file. One is free.
    pub(crate) fn push(&mut self, pool: &mut Pool, kind: PlaceKind, byte: u8)
        requires room { length self.old.kinds < INPUT_PLACES }
        requires of_pool { AreOf pool.old self.old.chain.blocks }
        ensures lines { input_of pool.new self.new ≡ with_back kind byte (input_of pool.old self.old) }
        ensures places { places_in pool.new self.new ≡ places_in pool.old self.old ++ (kind, byte) ∷ [] }
        ensures kinds { self.new.kinds ≡ self.old.kinds ++ kind ∷ [] }
        ensures seen { has_none (input_of pool.new self.new).ready ≡ all_bytes self.new.kinds }
        ensures blocks { self.new.chain.blocks ≡ self.old.chain.blocks }
        ensures writes { WritesTo self.old.chain.blocks pool.old pool.new }
    {
        self.chain.push_back(pool, byte);
        self.kinds.push_back(kind);
        self.current = kind.current_behind(self.current);
    }

    /// Frees the first place: what it held, and its byte. `None` exactly where no place is taken.
    fn pop(&mut self, pool: &Pool) -> Option<(PlaceKind, u8)>
        requires { AreOf pool.now self.old.chain.blocks }
        ensures none { (result ≡ None) ↔ (places_in pool.now self.old ≡ []) }
        ensures places { places_in pool.now self.old ≡ option_to_list result ++ places_in pool.now self.new }
        ensures kinds { length self.old.kinds ≡ length self.new.kinds + length (option_to_list result) }
        ensures seen { has_none (input_of pool.now self.new).ready ≡ all_bytes self.new.kinds }
        ensures blocks { self.new.chain.blocks ≡ self.old.chain.blocks }
    {
        let kind = self.kinds.pop_front();
        let byte = self.chain.pop_front(pool);
        self.current = self.current.min(self.chain.len());
        kind.zip(byte)
    }

    /// Frees the first place where it is an end of file.
    fn pop_mark(&mut self, pool: &Pool)
        requires { AreOf pool.now self.old.chain.blocks }
        ensures rest { places_in pool.now self.new ≡ (walk 0 (places_in pool.now self.old)).1 }
        ensures seen { has_none (input_of pool.now self.new).ready ≡ all_bytes self.new.kinds }
        ensures blocks { self.new.chain.blocks ≡ self.old.chain.blocks }
    {
        if !self.kinds.begins_with_mark() {
            return;
        }
        let _ = self.pop(pool);
    }

    /// Takes the last byte of the current line. `None` exactly where it has none.
    pub(crate) fn pop_current(&mut self, pool: &Pool) -> Option<u8>
        requires { AreOf pool.now self.old.chain.blocks }
        ensures none { (result ≡ None) ↔ ((input_of pool.now self.old).current ≡ []) }
        ensures ready { (input_of pool.now self.new).ready ≡ (input_of pool.now self.old).ready }
        ensures current { (input_of pool.now self.old).current ≡ (input_of pool.now self.new).current ++ option_to_list result }
        ensures kinds { all_bytes self.old.kinds ≡ true → all_bytes self.new.kinds ≡ true }
        ensures blocks { self.new.chain.blocks ≡ self.old.chain.blocks }
    {
        if self.current == 0 {
            return None;
        }
        self.current -= 1;
        let _ = self.kinds.pop_back();
        self.chain.pop_back(pool)
    }

    /// Takes the whole current line.
    pub(crate) fn clear_current(&mut self, pool: &Pool)
        requires { AreOf pool.now self.old.chain.blocks }
        ensures ready { (input_of pool.now self.new).ready ≡ (input_of pool.now self.old).ready }
        ensures current { (input_of pool.now self.new).current ≡ [] }
        ensures kinds { all_bytes self.old.kinds ≡ true → all_bytes self.new.kinds ≡ true }
        ensures blocks { self.new.chain.blocks ≡ self.old.chain.blocks }
    {
        while self.pop_current(pool).is_some() {}
    }

    /// Reads up to `max` bytes, at most 512, of the first ready line, which goes with its last byte. Where no line is ready
    /// they are bytes of the current line.
    pub(crate) fn read(&mut self, pool: &Pool, max: u16) -> Piece
        requires most { max ≤ PIECE_BYTES }
        requires of_pool { AreOf pool.now self.old.chain.blocks }
        ensures front { result ≡ (walk max (places_in pool.now self.old)).0 }
        ensures rest { places_in pool.now self.new ≡ (walk max (places_in pool.now self.old)).1 }
        ensures seen { has_none (input_of pool.now self.new).ready ≡ all_bytes self.new.kinds }
        ensures blocks { self.new.chain.blocks ≡ self.old.chain.blocks }
    {
        let mut bytes = ArrayVec::<u8, PIECE_BYTES>::new();
        for _place in 0..max {
            match self.pop(pool) {
                Some((PlaceKind::Byte, byte)) => bytes.push(byte),
                Some((PlaceKind::LineEnd, byte)) => {
                    bytes.push(byte);
                    return piece_of(&bytes);
                }
                Some((PlaceKind::FileEnd, _)) | None => return piece_of(&bytes),
            }
        }
        self.pop_mark(pool);
        piece_of(&bytes)
    }

    /// Makes all that is queued one current line. Ends of file go.
    pub(crate) fn join(&mut self, pool: &mut Pool)
        requires { AreOf pool.old self.old.chain.blocks }
        ensures ready { (input_of pool.new self.new).ready ≡ [] }
        ensures current { (input_of pool.new self.new).current ≡ all_cells (input_of pool.old self.old) }
        ensures kinds { all_bytes self.new.kinds ≡ true }
        ensures blocks { self.new.chain.blocks ≡ self.old.chain.blocks }
        ensures writes { WritesTo self.old.chain.blocks pool.old pool.new }
    {
        for _place in 0..self.chain.len() {
            match self.pop(pool) {
                Some((PlaceKind::FileEnd, _)) | None => {}
                Some((PlaceKind::Byte | PlaceKind::LineEnd, byte)) => {
                    self.push(pool, PlaceKind::Byte, byte);
                }
            }
        }
    }

    /// Makes the current line, where it has a byte, a ready line. There is no other.
    pub(crate) fn end_current(&mut self)
        requires { all_bytes self.old.kinds ≡ true }
        ensures ready { (pool : PoolState) → (input_of pool self.new).ready ≡ as_line (input_of pool self.old).current }
        ensures current { (pool : PoolState) → (input_of pool self.new).current ≡ [] }
        ensures blocks { self.new.chain.blocks ≡ self.old.chain.blocks }
    {
        let Some(_last) = self.kinds.pop_back() else {
            return;
        };
        self.kinds.push_back(PlaceKind::LineEnd);
        self.current = 0;
    }

    /// Turns the input where icanon goes off, whose lines are then one list, or comes on, which makes it one ready line.
    pub(crate) fn turn(&mut self, pool: &mut Pool, old: bool, new: bool)
        requires bytes { old ≡ false → all_bytes self.old.kinds ≡ true }
        requires of_pool { AreOf pool.old self.old.chain.blocks }
        ensures lines { input_of pool.new self.new ≡ turn old new (input_of pool.old self.old) }
        ensures bytes { new ≡ false → all_bytes self.new.kinds ≡ true }
        ensures blocks { self.new.chain.blocks ≡ self.old.chain.blocks }
        ensures writes { WritesTo self.old.chain.blocks pool.old pool.new }
    {
        if old && !new {
            self.join(pool);
            return;
        }
        if !old && new {
            let _current = self.current_len();
            self.end_current();
        }
    }

    /// Empties the queue.
    pub(crate) fn clear(&mut self)
        ensures none { (pool : PoolState) → input_of pool self.new ≡ no_input }
        ensures kinds { all_bytes self.new.kinds ≡ true }
        ensures blocks { self.new.chain.blocks ≡ self.old.chain.blocks }
    {
        self.chain.clear();
        self.kinds.clear();
        self.current = 0;
    }
}
