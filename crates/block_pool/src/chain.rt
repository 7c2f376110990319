//! A list of bytes over the blocks of a lease.
ghost use Rattle.std.specs.Prelude.{◌≡◌, ◌+◌, ◌*◌, ◌<◌, ◌≤◌, ◌↔◌, [], ◌∷◌, ◌++◌, length, take, None, option_to_list};
ghost use Rattle.block_pool.specs.Pool.{PoolState, AreOf, AreApart, WritesTo};
ghost use Rattle.block_pool.specs.Chain.{ChainState, room_of, holds};

use crate::lease::Lease;
use crate::pool::Pool;
use crate::{BLOCK_BYTES, LEASE_BLOCKS};
use std::marker::Model;

/// A list of bytes over the blocks of a lease, which it uses in a circle.
///
/// Contracts see of it a `ChainState`. What it holds is read over the pool of its blocks. Unlike a lease it may be let go, as
/// it is with the pool where all ends; its blocks are then not free again.
pub struct Chain {
    lease: Lease,
    first: u16,
    count: u16,
}

impl Model for Chain {
    ghost use Rattle.std.specs.Prelude.{◌*◌, ◌≤◌, length};
    ghost use Rattle.block_pool.specs.declared.TheConstants.{BLOCK_BYTES};
    ghost use Rattle.block_pool.specs.Chain.{ChainState};

    ghost Value = { ChainState };

    ghost view = { λ c. record { blocks = c.lease; first = c.first; count = c.count } };

    ghost invariant = { λ c. (c.first ≤ BLOCK_BYTES * length c.lease) × (c.count ≤ BLOCK_BYTES * length c.lease) };
}

impl Drop for Chain {
    fn drop(self) {
        self.into_lease().end();
    }
}

/// How many bytes the blocks of a lease have.
fn bytes_of(lease: &Lease) -> u16
    ensures bytes { result ≡ BLOCK_BYTES * length lease.now }
    ensures most { result ≤ BLOCK_BYTES * LEASE_BLOCKS }
{
    (lease.numbers().len() * BLOCK_BYTES) as u16
}

impl Chain {
    /// The empty list over the blocks of a lease, with room for 128 bytes in each.
    #[tactic(auto, using(crate::proofs::CircleLemmas::circle))]
    pub fn over(lease: Lease) -> Chain
        ensures blocks { result.blocks ≡ lease }
        ensures count { result.count ≡ 0 }
        ensures empty { (pool : PoolState) → holds pool result ≡ [] }
    {
        Chain {
            lease,
            first: 0,
            count: 0,
        }
    }

    /// The lease of its blocks. What it held is gone.
    pub fn into_lease(self) -> Lease
        ensures { result ≡ self.blocks }
    {
        let Chain {
            lease,
            first: _,
            count: _,
        } = self;
        lease
    }

    /// How many bytes it holds.
    #[tactic(auto, using(crate::proofs::CircleLemmas::circle))]
    pub fn len(&self) -> u16
        ensures count { result ≡ self.now.count }
        ensures len { (pool : PoolState) → result ≡ length (holds pool self.now) }
    {
        self.count
    }

    /// How many bytes more it takes: 128 for each block, less its length.
    #[tactic(auto, using(crate::proofs::CircleLemmas::circle))]
    pub fn room(&self) -> u16
        ensures room { result ≡ room_of self.now }
        ensures limit { (pool : PoolState) → length (holds pool self.now) + result ≡ BLOCK_BYTES * length self.now.blocks }
    {
        bytes_of(&self.lease) - self.count
    }

    /// Adds a byte at the end. There is room, and the blocks are of the pool.
    pub fn push_back(&mut self, pool: &mut Pool, byte: u8)
        requires room { 0 < room_of self.old }
        requires of_pool { AreOf pool.old self.old.blocks }
        ensures bytes { holds pool.new self.new ≡ holds pool.old self.old ++ byte ∷ [] }
        ensures count { self.new.count ≡ self.old.count + 1 }
        ensures blocks { self.new.blocks ≡ self.old.blocks }
        ensures writes { WritesTo self.old.blocks pool.old pool.new }
        ensures others { (other : ChainState) → AreApart self.old.blocks other.blocks → holds pool.new other ≡ holds pool.old other }
    {
        let bytes = bytes_of(&self.lease);
        let place = (self.first + self.count) % bytes;
        pool.put(&self.lease, place, byte);
        self.count += 1;
    }

    /// Adds bytes at the end: as many of them as the block takes in which the next place is, and at least one. There is one, there
    /// is room for all, and the blocks are of the pool. Answers how many it adds.
    fn push_run(&mut self, pool: &mut Pool, bytes: &[u8]) -> usize
        requires some { 0 < length bytes.now }
        requires room { length bytes.now ≤ room_of self.old }
        requires of_pool { AreOf pool.old self.old.blocks }
        ensures some { 0 < result }
        ensures most { result ≤ length bytes.now }
        ensures bytes { holds pool.new self.new ≡ holds pool.old self.old ++ take result bytes.now }
        ensures count { self.new.count ≡ self.old.count + result }
        ensures blocks { self.new.blocks ≡ self.old.blocks }
        ensures writes { WritesTo self.old.blocks pool.old pool.new }
    {
        let places = bytes_of(&self.lease);
        let place = (self.first + self.count) % places;
        let left = BLOCK_BYTES - usize::from(place) % BLOCK_BYTES;
        let run = left.min(bytes.len());
        pool.put_run(&self.lease, place, &bytes[..run]);
        self.count += run as u16;
        run
    }

    /// Adds bytes at the end. There is room for all, and the blocks are of the pool.
    pub fn push_all(&mut self, pool: &mut Pool, bytes: &[u8])
        requires room { length bytes.now ≤ room_of self.old }
        requires of_pool { AreOf pool.old self.old.blocks }
        ensures bytes { holds pool.new self.new ≡ holds pool.old self.old ++ bytes.now }
        ensures count { self.new.count ≡ self.old.count + length bytes.now }
        ensures blocks { self.new.blocks ≡ self.old.blocks }
        ensures writes { WritesTo self.old.blocks pool.old pool.new }
        ensures others { (other : ChainState) → AreApart self.old.blocks other.blocks → holds pool.new other ≡ holds pool.old other }
    {
        let mut done = 0;
        while done < bytes.len() {
            done += self.push_run(pool, &bytes[done..]);
        }
    }

    /// Takes the first byte. `None` comes exactly where there is none. The blocks are of the pool.
    pub fn pop_front(&mut self, pool: &Pool) -> Option<u8>
        requires { AreOf pool.now self.old.blocks }
        ensures none { (result ≡ None) ↔ (holds pool.now self.old ≡ []) }
        ensures bytes { holds pool.now self.old ≡ option_to_list result ++ holds pool.now self.new }
        ensures count { self.old.count ≡ self.new.count + length (option_to_list result) }
        ensures blocks { self.new.blocks ≡ self.old.blocks }
    {
        if self.count == 0 {
            return None;
        }
        let bytes = bytes_of(&self.lease);
        let byte = pool.byte(&self.lease, self.first % bytes);
        self.first = (self.first + 1) % bytes;
        self.count -= 1;
        Some(byte)
    }

    /// Takes bytes from the front, at most `max`, which is at least 1: as many as stand in one block of the pool. They are none
    /// exactly where there is none. The blocks are of the pool.
    pub fn pop_run<'a>(&mut self, pool: &'a Pool, max: usize) -> &'a [u8]
        requires some { 0 < max }
        requires of_pool { AreOf pool.now self.old.blocks }
        ensures none { (result.now ≡ []) ↔ (holds pool.now self.old ≡ []) }
        ensures most { length result.now ≤ max }
        ensures bytes { holds pool.now self.old ≡ result.now ++ holds pool.now self.new }
        ensures count { self.old.count ≡ self.new.count + length result.now }
        ensures blocks { self.new.blocks ≡ self.old.blocks }
    {
        if self.count == 0 {
            return &[];
        }
        let places = bytes_of(&self.lease);
        let run = pool.run_from(&self.lease, self.first % places);
        let taken = run.len().min(usize::from(self.count)).min(max);
        self.first = (self.first + taken as u16) % places;
        self.count -= taken as u16;
        &run[..taken]
    }

    /// Takes the last byte. `None` comes exactly where there is none. The blocks are of the pool.
    pub fn pop_back(&mut self, pool: &Pool) -> Option<u8>
        requires { AreOf pool.now self.old.blocks }
        ensures none { (result ≡ None) ↔ (holds pool.now self.old ≡ []) }
        ensures bytes { holds pool.now self.old ≡ holds pool.now self.new ++ option_to_list result }
        ensures count { self.old.count ≡ self.new.count + length (option_to_list result) }
        ensures blocks { self.new.blocks ≡ self.old.blocks }
    {
        if self.count == 0 {
            return None;
        }
        self.count -= 1;
        let bytes = bytes_of(&self.lease);
        let place = (self.first + self.count) % bytes;
        Some(pool.byte(&self.lease, place))
    }

    /// Empties the list.
    #[tactic(auto, using(crate::proofs::CircleLemmas::circle))]
    pub fn clear(&mut self)
        ensures blocks { self.new.blocks ≡ self.old.blocks }
        ensures count { self.new.count ≡ 0 }
        ensures empty { (pool : PoolState) → holds pool self.new ≡ [] }
    {
        self.count = 0;
    }
}
