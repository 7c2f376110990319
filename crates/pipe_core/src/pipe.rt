//! One pipe.
ghost use Rattle.std.specs.Prelude.{◌≡◌, ◌+◌, ◌≤◌, ◌↔◌, [], ◌++◌, length, take, drop, IsTrue};
ghost use Rattle.std.specs.Bool.{OnTrue, OnFalse};
ghost use Rattle.sys_types.specs.declared.limits.TheConstants.{PIECE_BYTES};
ghost use Rattle.block_pool.specs.Pool.{PoolState, AreOf, AreApart, WritesTo};
ghost use Rattle.block_pool.specs.Chain.{ChainState, holds, places};

use arrayvec::ArrayVec;
use block_pool::{Chain, Lease, Pool};
use std::marker::Model;
use sys_types::{PIECE_BYTES, Piece};

/// A pipe: a list of bytes over the blocks of a lease, with room for 128 bytes in each.
///
/// Contracts see of it a `ChainState`. What it holds is read over the pool of its blocks.
#[derive(Drop)]
pub struct Pipe {
    chain: Chain,
}

impl Model for Pipe {
    ghost use Rattle.block_pool.specs.Chain.{ChainState};

    ghost Value = { ChainState };

    ghost view = { λ p. p.chain };
}

impl Pipe {
    /// The empty pipe over the blocks of a lease.
    pub fn over(lease: Lease) -> Pipe
        ensures blocks { result.blocks ≡ lease }
        ensures empty { (pool : PoolState) → holds pool result ≡ [] }
    {
        Pipe {
            chain: Chain::over(lease),
        }
    }

    /// The lease of its blocks. What it held is gone.
    pub fn into_lease(self) -> Lease
        ensures { result ≡ self.blocks }
    {
        let Pipe { chain } = self;
        chain.into_lease()
    }

    /// How many bytes it holds.
    pub fn len(&self) -> u16
        ensures { (pool : PoolState) → result ≡ length (holds pool self.now) }
    {
        self.chain.len()
    }

    /// Puts bytes behind those that it holds, all of them or none. `false` comes exactly where there is less room, which is 128 bytes
    /// for each block less those that it holds; then nothing changes. The blocks are of the pool.
    pub fn put(&mut self, pool: &mut Pool, bytes: &[u8]) -> bool
        requires { AreOf pool.old self.old.blocks }
        ensures fits { IsTrue result ↔ (length (holds pool.old self.old) + length bytes.now ≤ places self.old) }
        ensures bytes { OnTrue result (holds pool.new self.new ≡ holds pool.old self.old ++ bytes.now) }
        ensures pipe { OnFalse result (self.new ≡ self.old) }
        ensures pool { OnFalse result (pool.new ≡ pool.old) }
        ensures blocks { self.new.blocks ≡ self.old.blocks }
        ensures writes { WritesTo self.old.blocks pool.old pool.new }
        ensures of_pool { AreOf pool.new self.new.blocks }
        ensures others { (other : ChainState) → AreApart self.old.blocks other.blocks → holds pool.new other ≡ holds pool.old other }
    {
        if usize::from(self.chain.room()) < bytes.len() {
            return false;
        }
        for byte in bytes {
            self.chain.push_back(pool, *byte);
        }
        true
    }

    /// Takes at most `max` bytes from the front, at most 512: fewer exactly where it holds fewer. The blocks are of the pool.
    pub fn take(&mut self, pool: &Pool, max: u16) -> Piece
        requires of_pool { AreOf pool.now self.old.blocks }
        requires max { max ≤ PIECE_BYTES }
        ensures front { result ≡ take max (holds pool.now self.old) }
        ensures rest { holds pool.now self.new ≡ drop max (holds pool.now self.old) }
        ensures blocks { self.new.blocks ≡ self.old.blocks }
    {
        let count = max.min(self.chain.len());
        let mut bytes: ArrayVec<u8, PIECE_BYTES> = ArrayVec::new();
        for _ in 0..count {
            if let Some(byte) = self.chain.pop_front(pool) {
                bytes.push(byte);
            }
        }
        Piece::from_slice(bytes.as_slice()).unwrap()
    }
}
