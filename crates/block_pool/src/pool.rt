//! The blocks, and which of them are free.
ghost use Rattle.std.specs.Prelude.{◌≡◌, ℕ, ◌+◌, ◌-◌, ◌*◌, ◌%◌, ◌<◌, ◌≤◌, ◌↔◌, List, [], ◌++◌, length, take, drop, IfOk, OnErr, IsErr, slice_index, slice_set, vec_capacity, All};
ghost use Rattle.std.specs.List.{range_with_len};
ghost use Rattle.block_pool.specs.Pool.{bytes_in, AreOf, AreAllOf, Lends, WritesTo};

use crate::lease::Lease;
use crate::{BLOCK_BYTES, LEASE_BLOCKS};
pub use std::alloc::AllocError as NoMemory;
use std::alloc::Global;
use std::marker::Model;

/// Fewer blocks are free than were asked.
#[derive(Clone, Copy, Debug, PartialEq, Eq)]
pub struct PoolFull;

/// Blocks of 128 bytes, each of which is free or in one lease.
///
/// Contracts see of it a `PoolState`: what is in each block, and the numbers of the free ones.
#[derive(Drop)]
pub struct Pool {
    blocks: Vec<[u8; BLOCK_BYTES]>,
    free: Vec<u16>,
}

impl Model for Pool {
    ghost use Rattle.std.specs.Prelude.{vec_capacity};
    ghost use Rattle.block_pool.specs.Pool.{PoolState};
    ghost use Rattle.block_pool.specs.WholePool.{IsWholePool};

    ghost Value = { PoolState };

    ghost view = { λ p. record { blocks = p.blocks.items; free = p.free.items } };

    ghost invariant = { λ p. IsWholePool (record { blocks = p.blocks.items; free = p.free.items }) (vec_capacity p.free) };
}

/// The numbers below `n`.
#[tactic(auto, using(crate::proofs::TimesLemmas::range_more))]
fn numbers_below(alloc: Global, n: u16) -> Result<Vec<u16>, NoMemory>
    ensures numbers { IfOk result (λ numbers. numbers.items ≡ range_with_len 0 n) }
    ensures room { IfOk result (λ numbers. n ≤ vec_capacity numbers) }
{
    let mut numbers = Vec::with_capacity(alloc, usize::from(n))?;
    for number in 0..n {
        numbers.push_reserved(number);
    }
    Ok(numbers)
}

/// So many blocks.
#[tactic(auto, using(crate::proofs::BlockLemmas::whole_more))]
fn whole_blocks(alloc: Global, n: u16) -> Result<Vec<[u8; BLOCK_BYTES]>, NoMemory>
    ensures whole { IfOk result (λ blocks. All (λ bytes. length bytes ≡ BLOCK_BYTES) blocks.items) }
    ensures size { IfOk result (λ blocks. length blocks.items ≡ n) }
{
    let mut blocks = Vec::with_capacity(alloc, usize::from(n))?;
    for _number in 0..n {
        blocks.push_reserved([0; BLOCK_BYTES]);
    }
    Ok(blocks)
}

impl Pool {
    /// A pool of so many blocks, at most 65,535, all of them free. All memory is taken here, and none
    /// later; `NoMemory`, where it runs out, is the only error.
    pub fn new(alloc: Global, blocks: u16) -> Result<Pool, NoMemory>
        ensures size { IfOk result (λ pool. length pool.blocks ≡ blocks) }
        ensures all { IfOk result (λ pool. AreAllOf pool []) }
        ensures free { IfOk result (λ pool. length pool.free ≡ blocks) }
    {
        let free = numbers_below(alloc, blocks)?;
        let blocks = whole_blocks(alloc, blocks)?;
        Ok(Pool { blocks, free })
    }

    /// How many blocks are free.
    pub fn free(&self) -> u16
        ensures { result ≡ length self.now.free }
    {
        self.free.len() as u16
    }

    /// Leases `n` free blocks, 1 to 40. `PoolFull` comes exactly where fewer are free, and then
    /// nothing changes.
    pub fn reserve(&mut self, n: u16) -> Result<Lease, PoolFull>
        requires some { 0 < n }
        requires most { n ≤ LEASE_BLOCKS }
        ensures full { IsErr result ↔ (length self.old.free < n) }
        ensures count { IfOk result (λ lease. length lease ≡ n) }
        ensures lends { IfOk result (λ lease. Lends lease self.old self.new) }
        ensures of_pool { IfOk result (λ lease. AreOf self.new lease) }
        ensures others { IfOk result (λ lease. (leased : List ℕ) → AreOf self.old leased → AreOf self.new (lease ++ leased)) }
        ensures err { OnErr result (self.new ≡ self.old) }
    {
        let n = usize::from(n);
        if self.free.len() < n {
            return Err(PoolFull);
        }
        let left = self.free.len() - n;
        let lease = Lease::of(&self.free[left..]);
        self.free.truncate(left);
        Ok(lease)
    }

    /// Makes the blocks of a lease free again. The lease is of this pool. It never wants memory.
    pub fn give_back(&mut self, lease: Lease)
        requires { AreOf self.old lease }
        ensures lends { Lends lease self.new self.old }
        ensures others { (leased : List ℕ) → AreOf self.old (lease ++ leased) → AreOf self.new leased }
    {
        let _ = self.free.extend_from_slice(lease.numbers());
        lease.end();
    }

    /// The byte in a place of the blocks of a lease, which run one after another.
    pub(crate) fn byte(&self, lease: &Lease, place: u16) -> u8
        requires of_pool { AreOf self.now lease.now }
        requires place { place < BLOCK_BYTES * length lease.now }
        ensures { result ≡ slice_index (bytes_in self.now lease.now) place }
    {
        let place = usize::from(place);
        let number = lease.numbers()[place / BLOCK_BYTES];
        let block = &self.blocks[usize::from(number)];
        block[place % BLOCK_BYTES]
    }

    /// Puts a byte into a place of the blocks of a lease, which run one after another.
    pub(crate) fn put(&mut self, lease: &Lease, place: u16, byte: u8)
        requires of_pool { AreOf self.old lease.now }
        requires place { place < BLOCK_BYTES * length lease.now }
        ensures put { bytes_in self.new lease.now ≡ slice_set (bytes_in self.old lease.now) place byte }
        ensures writes { WritesTo lease.now self.old self.new }
        ensures bytes { length (bytes_in self.old lease.now) ≡ BLOCK_BYTES * length lease.now }
    {
        let place = usize::from(place);
        let number = lease.numbers()[place / BLOCK_BYTES];
        let block = &mut self.blocks[usize::from(number)];
        block[place % BLOCK_BYTES] = byte;
    }

    /// The bytes from a place on to the end of its block, of the blocks of a lease, which run one after another.
    pub(crate) fn run_from<'a>(&'a self, lease: &Lease, place: u16) -> &'a [u8]
        requires of_pool { AreOf self.now lease.now }
        requires place { place < BLOCK_BYTES * length lease.now }
        ensures run { result.now ≡ take (length result.now) (drop place (bytes_in self.now lease.now)) }
        ensures len { length result.now ≡ BLOCK_BYTES - place % BLOCK_BYTES }
        ensures bytes { length (bytes_in self.now lease.now) ≡ BLOCK_BYTES * length lease.now }
    {
        let place = usize::from(place);
        let number = lease.numbers()[place / BLOCK_BYTES];
        let block = &self.blocks[usize::from(number)];
        let (_, run) = block.split_at(place % BLOCK_BYTES);
        run
    }

    /// Puts bytes from a place on into its block, which has as many places from there on, of the blocks of a lease, which run
    /// one after another.
    pub(crate) fn put_run(&mut self, lease: &Lease, place: u16, bytes: &[u8])
        requires of_pool { AreOf self.old lease.now }
        requires place { place < BLOCK_BYTES * length lease.now }
        requires block { place % BLOCK_BYTES + length bytes.now ≤ BLOCK_BYTES }
        ensures put { bytes_in self.new lease.now
            ≡ take place (bytes_in self.old lease.now) ++ bytes.now ++ drop (place + length bytes.now) (bytes_in self.old lease.now) }
        ensures writes { WritesTo lease.now self.old self.new }
        ensures bytes { length (bytes_in self.old lease.now) ≡ BLOCK_BYTES * length lease.now }
    {
        let place = usize::from(place);
        let number = lease.numbers()[place / BLOCK_BYTES];
        let block = &mut self.blocks[usize::from(number)];
        let at = place % BLOCK_BYTES;
        block[at..at + bytes.len()].copy_from_slice(bytes);
    }
}
