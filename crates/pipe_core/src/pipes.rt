//! The table of pipes.
ghost use Rattle.std.specs.Prelude.{◌≡◌, ℕ, ◌+◌, ◌<◌, ◌≤◌, ◌↔◌, ◌++◌, length, replicate, take, Some, None, is_none, option_copied, option_map, position};
ghost use Rattle.std.specs.Prelude.{[], slice_index_or, slice_set, IsTrue, IsErr, IfOk, OnOk, OnErr, All};
ghost use Rattle.std.specs.Bool.{OnTrue, OnFalse};
ghost use Rattle.sys_types.specs.declared.limits.TheConstants.{PIPES, PIPE_BLOCKS, PIECE_BYTES};
ghost use Rattle.block_pool.specs.Pool.{AreOf, WritesTo, times};
ghost use Rattle.block_pool.specs.Chain.{ChainState, holds, places};
ghost use Rattle.pipe_core.specs.Pipes.{is_there, contents_at, element_at, free_pipes, lowest_free, add, remove, put, take_front};
ghost use Rattle.pipe_core.specs.Chains.{bytes_of, blocks_of, HoldsBlocks, KeepsPipes};

use crate::pipe::Pipe;
use block_pool::{Pool, PoolFull};
use label_core::Element;
use std::marker::Model;
use sys_types::{PIPE_BLOCKS, PIPES, Piece};

/// A pipe with its element.
#[derive(Drop)]
struct Labelled {
    pipe: Pipe,
    element: Element,
}

/// The pipes of the kernel: at most 16, under the numbers 0 to 15, each with its element.
///
/// Contracts see of it, for each number, the pipe's `ChainState` and its element.
#[derive(Drop)]
pub struct Pipes {
    places: [Option<Labelled>; PIPES],
}

impl Model for Pipes {
    ghost use Rattle.std.specs.Prelude.{◌≡◌, length};
    ghost use Rattle.sys_types.specs.declared.limits.TheConstants.{PIPES};
    ghost use Rattle.block_pool.specs.Chain.{ChainState};
    ghost use Rattle.pipe_core.specs.Pipes as spec;
    ghost use Rattle.pipe_core.specs.Labelled.{pipes_of};

    ghost Value = { spec.Pipes ChainState };

    ghost view = { λ p. pipes_of p.places };

    ghost invariant = { λ p. length p.places ≡ PIPES };
}

fn lowest_of(places: &[Option<Labelled>]) -> Option<usize>
    ensures { result ≡ position is_none places.now }
{
    places.iter().position(|place| place.is_none())
}

/// Takes out what stands in a place, which is there.
fn take_of(places: &mut [Option<Labelled>], k: u16) -> Option<Labelled>
    requires { k < length places.old }
    ensures places { places.new ≡ slice_set places.old k None }
    ensures place { result ≡ slice_index_or places.old k None }
{
    places[usize::from(k)].take()
}

impl Pipes {
    /// No pipes.
    pub fn new() -> Pipes
        ensures none { result ≡ replicate PIPES None }
        ensures blocks { All HoldsBlocks result }
    {
        Pipes {
            places: [
                None, None, None, None, None, None, None, None, None, None, None, None, None, None,
                None, None,
            ],
        }
    }

    /// Makes an empty pipe of this element over 32 blocks of the pool, under the lowest free number, and says which (pipe(2)). A number
    /// is free. `PoolFull` comes exactly where fewer blocks are free, and then nothing changes.
    pub fn create(&mut self, pool: &mut Pool, element: Element) -> Result<u16, PoolFull>
        requires { 0 < free_pipes self.old }
        ensures full { IsErr result ↔ (length pool.old.free < PIPE_BLOCKS) }
        ensures number { IfOk result (λ number. number ≡ lowest_free self.old) }
        ensures bytes { OnOk result (bytes_of pool.new self.new ≡ add (bytes_of pool.old self.old) [] element) }
        ensures keeps { KeepsPipes pool.old pool.new self.old self.new }
        ensures err { OnErr result ((self.new ≡ self.old) × (pool.new ≡ pool.old)) }
    {
        let lease = match pool.reserve(PIPE_BLOCKS) {
            Ok(lease) => lease,
            Err(full) => return Err(full),
        };
        Ok(self.add(Pipe::over(lease), element))
    }

    /// Adds a pipe with its maker's element under the lowest free number, and says which. A number is free.
    pub fn add(&mut self, pipe: Pipe, element: Element) -> u16
        requires { 0 < free_pipes self.old }
        ensures number { result ≡ lowest_free self.old }
        ensures most { result < PIPES }
        ensures pipes { self.new ≡ add self.old pipe element }
        ensures blocks { (block : ℕ) → times block (blocks_of self.new) ≡ times block (pipe.blocks ++ blocks_of self.old) }
    {
        let number = lowest_of(&self.places).unwrap();
        self.places[number] = Some(Labelled { pipe, element });
        number as u16
    }

    /// The pipe of a number. `None` comes exactly where there is none.
    pub fn get(&self, k: u16) -> Option<&Pipe>
        ensures { option_copied result ≡ contents_at self.now k }
    {
        match self.places.get(usize::from(k)) {
            Some(Some(labelled)) => Some(&labelled.pipe),
            _ => None,
        }
    }

    /// The element of a pipe. It is there.
    pub fn element(&self, k: u16) -> &Element
        requires { IsTrue (is_there self.now k) }
        ensures { Some result.now ≡ element_at self.now k }
    {
        match &self.places[usize::from(k)] {
            Some(labelled) => &labelled.element,
            None => unreachable!(),
        }
    }

    /// Puts bytes behind those that a pipe holds, all of them or none. `false` comes exactly where there is less room, which is 128
    /// bytes for each of its blocks less those that it holds; then nothing changes. The pipe is there, and the blocks of all pipes are
    /// of the pool.
    pub fn put(&mut self, k: u16, pool: &mut Pool, bytes: &[u8]) -> bool
        requires there { IsTrue (is_there self.old k) }
        requires of_pool { AreOf pool.old (blocks_of self.old) }
        ensures fits { (pipe : ChainState) → contents_at self.old k ≡ Some pipe
            → (IsTrue result ↔ (length (holds pool.old pipe) + length bytes.now ≤ places pipe)) }
        ensures put { OnTrue result (bytes_of pool.new self.new ≡ put (bytes_of pool.old self.old) k bytes.now) }
        ensures pipes { OnFalse result (self.new ≡ self.old) }
        ensures pool { OnFalse result (pool.new ≡ pool.old) }
        ensures blocks { blocks_of self.new ≡ blocks_of self.old }
        ensures writes { WritesTo (blocks_of self.old) pool.old pool.new }
        ensures of_pool { AreOf pool.new (blocks_of self.new) }
        ensures keeps { KeepsPipes pool.old pool.new self.old self.new }
    {
        match &mut self.places[usize::from(k)] {
            Some(labelled) => labelled.pipe.put(pool, bytes),
            None => unreachable!(),
        }
    }

    /// Takes at most `max` bytes from the front of a pipe, at most 512: fewer exactly where it holds fewer. The pipe is there, and the
    /// blocks of all pipes are of the pool.
    pub fn take(&mut self, k: u16, pool: &Pool, max: u16) -> Piece
        requires there { IsTrue (is_there self.old k) }
        requires of_pool { AreOf pool.now (blocks_of self.old) }
        requires max { max ≤ PIECE_BYTES }
        ensures front { Some result ≡ option_map (take max) (contents_at (bytes_of pool.now self.old) k) }
        ensures rest { bytes_of pool.now self.new ≡ take_front (bytes_of pool.now self.old) k max }
        ensures blocks { blocks_of self.new ≡ blocks_of self.old }
        ensures keeps { KeepsPipes pool.now pool.now self.old self.new }
    {
        match &mut self.places[usize::from(k)] {
            Some(labelled) => labelled.pipe.take(pool, max),
            None => unreachable!(),
        }
    }

    /// Takes a pipe out of the table. It is there.
    pub fn remove(&mut self, k: u16) -> Pipe
        requires { IsTrue (is_there self.old k) }
        ensures pipe { Some result ≡ contents_at self.old k }
        ensures pipes { self.new ≡ remove self.old k }
        ensures blocks { (block : ℕ) → times block (blocks_of self.old) ≡ times block (result.blocks ++ blocks_of self.new) }
    {
        let Labelled { pipe, element: _ } = take_of(&mut self.places, k).unwrap();
        pipe
    }

    /// Takes a pipe out of the table and makes its blocks free. It is there, and the blocks of all pipes are of the pool. It never wants
    /// memory.
    pub fn release(&mut self, k: u16, pool: &mut Pool)
        requires there { IsTrue (is_there self.old k) }
        requires of_pool { AreOf pool.old (blocks_of self.old) }
        ensures bytes { bytes_of pool.new self.new ≡ remove (bytes_of pool.old self.old) k }
        ensures keeps { KeepsPipes pool.old pool.new self.old self.new }
    {
        pool.give_back(self.remove(k).into_lease());
    }
}
