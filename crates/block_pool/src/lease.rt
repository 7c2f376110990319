//! The blocks of a pool that one owner has.
ghost use Rattle.std.specs.Prelude.{◌≡◌, ◌+◌, ◌<◌, ◌≤◌, ◌++◌, length, take, drop};

use crate::LEASE_BLOCKS;
use arrayvec::ArrayVec;
use std::marker::Model;

/// Blocks of a pool, at most 40, in an order. Contracts see the list of their numbers.
///
/// Only a pool makes a lease, and it is neither copied nor dropped: its owner gives it back.
pub struct Lease {
    blocks: ArrayVec<u16, LEASE_BLOCKS>,
}

impl Model for Lease {
    ghost use Rattle.std.specs.Prelude.{ℕ, ◌≤◌, List, length};
    ghost use Rattle.block_pool.specs.declared.TheConstants.{LEASE_BLOCKS};

    ghost Value = { List ℕ };

    ghost view = { λ l. l.blocks.items };

    ghost invariant = { λ l. length l.blocks.items ≤ LEASE_BLOCKS };
}

impl Lease {
    /// The lease of these blocks, of which there are at most 40.
    pub(crate) fn of(numbers: &[u16]) -> Self
        requires { length numbers.now ≤ LEASE_BLOCKS }
        ensures { result ≡ numbers.now }
    {
        let mut blocks = ArrayVec::new();
        let _ = blocks.try_extend_from_slice(numbers);
        Lease { blocks }
    }

    /// The numbers of the blocks.
    pub(crate) fn numbers(&self) -> &[u16]
        ensures numbers { result.now ≡ self.now }
        ensures most { length result.now ≤ LEASE_BLOCKS }
    {
        self.blocks.as_slice()
    }

    /// Ends the lease, whose blocks now go by their numbers elsewhere.
    pub(crate) fn end(self) {
        let Lease { blocks: _ } = self;
    }

    /// Cuts the lease in two: its first `n` blocks, at least one, and the rest, at least one.
    pub fn cut(self, n: u16) -> (Lease, Lease)
        requires some { 0 < n }
        requires fewer { n < length self }
        ensures front { result.0 ≡ take n self }
        ensures rest { result.1 ≡ drop n self }
    {
        let (front, rest) = self.numbers().split_at(usize::from(n));
        let parts = (Lease::of(front), Lease::of(rest));
        self.end();
        parts
    }

    /// This lease's blocks followed by the other's, at most 40 together.
    ///
    /// Both are to be of one pool. The call itself does not need it, so it is no condition here: it
    /// is what makes the joined lease one of that pool, which every later call on it asks.
    pub fn join(self, other: Lease) -> Lease
        requires { length self + length other ≤ LEASE_BLOCKS }
        ensures { result ≡ self ++ other }
    {
        let Lease { mut blocks } = self;
        let _ = blocks.try_extend_from_slice(other.numbers());
        other.end();
        Lease { blocks }
    }
}
