//! A pool of blocks of memory, leases of its blocks, and lists of bytes over the blocks of a lease.
//!
//! All memory is taken when the pool is made. From then on a lease moves block numbers alone, and
//! a byte goes into a block of its chain: nothing is allocated. Terminal lines and pipes keep
//! their queues so, as the C-lists of the 4.3BSD terminal driver did (Leffler, McKusick, Karels and
//! Quarterman, The Design and Implementation of the 4.3BSD UNIX Operating System, chapter 9).
#![tactic(auto)]

mod chain;
pub mod laws;
mod lease;
mod pool;

pub use chain::Chain;
pub use lease::Lease;
pub use pool::{NoMemory, Pool, PoolFull};

/// How many bytes a block has.
pub const BLOCK_BYTES: usize = 128;

/// How many blocks a lease has at most.
pub const LEASE_BLOCKS: usize = 40;
