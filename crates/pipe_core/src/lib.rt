//! Pipes over the blocks of a pool, and the kernel's table of them (pipe(2)).
//!
//! A pipe is a list of bytes with room for 128 in each block of its lease: 4,096 in the 32 blocks that the kernel gives it. A write is
//! put whole or not at all, as writes of at most PIPE_BUF bytes are (write(2)). No call takes memory.
#![tactic(auto)]

pub mod laws;
mod pipe;
mod pipes;

pub use pipe::Pipe;
pub use pipes::Pipes;
