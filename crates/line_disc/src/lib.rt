//! The line discipline of a terminal line, after termios(4): what a byte does that comes in, what is echoed, what a read, a
//! write and a taking give, and what other settings and a flush make of what is queued.
//!
//! A discipline stands over a lease of 40 blocks, and no call takes memory. What it is, is read over the pool of its blocks.
#![tactic(auto)]

mod disc;
mod echo;
mod input;
pub mod laws;
mod place;
mod transfer;

pub use disc::Disc;
pub use place::PlaceKind;
