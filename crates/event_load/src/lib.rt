//! The generated load: a stream of events that the words of a generator draw.
//!
//! A load has four opening events, by which the slots 0 to 3 get processes that share a descriptor of the line `/dev/tty7`, and then
//! one event for each word that is drawn. `specs/Load` says which event each word draws. The generator is PCG's XSH RR 64/32 on its
//! stream 1, as the crate rand_pcg has it, so that a load is the same wherever it is made.
#![tactic(auto)]

mod drawn;
mod load;

pub use load::Load;
