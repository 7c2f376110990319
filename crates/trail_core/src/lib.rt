//! A machine that takes one event at a time, and a machine with the trail of its events.
//!
//! What a machine answers is a function of its root, of the events so far and of the next event.
//! `Recorded` keeps the events beside the machine, so whoever replays the trail from a machine of
//! the same root gets the same answers.
#![tactic(auto)]

pub mod laws;
mod machine;
mod recorded;
pub mod toy;

pub use machine::{MOST_EVENTS, Machine, NoMemory};
pub use recorded::{Recorded, Refused};
