//! A lock by turns around a recorded machine, whose history is the machine's.
//!
//! Threads share the lock, and each enters its events through a pass of its own. Whoever enters an
//! event draws a ticket, waits until it is served, and then asks the machine. So the entries of all
//! passes have one order, and the machine takes their events in it.
//!
//! A pass knows the history that it has seen and the events that it entered. Each call says how
//! these grow, and `close` that all passes knew one history, which is the machine's.
//!
//! Nothing is claimed of time: not that a turn comes, nor how soon, nor that no thread waits for
//! ever.
#![tactic(auto)]

mod lock;
mod pass;
mod plays;
mod rule;
mod turn;

pub use lock::TurnLock;
pub use pass::Pass;
pub use turn::Turn;

#[cfg(test)]
mod tests;
