//! Processes: what each is, and the table of their 32 slots, with what fork(2), kill(2), _exit(2) and wait4(2) make of it.
//!
//! Pids count up and are never used again. A signal that ends a process only puts it on a list, which is worked when all posts of an
//! event are through; a default stop happens at once. All room is taken when the table is made, and none later.
#![tactic(auto)]

mod actions;
mod changes;
mod ending;
mod groups;
mod jobs;
mod kill;
pub mod laws;
mod lookup;
mod order;
mod place;
mod post;
mod proc;
mod reap;
mod table;

pub use actions::{Actions, SIGNAL_NUMBERS};
pub use call_words::{Action, How, To};
pub use kill::Pids;
pub use post::{EndingList, add_ending};
pub use proc::{INIT, Proc, ProcState};
pub use table::{NoMemory, ProcTable};
