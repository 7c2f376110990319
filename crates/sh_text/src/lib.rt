//! Lines of a shell as trees, after the shell language of POSIX.1 (XCU chapter 2), of which it has
//! lists, background jobs, pipelines, words, quotes, and redirections of input and output.
//!
//! Jobs end with `;`, with `&` in the background, or with the line, and a job is up to eight
//! commands joined by `|`. That limit, that a command has at most one input and one output and at
//! least one word, and the places of faults are this crate's own.
#![tactic(auto)]

mod bytes;
mod command;
mod fault;
mod item_list;
mod jobs;
pub mod laws;
mod line;
mod tree;
mod words;

pub use fault::{NoMemory, ShFault};
pub use item_list::ItemList;
pub use jobs::MOST_COMMANDS;
pub use line::read_line;
pub use tree::{Command, Commands, Job, Jobs, Line, Word, Words};
