//! Descriptors of processes, and the open files that they refer to.
//!
//! Descriptors that dup(2), dup2(2) and fork(2) make share one open file and its offset. Each open file stands in an entry of one
//! table, as in the file table of a system; each number of a process refers to an entry, and no answer tells which. A new descriptor
//! takes the lowest free number, as POSIX.1 asks, and an open file goes with the last number that refers to it. All room is taken
//! when the table is made, and none later.
#![tactic(auto)]

mod counts;
mod files;
mod open;
mod rows;
mod table;

pub use open::{Open, Target};
pub use table::{FdTable, NoMemory};
