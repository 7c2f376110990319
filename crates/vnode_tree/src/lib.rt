//! The file tree in memory: nodes with their attributes and contents, what a path leads to, and what a credential and a label
//! allow at a node.
//!
//! Paths are resolved as path_resolution of POSIX.1, 4.13, says, and new nodes are those of open(2) and mkdir(2); the nodes
//! that a boot makes are this project's own. The table of nodes is made at boot, with room for all of them: after that only
//! a write to a file can want memory.
#![tactic(auto)]

mod attributes;
mod contents;
mod entry;
mod key;
pub mod laws;
mod names;
mod new_nodes;
mod places;
mod resolve;
mod rights;
mod standard;
mod steps;
mod tree;
mod walk;

pub use entry::Name255;
pub use names::TextText;
pub use resolve::Place;
pub use std::alloc::AllocError as NoMemory;
pub use sys_types::{FILE_SPACE, Kind, NAME_BYTES, NODES, Node, PATH_BYTES};
pub use tree::{Tree, TreeFull, WriteFault};
pub use walk::{End, MOST_PARTS, Walk};
