//! The kernel: all tables, which fit together, one step of them for each event, and the machine of which a trail is kept.
//!
//! Each call goes to the method of its name, and that to the call's function over the tables that it touches (open_calls, io_calls,
//! node_calls, proc_calls, tty_calls). Here stands what all calls have in common: what comes before their rows, calls that wait, what ends
//! after an event, and who can go on then.
#![tactic(auto)]

mod boot;
mod calls;
mod endings;
mod events;
mod files;
mod kernel;
mod lines;
mod nodes;
mod pending;
mod procs;
mod step;
mod system;
mod tell;
mod ttys;
mod wakeups;

pub use kernel::{Kernel, boot_trail};
pub use vnode_tree::NoMemory;
