//! The top calls: the commands of `revtty`, over sources and sinks of any kind.
//!
//! A script is read in bounded pieces, and run a line at a time. The answers are gathered, and written before
//! the source is read again, so a run needs the same memory for a text of any length.
//! The boot text that comes before it is held whole, as far as it is no longer than any can be.
//! Each command runs the kernel with a trail of at most 262,144 events.
#![tactic(auto)]

mod boot;
mod choice;
mod lines;
mod load;
mod print;
mod run;
mod status;
mod top;

pub use choice::{Choice, choose};
pub use status::Status;
pub use top::{load_top, plain_top, script_top};
