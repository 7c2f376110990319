//! The words that the kernel and its callers share: calls, events, replies, and what a program is.
//!
//! All of it is plain data in place, so that an event is copied and kept without memory. The calls stand in groups, a file for
//! each: `open` (descriptors), `io` (reads and writes), `dir` (directories), `attr` (what a node is), `cred` (who asks), `proc`
//! (processes), `signal` and `tty` (terminal lines); pipe(2) has no arguments. Each call names its page of the manual. Rules,
//! limits, signals and the like come from the crate below and are named here too.
#![tactic(auto)]

mod attr;
mod call;
mod cred;
mod dir;
mod event;
mod io;
pub mod laws;
mod open;
mod proc;
mod program;
mod signal;
mod tty;

pub use attr::{Entries, WhichList};
pub use call::Call;
pub use event::{Decision, Event, How, Reason, Reply, Wakes};
pub use open::{Access, OpenFlags};
pub use proc::WaitFlags;
pub use program::{NoMemory, Program};
pub use signal::{Action, To};
pub use sys_types::{
    DESCRIPTORS, Errno, FILE_SPACE, IMAGES, INPUT_PLACES, Image, InPlace, Kind, LINE_BLOCKS, LINES,
    NAME_BYTES, NODES, Node, OPEN_FILES, OUTPUT_BYTES, PATH_BYTES, PATH_TEXT_BYTES, PIECE_BYTES,
    PIPE_BLOCKS, PIPE_BYTES, PIPES, POOL_BLOCKS, PathText, Piece, RAW_LINE, READY_LINE_BYTES, Rule,
    SCRIPT_LINE_BYTES, SIGNALS, SLOTS, Sig, TEXT_BYTES, TRAIL_EVENTS, TextBuf, push_bytes,
    push_number,
};
pub use tty::{When, WhichQueue};
