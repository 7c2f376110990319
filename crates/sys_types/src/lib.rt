//! What the layers of the kernel share and no call is: limits, rules and errnos, signals, programs, names of nodes, and texts
//! made in place.
//!
//! All of it is plain data in place, so that it is copied and kept without memory. It stands on no other layer, so a call that
//! joins leaves it as it is. The errnos are those of intro(2), the signals those of signal(3).
#![tactic(auto)]

mod image;
pub mod laws;
mod limits;
mod node;
mod push;
mod rules;
mod sig;
mod text;

pub use image::{IMAGES, Image};
pub use limits::{
    DESCRIPTORS, FILE_SPACE, INPUT_PLACES, LINE_BLOCKS, LINES, NAME_BYTES, NODES, OPEN_FILES,
    OUTPUT_BYTES, PATH_BYTES, PATH_TEXT_BYTES, PIECE_BYTES, PIPE_BLOCKS, PIPE_BYTES, PIPES,
    POOL_BLOCKS, RAW_LINE, READY_LINE_BYTES, SCRIPT_LINE_BYTES, SLOTS, TEXT_BYTES, TRAIL_EVENTS,
};
pub use node::{Kind, Node};
pub use push::{push_bytes, push_number};
pub use rules::{Errno, Rule};
pub use sig::{SIGNALS, Sig};
pub use text::{InPlace, PathText, Piece, TextBuf};
