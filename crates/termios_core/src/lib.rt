//! The settings of a terminal line and their text, after termios(4) and stty(1).
//!
//! A termios is nineteen flags, nine control characters, MIN and TIME. Its text is one word: the
//! words of the flags that are on, and the numbers. The form of the text is this project's own.
#![tactic(auto)]

mod flags;
pub mod laws;
mod print;
mod read;
mod termios;

pub use flags::{Flag, Flags};
pub use print::{TERMIOS_ROOM, TEXT_ROOM, print_termios};
pub use read::read_termios;
pub use termios::{DISABLED, Termios};
