//! Terminal lines as devices (tty(4)): opens and closes, bytes, carrier, end and revoke(2) of one line, and of one among the lines
//! of a kernel.
//!
//! A file of a line keeps the generation at which it was opened, which is the number of revokes of the line until then. It
//! is dead where the line's generation is above that, so a revoke touches no file.
#![tactic(auto)]

pub mod laws;
mod line;
pub mod table;

pub use line::Line;
