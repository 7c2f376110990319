//! open(2), by what the machine's row of the call says, on regular files, new ones among them, and terminal lines.
//!
//! `find_opening` only reads: it finds what is to be opened, or the first check that denies the call or lets it sleep. `do_open` asks it and
//! acts, and the wakeup list asks `open_verdict`, which is the same without what is found. A call is given the tables that it touches, and
//! its clause `does` speaks of all of them: of any tables that have these.
#![tactic(auto)]

mod lines;
mod openings;
mod opens;

pub use openings::{Opening, find_opening, open_verdict};
pub use opens::do_open;
