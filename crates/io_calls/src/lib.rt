//! The calls on open files, each a function `do_CALL` that does what the machine's row of the call says: so far close(2), dup(2), dup2(2),
//! pipe(2), read(2) and write(2), on regular files, pipes and terminal lines. Reads and writes can sleep: `read_verdict` and `write_verdict`
//! tell without a change what the checks of a call come to.
//!
//! A call is given the tables that it touches, and its clause `does` speaks of all of them: of any tables that have these.
#![tactic(auto)]

mod closes;
mod dups;
mod labels;
mod pipes;
mod read_verdicts;
mod reads;
mod waits;
mod write_verdicts;
mod writes;

pub use closes::do_close;
pub use dups::{do_dup, do_dup2};
pub use pipes::do_pipe;
pub use read_verdicts::read_verdict;
pub use reads::do_read;
pub use write_verdicts::write_verdict;
pub use writes::do_write;
