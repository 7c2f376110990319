//! The calls on terminal lines and what happens at a line, each a function `do_CALL` that does what the machine's row of the call or of the
//! event says: fdevname(3), tcgetattr(3), tcgetpgrp(3), tcsetpgrp(3), tcsetsid(3), tcflush(3), tcdrain(3); a byte, a taking of output, the
//! carrier, and the end of a line (termios(4), tty(4)).
//!
//! A call is given the tables that it touches, and its clause `does` speaks of all of them: of any tables that have these.
#![tactic(auto)]

mod changes;
mod descriptors;
mod ends;
mod events;
mod groups;
mod names;
mod sessions;
mod settings;

pub use changes::{do_tcdrain, do_tcflush, drain_verdict};
pub use ends::do_end;
pub use events::{do_byte, do_carrier, do_take};
pub use groups::{do_tcgetpgrp, do_tcsetpgrp};
pub use names::do_fdname;
pub use sessions::do_setctty;
pub use settings::{do_tcgetattr, do_tcsetattr};
