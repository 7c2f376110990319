//! The whole sequential machine, as definitions that the contracts of the kernel and of the top calls cite.
//!
//! `specs/` has three layers: the state (open files named by the position of their event, bytes with the position of the event
//! that brought them) and the view (what calls can see of a state), as two readings of the same parts; the effects, by what they
//! change; and the rows (for each event its ordered checks, its effects and its answer). Beside them stand the tables of a kernel,
//! what calls see of them, and when they fit together; `proofs/` shows what each change of a table makes of what calls see.
//!
//! What all calls share stands here too, since no chain of crates is longer than eight: the process that asks, the close of a
//! descriptor, dead files, the line of a session and its revoke, what the checks of a call come to, and those of the background of a terminal.
#![tactic(auto)]

mod background;
mod callers;
mod closing;
mod dead_files;
mod revoking;
mod sessions;
mod verdict;

pub use background::{background_read, background_write};
pub use callers::caller;
pub use closing::{close_fd, release};
pub use dead_files::is_dead_file;
pub use revoking::revoke_line;
pub use sessions::line_of_session;
pub use verdict::{Verdict, post, settle, sleep_verdict};
