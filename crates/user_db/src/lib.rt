//! Boot texts: what a machine is told before its first event. It reads a text as a `Boot`, with
//! its users and the terminal lines that are on.
//!
//! The form of a boot text and its limits are this crate's own.
#![tactic(auto)]

mod boot;
mod fault;
pub mod laws;
mod line;
mod name;
mod read;
mod user;

pub use boot::Boot;
pub use fault::{BootFault, NoMemory};
pub use line::{BOOT_LINE_BYTES, BOOT_LINES, BOOT_TEXT_BYTES};
pub use name::{NAME_BYTES, Name};
pub use read::read_boot;
pub use user::{DIGEST_BYTES, SALT_BYTES, User, Users};
