//! Access control lists and credentials, after draft POSIX.1e, 23.1: what a list grants to a caller
//! (23.1.5), how a list and the nine bits of a file's mode go together, and the text of a list,
//! which is a form of its own in the manner of acl_to_text(3). Nothing here takes memory.
#![tactic(auto)]

mod acl;
mod cred;
mod entry;
mod fault;
pub mod laws;
mod mode;
mod perm;
mod print;
mod read;
mod text;
mod valid;
mod walk;

pub use acl::Acl;
pub use cred::{Cred, MOST_GROUPS};
pub use entry::{Entry, MOST_ENTRIES, Tag};
pub use fault::ListFault;
pub use mode::MODE_MOST;
pub use perm::Perm;
pub use print::{print_entries, print_list};
pub use read::read_list;
pub use text::{LIST_ROOM, TEXT_ROOM};
pub use valid::AclFault;
