//! The calls on nodes of the file tree, each a function `do_CALL` that does what the machine's row of the call says:
//! chdir(2), mkdir(2), rmdir(2), unlink(2), readdir(3), stat(2), chmod(2), chown(2), acl_set_file(3), acl_get_file(3),
//! mac_set_file(3), mac_get_file(3).
//!
//! A call is given the tables that it touches, and its clause `does` speaks of all of them: of any tables that have these.
//! Paths are resolved as path_resolution of POSIX.1, 4.13, says. The order of the rules is this project's own.
#![tactic(auto)]

mod directories;
mod info;
mod labels;
mod lists;
mod modes;
mod removal;
mod revoke;

pub use directories::{do_chdir, do_list, do_mkdir};
pub use info::do_info;
pub use labels::{do_getlabel, do_setlabel};
pub use lists::{do_getacl, do_setacl};
pub use modes::{do_chmod, do_chown};
pub use removal::{do_rmdir, do_unlink};
pub use revoke::do_revoke;
