//! The calls on processes, each a function `do_CALL` that does what the machine's row of the call says: what a process
//! is (getpid(2), setuid(2), mac_set_proc(3), umask(2)), how it begins, has another program, ends, is waited for and is
//! grouped (execve(2), _exit(2), wait4(2), setsid(2), setpgid(2)), the processes that there are (ps(1)), the halt of the
//! system (reboot(2)), and signals (kill(2), sigaction(2), sigwait(2), pause(3)). Those that an event puts on the list of
//! those to be ended are ended by `work_endings`.
//!
//! A call is given the tables that it touches, and its clause `does` speaks of all of them: of any tables that have
//! these. A call that can sleep has a verdict beside it, which only reads and says which of the call's checks holds
//! first.
#![tactic(auto)]

mod begin;
mod closing;
mod creds;
mod endings;
mod exec;
mod exit;
mod fork;
mod halt;
mod ident;
mod kill;
mod programs;
mod ps;
mod sessions;
mod signals;
mod wait;

pub use begin::do_begin;
pub use creds::{do_setcred, do_setproclabel, do_umask};
pub use endings::work_endings;
pub use exec::do_exec;
pub use exit::do_exit;
pub use fork::do_fork;
pub use halt::do_halt;
pub use ident::do_ident;
pub use kill::do_kill;
pub use ps::do_ps;
pub use sessions::{do_setpgid, do_setsid};
pub use signals::{do_pause, do_sigset, do_sigtake, pause_verdict};
pub use wait::{do_wait, wait_verdict};
