//! Reads and writes that would sleep.
ghost use Rattle.std.specs.Prelude.{◌≡◌, true, length};
ghost use Rattle.proc_table.specs.Procs.{process_of};
ghost use Rattle.system_model.specs.IoCalls.{pipe_bytes};
ghost use Rattle.system_model.specs.Parts.{File};
ghost use Rattle.system_model.specs.Rows.{wait_if};
ghost use Rattle.system_model.specs.Tables.{Tables, seen_process, view_of};
ghost use Rattle.system_model.specs.Verdicts.{check_of};

use call_words::{Reason, Rule};
use fd_table::Open;
use pipe_core::Pipes;
use proc_table::Proc;
use system_model::{Verdict, sleep_verdict};

/// The verdict of a read or a write that would sleep: on a nonblocking file it is denied by `NotReady` (open(2), O_NONBLOCK), and else it
/// is that of `sleep_verdict`.
pub(crate) fn wait_verdict(who: &Proc, file: &Open, reason: Reason) -> Verdict
    ensures { (t : Tables) (f : File) → f.nonblock ≡ file.now.nonblock →
        check_of (seen_process t.nodes (process_of who.now)) result ≡ wait_if true f (seen_process t.nodes (process_of who.now)) reason }
{
    if file.nonblock {
        return Verdict::Refused(Rule::NotReady);
    }
    sleep_verdict(who, reason)
}

/// How many bytes a pipe holds: none where there is no such pipe.
pub(crate) fn pipe_len(pipes: &Pipes, pipe: u16) -> u16
    ensures { (t : Tables) → t.pipes ≡ pipes.now → result ≡ length (pipe_bytes (view_of t) pipe) }
{
    match pipes.get(pipe) {
        Some(held) => held.len(),
        None => 0,
    }
}
