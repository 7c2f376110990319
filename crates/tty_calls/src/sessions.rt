//! The controlling terminal of a session: tcsetsid(3).
ghost use Rattle.std.specs.Prelude.{◌≡◌, ◌==◌, ℕ, ◌+◌, List};
ghost use Rattle.std.specs.List.{list_any};
ghost use Rattle.block_pool.specs.Pool.{PoolState};
ghost use Rattle.block_pool.specs.Chain.{ChainState};
ghost use Rattle.pipe_core.specs.Pipes.{Pipes};
ghost use Rattle.proc_table.specs.Groups.{is_number};
ghost use Rattle.tty_dev.specs.Table.{counts_of, boots_of};
ghost use Rattle.system_model.specs.Fit.{IsCaller, FitLines, FitBlocks, AreRevokedAtMost};
ghost use Rattle.system_model.specs.Rows.{Does};
ghost use Rattle.system_model.specs.Tables.{Tables, view_of};
ghost use Rattle.system_model.specs.TtyCalls.{setctty_row};

use crate::descriptors::line_of_fd;
use call_words::{Decision, Rule};
use fd_table::FdTable;
use proc_table::{Proc, ProcTable};
use system_model::caller;
use tty_dev::Line;
use tty_dev::table::{session_at, set_session};

/// Whether a process leads its session.
fn is_leader(who: &Proc) -> bool
    ensures { result ≡ (who.now.pid == who.now.session) }
{
    who.pid == who.session
}

/// Whether a line is the controlling terminal of a session.
fn is_line_of(line: &Line, session: u32) -> bool
    ensures { result ≡ is_number session line.now.session }
{
    match line.session {
        None => false,
        Some(other) => other == session,
    }
}

/// Whether some line is the controlling terminal of a session.
fn has_line(lines: &[Line], session: u32) -> bool
    ensures { result ≡ list_any (λ line. is_number session line.session) lines.now }
{
    lines.iter().any(|line| is_line_of(line, session))
}

/// tcsetsid(3): the line of a number becomes the controlling terminal of the caller's session, with the caller's group in the
/// foreground. Answers 0.
///
/// Denied by the first rule that holds: `BadFd`, where the number is not open; `Dead`, where the line was revoked since it was
/// opened; `NotLine`, where the number's file is not of a line; `NotLeader`, where the caller leads no session; `HasTty`,
/// where its session has a line; `LineTaken`, where the line is that of a session. Then nothing changes.
pub fn do_setctty(
    fds: &FdTable,
    procs: &ProcTable,
    lines: &mut [Line],
    slot: u8,
    fd: u8,
) -> Decision
    requires caller { IsCaller procs.now slot }
    requires lines { FitLines fds.now (counts_of lines.old) (boots_of lines.old) }
    ensures lines { FitLines fds.now (counts_of lines.new) (boots_of lines.new) }
    ensures blocks { (pool : PoolState) (pipes : Pipes ChainState) → FitBlocks pool pipes lines.old → FitBlocks pool pipes lines.new }
    ensures revokes { (most : ℕ) (pool : PoolState) → AreRevokedAtMost most pool lines.old → AreRevokedAtMost (most + 1) pool lines.new }
    ensures does { (t : Tables) → t.descriptors ≡ fds.now → t.processes ≡ procs.now → t.lines ≡ lines.old →
        Does (view_of t) (view_of (record t { lines = lines.new })) result (setctty_row (view_of t) slot fd) }
{
    let line = match line_of_fd(fds, lines, slot, fd) {
        Ok(line) => line,
        Err(rule) => return Decision::denied(rule),
    };
    let who = caller(procs, slot);
    if !is_leader(who) {
        return Decision::denied(Rule::NotLeader);
    }
    if has_line(lines, who.session) {
        return Decision::denied(Rule::HasTty);
    }
    if session_at(lines, line).is_some() {
        return Decision::denied(Rule::LineTaken);
    }
    set_session(lines, line, who.session, who.group);
    Decision::nothing()
}
