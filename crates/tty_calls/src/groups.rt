//! The foreground group of a line: tcgetpgrp(3) and tcsetpgrp(3).
ghost use Rattle.std.specs.Prelude.{◌≡◌, ◌<◌, ℕ, Option, List, length};
ghost use Rattle.block_pool.specs.Pool.{PoolState};
ghost use Rattle.block_pool.specs.Chain.{ChainState};
ghost use Rattle.fd_table.specs.declared.open.Open.{Open};
ghost use Rattle.fd_table.specs.Shared.{Shared};
ghost use Rattle.pipe_core.specs.Pipes.{Pipes};
ghost use Rattle.proc_table.specs.Posts as posts;
ghost use Rattle.tree_model.specs.Tree.{NodeAt};
ghost use Rattle.line_disc.specs.Lines.{line_at};
ghost use Rattle.proc_table.specs.Procs.{process_of};
ghost use Rattle.tty_dev.specs.Table.{counts_of, boots_of, devices};
ghost use Rattle.system_model.specs.Fit.{IsCaller, FitDirectories, FitSlots, FitLines, FitBlocks, AreRevokedAtMost};
ghost use Rattle.system_model.specs.Looks.{caller_of, has_session};
ghost use Rattle.system_model.specs.Rows.{Does, first};
ghost use Rattle.system_model.specs.Tables.{Tables, view_of};
ghost use Rattle.system_model.specs.TtyCalls.{tcgetpgrp_row, tcsetpgrp_on, tcsetpgrp_row};
ghost use Rattle.system_model.specs.Verdicts.{check_of};

use crate::descriptors::line_of_fd;
use call_words::{Decision, Rule};
use fd_table::FdTable;
use proc_table::{EndingList, Proc, ProcTable};
use system_model::{Verdict, background_write, caller, settle};
use tty_dev::Line;
use tty_dev::table::{foreground_at, session_at, set_foreground};

/// Whether a line is the controlling terminal of a process.
fn is_own(lines: &[Line], line: u8, who: &Proc) -> bool
    requires { line < length lines.now }
    ensures { (pool : PoolState) → result ≡ has_session (process_of who.now).session (line_at (devices pool lines.now) line) }
{
    match session_at(lines, line) {
        Some(session) => session == who.session,
        None => false,
    }
}

/// tcgetpgrp(3): answers the number of the process group in the foreground of a number's line.
///
/// Denied by the first rule that holds: `BadFd`, where the number is not open; `Dead`, where the line was revoked since it was opened;
/// `NotLine`, where the number's file is not of a line; `NotCtty`, where the line is not the caller's controlling terminal.
pub fn do_tcgetpgrp(fds: &FdTable, procs: &ProcTable, lines: &[Line], slot: u8, fd: u8) -> Decision
    requires caller { IsCaller procs.now slot }
    requires lines { FitLines fds.now (counts_of lines.now) (boots_of lines.now) }
    ensures does { (t : Tables) → t.descriptors ≡ fds.now → t.processes ≡ procs.now → t.lines ≡ lines.now →
        Does (view_of t) (view_of t) result (tcgetpgrp_row (view_of t) slot fd) }
{
    let line = match line_of_fd(fds, lines, slot, fd) {
        Ok(line) => line,
        Err(rule) => return Decision::denied(rule),
    };
    if !is_own(lines, line, caller(procs, slot)) {
        return Decision::denied(Rule::NotCtty);
    }
    Decision::number(foreground_at(lines, line))
}

/// What the checks of a tcsetpgrp(3) of a line come to.
fn group_verdict(procs: &ProcTable, lines: &[Line], slot: u8, line: u8, group: u32) -> Verdict
    requires caller { IsCaller procs.now slot }
    requires line { line < length lines.now }
    ensures { (t : Tables) → t.processes ≡ procs.now → t.lines ≡ lines.now →
        check_of (caller_of (view_of t) slot) result ≡ first (tcsetpgrp_on (view_of t) slot group line).checks }
{
    let who = caller(procs, slot);
    if !is_own(lines, line, who) {
        return Verdict::Refused(Rule::NotCtty);
    }
    let verdict = background_write(lines, line, procs, who);
    if verdict.is_held() {
        return verdict;
    }
    if !procs.has_member_in(group, who.session) {
        return Verdict::Refused(Rule::Group);
    }
    Verdict::Go
}

/// tcsetpgrp(3): brings a process group of the caller's session to the foreground of a number's line. Answers 0.
///
/// Denied by the first rule that holds: `BadFd`, where the number is not open; `Dead`, where the line was revoked since it was opened;
/// `NotLine`, where the number's file is not of a line; `NotCtty`, where the line is not the caller's controlling terminal; `Background`,
/// where the caller is in the line's background and its group is orphaned; `Group`, where the session has no process of the group. Before
/// the last of them, in the background TTOU is sent to the caller's group, which stops it in the call, or interrupts the call by `Signal`
/// where it is caught. Then no line changes.
pub fn do_tcsetpgrp(
    fds: &FdTable,
    procs: &mut ProcTable,
    lines: &mut [Line],
    ending: &mut EndingList,
    slot: u8,
    fd: u8,
    group: u32,
) -> Decision
    requires caller { IsCaller procs.old slot }
    requires lines { FitLines fds.now (counts_of lines.old) (boots_of lines.old) }
    requires list { posts.IsEndingList ending.old.items }
    ensures list { posts.IsEndingList ending.new.items }
    ensures directories { (nodes : List (Option NodeAt)) → FitDirectories nodes procs.old → FitDirectories nodes procs.new }
    ensures slots { (d : Shared Open) → FitSlots d procs.old → FitSlots d procs.new }
    ensures lines { FitLines fds.now (counts_of lines.new) (boots_of lines.new) }
    ensures blocks { (pool : PoolState) (pipes : Pipes ChainState) → FitBlocks pool pipes lines.old → FitBlocks pool pipes lines.new }
    ensures revokes { (most : ℕ) (pool : PoolState) → AreRevokedAtMost most pool lines.old → AreRevokedAtMost most pool lines.new }
    ensures does { (t : Tables) → t.descriptors ≡ fds.now → t.processes ≡ procs.old → t.lines ≡ lines.old → t.ending ≡ ending.old.items →
        Does (view_of t) (view_of (record t { processes = procs.new; lines = lines.new; ending = ending.new.items })) result (tcsetpgrp_row (view_of t) slot fd group) }
{
    let line = match line_of_fd(fds, lines, slot, fd) {
        Ok(line) => line,
        Err(rule) => return Decision::denied(rule),
    };
    let verdict = group_verdict(procs, lines, slot, line, group);
    if verdict.is_held() {
        return settle(procs, ending, slot, verdict);
    }
    set_foreground(lines, line, group);
    Decision::nothing()
}
