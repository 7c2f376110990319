//! Changes of a line by a process: tcflush(3) and tcdrain(3).
ghost use Rattle.std.specs.Prelude.{◌≡◌, ◌<◌, ℕ, Option, List, length};
ghost use Rattle.block_pool.specs.Pool.{PoolState};
ghost use Rattle.block_pool.specs.Chain.{ChainState};
ghost use Rattle.fd_table.specs.declared.open.Open.{Open};
ghost use Rattle.fd_table.specs.Shared.{Shared};
ghost use Rattle.pipe_core.specs.Pipes.{Pipes};
ghost use Rattle.proc_table.specs.Posts as posts;
ghost use Rattle.tree_model.specs.Tree.{NodeAt};
ghost use Rattle.tty_dev.specs.Table.{counts_of, boots_of};
ghost use Rattle.system_model.specs.Fit.{IsCaller, FitDirectories, FitSlots, FitLines, FitBlocks, AreRevokedAtMost};
ghost use Rattle.system_model.specs.Looks.{caller_of};
ghost use Rattle.system_model.specs.Rows.{Does, first};
ghost use Rattle.system_model.specs.Tables.{Tables, view_of};
ghost use Rattle.system_model.specs.TtyCalls.{change_checks, is_input, is_output, tcflush_row, tcdrain_row};
ghost use Rattle.system_model.specs.Verdicts.{check_of};

use crate::descriptors::line_of_fd;
use call_words::{Decision, Reason, Rule, WhichQueue};
use fd_table::FdTable;
use proc_table::{EndingList, ProcTable};
use system_model::{Verdict, background_write, caller, settle, sleep_verdict};
use tty_dev::Line;
use tty_dev::table::{flush, is_drained, is_zombie};

/// What the checks of a change of a line by a process come to: the line is not a zombie, and the process not one in its background.
pub(crate) fn change_verdict(procs: &ProcTable, lines: &[Line], slot: u8, line: u8) -> Verdict
    requires caller { IsCaller procs.now slot }
    requires line { line < length lines.now }
    ensures { (t : Tables) → t.processes ≡ procs.now → t.lines ≡ lines.now →
        check_of (caller_of (view_of t) slot) result ≡ first (change_checks (view_of t) slot line) }
{
    if is_zombie(lines, line) {
        return Verdict::Refused(Rule::Zombie);
    }
    background_write(lines, line, procs, caller(procs, slot))
}

/// Whether the input is one of the queues.
fn is_input(which: WhichQueue) -> bool
    ensures { result ≡ is_input which }
{
    matches!(which, WhichQueue::In | WhichQueue::Both)
}

/// Whether the output is one of the queues.
fn is_output(which: WhichQueue) -> bool
    ensures { result ≡ is_output which }
{
    matches!(which, WhichQueue::Out | WhichQueue::Both)
}

/// tcflush(3): empties the input of a number's line, its output, or both. Answers 0.
///
/// Denied by the first rule that holds: `BadFd`, where the number is not open; `Dead`, where the line was revoked since it was opened;
/// `NotLine`, where the number's file is not of a line; `Zombie`, where the line lost its carrier; `Background`, where the caller is in the
/// line's background and its group is orphaned. In the background TTOU is sent to the caller's group else, which stops it in the call, or
/// interrupts the call by `Signal` where it is caught. Then no line changes.
pub fn do_tcflush(
    fds: &FdTable,
    procs: &mut ProcTable,
    lines: &mut [Line],
    ending: &mut EndingList,
    slot: u8,
    fd: u8,
    which: WhichQueue,
) -> Decision
    requires caller { IsCaller procs.old slot }
    requires lines { FitLines fds.now (counts_of lines.old) (boots_of lines.old) }
    requires list { posts.IsEndingList ending.old.items }
    ensures list { posts.IsEndingList ending.new.items }
    ensures directories { (nodes : List (Option NodeAt)) → FitDirectories nodes procs.old → FitDirectories nodes procs.new }
    ensures slots { (d : Shared Open) → FitSlots d procs.old → FitSlots d procs.new }
    ensures lines { FitLines fds.now (counts_of lines.new) (boots_of lines.new) }
    ensures blocks { (pool : PoolState) (pipes : Pipes ChainState) → FitBlocks pool pipes lines.old → FitBlocks pool pipes lines.new }
    ensures revokes { (most : ℕ) (pool : PoolState) → AreRevokedAtMost most pool lines.old → AreRevokedAtMost most pool lines.new }
    ensures does { (t : Tables) → t.descriptors ≡ fds.now → t.processes ≡ procs.old → t.lines ≡ lines.old → t.ending ≡ ending.old.items →
        Does (view_of t) (view_of (record t { processes = procs.new; lines = lines.new; ending = ending.new.items })) result (tcflush_row (view_of t) slot fd which) }
{
    let line = match line_of_fd(fds, lines, slot, fd) {
        Ok(line) => line,
        Err(rule) => return Decision::denied(rule),
    };
    let verdict = change_verdict(procs, lines, slot, line);
    if verdict.is_held() {
        return settle(procs, ending, slot, verdict);
    }
    flush(lines, line, is_input(which), is_output(which));
    Decision::nothing()
}

/// The verdict of a tcdrain(3) of a number: it goes on where all output of the line has been taken, and where no file of it is live.
///
/// Denied as `do_tcflush` is. Else the call sleeps while output is left, and is interrupted by `Signal` where a caught signal is pending.
pub fn drain_verdict(fds: &FdTable, procs: &ProcTable, lines: &[Line], slot: u8, fd: u8) -> Verdict
    requires caller { IsCaller procs.now slot }
    requires lines { FitLines fds.now (counts_of lines.now) (boots_of lines.now) }
    ensures { (t : Tables) → t.descriptors ≡ fds.now → t.processes ≡ procs.now → t.lines ≡ lines.now →
        check_of (caller_of (view_of t) slot) result ≡ first (tcdrain_row (view_of t) slot fd).checks }
{
    let line = match line_of_fd(fds, lines, slot, fd) {
        Ok(line) => line,
        Err(rule) => return Verdict::Refused(rule),
    };
    let verdict = change_verdict(procs, lines, slot, line);
    if verdict.is_held() {
        return verdict;
    }
    if is_drained(lines, line) {
        return Verdict::Go;
    }
    sleep_verdict(caller(procs, slot), Reason::Drain)
}

/// tcdrain(3): does what `drain_verdict` says, and answers 0 where that is to go on.
pub fn do_tcdrain(
    fds: &FdTable,
    procs: &mut ProcTable,
    lines: &[Line],
    ending: &mut EndingList,
    slot: u8,
    fd: u8,
) -> Decision
    requires caller { IsCaller procs.old slot }
    requires lines { FitLines fds.now (counts_of lines.now) (boots_of lines.now) }
    requires list { posts.IsEndingList ending.old.items }
    ensures list { posts.IsEndingList ending.new.items }
    ensures directories { (nodes : List (Option NodeAt)) → FitDirectories nodes procs.old → FitDirectories nodes procs.new }
    ensures slots { (d : Shared Open) → FitSlots d procs.old → FitSlots d procs.new }
    ensures does { (t : Tables) → t.descriptors ≡ fds.now → t.processes ≡ procs.old → t.lines ≡ lines.now → t.ending ≡ ending.old.items →
        Does (view_of t) (view_of (record t { processes = procs.new; ending = ending.new.items })) result (tcdrain_row (view_of t) slot fd) }
{
    let verdict = drain_verdict(fds, procs, lines, slot, fd);
    if verdict.is_held() {
        return settle(procs, ending, slot, verdict);
    }
    Decision::nothing()
}
