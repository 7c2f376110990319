//! What the checks of a read(2) come to.
ghost use Rattle.std.specs.Prelude.{◌≡◌, ◌<◌, ℕ, length};
ghost use Rattle.sys_types.specs.declared.limits.TheConstants.{LINES};
ghost use Rattle.fd_table.specs.declared.open.Target.TheVariants as kept;
ghost use Rattle.proc_table.specs.Procs.{process_of};
ghost use Rattle.tty_dev.specs.Table.{counts_of, boots_of};
ghost use Rattle.system_model.specs.Fit.{IsCaller, FitFiles, FitTree, FitPipes, FitLines};
ghost use Rattle.system_model.specs.IoCalls.{read_row, read_target};
ghost use Rattle.system_model.specs.Looks.{caller_of};
ghost use Rattle.system_model.specs.Parts.{read_end, tty};
ghost use Rattle.system_model.specs.Rows.{first};
ghost use Rattle.system_model.specs.Tables.{Tables, generations, seen_open, seen_process, seen_target, view_of};
ghost use Rattle.system_model.specs.Verdicts.{check_of};
ghost use Rattle.io_calls.specs.Moves.{read_checks};
ghost use Rattle.io_calls.specs.Targets.{IsThere};

use crate::labels::may_not_read;
use crate::waits::{pipe_len, wait_verdict};
use call_words::{Reason, Rule};
use fd_table::{FdTable, Open, Target};
use pipe_core::Pipes;
use proc_table::{Proc, ProcTable};
use sys_types::PIECE_BYTES;
use system_model::{Verdict, background_read, caller, is_dead_file};
use tty_dev::Line;
use tty_dev::table::{is_zombie, waits};
use vnode_tree::Tree;

/// What the checks of a read of an open file come to that are the same whatever the file is of.
fn file_verdict(
    tree: &Tree,
    pipes: &Pipes,
    lines: &[Line],
    recheck: bool,
    who: &Proc,
    file: &Open,
    max: u16,
) -> Verdict
    requires tree { FitTree tree.now }
    requires there { IsThere tree.now pipes.now file.now.target }
    requires lines { length lines.now ≡ LINES }
    ensures { (t : Tables) → t.nodes ≡ tree.now → t.pipes ≡ pipes.now → t.lines ≡ lines.now → t.recheck ≡ recheck →
        check_of (seen_process t.nodes (process_of who.now)) result
        ≡ first (read_checks (view_of t) (seen_process t.nodes (process_of who.now)) max (seen_open t.nodes (generations (counts_of t.lines)) file.now)) }
{
    if !file.readable {
        return Verdict::Refused(Rule::FdMode);
    }
    if is_dead_file(lines, &file.target) {
        return Verdict::Empty;
    }
    if may_not_read(tree, pipes, who, recheck, &file.target) {
        return Verdict::Refused(Rule::LabelRead);
    }
    if max == 0 {
        return Verdict::Empty;
    }
    Verdict::Go
}

/// What the checks of a read of a pipe come to: where it is empty no bytes are read once no open file writes to it, and else the read
/// sleeps.
fn pipe_verdict(fds: &FdTable, pipes: &Pipes, who: &Proc, file: &Open, pipe: u16) -> Verdict
    ensures { (t : Tables) (slot fd max : ℕ) → t.descriptors ≡ fds.now → t.pipes ≡ pipes.now →
        caller_of (view_of t) slot ≡ seen_process t.nodes (process_of who.now) →
        check_of (seen_process t.nodes (process_of who.now)) result
        ≡ first (read_target (view_of t) slot fd max (seen_open t.nodes (generations (counts_of t.lines)) file.now) (read_end pipe)).checks }
{
    if pipe_len(pipes, pipe) > 0 {
        return Verdict::Go;
    }
    if fds.live(&Target::PipeWrite(pipe)) == 0 {
        return Verdict::Empty;
    }
    wait_verdict(who, file, Reason::Read)
}

/// What the checks of a read of a line come to: no bytes are read of one that lost its carrier, the background is denied or stopped, and
/// the read sleeps until it has what it waits for.
fn line_verdict(
    procs: &ProcTable,
    lines: &[Line],
    who: &Proc,
    file: &Open,
    line: u8,
    max: u16,
) -> Verdict
    requires { line < length lines.now }
    ensures { (t : Tables) (slot fd : ℕ) → t.processes ≡ procs.now → t.lines ≡ lines.now →
        caller_of (view_of t) slot ≡ seen_process t.nodes (process_of who.now) →
        check_of (seen_process t.nodes (process_of who.now)) result
        ≡ first (read_target (view_of t) slot fd max (seen_open t.nodes (generations (counts_of t.lines)) file.now) (tty line)).checks }
{
    if is_zombie(lines, line) {
        return Verdict::Empty;
    }
    let verdict = background_read(lines, line, procs, who);
    if verdict.is_held() {
        return verdict;
    }
    if !waits(lines, line, max) {
        return Verdict::Go;
    }
    wait_verdict(who, file, Reason::Read)
}

/// What the checks of a read of an open file come to that concern what the file is of, which is there.
fn target_verdict(
    fds: &FdTable,
    pipes: &Pipes,
    procs: &ProcTable,
    lines: &[Line],
    who: &Proc,
    file: &Open,
    max: u16,
) -> Verdict
    requires { (line opened : ℕ) → file.now.target ≡ kept.Line line opened → line < length lines.now }
    ensures { (t : Tables) (slot fd : ℕ) → t.descriptors ≡ fds.now → t.pipes ≡ pipes.now → t.processes ≡ procs.now → t.lines ≡ lines.now →
        caller_of (view_of t) slot ≡ seen_process t.nodes (process_of who.now) →
        check_of (seen_process t.nodes (process_of who.now)) result
        ≡ first (read_target (view_of t) slot fd max (seen_open t.nodes (generations (counts_of t.lines)) file.now)
        (seen_target t.nodes file.now.target)).checks }
{
    match file.target {
        Target::File(_) => Verdict::Go,
        Target::PipeRead(pipe) => pipe_verdict(fds, pipes, who, file, pipe),
        Target::PipeWrite(_) => Verdict::Go,
        Target::Line { line, opened: _ } => line_verdict(procs, lines, who, file, line, max),
    }
}

/// The verdict of a read(2) of at most `max` bytes of a number of a slot.
///
/// Denied by the first rule that holds: `Size`, where `max` is over 512; `BadFd`, where the number is not open; `FdMode`, where the file
/// was not opened to read; `LabelRead`, where the caller's active element does not dominate that of the pipe, or of the file or the line
/// where labels are looked at again; `Background`, in the background of a line where TTIN would not stop the caller. A read gives no bytes
/// of a line that was revoked since it was opened, before `LabelRead`, where `max` is 0, after it, and then of an empty pipe that no open
/// file writes to, and of a line that lost its carrier. In the background TTIN is sent to the caller's group, which stops it in the call,
/// or interrupts the call by `Signal` where it is caught. A read sleeps while a pipe is empty and while a line has not what it waits for:
/// then it is denied by `NotReady` on a nonblocking file, and by `Signal` where a caught signal is pending.
pub fn read_verdict(
    tree: &Tree,
    fds: &FdTable,
    pipes: &Pipes,
    procs: &ProcTable,
    lines: &[Line],
    recheck: bool,
    slot: u8,
    fd: u8,
    max: u16,
) -> Verdict
    requires caller { IsCaller procs.now slot }
    requires files { FitFiles tree.now fds.now }
    requires tree { FitTree tree.now }
    requires pipes { FitPipes fds.now pipes.now }
    requires lines { FitLines fds.now (counts_of lines.now) (boots_of lines.now) }
    ensures { (t : Tables) → t.nodes ≡ tree.now → t.descriptors ≡ fds.now → t.pipes ≡ pipes.now → t.processes ≡ procs.now → t.lines ≡ lines.now →
        t.recheck ≡ recheck → check_of (caller_of (view_of t) slot) result ≡ first (read_row (view_of t) slot fd max).checks }
{
    if usize::from(max) > PIECE_BYTES {
        return Verdict::Refused(Rule::Size);
    }
    let Some(file) = fds.get(slot, fd) else {
        return Verdict::Refused(Rule::BadFd);
    };
    let who = caller(procs, slot);
    let verdict = file_verdict(tree, pipes, lines, recheck, who, file, max);
    if verdict.is_held() {
        return verdict;
    }
    target_verdict(fds, pipes, procs, lines, who, file, max)
}
