//! What the checks of a write(2) come to.
ghost use Rattle.std.specs.Prelude.{◌≡◌, ◌<◌, ℕ, length};
ghost use Rattle.sys_types.specs.declared.limits.TheConstants.{LINES};
ghost use Rattle.fd_table.specs.declared.open.Target.TheVariants as kept;
ghost use Rattle.proc_table.specs.Procs.{process_of};
ghost use Rattle.tree_model.specs.Numbers.{IsFile, record_of, path_of};
ghost use Rattle.tree_model.specs.Tree.{at_path, nodes_from};
ghost use Rattle.tty_dev.specs.Table.{counts_of, boots_of};
ghost use Rattle.system_model.specs.Fit.{IsCaller, FitFiles, FitTree, FitPipes, FitLines};
ghost use Rattle.system_model.specs.IoCalls.{background_put, write_row, write_target};
ghost use Rattle.system_model.specs.Looks.{caller_of};
ghost use Rattle.system_model.specs.Parts as parts;
ghost use Rattle.system_model.specs.Parts.{write_end, tty};
ghost use Rattle.system_model.specs.Rows.{first};
ghost use Rattle.system_model.specs.Tables.{Tables, generations, seen_open, seen_process, seen_target, view_of};
ghost use Rattle.system_model.specs.Verdicts.{check_of};
ghost use Rattle.io_calls.specs.Moves.{write_checks};
ghost use Rattle.io_calls.specs.Targets.{IsThere};
ghost use Rattle.io_calls.specs.Writes.{place_in};

use crate::labels::may_not_write;
use crate::waits::{pipe_len, wait_verdict};
use call_words::{Reason, Rule};
use fd_table::{FdTable, Open, Target};
use pipe_core::Pipes;
use proc_table::{Proc, ProcTable};
use sys_types::{Node, PIPE_BYTES, Piece};
use system_model::{Verdict, background_write, caller, is_dead_file};
use tty_dev::Line;
use tty_dev::table::{is_zombie, puts_none, termios_at};
use vnode_tree::Tree;

/// What the checks of a write to an open file come to that are the same whatever the file is of.
fn file_verdict(
    tree: &Tree,
    pipes: &Pipes,
    lines: &[Line],
    recheck: bool,
    who: &Proc,
    file: &Open,
    bytes: &Piece,
) -> Verdict
    requires tree { FitTree tree.now }
    requires there { IsThere tree.now pipes.now file.now.target }
    requires lines { length lines.now ≡ LINES }
    ensures { (t : Tables) → t.nodes ≡ tree.now → t.pipes ≡ pipes.now → t.lines ≡ lines.now → t.recheck ≡ recheck →
        check_of (seen_process t.nodes (process_of who.now)) result
        ≡ first (write_checks (view_of t) (seen_process t.nodes (process_of who.now)) bytes.now
        (seen_open t.nodes (generations (counts_of t.lines)) file.now)) }
{
    if !file.writable {
        return Verdict::Refused(Rule::FdMode);
    }
    if is_dead_file(lines, &file.target) {
        return Verdict::Refused(Rule::Dead);
    }
    if may_not_write(tree, pipes, who, recheck, &file.target) {
        return Verdict::Refused(Rule::LabelWrite);
    }
    if bytes.len() == 0 {
        return Verdict::Zero;
    }
    Verdict::Go
}

/// Where a write to a regular file puts its bytes: at its end where it was opened to append, and else at the offset.
pub(crate) fn write_place(tree: &Tree, file: &Open, node: Node) -> u32
    requires { IsFile tree.now node }
    ensures place { result ≡ place_in tree.now file.now node }
    ensures node { record_of tree.now node ≡ at_path (nodes_from tree.now) (path_of tree.now node) }
{
    let end = tree.size(node);
    if file.append { end } else { file.offset }
}

/// What the checks of a write to a regular file come to: all files would hold too many bytes.
fn space_verdict(tree: &Tree, file: &Open, node: Node, bytes: &Piece) -> Verdict
    requires { IsFile tree.now node }
    ensures { (t : Tables) (slot fd : ℕ) → t.nodes ≡ tree.now →
        check_of (caller_of (view_of t) slot) result
        ≡ first (write_target (view_of t) slot fd bytes.now (seen_open t.nodes (generations (counts_of t.lines)) file.now)
        (parts.node (path_of t.nodes node))).checks }
{
    let place = write_place(tree, file, node);
    if tree.lacks_space(node, place, bytes.as_slice()) {
        return Verdict::Refused(Rule::FileSpace);
    }
    Verdict::Go
}

/// What the checks of a write to a pipe come to: it is broken once no open file reads it, and the write sleeps until there is room for all
/// of the bytes.
fn pipe_verdict(
    fds: &FdTable,
    pipes: &Pipes,
    who: &Proc,
    file: &Open,
    pipe: u16,
    bytes: &Piece,
) -> Verdict
    ensures { (t : Tables) (slot fd : ℕ) → t.descriptors ≡ fds.now → t.pipes ≡ pipes.now →
        caller_of (view_of t) slot ≡ seen_process t.nodes (process_of who.now) →
        check_of (seen_process t.nodes (process_of who.now)) result
        ≡ first (write_target (view_of t) slot fd bytes.now (seen_open t.nodes (generations (counts_of t.lines)) file.now) (write_end pipe)).checks }
{
    if fds.live(&Target::PipeRead(pipe)) == 0 {
        return Verdict::Broken;
    }
    if PIPE_BYTES.saturating_sub(usize::from(pipe_len(pipes, pipe))) >= bytes.len() {
        return Verdict::Go;
    }
    wait_verdict(who, file, Reason::Write)
}

/// What the checks of a write to a line with tostop come to that concern the background; without it none is looked at.
fn tostop_verdict(procs: &ProcTable, lines: &[Line], who: &Proc, line: u8) -> Verdict
    requires line { line < LINES }
    requires lines { length lines.now ≡ LINES }
    ensures { (t : Tables) → t.processes ≡ procs.now → t.lines ≡ lines.now → FitLines t.descriptors (counts_of lines.now) (boots_of lines.now) →
        check_of (seen_process t.nodes (process_of who.now)) result ≡ first (background_put (view_of t) line (seen_process t.nodes (process_of who.now))) }
{
    if !termios_at(lines, line).flags.tostop {
        return Verdict::Go;
    }
    background_write(lines, line, procs, who)
}

/// What the checks of a write to a line come to: it is denied by `Zombie` where the line lost its carrier, the background is denied or
/// stopped with tostop, and the write sleeps until a byte fits.
fn line_verdict(
    procs: &ProcTable,
    lines: &[Line],
    who: &Proc,
    file: &Open,
    line: u8,
    bytes: &Piece,
) -> Verdict
    requires line { line < LINES }
    requires lines { length lines.now ≡ LINES }
    ensures { (t : Tables) (slot fd : ℕ) → t.processes ≡ procs.now → t.lines ≡ lines.now →
        FitLines t.descriptors (counts_of lines.now) (boots_of lines.now) →
        caller_of (view_of t) slot ≡ seen_process t.nodes (process_of who.now) →
        check_of (seen_process t.nodes (process_of who.now)) result
        ≡ first (write_target (view_of t) slot fd bytes.now (seen_open t.nodes (generations (counts_of t.lines)) file.now) (tty line)).checks }
{
    if is_zombie(lines, line) {
        return Verdict::Refused(Rule::Zombie);
    }
    let verdict = tostop_verdict(procs, lines, who, line);
    if verdict.is_held() {
        return verdict;
    }
    if !puts_none(lines, line, bytes.as_slice()) {
        return Verdict::Go;
    }
    wait_verdict(who, file, Reason::Write)
}

/// What the checks of a write to an open file come to that concern what the file is of, which is there.
fn target_verdict(
    tree: &Tree,
    fds: &FdTable,
    pipes: &Pipes,
    procs: &ProcTable,
    lines: &[Line],
    who: &Proc,
    file: &Open,
    bytes: &Piece,
) -> Verdict
    requires there { IsThere tree.now pipes.now file.now.target }
    requires lines { FitLines fds.now (counts_of lines.now) (boots_of lines.now) }
    ensures { (t : Tables) (slot fd : ℕ) → t.nodes ≡ tree.now → t.descriptors ≡ fds.now → t.pipes ≡ pipes.now → t.processes ≡ procs.now →
        t.lines ≡ lines.now → caller_of (view_of t) slot ≡ seen_process t.nodes (process_of who.now) →
        check_of (seen_process t.nodes (process_of who.now)) result
        ≡ first (write_target (view_of t) slot fd bytes.now (seen_open t.nodes (generations (counts_of t.lines)) file.now)
        (seen_target t.nodes file.now.target)).checks }
{
    match file.target {
        Target::File(node) => space_verdict(tree, file, node, bytes),
        Target::PipeRead(_) => Verdict::Go,
        Target::PipeWrite(pipe) => pipe_verdict(fds, pipes, who, file, pipe, bytes),
        Target::Line { line, opened: _ } => line_verdict(procs, lines, who, file, line, bytes),
    }
}

/// The verdict of a write(2) of bytes to a number of a slot.
///
/// Denied by the first rule that holds: `BadFd`, where the number is not open; `FdMode`, where the file was not opened to write; `Dead`,
/// where the line was revoked since it was opened; `LabelWrite`, where the element of the pipe does not dominate the caller's active one,
/// or that of the file or the line where labels are looked at again; then, for some bytes, since none are written at once, `FileSpace`,
/// where all files would hold more than 4,194,304 bytes; `NoReader`, where no open file reads the pipe, of which PIPE is sent to the
/// caller; `Zombie`, where the line lost its carrier; `Background`, with tostop in the background of a line where the caller's group is
/// orphaned. There TTOU is sent to the group else, which stops the caller in the call, or interrupts the call by `Signal` where it is
/// caught. A write sleeps while a pipe has no room for all of the bytes and while a line has room for none: then it is denied by
/// `NotReady` on a nonblocking file, and by `Signal` where a caught signal is pending.
pub fn write_verdict(
    tree: &Tree,
    fds: &FdTable,
    pipes: &Pipes,
    procs: &ProcTable,
    lines: &[Line],
    recheck: bool,
    slot: u8,
    fd: u8,
    bytes: &Piece,
) -> Verdict
    requires caller { IsCaller procs.now slot }
    requires files { FitFiles tree.now fds.now }
    requires tree { FitTree tree.now }
    requires pipes { FitPipes fds.now pipes.now }
    requires lines { FitLines fds.now (counts_of lines.now) (boots_of lines.now) }
    ensures { (t : Tables) → t.nodes ≡ tree.now → t.descriptors ≡ fds.now → t.pipes ≡ pipes.now → t.processes ≡ procs.now → t.lines ≡ lines.now →
        t.recheck ≡ recheck → check_of (caller_of (view_of t) slot) result ≡ first (write_row (view_of t) slot fd bytes.now).checks }
{
    let Some(file) = fds.get(slot, fd) else {
        return Verdict::Refused(Rule::BadFd);
    };
    let who = caller(procs, slot);
    let verdict = file_verdict(tree, pipes, lines, recheck, who, file, bytes);
    if verdict.is_held() {
        return verdict;
    }
    target_verdict(tree, fds, pipes, procs, lines, who, file, bytes)
}
