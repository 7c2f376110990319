//! What ends after an event (_exit(2), "Terminating a Process" of POSIX.1, 3.2.2).
ghost use Rattle.std.specs.Prelude.{◌≡◌, ◌<◌, ◌≤◌, ◌^◌, ◌+◌, ◌-◌, ◌==◌, ◌&&◌, not, true, ℕ, List, [], Option, Some, None, is_some, drop, length, slice_get};
ghost use Rattle.sys_types.specs.declared.limits.TheConstants.{SLOTS, LINES};
ghost use Rattle.block_pool.specs.Chain.{ChainState};
ghost use Rattle.block_pool.specs.Pool.{AreOf};
ghost use Rattle.fd_table.specs.declared.open.Open.{Open};
ghost use Rattle.fd_table.specs.Shared.{Shared, descriptor_at};
ghost use Rattle.pipe_core.specs.Pipes.{Pipes as PipesOf};
ghost use Rattle.proc_table.specs.Posts.{IsEndingList, is_ending};
ghost use Rattle.proc_table.specs.Processes.{running_at};
ghost use Rattle.proc_table.specs.Procs.{process_of};
ghost use Rattle.tree_model.specs.Tree.{NodeAt};
ghost use Rattle.tty_dev.specs.Table.{counts_of, boots_of, lines_held};
ghost use Rattle.proc_calls.specs.Ends.{AreToEnd, AreRunning, IsJoined, HasSession, leave_by};
ghost use Rattle.system_model.specs.Effects.{on_processes, change, change_all};
ghost use Rattle.system_model.specs.Endings.{leave_session, end_one, end_next, endings_of};
ghost use Rattle.system_model.specs.Fit.{IsCaller, HasRoot, FitFiles, FitDirectories, FitSlots, FitPipes, FitLines, FitBlocks, AreRevokedAtMost};
ghost use Rattle.system_model.specs.ProcessEffects.{bury};
ghost use Rattle.system_model.specs.Tables.{Tables, seen_process, view_of};

use crate::closing::{Numbers, close_numbers};
use block_pool::Pool;
use call_words::{How, To};
use fd_table::FdTable;
use pipe_core::Pipes;
use proc_table::{EndingList, Proc, ProcTable};
use sys_types::{SLOTS, Sig};
use system_model::{caller, line_of_session, revoke_line};
use tty_dev::Line;
use tty_dev::table::foreground_at;

/// The line of the session that a process leads, if it leads one that has a line, with the group in the line's foreground.
fn line_left(lines: &[Line], who: &Proc) -> Option<(u8, u32)>
    requires { length lines.now ≡ LINES }
    ensures left { (t : Tables) → t.lines ≡ lines.now →
        leave_session (view_of t) (seen_process t.nodes (process_of who.now)) ≡ leave_by result }
    ensures session { (t : Tables) (n group : ℕ) → t.lines ≡ lines.now → result ≡ Some (n, group) → HasSession t.pool lines.now n }
{
    if who.pid != who.session {
        return None;
    }
    match line_of_session(lines, who.session) {
        None => None,
        Some(line) => Some((line, foreground_at(lines, line))),
    }
}

/// Leaves the line of a session whose leader ends: HUP is sent to the group in its foreground, and then it is revoked.
fn leave_line(
    procs: &mut ProcTable,
    pool: &mut Pool,
    lines: &mut [Line],
    ending: &mut EndingList,
    left: Option<(u8, u32)>,
)
    requires line { (n group : ℕ) → left ≡ Some (n, group) → HasSession pool.old lines.old n }
    requires places { length lines.old ≡ LINES }
    requires of_pool { AreOf pool.old (lines_held lines.old) }
    requires revokes { AreRevokedAtMost (2 ^ 63 - 1) pool.old lines.old }
    requires list { IsEndingList ending.old.items }
    ensures list { IsEndingList ending.new.items }
    ensures joined { IsJoined (λ slot. is_some (running_at procs.old slot)) procs.new ending.old.items ending.new.items }
    ensures directories { (nodes : List (Option NodeAt)) → FitDirectories nodes procs.old → FitDirectories nodes procs.new }
    ensures slots { (d : Shared Open) → FitSlots d procs.old → FitSlots d procs.new }
    ensures lines { (d : Shared Open) → FitLines d (counts_of lines.old) (boots_of lines.old) → FitLines d (counts_of lines.new) (boots_of lines.new) }
    ensures blocks { (pipes : PipesOf ChainState) → FitBlocks pool.old pipes lines.old → FitBlocks pool.new pipes lines.new }
    ensures revokes { (most : ℕ) → AreRevokedAtMost most pool.old lines.old → AreRevokedAtMost most pool.new lines.new }
    ensures does { (t : Tables) → t.processes ≡ procs.old → t.pool ≡ pool.old → t.lines ≡ lines.old → t.ending ≡ ending.old.items →
        FitLines t.descriptors (counts_of lines.old) (boots_of lines.old) → FitBlocks pool.old t.pipes lines.old →
        view_of (record t { processes = procs.new; pool = pool.new; lines = lines.new; ending = ending.new.items }) ≡ change_all (view_of t) (leave_by left) }
{
    let Some((line, foreground)) = left else {
        return;
    };
    procs.post(Sig::HUP, To::Group(foreground), ending);
    revoke_line(lines, pool, line);
}

/// Ends the running process of a slot that has no descriptors any more. Its working directory is the root from then on.
fn bury(procs: &mut ProcTable, ending: &mut EndingList, slot: u8, how: How)
    requires slot { slot < SLOTS }
    requires running { is_some (running_at procs.old slot) ≡ true }
    requires list { IsEndingList ending.old.items }
    ensures list { IsEndingList ending.new.items }
    ensures joined { IsJoined (λ other. not (other == slot) && is_some (running_at procs.old other)) procs.new ending.old.items ending.new.items }
    ensures directories { (nodes : List (Option NodeAt)) → FitDirectories nodes procs.old → FitDirectories nodes procs.new }
    ensures slots { (d : Shared Open) → ((number : ℕ) → descriptor_at d.table slot number ≡ None) → FitSlots d procs.old → FitSlots d procs.new }
    ensures does { (t : Tables) → t.processes ≡ procs.old → t.ending ≡ ending.old.items → HasRoot t.nodes →
        view_of (record t { processes = procs.new; ending = ending.new.items }) ≡ change (view_of t) (on_processes (bury slot how)) }
{
    procs.bury_in_root(slot, how, ending);
}

/// Ends the running process of a slot, which stands on the list: all its descriptors are closed from the lowest; where it leads a session
/// that has a line, HUP is sent to the group in the line's foreground and the line is revoked; and then it is a zombie.
fn end_one(
    fds: &mut FdTable,
    pipes: &mut Pipes,
    procs: &mut ProcTable,
    pool: &mut Pool,
    lines: &mut [Line],
    ending: &mut EndingList,
    slot: u8,
    how: How,
)
    requires caller { IsCaller procs.old slot }
    requires list { IsEndingList ending.old.items }
    requires stands { is_ending ending.old.items slot ≡ true }
    requires slots { FitSlots fds.old procs.old }
    requires pipes { FitPipes fds.old pipes.old }
    requires lines { FitLines fds.old (counts_of lines.old) (boots_of lines.old) }
    requires blocks { FitBlocks pool.old pipes.old lines.old }
    requires revokes { AreRevokedAtMost (2 ^ 63 - 1) pool.old lines.old }
    ensures list { IsEndingList ending.new.items }
    ensures joined { IsJoined (λ other. not (other == slot) && is_some (running_at procs.old other)) procs.new ending.old.items ending.new.items }
    ensures files { (nodes : List (Option NodeAt)) → FitFiles nodes fds.old → FitFiles nodes fds.new }
    ensures directories { (nodes : List (Option NodeAt)) → FitDirectories nodes procs.old → FitDirectories nodes procs.new }
    ensures slots { FitSlots fds.new procs.new }
    ensures pipes { FitPipes fds.new pipes.new }
    ensures lines { FitLines fds.new (counts_of lines.new) (boots_of lines.new) }
    ensures blocks { FitBlocks pool.new pipes.new lines.new }
    ensures revokes { (most : ℕ) → AreRevokedAtMost most pool.old lines.old → AreRevokedAtMost most pool.new lines.new }
    ensures does { (t : Tables) → t.descriptors ≡ fds.old → t.pipes ≡ pipes.old → t.processes ≡ procs.old → t.pool ≡ pool.old → t.lines ≡ lines.old →
        t.ending ≡ ending.old.items → HasRoot t.nodes →
        view_of (record t { descriptors = fds.new; pipes = pipes.new; processes = procs.new; pool = pool.new; lines = lines.new; ending = ending.new.items })
        ≡ change_all (view_of t) (end_one (view_of t) slot how) }
{
    let left = line_left(lines, caller(procs, slot));
    close_numbers(fds, pipes, pool, lines, Numbers::Open, slot);
    leave_line(procs, pool, lines, ending, left);
    bury(procs, ending, slot, how);
}

/// The entry at a place of the list.
fn entry_at(ending: &EndingList, place: usize) -> Option<(u8, How)>
    ensures { result ≡ slice_get ending.now.items place }
{
    match ending.as_slice().get(place) {
        None => None,
        Some((slot, how)) => Some((*slot, *how)),
    }
}

/// Ends the process at a place of the list, from which on each entry's process runs. Where the list does not go so far nothing changes.
fn end_at(
    fds: &mut FdTable,
    pipes: &mut Pipes,
    procs: &mut ProcTable,
    pool: &mut Pool,
    lines: &mut [Line],
    ending: &mut EndingList,
    place: usize,
)
    requires list { IsEndingList ending.old.items }
    requires running { AreRunning procs.old (drop place ending.old.items) }
    requires slots { FitSlots fds.old procs.old }
    requires pipes { FitPipes fds.old pipes.old }
    requires lines { FitLines fds.old (counts_of lines.old) (boots_of lines.old) }
    requires blocks { FitBlocks pool.old pipes.old lines.old }
    requires revokes { AreRevokedAtMost (2 ^ 63 - 1) pool.old lines.old }
    ensures list { IsEndingList ending.new.items }
    ensures running { AreRunning procs.new (drop (place + 1) ending.new.items) }
    ensures files { (nodes : List (Option NodeAt)) → FitFiles nodes fds.old → FitFiles nodes fds.new }
    ensures directories { (nodes : List (Option NodeAt)) → FitDirectories nodes procs.old → FitDirectories nodes procs.new }
    ensures slots { FitSlots fds.new procs.new }
    ensures pipes { FitPipes fds.new pipes.new }
    ensures lines { FitLines fds.new (counts_of lines.new) (boots_of lines.new) }
    ensures blocks { FitBlocks pool.new pipes.new lines.new }
    ensures revokes { (most : ℕ) → AreRevokedAtMost most pool.old lines.old → AreRevokedAtMost most pool.new lines.new }
    ensures does { (t : Tables) → t.descriptors ≡ fds.old → t.pipes ≡ pipes.old → t.processes ≡ procs.old → t.pool ≡ pool.old → t.lines ≡ lines.old →
        t.ending ≡ ending.old.items → HasRoot t.nodes →
        view_of (record t { descriptors = fds.new; pipes = pipes.new; processes = procs.new; pool = pool.new; lines = lines.new; ending = ending.new.items })
        ≡ change_all (view_of t) (end_next (view_of t) (slice_get (view_of t).ending place)) }
{
    let Some((slot, how)) = entry_at(ending, place) else {
        return;
    };
    end_one(fds, pipes, procs, pool, lines, ending, slot, how);
}

/// Ends the processes on the list, one after the other, and those that this puts on it; then the list is empty. Of each all descriptors are
/// closed from the lowest; where it leads a session that has a line, HUP is sent to the group in the line's foreground and the line is
/// revoked (revoke(2)); and then it is a zombie. (_exit(2))
///
/// Each slot on the list is below 32, stands there once, and has a running process. No line was revoked 2^63 - 1 times.
pub fn work_endings(
    fds: &mut FdTable,
    pipes: &mut Pipes,
    procs: &mut ProcTable,
    pool: &mut Pool,
    lines: &mut [Line],
    ending: &mut EndingList,
)
    requires list { AreToEnd procs.old ending.old.items }
    requires slots { FitSlots fds.old procs.old }
    requires pipes { FitPipes fds.old pipes.old }
    requires lines { FitLines fds.old (counts_of lines.old) (boots_of lines.old) }
    requires blocks { FitBlocks pool.old pipes.old lines.old }
    requires revokes { AreRevokedAtMost (2 ^ 63 - 1) pool.old lines.old }
    ensures list { ending.new.items ≡ [] }
    ensures files { (nodes : List (Option NodeAt)) → FitFiles nodes fds.old → FitFiles nodes fds.new }
    ensures directories { (nodes : List (Option NodeAt)) → FitDirectories nodes procs.old → FitDirectories nodes procs.new }
    ensures slots { FitSlots fds.new procs.new }
    ensures pipes { FitPipes fds.new pipes.new }
    ensures lines { FitLines fds.new (counts_of lines.new) (boots_of lines.new) }
    ensures blocks { FitBlocks pool.new pipes.new lines.new }
    ensures revokes { (most : ℕ) → AreRevokedAtMost most pool.old lines.old → AreRevokedAtMost most pool.new lines.new }
    ensures does { (t : Tables) → t.descriptors ≡ fds.old → t.pipes ≡ pipes.old → t.processes ≡ procs.old → t.pool ≡ pool.old → t.lines ≡ lines.old →
        t.ending ≡ ending.old.items → HasRoot t.nodes →
        view_of (record t { descriptors = fds.new; pipes = pipes.new; processes = procs.new; pool = pool.new; lines = lines.new; ending = ending.new.items })
        ≡ change_all (view_of t) (endings_of (view_of t)) }
{
    if ending.is_empty() {
        return;
    }
    for place in 0..SLOTS {
        end_at(fds, pipes, procs, pool, lines, ending, place);
    }
    ending.clear();
}
