//! fork(2).
ghost use Rattle.std.specs.Prelude.{◌≡◌, ℕ, ◌+◌, ◌<◌, ◌^◌, Bool, List, Option};
ghost use Rattle.block_pool.specs.Chain.{ChainState};
ghost use Rattle.pipe_core.specs.Pipes.{Pipes as PipesOf};
ghost use Rattle.tree_model.specs.Tree.{NodeAt};
ghost use Rattle.tty_dev.specs.History.{Counts};
ghost use Rattle.proc_table.specs.Processes.{process_at, pid_of};
ghost use Rattle.system_model.specs.Fit.{FitFiles, FitDirectories, FitSlots, FitPipes, FitLines, IsCaller};
ghost use Rattle.system_model.specs.ProcCalls.{fork_row};
ghost use Rattle.system_model.specs.Rows.{Does};
ghost use Rattle.system_model.specs.Tables.{Tables, view_of};

use call_words::{Decision, Piece, Rule};
use fd_table::FdTable;
use proc_table::ProcTable;

/// The pid of the process of a slot, 0 where the slot has none.
fn pid_at(procs: &ProcTable, slot: u8) -> u32
    ensures { result ≡ pid_of (process_at procs.now slot) }
{
    match procs.get(slot) {
        None => 0,
        Some(process) => process.pid,
    }
}

/// fork(2): a child of the process comes into the lowest slot that a fork may take, with a note as its arguments and
/// with the descriptors of the process. Answers the child's pid, which is the next one, below 2^32 - 1.
///
/// Denied by `Slots`, where there is no such slot; then nothing changes.
pub fn do_fork(fds: &mut FdTable, procs: &mut ProcTable, slot: u8, note: &Piece) -> Decision
    requires caller { IsCaller procs.old slot }
    requires slots { FitSlots fds.old procs.old }
    requires pid { procs.old.next_pid + 1 < 2 ^ 32 }
    ensures files { (nodes : List (Option NodeAt)) → FitFiles nodes fds.old → FitFiles nodes fds.new }
    ensures directories { (nodes : List (Option NodeAt)) → FitDirectories nodes procs.old → FitDirectories nodes procs.new }
    ensures slots { FitSlots fds.new procs.new }
    ensures pipes { (pipes : PipesOf ChainState) → FitPipes fds.old pipes → FitPipes fds.new pipes }
    ensures lines { (counts : List Counts) (boots : List Bool) → FitLines fds.old counts boots → FitLines fds.new counts boots }
    ensures does { (t : Tables) → t.descriptors ≡ fds.old → t.processes ≡ procs.old →
        Does (view_of t) (view_of (record t { descriptors = fds.new; processes = procs.new })) result (fork_row (view_of t) slot note.now) }
{
    let Some(child) = procs.lowest_slot() else {
        return Decision::denied(Rule::Slots);
    };
    let _ = procs.fork(slot, note);
    fds.copy_all(slot, child);
    Decision::number(pid_at(procs, child))
}
