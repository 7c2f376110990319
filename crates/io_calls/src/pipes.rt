//! pipe(2).
ghost use Rattle.std.specs.Prelude.{◌≡◌, ℕ, List, Option, Bool, false, not};
ghost use Rattle.tree_model.specs.Tree.{NodeAt};
ghost use Rattle.tty_dev.specs.History.{Counts};
ghost use Rattle.tty_dev.specs.Line.{LineState};
ghost use Rattle.system_model.specs.Fit.{IsCaller, FitFiles, FitSlots, FitPipes, FitLines, FitBlocks, FitPool, AreRevokedAtMost};
ghost use Rattle.system_model.specs.PipeCalls.{pipe_row};
ghost use Rattle.system_model.specs.Rows.{Does};
ghost use Rattle.system_model.specs.Tables.{Tables, view_of};

use block_pool::Pool;
use call_words::{Decision, Reply, Rule};
use fd_table::{FdTable, Open, Target};
use pipe_core::Pipes;
use proc_table::ProcTable;
use sys_types::PIPE_BLOCKS;
use system_model::caller;

/// An end of a new pipe, which is read or written.
fn pipe_end(target: Target, readable: bool) -> Open
    ensures { result ≡ record { target = target; readable = readable; writable = not readable; append = false; nonblock = false; offset = 0 } }
{
    Open {
        target,
        readable,
        writable: !readable,
        append: false,
        nonblock: false,
        offset: 0,
    }
}

/// pipe(2): makes an empty pipe with the caller's active element, over 32 blocks of the pool. Answers its two ends, at the two lowest
/// free numbers: first the one that is read, then the one that is written.
///
/// Denied by the first rule that holds: `FdRoom`, where fewer than two of the process's 32 numbers are free; `OpenRoom`, where more than
/// 254 files are open; `Pool`, where fewer than 32 blocks are free. Then nothing changes.
pub fn do_pipe(
    fds: &mut FdTable,
    pipes: &mut Pipes,
    procs: &ProcTable,
    pool: &mut Pool,
    slot: u8,
) -> Decision
    requires caller { IsCaller procs.now slot }
    requires pipes { FitPipes fds.old pipes.old }
    requires pool { FitPool pool.old pipes.old }
    ensures files { (nodes : List (Option NodeAt)) → FitFiles nodes fds.old → FitFiles nodes fds.new }
    ensures slots { FitSlots fds.old procs.now → FitSlots fds.new procs.now }
    ensures pipes { FitPipes fds.new pipes.new }
    ensures lines { (counts : List Counts) (boots : List Bool) → FitLines fds.old counts boots → FitLines fds.new counts boots }
    ensures blocks { (lines : List LineState) → FitBlocks pool.old pipes.old lines → FitBlocks pool.new pipes.new lines }
    ensures revokes { (most : ℕ) (lines : List LineState) → FitBlocks pool.old pipes.old lines → AreRevokedAtMost most pool.old lines →
        AreRevokedAtMost most pool.new lines }
    ensures does { (t : Tables) → t.descriptors ≡ fds.old → t.pipes ≡ pipes.old → t.processes ≡ procs.now → t.pool ≡ pool.old →
        FitBlocks pool.old pipes.old t.lines →
        Does (view_of t) (view_of (record t { descriptors = fds.new; pipes = pipes.new; pool = pool.new })) result (pipe_row (view_of t) slot) }
{
    if let Some(rule) = fds.room_rule(slot, 2) {
        return Decision::denied(rule);
    }
    if pool.free() < PIPE_BLOCKS {
        return Decision::denied(Rule::Pool);
    }
    let element = caller(procs, slot).label.active().copy();
    let Ok(pipe) = pipes.create(pool, element) else {
        unreachable!()
    };
    let reader = pipe_end(Target::PipeRead(pipe), true);
    let writer = pipe_end(Target::PipeWrite(pipe), false);
    let Ok((read, write)) = fds.open_pair(slot, reader, writer) else {
        unreachable!()
    };
    Decision::Answer(Reply::Pair(read, write))
}
