//! dup(2) and dup2(2).
ghost use Rattle.std.specs.Prelude.{◌≡◌, ◌<◌, ℕ, List, Option};
ghost use Rattle.sys_types.specs.declared.limits.TheConstants.{SLOTS};
ghost use Rattle.proc_table.specs.Processes.{Processes};
ghost use Rattle.tree_model.specs.Tree.{NodeAt};
ghost use Rattle.tty_dev.specs.Table.{counts_of, boots_of};
ghost use Rattle.system_model.specs.Fit.{FitFiles, FitSlots, FitPipes, FitLines, FitBlocks, AreRevokedAtMost};
ghost use Rattle.system_model.specs.OpenCalls.{dup_row, dup2_row};
ghost use Rattle.system_model.specs.Rows.{Does};
ghost use Rattle.system_model.specs.Tables.{Tables, view_of};
ghost use Rattle.block_pool.specs.Chain.{ChainState};
ghost use Rattle.pipe_core.specs.Pipes.{Pipes as PipesOf};
ghost use Rattle.tty_dev.specs.History.{Counts};
ghost use Rattle.std.specs.Prelude.{Bool};

use block_pool::Pool;
use call_words::Decision;
use fd_table::FdTable;
use pipe_core::Pipes;
use system_model::release;
use tty_dev::Line;

/// dup(2): the lowest free number of a slot refers to the open file of a number too. Answers that number.
///
/// Denied by the first rule that holds: `BadFd`, where the number is not open; `FdRoom`, where all 32 numbers of the process are open. Then
/// nothing changes.
pub fn do_dup(fds: &mut FdTable, slot: u8, fd: u8) -> Decision
    requires slot { slot < SLOTS }
    ensures files { (nodes : List (Option NodeAt)) → FitFiles nodes fds.old → FitFiles nodes fds.new }
    ensures slots { (processes : Processes ℕ) → FitSlots fds.old processes → FitSlots fds.new processes }
    ensures pipes { (pipes : PipesOf ChainState) → FitPipes fds.old pipes → FitPipes fds.new pipes }
    ensures lines { (counts : List Counts) (boots : List Bool) → FitLines fds.old counts boots → FitLines fds.new counts boots }
    ensures does { (t : Tables) → t.descriptors ≡ fds.old →
        Does (view_of t) (view_of (record t { descriptors = fds.new })) result (dup_row (view_of t) slot fd) }
{
    match fds.dup(slot, fd) {
        Ok(number) => Decision::number(u32::from(number)),
        Err(rule) => Decision::denied(rule),
    }
}

/// dup2(2): another number of a slot refers to the open file of a number, after it was closed as `do_close` does where it was open; onto
/// itself nothing changes. Answers that number.
///
/// Denied by `BadFd`, where the number is not open or the other is over 31; then nothing changes.
pub fn do_dup2(
    fds: &mut FdTable,
    pipes: &mut Pipes,
    pool: &mut Pool,
    lines: &mut [Line],
    slot: u8,
    fd: u8,
    to: u8,
) -> Decision
    requires slot { slot < SLOTS }
    requires pipes { FitPipes fds.old pipes.old }
    requires lines { FitLines fds.old (counts_of lines.old) (boots_of lines.old) }
    requires blocks { FitBlocks pool.old pipes.old lines.old }
    ensures files { (nodes : List (Option NodeAt)) → FitFiles nodes fds.old → FitFiles nodes fds.new }
    ensures slots { (processes : Processes ℕ) → FitSlots fds.old processes → FitSlots fds.new processes }
    ensures pipes { FitPipes fds.new pipes.new }
    ensures lines { FitLines fds.new (counts_of lines.new) (boots_of lines.new) }
    ensures blocks { FitBlocks pool.new pipes.new lines.new }
    ensures revokes { (most : ℕ) → AreRevokedAtMost most pool.old lines.old → AreRevokedAtMost most pool.new lines.new }
    ensures does { (t : Tables) → t.descriptors ≡ fds.old → t.pipes ≡ pipes.old → t.pool ≡ pool.old → t.lines ≡ lines.old →
        Does (view_of t) (view_of (record t { descriptors = fds.new; pipes = pipes.new; pool = pool.new; lines = lines.new })) result (dup2_row (view_of t) slot fd to) }
{
    let last = match fds.dup2(slot, fd, to) {
        Ok(last) => last,
        Err(rule) => return Decision::denied(rule),
    };
    let Some(file) = last else {
        return Decision::number(u32::from(to));
    };
    release(fds, pipes, pool, lines, file.target);
    Decision::number(u32::from(to))
}
