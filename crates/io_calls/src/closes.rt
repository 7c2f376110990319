//! close(2).
ghost use Rattle.std.specs.Prelude.{◌≡◌, ◌<◌, ℕ, List, Option, is_some};
ghost use Rattle.fd_table.specs.Shared.{file_at};
ghost use Rattle.sys_types.specs.declared.limits.TheConstants.{SLOTS};
ghost use Rattle.proc_table.specs.Processes.{Processes};
ghost use Rattle.tree_model.specs.Tree.{NodeAt};
ghost use Rattle.tty_dev.specs.Table.{counts_of, boots_of};
ghost use Rattle.system_model.specs.Fit.{FitFiles, FitSlots, FitPipes, FitLines, FitBlocks, AreRevokedAtMost};
ghost use Rattle.system_model.specs.OpenCalls.{close_row};
ghost use Rattle.system_model.specs.Rows.{Does};
ghost use Rattle.system_model.specs.Tables.{Tables, view_of};

use block_pool::Pool;
use call_words::{Decision, Rule};
use fd_table::FdTable;
use pipe_core::Pipes;
use system_model::close_fd;
use tty_dev::Line;

/// Whether a number of a slot is open.
pub(crate) fn is_open(fds: &FdTable, slot: u8, fd: u8) -> bool
    requires { slot < SLOTS }
    ensures { result ≡ is_some (file_at fds.now slot fd) }
{
    fds.get(slot, fd).is_some()
}

/// close(2): the number is free from then on. Where no other number refers to its open file, a pipe goes with its last end, and with
/// the last live file of a terminal line what is queued there. Answers 0.
///
/// Denied by `BadFd`, where the number is not open; then nothing changes.
pub fn do_close(
    fds: &mut FdTable,
    pipes: &mut Pipes,
    pool: &mut Pool,
    lines: &mut [Line],
    slot: u8,
    fd: u8,
) -> Decision
    requires slot { slot < SLOTS }
    requires pipes { FitPipes fds.old pipes.old }
    requires lines { FitLines fds.old (counts_of lines.old) (boots_of lines.old) }
    requires blocks { FitBlocks pool.old pipes.old lines.old }
    ensures files { (nodes : List (Option NodeAt)) → FitFiles nodes fds.old → FitFiles nodes fds.new }
    ensures slots { (processes : Processes ℕ) → FitSlots fds.old processes → FitSlots fds.new processes }
    ensures pipes { FitPipes fds.new pipes.new }
    ensures lines { FitLines fds.new (counts_of lines.new) (boots_of lines.new) }
    ensures blocks { FitBlocks pool.new pipes.new lines.new }
    ensures revokes { (most : ℕ) → AreRevokedAtMost most pool.old lines.old → AreRevokedAtMost most pool.new lines.new }
    ensures does { (t : Tables) → t.descriptors ≡ fds.old → t.pipes ≡ pipes.old → t.pool ≡ pool.old → t.lines ≡ lines.old →
        Does (view_of t) (view_of (record t { descriptors = fds.new; pipes = pipes.new; pool = pool.new; lines = lines.new })) result (close_row (view_of t) slot fd) }
{
    if !is_open(fds, slot, fd) {
        return Decision::denied(Rule::BadFd);
    }
    close_fd(fds, pipes, pool, lines, slot, fd);
    Decision::nothing()
}
