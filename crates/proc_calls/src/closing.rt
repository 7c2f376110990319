//! The close of several numbers of a slot (close(2)).
ghost use Rattle.std.specs.Prelude.{◌≡◌, ◌≢◌, ◌<◌, true, false, ℕ, List, [], ◌∷◌, Option, None, is_some, length, if◌then◌else◌};
ghost use Rattle.sys_types.specs.declared.limits.TheConstants.{SLOTS, DESCRIPTORS};
ghost use Rattle.fd_table.specs.Shared.{file_at, descriptor_at, row_of};
ghost use Rattle.proc_table.specs.Processes.{Processes};
ghost use Rattle.tree_model.specs.Tree.{NodeAt};
ghost use Rattle.tty_dev.specs.Table.{counts_of, boots_of};
ghost use Rattle.proc_calls.specs.CloseNumbers.{is_one_of, numbers_from};
ghost use Rattle.system_model.specs.Effects.{change_all};
ghost use Rattle.system_model.specs.Fit.{FitFiles, FitSlots, FitPipes, FitLines, FitBlocks, AreRevokedAtMost};
ghost use Rattle.system_model.specs.ProcCalls.{close_fds};
ghost use Rattle.system_model.specs.Tables.{Tables, view_of};

use block_pool::Pool;
use fd_table::FdTable;
use pipe_core::Pipes;
use sys_types::DESCRIPTORS;
use system_model::close_fd;
use tty_dev::Line;

/// Numbers of a slot that are open.
#[derive(Clone, Copy, PartialEq, Eq)]
pub(crate) enum Numbers {
    /// Each of them.
    Open,
    /// Those that an execve(2) closes.
    OnExec,
}

/// Whether a number of a slot is one of these.
fn is_one_of(fds: &FdTable, numbers: Numbers, slot: u8, fd: u8) -> bool
    requires slot { slot < SLOTS }
    ensures one_of { result ≡ is_one_of numbers (descriptor_at fds.now.table slot fd) }
    ensures file { result ≡ true → is_some (file_at fds.now slot fd) ≡ true }
    ensures row { length (row_of fds.now.table slot) ≡ DESCRIPTORS }
{
    if !fds.is_open(slot, fd) {
        return false;
    }
    match numbers {
        Numbers::Open => true,
        Numbers::OnExec => fds.is_on_exec(slot, fd),
    }
}

/// Closes a number of a slot, where it is one of these.
fn close_one(
    fds: &mut FdTable,
    pipes: &mut Pipes,
    pool: &mut Pool,
    lines: &mut [Line],
    numbers: Numbers,
    slot: u8,
    fd: u8,
)
    requires slot { slot < SLOTS }
    requires pipes { FitPipes fds.old pipes.old }
    requires lines { FitLines fds.old (counts_of lines.old) (boots_of lines.old) }
    requires blocks { FitBlocks pool.old pipes.old lines.old }
    ensures pipes { FitPipes fds.new pipes.new }
    ensures lines { FitLines fds.new (counts_of lines.new) (boots_of lines.new) }
    ensures blocks { FitBlocks pool.new pipes.new lines.new }
    ensures files { (nodes : List (Option NodeAt)) → FitFiles nodes fds.old → FitFiles nodes fds.new }
    ensures slots { (processes : Processes ℕ) → FitSlots fds.old processes → FitSlots fds.new processes }
    ensures revokes { (most : ℕ) → AreRevokedAtMost most pool.old lines.old → AreRevokedAtMost most pool.new lines.new }
    ensures closed { is_one_of numbers (descriptor_at fds.new.table slot fd) ≡ false }
    ensures others { (number : ℕ) → number ≢ fd → descriptor_at fds.new.table slot number ≡ descriptor_at fds.old.table slot number }
    ensures row { length (row_of fds.new.table slot) ≡ DESCRIPTORS }
    ensures does { (t : Tables) → t.descriptors ≡ fds.old → t.pipes ≡ pipes.old → t.pool ≡ pool.old → t.lines ≡ lines.old →
        view_of (record t { descriptors = fds.new; pipes = pipes.new; pool = pool.new; lines = lines.new })
        ≡ change_all (view_of t) (close_fds slot (if is_one_of numbers (descriptor_at fds.old.table slot fd) then fd ∷ [] else [])) }
{
    if is_one_of(fds, numbers, slot, fd) {
        close_fd(fds, pipes, pool, lines, slot, fd);
    }
}

/// Closes these numbers of a slot, from the lowest.
pub(crate) fn close_numbers(
    fds: &mut FdTable,
    pipes: &mut Pipes,
    pool: &mut Pool,
    lines: &mut [Line],
    numbers: Numbers,
    slot: u8,
)
    requires slot { slot < SLOTS }
    requires pipes { FitPipes fds.old pipes.old }
    requires lines { FitLines fds.old (counts_of lines.old) (boots_of lines.old) }
    requires blocks { FitBlocks pool.old pipes.old lines.old }
    ensures pipes { FitPipes fds.new pipes.new }
    ensures lines { FitLines fds.new (counts_of lines.new) (boots_of lines.new) }
    ensures blocks { FitBlocks pool.new pipes.new lines.new }
    ensures files { (nodes : List (Option NodeAt)) → FitFiles nodes fds.old → FitFiles nodes fds.new }
    ensures slots { (processes : Processes ℕ) → FitSlots fds.old processes → FitSlots fds.new processes }
    ensures revokes { (most : ℕ) → AreRevokedAtMost most pool.old lines.old → AreRevokedAtMost most pool.new lines.new }
    ensures closed { (number : ℕ) → is_one_of numbers (descriptor_at fds.new.table slot number) ≡ false }
    ensures does { (t : Tables) → t.descriptors ≡ fds.old → t.pipes ≡ pipes.old → t.pool ≡ pool.old → t.lines ≡ lines.old →
        view_of (record t { descriptors = fds.new; pipes = pipes.new; pool = pool.new; lines = lines.new })
        ≡ change_all (view_of t) (close_fds slot (numbers_from numbers fds.old.table slot 0 DESCRIPTORS)) }
{
    for fd in 0..DESCRIPTORS as u8 {
        close_one(fds, pipes, pool, lines, numbers, slot, fd);
    }
}
