//! The close of a descriptor: with the last one of an open file goes what it was of (close(2), pipe(2), tty(4)).
ghost use Rattle.std.specs.Prelude.{◌≡◌, ◌<◌, length, ℕ, List, Option, IsTrue, is_some, if◌then◌else◌};
ghost use Rattle.sys_types.specs.declared.limits.TheConstants.{SLOTS};
ghost use Rattle.block_pool.specs.Pool.{AreOf};
ghost use Rattle.fd_table.specs.Shared.{file_at, drop_number};
ghost use Rattle.pipe_core.specs.Pipes.{is_there, remove};
ghost use Rattle.pipe_core.specs.Chains.{bytes_of, blocks_of, KeepsPipes};
ghost use Rattle.tty_dev.specs.Table.{counts_of, boots_of};
ghost use Rattle.system_model.specs.Closing.{has_no_end, IsReleasable, is_there_after, counts_after};
ghost use Rattle.tree_model.specs.Tree.{NodeAt};
ghost use Rattle.proc_table.specs.Processes.{Processes};
ghost use Rattle.system_model.specs.Effects.{on_files, change};
ghost use Rattle.system_model.specs.FileEffects.{close_fd, release_target};
ghost use Rattle.system_model.specs.Fit.{FitFiles, FitSlots, FitPipes, FitLines, FitBlocks, AreRevokedAtMost};
ghost use Rattle.system_model.specs.Keeping.{seeing};
ghost use Rattle.system_model.specs.Tables.{Tables, generations, is_dead_target, seen_target, view_of};

use block_pool::Pool;
use fd_table::{FdTable, Target};
use pipe_core::Pipes;
use tty_dev::Line;
use tty_dev::table::close_file;

/// Whether no open file is an end of a pipe.
fn has_no_end(fds: &FdTable, k: u16) -> bool
    ensures { result ≡ has_no_end fds.now k }
{
    fds.live(&Target::PipeRead(k)) == 0 && fds.live(&Target::PipeWrite(k)) == 0
}

/// A pipe goes with its last end, and its blocks are free.
fn release_pipe(fds: &FdTable, pipes: &mut Pipes, pool: &mut Pool, k: u16)
    requires there { IsTrue (is_there pipes.old k) }
    requires of_pool { AreOf pool.old (blocks_of pipes.old) }
    ensures bytes { bytes_of pool.new pipes.new ≡ (if has_no_end fds.now k then remove (bytes_of pool.old pipes.old) k else bytes_of pool.old pipes.old) }
    ensures keeps { KeepsPipes pool.old pool.new pipes.old pipes.new }
{
    if has_no_end(fds, k) {
        pipes.release(k, pool);
    }
}

/// Lets go what an open file was of to which no descriptor refers any more: a pipe with its last end, and with the last live file of a
/// terminal line what is queued there.
pub fn release(
    fds: &FdTable,
    pipes: &mut Pipes,
    pool: &mut Pool,
    lines: &mut [Line],
    target: Target,
)
    requires target { IsReleasable fds.now pipes.old (counts_of lines.old) target }
    requires blocks { FitBlocks pool.old pipes.old lines.old }
    ensures blocks { FitBlocks pool.new pipes.new lines.new }
    ensures boots { boots_of lines.new ≡ boots_of lines.old }
    ensures counts { counts_of lines.new ≡ counts_after target (counts_of lines.old) }
    ensures places { length pipes.new ≡ length pipes.old }
    ensures pipes { (k : ℕ) → is_there pipes.new k ≡ is_there_after fds.now target k (is_there pipes.old k) }
    ensures revokes { (most : ℕ) → AreRevokedAtMost most pool.old lines.old → AreRevokedAtMost most pool.new lines.new }
    ensures seen { (t : Tables) → t.descriptors ≡ fds.now → t.pipes ≡ pipes.old → t.pool ≡ pool.old → t.lines ≡ lines.old →
        view_of (record t { pipes = pipes.new; pool = pool.new; lines = lines.new })
        ≡ release_target seeing (view_of t) (is_dead_target (generations (counts_of t.lines)) target) (seen_target t.nodes target) }
{
    match target {
        Target::File(_) => {}
        Target::PipeRead(k) | Target::PipeWrite(k) => release_pipe(fds, pipes, pool, k),
        Target::Line { line, opened } => close_file(lines, pool, line, opened),
    }
}

/// Closes an open number of a slot (close(2)). Where no other number refers to its open file, what that was of goes too: a pipe with
/// its last end, and with the last live file of a terminal line what is queued there.
pub fn close_fd(
    fds: &mut FdTable,
    pipes: &mut Pipes,
    pool: &mut Pool,
    lines: &mut [Line],
    slot: u8,
    fd: u8,
)
    requires slot { slot < SLOTS }
    requires is_open { IsTrue (is_some (file_at fds.old slot fd)) }
    requires pipes { FitPipes fds.old pipes.old }
    requires lines { FitLines fds.old (counts_of lines.old) (boots_of lines.old) }
    requires blocks { FitBlocks pool.old pipes.old lines.old }
    ensures pipes { FitPipes fds.new pipes.new }
    ensures lines { FitLines fds.new (counts_of lines.new) (boots_of lines.new) }
    ensures blocks { FitBlocks pool.new pipes.new lines.new }
    ensures files { (nodes : List (Option NodeAt)) → FitFiles nodes fds.old → FitFiles nodes fds.new }
    ensures slots { (processes : Processes ℕ) → FitSlots fds.old processes → FitSlots fds.new processes }
    ensures table { fds.new ≡ drop_number fds.old slot fd }
    ensures revokes { (most : ℕ) → AreRevokedAtMost most pool.old lines.old → AreRevokedAtMost most pool.new lines.new }
    ensures does { (t : Tables) → t.descriptors ≡ fds.old → t.pipes ≡ pipes.old → t.pool ≡ pool.old → t.lines ≡ lines.old →
        view_of (record t { descriptors = fds.new; pipes = pipes.new; pool = pool.new; lines = lines.new })
        ≡ change (view_of t) (on_files (close_fd slot fd)) }
{
    let Ok(last) = fds.close(slot, fd) else {
        return;
    };
    let Some(file) = last else {
        return;
    };
    release(fds, pipes, pool, lines, file.target);
}
