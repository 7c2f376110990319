//! read(2).
ghost use Rattle.std.specs.Prelude.{◌≡◌, ◌<◌, ◌≤◌, ◌+◌, ℕ, List, Option, Some, IsTrue, is_some, option_map, length};
ghost use Rattle.sys_types.specs.declared.limits.TheConstants.{SLOTS, PIECE_BYTES};
ghost use Rattle.fd_table.specs.Opens.{at_offset};
ghost use Rattle.fd_table.specs.Shared.{file_at, change_file};
ghost use Rattle.proc_table.specs.Posts as posts;
ghost use Rattle.proc_table.specs.Processes.{Processes};
ghost use Rattle.tree_model.specs.Contents.{bytes_at};
ghost use Rattle.tree_model.specs.Numbers.{IsFile, path_of, record_of};
ghost use Rattle.tree_model.specs.Tree.{NodeAt, at_path, nodes_from};
ghost use Rattle.tty_dev.specs.Table.{counts_of, boots_of};
ghost use Rattle.system_model.specs.Fit.{IsCaller, FitFiles, FitDirectories, FitTree, FitSlots, FitPipes, FitLines, FitBlocks, AreRevokedAtMost};
ghost use Rattle.system_model.specs.IoCalls.{read_row, read_at};
ghost use Rattle.system_model.specs.Looks as looks;
ghost use Rattle.system_model.specs.Rows.{Does};
ghost use Rattle.system_model.specs.Tables.{Tables, view_of};
ghost use Rattle.io_calls.specs.Moves.{without_checks};

use crate::read_verdicts::read_verdict;
use block_pool::Pool;
use call_words::Decision;
use fd_table::{FdTable, Target};
use pipe_core::Pipes;
use proc_table::{EndingList, ProcTable};
use sys_types::{Node, Piece};
use system_model::settle;
use tty_dev::Line;
use tty_dev::table::read;
use vnode_tree::Tree;

/// Reads at most `max` bytes of a regular file from the offset of the open file of a number on, which is behind them then.
fn read_file(
    tree: &Tree,
    fds: &mut FdTable,
    slot: u8,
    fd: u8,
    node: Node,
    offset: u32,
    max: u16,
) -> Piece
    requires slot { slot < SLOTS }
    requires is_open { IsTrue (is_some (file_at fds.old slot fd)) }
    requires node { IsFile tree.now node }
    requires most { max ≤ PIECE_BYTES }
    ensures bytes { option_map (λ r. bytes_at offset max r.contents) (record_of tree.now node) ≡ Some result }
    ensures map { record_of tree.now node ≡ at_path (nodes_from tree.now) (path_of tree.now node) }
    ensures table { fds.new ≡ change_file (at_offset (offset + length result)) fds.old slot fd }
{
    let left = tree.size(node).saturating_sub(offset);
    fds.set_offset(slot, fd, offset + left.min(u32::from(max)));
    tree.read(node, offset, max)
}

/// Reads at most `max` bytes of what the open file of a number is of, where no check holds.
fn read_from(
    tree: &Tree,
    fds: &mut FdTable,
    pipes: &mut Pipes,
    pool: &Pool,
    lines: &mut [Line],
    slot: u8,
    fd: u8,
    max: u16,
) -> Decision
    requires slot { slot < SLOTS }
    requires most { max ≤ PIECE_BYTES }
    requires files { FitFiles tree.now fds.old }
    requires pipes { FitPipes fds.old pipes.old }
    requires lines { FitLines fds.old (counts_of lines.old) (boots_of lines.old) }
    requires blocks { FitBlocks pool.now pipes.old lines.old }
    ensures files { FitFiles tree.now fds.new }
    ensures slots { (processes : Processes ℕ) → FitSlots fds.old processes → FitSlots fds.new processes }
    ensures pipes { FitPipes fds.new pipes.new }
    ensures lines { FitLines fds.new (counts_of lines.new) (boots_of lines.new) }
    ensures blocks { FitBlocks pool.now pipes.new lines.new }
    ensures revokes { (most : ℕ) → AreRevokedAtMost most pool.now lines.old → AreRevokedAtMost most pool.now lines.new }
    ensures does { (t : Tables) → t.nodes ≡ tree.now → t.descriptors ≡ fds.old → t.pipes ≡ pipes.old → t.pool ≡ pool.now → t.lines ≡ lines.old →
        Does (view_of t) (view_of (record t { descriptors = fds.new; pipes = pipes.new; lines = lines.new })) result
        (without_checks (read_at (view_of t) slot fd max (looks.file_at (view_of t) slot fd))) }
{
    let Some(file) = fds.get(slot, fd) else {
        return Decision::Noted;
    };
    let offset = file.offset;
    match file.target {
        Target::File(node) => Decision::bytes(read_file(tree, fds, slot, fd, node, offset, max)),
        Target::PipeRead(pipe) => Decision::bytes(pipes.take(pipe, pool, max)),
        Target::PipeWrite(_) => Decision::Noted,
        Target::Line { line, opened: _ } => {
            Decision::bytes(read(lines, pool, line, max).unwrap_or(Piece::empty()))
        }
    }
}

/// read(2): does what `read_verdict` says, and where that is to go on answers at most `max` bytes: of a regular file from its offset on,
/// which is behind them then, and of a pipe or a line those that came first, which are gone from it then.
pub fn do_read(
    tree: &Tree,
    fds: &mut FdTable,
    pipes: &mut Pipes,
    procs: &mut ProcTable,
    pool: &Pool,
    lines: &mut [Line],
    ending: &mut EndingList,
    recheck: bool,
    slot: u8,
    fd: u8,
    max: u16,
) -> Decision
    requires caller { IsCaller procs.old slot }
    requires files { FitFiles tree.now fds.old }
    requires tree { FitTree tree.now }
    requires pipes { FitPipes fds.old pipes.old }
    requires lines { FitLines fds.old (counts_of lines.old) (boots_of lines.old) }
    requires blocks { FitBlocks pool.now pipes.old lines.old }
    requires list { posts.IsEndingList ending.old.items }
    ensures list { posts.IsEndingList ending.new.items }
    ensures files { FitFiles tree.now fds.new }
    ensures directories { (nodes : List (Option NodeAt)) → FitDirectories nodes procs.old → FitDirectories nodes procs.new }
    ensures slots { FitSlots fds.old procs.old → FitSlots fds.new procs.new }
    ensures pipes { FitPipes fds.new pipes.new }
    ensures lines { FitLines fds.new (counts_of lines.new) (boots_of lines.new) }
    ensures blocks { FitBlocks pool.now pipes.new lines.new }
    ensures revokes { (most : ℕ) → AreRevokedAtMost most pool.now lines.old → AreRevokedAtMost most pool.now lines.new }
    ensures does { (t : Tables) → t.nodes ≡ tree.now → t.descriptors ≡ fds.old → t.pipes ≡ pipes.old → t.processes ≡ procs.old → t.pool ≡ pool.now →
        t.lines ≡ lines.old → t.ending ≡ ending.old.items → t.recheck ≡ recheck →
        Does (view_of t)
        (view_of (record t { descriptors = fds.new; pipes = pipes.new; processes = procs.new; lines = lines.new; ending = ending.new.items })) result
        (read_row (view_of t) slot fd max) }
{
    let verdict = read_verdict(tree, fds, pipes, procs, lines, recheck, slot, fd, max);
    if verdict.is_held() {
        return settle(procs, ending, slot, verdict);
    }
    read_from(tree, fds, pipes, pool, lines, slot, fd, max)
}
