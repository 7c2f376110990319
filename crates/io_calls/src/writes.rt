//! write(2).
ghost use Rattle.std.specs.Prelude.{◌≡◌, ◌<◌, ◌≤◌, ◌+◌, ℕ, List, Option, Some, None, IsTrue, is_some, option_map, length, IfOk, OnOk, OnErr};
ghost use Rattle.std.specs.List.{All};
ghost use Rattle.sys_types.specs.declared.limits.TheConstants.{SLOTS, FILE_SPACE, PIPE_BYTES};
ghost use Rattle.block_pool.specs.Chain.{ChainState, holds};
ghost use Rattle.block_pool.specs.Pool.{AreOf};
ghost use Rattle.fd_table.specs.declared.open.Open.{Open};
ghost use Rattle.fd_table.specs.Opens.{at_offset};
ghost use Rattle.fd_table.specs.Shared.{file_at, change_file};
ghost use Rattle.pipe_core.specs.Chains.{HoldsBlocks, KeepsPipes, blocks_of, bytes_of};
ghost use Rattle.pipe_core.specs.Pipes.{contents_at, is_there, put};
ghost use Rattle.proc_table.specs.Posts as posts;
ghost use Rattle.proc_table.specs.Processes.{Processes};
ghost use Rattle.tree_model.specs.Contents.{with_write};
ghost use Rattle.tree_model.specs.Numbers.{IsFile, path_of, record_of};
ghost use Rattle.tree_model.specs.Tree.{nodes_from, with_node_at};
ghost use Rattle.tty_dev.specs.Table.{counts_of, boots_of};
ghost use Rattle.vnode_tree.specs.Nodes.{with_record};
ghost use Rattle.system_model.specs.Fit.{IsCaller, FitFiles, FitDirectories, FitTree, FitSlots, FitPipes, FitLines, FitBlocks, AreRevokedAtMost};
ghost use Rattle.system_model.specs.IoCalls.{write_row, write_at};
ghost use Rattle.system_model.specs.Looks as looks;
ghost use Rattle.system_model.specs.Rows.{Does, first};
ghost use Rattle.system_model.specs.Tables.{Tables, view_of};
ghost use Rattle.io_calls.specs.Moves.{without_checks};
ghost use Rattle.io_calls.specs.Writes.{HasRoom, bytes_with, is_of_file};

use crate::write_verdicts::{write_place, write_verdict};
use block_pool::Pool;
use call_words::Decision;
use fd_table::{FdTable, Target};
use pipe_core::Pipes;
use proc_table::{EndingList, ProcTable};
use sys_types::{Node, Piece};
use system_model::settle;
use tty_dev::Line;
use tty_dev::table::write;
use vnode_tree::{NoMemory, Tree, WriteFault};

/// Writes bytes, of which there are some, at a place of a regular file, and moves the offset of its open file behind them. Answers how
/// many. There is room. `NoMemory`, where memory runs out, is the only error; then nothing changes.
fn write_file(
    tree: &mut Tree,
    fds: &mut FdTable,
    slot: u8,
    fd: u8,
    node: Node,
    place: u32,
    bytes: &Piece,
) -> Result<u32, NoMemory>
    requires slot { slot < SLOTS }
    requires is_open { IsTrue (is_some (file_at fds.old slot fd)) }
    requires node { IsFile tree.old node }
    requires some { 0 < length bytes.now }
    requires room { bytes_with tree.old node place bytes.now (record_of tree.old node) ≤ FILE_SPACE }
    ensures count { IfOk result (λ count. count ≡ length bytes.now) }
    ensures set { OnOk result (tree.new ≡ with_record (with_write place bytes.now) tree.old node) }
    ensures map { OnOk result (nodes_from tree.new
        ≡ with_node_at (nodes_from tree.old) (path_of tree.old node) (option_map (with_write place bytes.now) (record_of tree.old node))) }
    ensures table { OnOk result (fds.new ≡ change_file (at_offset (place + length bytes.now)) fds.old slot fd) }
    ensures err_tree { OnErr result (tree.new ≡ tree.old) }
    ensures err_fds { OnErr result (fds.new ≡ fds.old) }
{
    match tree.write(node, place, bytes.as_slice()) {
        Ok(()) => {
            let count = bytes.len() as u32;
            fds.set_offset(slot, fd, place + count);
            Ok(count)
        }
        Err(WriteFault::Space) => unreachable!(),
        Err(WriteFault::NoMemory) => Err(NoMemory),
    }
}

/// Puts bytes into a pipe, which is there and has room for all of them.
fn fill_pipe(pipes: &mut Pipes, pool: &mut Pool, pipe: u16, bytes: &Piece)
    requires there { IsTrue (is_there pipes.old pipe) }
    requires of_pool { AreOf pool.old (blocks_of pipes.old) }
    requires blocks { All HoldsBlocks pipes.old }
    requires room { (c : ChainState) → contents_at pipes.old pipe ≡ Some c → length (holds pool.old c) + length bytes.now ≤ PIPE_BYTES }
    ensures put { bytes_of pool.new pipes.new ≡ put (bytes_of pool.old pipes.old) pipe bytes.now }
    ensures keeps { KeepsPipes pool.old pool.new pipes.old pipes.new }
{
    if !pipes.put(pipe, pool, bytes.as_slice()) {
        unreachable!()
    }
}

/// Writes bytes, of which there are some, to what the open file of a number is of, where no check holds. `NoMemory`, where memory runs
/// out, is the only error, and comes of a regular file alone; then nothing changes.
fn write_to(
    tree: &mut Tree,
    fds: &mut FdTable,
    pipes: &mut Pipes,
    pool: &mut Pool,
    lines: &mut [Line],
    slot: u8,
    fd: u8,
    bytes: &Piece,
) -> Result<Decision, NoMemory>
    requires slot { slot < SLOTS }
    requires some { 0 < length bytes.now }
    requires files { FitFiles tree.old fds.old }
    requires pipes { FitPipes fds.old pipes.old }
    requires lines { FitLines fds.old (counts_of lines.old) (boots_of lines.old) }
    requires blocks { FitBlocks pool.old pipes.old lines.old }
    requires room { (f : Open) → file_at fds.old slot fd ≡ Some f → HasRoom tree.old pool.old pipes.old bytes.now f f.target }
    ensures files { FitFiles tree.new fds.new }
    ensures directories { (processes : Processes ℕ) → FitDirectories tree.old processes → FitDirectories tree.new processes }
    ensures tree { FitTree tree.old → FitTree tree.new }
    ensures slots { (processes : Processes ℕ) → FitSlots fds.old processes → FitSlots fds.new processes }
    ensures pipes { FitPipes fds.new pipes.new }
    ensures lines { FitLines fds.new (counts_of lines.new) (boots_of lines.new) }
    ensures blocks { FitBlocks pool.new pipes.new lines.new }
    ensures revokes { (most : ℕ) → AreRevokedAtMost most pool.old lines.old → AreRevokedAtMost most pool.new lines.new }
    ensures does { (t : Tables) → t.nodes ≡ tree.old → t.descriptors ≡ fds.old → t.pipes ≡ pipes.old → t.pool ≡ pool.old → t.lines ≡ lines.old →
        IfOk result (λ d. Does (view_of t)
        (view_of (record t { nodes = tree.new; descriptors = fds.new; pipes = pipes.new; pool = pool.new; lines = lines.new })) d
        (without_checks (write_at (view_of t) slot fd bytes.now (looks.file_at (view_of t) slot fd)))) }
    ensures regular { OnErr result (IsTrue (is_of_file (file_at fds.old slot fd))) }
    ensures err_tree { OnErr result (tree.new ≡ tree.old) }
    ensures err_fds { OnErr result (fds.new ≡ fds.old) }
    ensures err_pipes { OnErr result (pipes.new ≡ pipes.old) }
    ensures err_pool { OnErr result (pool.new ≡ pool.old) }
    ensures err_lines { OnErr result (lines.new ≡ lines.old) }
{
    let Some(file) = fds.get(slot, fd) else {
        return Ok(Decision::Noted);
    };
    match file.target {
        Target::File(node) => {
            let place = write_place(tree, file, node);
            let count = write_file(tree, fds, slot, fd, node, place, bytes)?;
            Ok(Decision::number(count))
        }
        Target::PipeRead(_) => Ok(Decision::Noted),
        Target::PipeWrite(pipe) => {
            fill_pipe(pipes, pool, pipe, bytes);
            Ok(Decision::number(bytes.len() as u32))
        }
        Target::Line { line, opened: _ } => {
            let count = write(lines, pool, line, bytes.as_slice());
            Ok(Decision::number(u32::from(count)))
        }
    }
}

/// write(2): does what `write_verdict` says, and where that is to go on writes to a regular file at its end where it was opened to append,
/// and else at its offset, which is behind the bytes then; behind what a pipe holds; and to a line as many of the bytes as fit. Bytes that
/// are missing between the end of a file and the offset become 0. Answers how many were written.
///
/// `NoMemory`, where memory runs out, is the only error, and comes of a regular file where no check holds; then nothing changes.
pub fn do_write(
    tree: &mut Tree,
    fds: &mut FdTable,
    pipes: &mut Pipes,
    procs: &mut ProcTable,
    pool: &mut Pool,
    lines: &mut [Line],
    ending: &mut EndingList,
    recheck: bool,
    slot: u8,
    fd: u8,
    bytes: &Piece,
) -> Result<Decision, NoMemory>
    requires caller { IsCaller procs.old slot }
    requires files { FitFiles tree.old fds.old }
    requires tree { FitTree tree.old }
    requires pipes { FitPipes fds.old pipes.old }
    requires lines { FitLines fds.old (counts_of lines.old) (boots_of lines.old) }
    requires blocks { FitBlocks pool.old pipes.old lines.old }
    requires list { posts.IsEndingList ending.old.items }
    ensures list { posts.IsEndingList ending.new.items }
    ensures files { FitFiles tree.new fds.new }
    ensures directories { FitDirectories tree.old procs.old → FitDirectories tree.new procs.new }
    ensures tree { FitTree tree.new }
    ensures slots { FitSlots fds.old procs.old → FitSlots fds.new procs.new }
    ensures pipes { FitPipes fds.new pipes.new }
    ensures lines { FitLines fds.new (counts_of lines.new) (boots_of lines.new) }
    ensures blocks { FitBlocks pool.new pipes.new lines.new }
    ensures revokes { (most : ℕ) → AreRevokedAtMost most pool.old lines.old → AreRevokedAtMost most pool.new lines.new }
    ensures does { (t : Tables) → t.nodes ≡ tree.old → t.descriptors ≡ fds.old → t.pipes ≡ pipes.old → t.processes ≡ procs.old → t.pool ≡ pool.old →
        t.lines ≡ lines.old → t.ending ≡ ending.old.items → t.recheck ≡ recheck →
        IfOk result (λ d. Does (view_of t)
        (view_of (record t {
          nodes = tree.new;
          descriptors = fds.new;
          pipes = pipes.new;
          processes = procs.new;
          pool = pool.new;
          lines = lines.new;
          ending = ending.new.items;
        }))
        d (write_row (view_of t) slot fd bytes.now)) }
    ensures allowed { (t : Tables) → t.nodes ≡ tree.old → t.descriptors ≡ fds.old → t.pipes ≡ pipes.old → t.processes ≡ procs.old → t.lines ≡ lines.old →
        t.recheck ≡ recheck → OnErr result (first (write_row (view_of t) slot fd bytes.now).checks ≡ None) }
    ensures regular { OnErr result (IsTrue (is_of_file (file_at fds.old slot fd))) }
    ensures err_tree { OnErr result (tree.new ≡ tree.old) }
    ensures err_fds { OnErr result (fds.new ≡ fds.old) }
    ensures err_pipes { OnErr result (pipes.new ≡ pipes.old) }
    ensures err_procs { OnErr result (procs.new ≡ procs.old) }
    ensures err_pool { OnErr result (pool.new ≡ pool.old) }
    ensures err_lines { OnErr result (lines.new ≡ lines.old) }
    ensures err_ending { OnErr result (ending.new.items ≡ ending.old.items) }
{
    let verdict = write_verdict(tree, fds, pipes, procs, lines, recheck, slot, fd, bytes);
    if verdict.is_held() {
        return Ok(settle(procs, ending, slot, verdict));
    }
    write_to(tree, fds, pipes, pool, lines, slot, fd, bytes)
}
