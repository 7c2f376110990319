//! execve(2).
ghost use Rattle.std.specs.Prelude.{◌≡◌, ℕ, List, Option};
ghost use Rattle.system_model.specs.Fit.{FitFiles, FitDirectories, FitSlots, FitPipes, FitLines, FitBlocks, AreRevokedAtMost, IsCaller};
ghost use Rattle.system_model.specs.ProcCalls.{exec_row};
ghost use Rattle.system_model.specs.Rows.{Does};
ghost use Rattle.system_model.specs.Tables.{Tables, view_of};
ghost use Rattle.tree_model.specs.Tree.{NodeAt};
ghost use Rattle.tty_dev.specs.Table.{counts_of, boots_of};

use crate::closing::{Numbers, close_numbers};
use crate::programs::find_program;
use block_pool::Pool;
use call_words::{Decision, PathText, Piece, Reply};
use fd_table::FdTable;
use pipe_core::Pipes;
use proc_table::ProcTable;
use system_model::caller;
use tty_dev::Line;
use vnode_tree::Tree;

/// execve(2): the process has the program in the file that a path leads to, with these arguments. Signals that it catches do again what
/// they do by default, caught ones that are pending go, and its numbers that are marked to be closed are closed from the lowest. Answers
/// the program and the arguments.
///
/// Denied by the first rule that holds: those of `find_node`; `NotFile`, where the node is no regular file; `LabelRead`, where the
/// caller's active element does not dominate the node's; `List`, where the node's list refuses to execute it; `Image`, where it holds
/// the text of no program. Then nothing changes.
pub fn do_exec(
    tree: &Tree,
    fds: &mut FdTable,
    pipes: &mut Pipes,
    procs: &mut ProcTable,
    pool: &mut Pool,
    lines: &mut [Line],
    slot: u8,
    path: &PathText,
    args: &Piece,
) -> Decision
    requires caller { IsCaller procs.old slot }
    requires directories { FitDirectories tree.now procs.old }
    requires slots { FitSlots fds.old procs.old }
    requires pipes { FitPipes fds.old pipes.old }
    requires lines { FitLines fds.old (counts_of lines.old) (boots_of lines.old) }
    requires blocks { FitBlocks pool.old pipes.old lines.old }
    ensures files { (nodes : List (Option NodeAt)) → FitFiles nodes fds.old → FitFiles nodes fds.new }
    ensures directories { FitDirectories tree.now procs.new }
    ensures slots { FitSlots fds.new procs.new }
    ensures pipes { FitPipes fds.new pipes.new }
    ensures lines { FitLines fds.new (counts_of lines.new) (boots_of lines.new) }
    ensures blocks { FitBlocks pool.new pipes.new lines.new }
    ensures revokes { (most : ℕ) → AreRevokedAtMost most pool.old lines.old → AreRevokedAtMost most pool.new lines.new }
    ensures does { (t : Tables) → t.nodes ≡ tree.now → t.descriptors ≡ fds.old → t.pipes ≡ pipes.old → t.processes ≡ procs.old → t.pool ≡ pool.old →
        t.lines ≡ lines.old →
        Does (view_of t) (view_of (record t { descriptors = fds.new; pipes = pipes.new; processes = procs.new; pool = pool.new; lines = lines.new })) result
        (exec_row (view_of t) slot path.now args.now) }
{
    let image = match find_program(tree, caller(procs, slot), path) {
        Ok(image) => image,
        Err(rule) => return Decision::denied(rule),
    };
    procs.exec(slot, image, args.copy());
    close_numbers(fds, pipes, pool, lines, Numbers::OnExec, slot);
    Decision::Answer(Reply::Image {
        image,
        args: args.copy(),
    })
}
