//! What a label lets a process read and write of open files. It is looked at again at each read and write of a pipe, and of a file or a
//! line where the boot says so (mac_mls(4)).
ghost use Rattle.std.specs.Prelude.{◌≡◌};
ghost use Rattle.proc_table.specs.Procs.{process_of};
ghost use Rattle.system_model.specs.Fit.{FitTree};
ghost use Rattle.system_model.specs.IoCalls.{may_not_read, may_not_write};
ghost use Rattle.system_model.specs.Tables.{Tables, seen_process, seen_target, view_of};
ghost use Rattle.io_calls.specs.Targets.{IsThere};

use fd_table::Target;
use label_core::dominates;
use pipe_core::Pipes;
use proc_table::Proc;
use vnode_tree::Tree;

/// Whether a process's label does not let it read what an open file is of, which is there: its active element does not dominate that of
/// the pipe, or of the node where `recheck` says so.
pub(crate) fn may_not_read(
    tree: &Tree,
    pipes: &Pipes,
    who: &Proc,
    recheck: bool,
    target: &Target,
) -> bool
    requires tree { FitTree tree.now }
    requires there { IsThere tree.now pipes.now target.now }
    ensures { (t : Tables) → t.nodes ≡ tree.now → t.pipes ≡ pipes.now → t.recheck ≡ recheck →
        result ≡ may_not_read (view_of t) (seen_process t.nodes (process_of who.now)) (seen_target t.nodes target.now) }
{
    match target {
        Target::File(node) => recheck && !tree.reads_by_label(&who.label, *node),
        Target::PipeRead(pipe) => !dominates(who.label.active(), pipes.element(*pipe)),
        Target::PipeWrite(pipe) => !dominates(who.label.active(), pipes.element(*pipe)),
        Target::Line { line, opened: _ } => {
            recheck && !tree.reads_by_label(&who.label, tree.line_node(*line))
        }
    }
}

/// Whether a process's label does not let it write what an open file is of, which is there: the element of the pipe does not dominate
/// its active one, or that of the node where `recheck` says so.
pub(crate) fn may_not_write(
    tree: &Tree,
    pipes: &Pipes,
    who: &Proc,
    recheck: bool,
    target: &Target,
) -> bool
    requires tree { FitTree tree.now }
    requires there { IsThere tree.now pipes.now target.now }
    ensures { (t : Tables) → t.nodes ≡ tree.now → t.pipes ≡ pipes.now → t.recheck ≡ recheck →
        result ≡ may_not_write (view_of t) (seen_process t.nodes (process_of who.now)) (seen_target t.nodes target.now) }
{
    match target {
        Target::File(node) => recheck && !tree.writes_by_label(&who.label, *node),
        Target::PipeRead(pipe) => !dominates(pipes.element(*pipe), who.label.active()),
        Target::PipeWrite(pipe) => !dominates(pipes.element(*pipe), who.label.active()),
        Target::Line { line, opened: _ } => {
            recheck && !tree.writes_by_label(&who.label, tree.line_node(*line))
        }
    }
}
