//! The calls that take a node away: rmdir(2), unlink(2).
ghost use Rattle.std.specs.Prelude.{◌≡◌, ◌==◌, not};
ghost use Rattle.std.specs.Result.{result_err};
ghost use Rattle.fd_table.specs.declared.open.Open.{Open};
ghost use Rattle.fd_table.specs.declared.open.Target.TheVariants.{File as FileOf};
ghost use Rattle.fd_table.specs.Opens.{is_of};
ghost use Rattle.fd_table.specs.Shared.{Shared, count_files};
ghost use Rattle.system_model.specs.DirCalls.{rmdir_row, unlink_row};
ghost use Rattle.system_model.specs.Fit.{IsCaller, FitFiles, FitDirectories, FitTree};
ghost use Rattle.system_model.specs.Rows.{Does};
ghost use Rattle.system_model.specs.Tables.{Tables, view_of};
ghost use Rattle.vnode_tree.specs.Nodes.{IsLive};
ghost use Rattle.node_calls.specs.Removals.{take_rule, kind_rule};

use acl_core::Cred;
use call_words::{Decision, Kind, Node, PathText, Rule};
use fd_table::{FdTable, Target};
use label_core::Subject;
use proc_table::ProcTable;
use system_model::caller;
use vnode_tree::Tree;

/// Whether a node may be taken from its directory. The node is live.
///
/// Denied by the first rule that holds: `LabelWrite`, where the directory's element does not dominate the label's active one;
/// `List`, where the directory's list refuses to write it; `LabelWrite`, where the node's own element does not dominate the
/// label's active one.
fn may_take(tree: &Tree, cred: &Cred, label: &Subject, node: Node) -> Result<(), Rule>
    requires { IsLive tree.now node }
    ensures { result_err result ≡ take_rule tree.now cred.now label.now node }
{
    tree.may_access(cred, label, tree.parent(node), false, true, false)?;
    if !tree.writes_by_label(label, node) {
        return Err(Rule::LabelWrite);
    }
    Ok(())
}

/// rmdir(2): takes away the directory that a path leads to. Answers 0.
///
/// Denied by the first rule that holds: those of `find_node`; `NotDir`, where the node is no directory; `InUse`, where it
/// is the root; `LabelWrite`, where the element of the directory above does not dominate the caller's active one; `List`,
/// where the list of the directory above refuses to write it; `LabelWrite`, where the directory's own element does not
/// dominate the caller's active one; `NotEmpty`, where it has nodes; `InUse`, where it is the working directory of a running
/// process. Then nothing changes.
pub fn do_rmdir(tree: &mut Tree, procs: &ProcTable, slot: u8, path: &PathText) -> Decision
    requires caller { IsCaller procs.now slot }
    requires directories { FitDirectories tree.old procs.now }
    ensures files { (d : Shared Open) → FitFiles tree.old d → FitFiles tree.new d }
    ensures directories { FitDirectories tree.new procs.now }
    ensures tree { FitTree tree.old → FitTree tree.new }
    ensures does { (t : Tables) → t.nodes ≡ tree.old → t.processes ≡ procs.now → FitFiles tree.old t.descriptors →
        Does (view_of t) (view_of (record t { nodes = tree.new })) result (rmdir_row (view_of t) slot path.now) }
{
    let who = caller(procs, slot);
    let node = match tree.find_node(&who.cred, &who.label, who.cwd, path) {
        Ok(node) => node,
        Err(rule) => return Decision::denied(rule),
    };
    if !tree.is_dir(node) {
        return Decision::denied(Rule::NotDir);
    }
    if tree.is_root(node) {
        return Decision::denied(Rule::InUse);
    }
    if let Err(rule) = may_take(tree, &who.cred, &who.label, node) {
        return Decision::denied(rule);
    }
    if tree.has_children(node) {
        return Decision::denied(Rule::NotEmpty);
    }
    if procs.is_directory_of_any(node) {
        return Decision::denied(Rule::InUse);
    }
    tree.remove(node);
    Decision::nothing()
}

/// The rule by which a node of a kind is not unlinked: `IsDir`, a directory; `Device`, a terminal line or `/dev/tty`.
/// `None` comes exactly for a regular file.
fn kind_rule(kind: Kind) -> Option<Rule>
    ensures { result ≡ kind_rule kind }
{
    match kind {
        Kind::File => None,
        Kind::Dir => Some(Rule::IsDir),
        Kind::Line(_) => Some(Rule::Device),
        Kind::Tty => Some(Rule::Device),
    }
}

/// Whether an open file is of a node.
fn is_open(fds: &FdTable, node: Node) -> bool
    ensures { result ≡ not (count_files (is_of (FileOf node)) fds.now == 0) }
{
    fds.live(&Target::File(node)) != 0
}

/// unlink(2): takes away the node that a path leads to. Answers 0.
///
/// Denied by the first rule that holds: those of `find_node`; `IsDir`, where the node is a directory; `Device`, where it is
/// a terminal line or `/dev/tty`; `LabelWrite`, where its directory's element does not dominate the caller's active one;
/// `List`, where the directory's list refuses to write it; `LabelWrite`, where the node's element does not dominate the
/// caller's active one; `InUse`, where an open file is of the node. Then nothing changes.
pub fn do_unlink(
    tree: &mut Tree,
    fds: &FdTable,
    procs: &ProcTable,
    slot: u8,
    path: &PathText,
) -> Decision
    requires files { FitFiles tree.old fds.now }
    requires caller { IsCaller procs.now slot }
    requires directories { FitDirectories tree.old procs.now }
    ensures files { FitFiles tree.new fds.now }
    ensures directories { FitDirectories tree.new procs.now }
    ensures tree { FitTree tree.old → FitTree tree.new }
    ensures does { (t : Tables) → t.nodes ≡ tree.old → t.descriptors ≡ fds.now → t.processes ≡ procs.now →
        Does (view_of t) (view_of (record t { nodes = tree.new })) result (unlink_row (view_of t) slot path.now) }
{
    let who = caller(procs, slot);
    let node = match tree.find_node(&who.cred, &who.label, who.cwd, path) {
        Ok(node) => node,
        Err(rule) => return Decision::denied(rule),
    };
    if let Some(rule) = kind_rule(tree.kind(node)) {
        return Decision::denied(rule);
    }
    if let Err(rule) = may_take(tree, &who.cred, &who.label, node) {
        return Decision::denied(rule);
    }
    if is_open(fds, node) {
        return Decision::denied(Rule::InUse);
    }
    tree.remove(node);
    Decision::nothing()
}
