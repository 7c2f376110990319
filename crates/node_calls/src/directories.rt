//! The calls on directories: chdir(2), mkdir(2), readdir(3).
ghost use Rattle.std.specs.Prelude.{◌≡◌, ◌≤◌, List, Option, IsTrue};
ghost use Rattle.fd_table.specs.declared.open.Open.{Open};
ghost use Rattle.fd_table.specs.Shared.{Shared};
ghost use Rattle.tree_model.specs.Listing.{names_under, names_text};
ghost use Rattle.tree_model.specs.Tree.{NodeAt, is_dir_record, nodes_from};
ghost use Rattle.system_model.specs.DirCalls.{chdir_row, list_row, mkdir_row};
ghost use Rattle.system_model.specs.Fit.{IsCaller, FitFiles, FitDirectories, FitSlots, FitTree};
ghost use Rattle.system_model.specs.Rows.{Does};
ghost use Rattle.system_model.specs.Tables.{Tables, view_of};
ghost use Rattle.vnode_tree.specs.Nodes.{path_of, record_of};

use arrayvec::ArrayVec;
use call_words::{Decision, Kind, Node, PathText, Rule, TextBuf};
use proc_table::ProcTable;
use system_model::caller;
use vnode_tree::{Place, Tree};

/// chdir(2): the working directory is the one that a path leads to. Answers 0.
///
/// Denied by the first rule that holds: those of `find_node`; `NotDir`, where the node is no directory; `LabelRead`, where
/// the caller's active element does not dominate the directory's; `Search`, where the list refuses to search it. Then nothing
/// changes.
pub fn do_chdir(tree: &Tree, procs: &mut ProcTable, slot: u8, path: &PathText) -> Decision
    requires caller { IsCaller procs.old slot }
    requires directories { FitDirectories tree.now procs.old }
    ensures directories { FitDirectories tree.now procs.new }
    ensures slots { (d : Shared Open) → FitSlots d procs.old → FitSlots d procs.new }
    ensures does { (t : Tables) → t.nodes ≡ tree.now → t.processes ≡ procs.old →
        Does (view_of t) (view_of (record t { processes = procs.new })) result (chdir_row (view_of t) slot path.now) }
{
    let who = caller(procs, slot);
    let node = match tree.find_node(&who.cred, &who.label, who.cwd, path) {
        Ok(node) => node,
        Err(rule) => return Decision::denied(rule),
    };
    if !tree.is_dir(node) {
        return Decision::denied(Rule::NotDir);
    }
    if let Err(rule) = tree.may_access(&who.cred, &who.label, node, false, false, true) {
        return Decision::denied(rule);
    }
    procs.set_directory(slot, node);
    Decision::nothing()
}

/// The names of a directory from a number on, as a text.
fn names(tree: &Tree, dir: Node, from: u16) -> TextBuf
    requires { IsTrue (is_dir_record (record_of tree.now dir)) }
    ensures { result ≡ names_text (names_under (nodes_from tree.now) (path_of tree.now dir)) from }
{
    let mut names = ArrayVec::new();
    tree.names(dir, from, &mut names);
    TextBuf::from_slice(names.as_slice()).unwrap()
}

/// The names of a directory (readdir(3)): answers a text of those from number `from` on, of which 0 is the first, in byte
/// order, with a `/` between, as many whole names as fit 4,096 bytes.
///
/// Denied by the first rule that holds: those of `find_node`; `NotDir`, where the node is no directory; `LabelRead`, where
/// the caller's active element does not dominate the directory's; `List`, where the list refuses to read it.
pub fn do_list(tree: &Tree, procs: &ProcTable, slot: u8, path: &PathText, from: u16) -> Decision
    requires caller { IsCaller procs.now slot }
    requires directories { FitDirectories tree.now procs.now }
    ensures does { (t : Tables) → t.nodes ≡ tree.now → t.processes ≡ procs.now →
        Does (view_of t) (view_of t) result (list_row (view_of t) slot path.now from) }
{
    let who = caller(procs, slot);
    let node = match tree.find_node(&who.cred, &who.label, who.cwd, path) {
        Ok(node) => node,
        Err(rule) => return Decision::denied(rule),
    };
    if !tree.is_dir(node) {
        return Decision::denied(Rule::NotDir);
    }
    if let Err(rule) = tree.may_access(&who.cred, &who.label, node, true, false, false) {
        return Decision::denied(rule);
    }
    Decision::text(names(tree, node, from))
}

/// mkdir(2): makes a directory with a mode of at most 777 in octal, as `Tree::make_node` does. Answers 0.
///
/// Denied by the first rule that holds: those of `find`; `Exists`, where there is a node; `LabelWrite`, where the
/// directory's element does not dominate the caller's active one; `List`, where the directory's list refuses to write it;
/// `NodeRoom`, where the tree has 1,024 nodes. Then nothing changes.
pub fn do_mkdir(
    tree: &mut Tree,
    procs: &ProcTable,
    slot: u8,
    path: &PathText,
    mode: u16,
) -> Decision
    requires caller { IsCaller procs.now slot }
    requires directories { FitDirectories tree.old procs.now }
    requires mode { mode ≤ 0o777 }
    ensures files { (d : Shared Open) → FitFiles tree.old d → FitFiles tree.new d }
    ensures directories { FitDirectories tree.new procs.now }
    ensures tree { FitTree tree.old → FitTree tree.new }
    ensures does { (t : Tables) → t.nodes ≡ tree.old → t.processes ≡ procs.now → FitFiles tree.old t.descriptors →
        Does (view_of t) (view_of (record t { nodes = tree.new })) result (mkdir_row (view_of t) slot path.now mode) }
{
    let who = caller(procs, slot);
    let place = match tree.find(&who.cred, &who.label, who.cwd, path) {
        Ok(place) => place,
        Err(rule) => return Decision::denied(rule),
    };
    let Place::Absent { dir, name } = place else {
        return Decision::denied(Rule::Exists);
    };
    match tree.make_node(
        &who.cred,
        &who.label,
        who.umask,
        dir,
        &name,
        Kind::Dir,
        mode,
    ) {
        Ok(_) => Decision::nothing(),
        Err(rule) => Decision::denied(rule),
    }
}
