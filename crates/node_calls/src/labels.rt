//! The calls on the label of a node: mac_set_file(3), mac_get_file(3).
ghost use Rattle.std.specs.Prelude.{◌≡◌, not};
ghost use Rattle.fd_table.specs.declared.open.Open.{Open};
ghost use Rattle.fd_table.specs.Shared.{Shared};
ghost use Rattle.system_model.specs.AttrCalls.{setlabel_row, label_text, getlabel_row};
ghost use Rattle.system_model.specs.Fit.{IsCaller, FitFiles, FitDirectories, FitTree};
ghost use Rattle.system_model.specs.Rows.{Does};
ghost use Rattle.system_model.specs.Tables.{Tables, view_of};
ghost use Rattle.vnode_tree.specs.Nodes.{IsLive, record_of};
ghost use Rattle.node_calls.specs.Relabels.{is_outside};

use arrayvec::ArrayVec;
use call_words::{Decision, Node, PathText, Rule, TextBuf};
use label_core::{Element, Subject, may_relabel, print_element};
use proc_table::ProcTable;
use system_model::caller;
use vnode_tree::Tree;

/// Whether a label lets a node be given an element. The node is live. (mac_mls(4))
fn relabels(tree: &Tree, label: &Subject, node: Node, element: &Element) -> bool
    requires { IsLive tree.now node }
    ensures { result ≡ not (is_outside label.now (record_of tree.now node) element.now) }
{
    may_relabel(label, &tree.attrs(node).element, element)
}

/// The node that a path leads to gets an element (mac_set_file(3)). Answers 0.
///
/// Denied by the first rule that holds: those of `find_node`; `Owner`, where the caller neither owns the node nor has the
/// uid 0; `Relabel`, where the node's element or the new one is outside the caller's range, or where the new one is `equal`
/// and the caller's label has no part that is. Then nothing changes.
pub fn do_setlabel(
    tree: &mut Tree,
    procs: &ProcTable,
    slot: u8,
    path: &PathText,
    element: &Element,
) -> Decision
    requires caller { IsCaller procs.now slot }
    requires directories { FitDirectories tree.old procs.now }
    ensures files { (d : Shared Open) → FitFiles tree.old d → FitFiles tree.new d }
    ensures directories { FitDirectories tree.new procs.now }
    ensures tree { FitTree tree.old → FitTree tree.new }
    ensures does { (t : Tables) → t.nodes ≡ tree.old → t.processes ≡ procs.now →
        Does (view_of t) (view_of (record t { nodes = tree.new })) result (setlabel_row (view_of t) slot path.now element.now) }
{
    let who = caller(procs, slot);
    let node = match tree.find_node(&who.cred, &who.label, who.cwd, path) {
        Ok(node) => node,
        Err(rule) => return Decision::denied(rule),
    };
    if !tree.is_owner(&who.cred, node) {
        return Decision::denied(Rule::Owner);
    }
    if !relabels(tree, &who.label, node, element) {
        return Decision::denied(Rule::Relabel);
    }
    tree.set_element(node, element);
    Decision::nothing()
}

/// The text of a node's label. The node is live.
#[tactic(auto, unfolding(system_model::specs::AttrCalls::label_text))]
fn label(tree: &Tree, node: Node) -> TextBuf
    requires { IsLive tree.now node }
    ensures { result ≡ label_text (record_of tree.now node) }
{
    let mut out = ArrayVec::new();
    print_element(&tree.attrs(node).element, &mut out);
    TextBuf::from_slice(out.as_slice()).unwrap()
}

/// The label of the node that a path leads to (mac_get_file(3)): answers a text, the name of the policy and the element, as
/// mac_mls(4) writes it.
///
/// Denied by the first rule that holds: those of `find_node`; `LabelRead`, where the caller's active element does not
/// dominate the node's.
pub fn do_getlabel(tree: &Tree, procs: &ProcTable, slot: u8, path: &PathText) -> Decision
    requires caller { IsCaller procs.now slot }
    requires directories { FitDirectories tree.now procs.now }
    ensures does { (t : Tables) → t.nodes ≡ tree.now → t.processes ≡ procs.now →
        Does (view_of t) (view_of t) result (getlabel_row (view_of t) slot path.now) }
{
    let who = caller(procs, slot);
    let node = match tree.find_node(&who.cred, &who.label, who.cwd, path) {
        Ok(node) => node,
        Err(rule) => return Decision::denied(rule),
    };
    if !tree.reads_by_label(&who.label, node) {
        return Decision::denied(Rule::LabelRead);
    }
    Decision::text(label(tree, node))
}
