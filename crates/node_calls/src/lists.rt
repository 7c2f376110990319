//! The calls on the lists of a node: acl_set_file(3), acl_get_file(3).
ghost use Rattle.std.specs.Prelude.{◌≡◌, ◌&&◌, not};
ghost use Rattle.tree_model.specs.Tree.{is_dir_record};
ghost use Rattle.acl_core.specs.Acl.{acl_of};
ghost use Rattle.fd_table.specs.declared.open.Open.{Open};
ghost use Rattle.fd_table.specs.Shared.{Shared};
ghost use Rattle.system_model.specs.AttrCalls.{is_default, is_bad_list, acl_text, setacl_row, getacl_row};
ghost use Rattle.system_model.specs.Fit.{IsCaller, FitFiles, FitDirectories, FitTree};
ghost use Rattle.system_model.specs.Rows.{Does};
ghost use Rattle.system_model.specs.Tables.{Tables, view_of};
ghost use Rattle.vnode_tree.specs.Nodes.{IsLive, record_of};

use acl_core::{Acl, AclFault, Entry, print_list};
use arrayvec::ArrayVec;
use call_words::{Decision, Entries, Node, PathText, Rule, TextBuf, WhichList};
use proc_table::ProcTable;
use system_model::caller;
use vnode_tree::Tree;

/// Whether a node cannot have a list of this use: only a directory has a default list. The node is live.
fn lacks_list(tree: &Tree, node: Node, which: WhichList) -> bool
    requires { IsLive tree.now node }
    ensures { result ≡ (is_default which && not (is_dir_record (record_of tree.now node))) }
{
    match which {
        WhichList::Access => false,
        WhichList::Default => !tree.is_dir(node),
    }
}

/// Whether entries, which make this list or have this fault, may not be given: those that make no list, but for no entries
/// at all, by which a default list is taken away.
fn is_bad(which: WhichList, entries: &[Entry], made: &Result<Acl, AclFault>) -> bool
    requires { made.now ≡ acl_of entries.now }
    ensures { result ≡ is_bad_list which entries.now }
{
    let takes_away = match which {
        WhichList::Access => false,
        WhichList::Default => entries.is_empty(),
    };
    !takes_away && made.is_err()
}

/// The node that a path leads to gets the list that entries make, as its own or as the default list, which new nodes in it
/// get; without entries its default list goes (acl_set_file(3)). Answers 0.
///
/// Denied by the first rule that holds: those of `find_node`; `LabelWrite`, where the node's element does not dominate the
/// caller's active one; `Owner`, where the caller neither owns the node nor has the uid 0; `NotDir`, for a default list of
/// what is no directory; `AclBad`, where the entries make no list, unless there are none for a default list. Then nothing
/// changes.
pub fn do_setacl(
    tree: &mut Tree,
    procs: &ProcTable,
    slot: u8,
    path: &PathText,
    which: WhichList,
    entries: &Entries,
) -> Decision
    requires caller { IsCaller procs.now slot }
    requires directories { FitDirectories tree.old procs.now }
    ensures files { (d : Shared Open) → FitFiles tree.old d → FitFiles tree.new d }
    ensures directories { FitDirectories tree.new procs.now }
    ensures tree { FitTree tree.old → FitTree tree.new }
    ensures does { (t : Tables) → t.nodes ≡ tree.old → t.processes ≡ procs.now →
        Does (view_of t) (view_of (record t { nodes = tree.new })) result (setacl_row (view_of t) slot path.now which entries.now) }
{
    let who = caller(procs, slot);
    let node = match tree.find_node(&who.cred, &who.label, who.cwd, path) {
        Ok(node) => node,
        Err(rule) => return Decision::denied(rule),
    };
    if !tree.writes_by_label(&who.label, node) {
        return Decision::denied(Rule::LabelWrite);
    }
    if !tree.is_owner(&who.cred, node) {
        return Decision::denied(Rule::Owner);
    }
    if lacks_list(tree, node, which) {
        return Decision::denied(Rule::NotDir);
    }
    let made = Acl::new(entries.as_slice());
    if is_bad(which, entries.as_slice(), &made) {
        return Decision::denied(Rule::AclBad);
    }
    tree.set_list(node, which, made);
    Decision::nothing()
}

/// The text of a list of a node. The node is live.
#[tactic(auto, unfolding(system_model::specs::AttrCalls::acl_text))]
fn list(tree: &Tree, node: Node, which: WhichList) -> TextBuf
    requires { IsLive tree.now node }
    ensures { result ≡ acl_text which (record_of tree.now node) }
{
    let mut out = ArrayVec::new();
    match which {
        WhichList::Access => print_list(&tree.attrs(node).list, &mut out),
        WhichList::Default => {
            if let Some(list) = tree.default_list(node) {
                print_list(list, &mut out);
            }
        }
    }
    TextBuf::from_slice(out.as_slice()).unwrap()
}

/// A list of the node that a path leads to (acl_get_file(3)): answers a text of its entries, joined by commas, as
/// acl_to_text(3) gives; that of a default list that is absent is empty.
///
/// Denied by the first rule that holds: those of `find_node`; `LabelRead`, where the caller's active element does not
/// dominate the node's; `NotDir`, for a default list of what is no directory.
pub fn do_getacl(
    tree: &Tree,
    procs: &ProcTable,
    slot: u8,
    path: &PathText,
    which: WhichList,
) -> Decision
    requires caller { IsCaller procs.now slot }
    requires directories { FitDirectories tree.now procs.now }
    ensures does { (t : Tables) → t.nodes ≡ tree.now → t.processes ≡ procs.now →
        Does (view_of t) (view_of t) result (getacl_row (view_of t) slot path.now which) }
{
    let who = caller(procs, slot);
    let node = match tree.find_node(&who.cred, &who.label, who.cwd, path) {
        Ok(node) => node,
        Err(rule) => return Decision::denied(rule),
    };
    if !tree.reads_by_label(&who.label, node) {
        return Decision::denied(Rule::LabelRead);
    }
    if lacks_list(tree, node, which) {
        return Decision::denied(Rule::NotDir);
    }
    Decision::text(list(tree, node, which))
}
