//! The calls on the mode and the owner of a node: chmod(2), chown(2).
ghost use Rattle.std.specs.Prelude.{◌≡◌, ◌≤◌};
ghost use Rattle.access_rule.specs.Access.{is_superuser};
ghost use Rattle.fd_table.specs.declared.open.Open.{Open};
ghost use Rattle.fd_table.specs.Shared.{Shared};
ghost use Rattle.system_model.specs.AttrCalls.{chmod_row, chown_row};
ghost use Rattle.system_model.specs.Fit.{IsCaller, FitFiles, FitDirectories, FitTree};
ghost use Rattle.system_model.specs.Rows.{Does};
ghost use Rattle.system_model.specs.Tables.{Tables, view_of};

use acl_core::Cred;
use call_words::{Decision, PathText, Rule};
use proc_table::ProcTable;
use system_model::caller;
use vnode_tree::Tree;

/// chmod(2): the list of the node that a path leads to gets the bits of a mode of at most 777 in octal. Answers 0.
///
/// Denied by the first rule that holds: those of `find_node`; `LabelWrite`, where the node's element does not dominate the
/// caller's active one; `Owner`, where the caller neither owns the node nor has the uid 0. Then nothing changes.
pub fn do_chmod(
    tree: &mut Tree,
    procs: &ProcTable,
    slot: u8,
    path: &PathText,
    mode: u16,
) -> Decision
    requires caller { IsCaller procs.now slot }
    requires directories { FitDirectories tree.old procs.now }
    requires mode { mode ≤ 0o777 }
    ensures files { (d : Shared Open) → FitFiles tree.old d → FitFiles tree.new d }
    ensures directories { FitDirectories tree.new procs.now }
    ensures tree { FitTree tree.old → FitTree tree.new }
    ensures does { (t : Tables) → t.nodes ≡ tree.old → t.processes ≡ procs.now →
        Does (view_of t) (view_of (record t { nodes = tree.new })) result (chmod_row (view_of t) slot path.now mode) }
{
    let who = caller(procs, slot);
    let node = match tree.find_node(&who.cred, &who.label, who.cwd, path) {
        Ok(node) => node,
        Err(rule) => return Decision::denied(rule),
    };
    if !tree.writes_by_label(&who.label, node) {
        return Decision::denied(Rule::LabelWrite);
    }
    if !tree.is_owner(&who.cred, node) {
        return Decision::denied(Rule::Owner);
    }
    tree.set_mode(node, mode);
    Decision::nothing()
}

/// Whether a credential is the superuser's, whose uid is 0.
fn is_superuser(cred: &Cred) -> bool
    ensures { result ≡ is_superuser cred.now }
{
    cred.uid == 0
}

/// chown(2): gives the node that a path leads to to a user and a group. Answers 0.
///
/// Denied by the first rule that holds: those of `find_node`; `LabelWrite`, where the node's element does not dominate the
/// caller's active one; `Super`, where the caller's uid is not 0. Then nothing changes.
pub fn do_chown(
    tree: &mut Tree,
    procs: &ProcTable,
    slot: u8,
    path: &PathText,
    uid: u32,
    gid: u32,
) -> Decision
    requires caller { IsCaller procs.now slot }
    requires directories { FitDirectories tree.old procs.now }
    ensures files { (d : Shared Open) → FitFiles tree.old d → FitFiles tree.new d }
    ensures directories { FitDirectories tree.new procs.now }
    ensures tree { FitTree tree.old → FitTree tree.new }
    ensures does { (t : Tables) → t.nodes ≡ tree.old → t.processes ≡ procs.now →
        Does (view_of t) (view_of (record t { nodes = tree.new })) result (chown_row (view_of t) slot path.now uid gid) }
{
    let who = caller(procs, slot);
    let node = match tree.find_node(&who.cred, &who.label, who.cwd, path) {
        Ok(node) => node,
        Err(rule) => return Decision::denied(rule),
    };
    if !tree.writes_by_label(&who.label, node) {
        return Decision::denied(Rule::LabelWrite);
    }
    if !is_superuser(&who.cred) {
        return Decision::denied(Rule::Super);
    }
    tree.set_owner(node, uid, gid);
    Decision::nothing()
}
