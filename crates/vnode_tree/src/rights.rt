//! What a credential and a label allow at a node: access(2), mac_mls(4), chmod(2).
ghost use Rattle.std.specs.Prelude.{◌≡◌, not};
ghost use Rattle.std.specs.Result.{result_err};
ghost use Rattle.tree_model.specs.Paths.{access_rule};
ghost use Rattle.tree_model.specs.Rights.{dominates_node, node_dominates, is_not_owner};
ghost use Rattle.tree_model.specs.Tree.{at_path, nodes_from};
ghost use Rattle.vnode_tree.specs.Nodes.{IsLive, path_of, record_of};

use crate::tree::Tree;
use access_rule::may;
use acl_core::Cred;
use label_core::{Subject, dominates};
use sys_types::{Node, Rule};

impl Tree {
    /// Whether a node may be read, written or executed with a credential and a label; to execute a directory is to search it.
    /// The node is live.
    ///
    /// Denied by the first rule that holds: `LabelRead`, for a read or an execute, where the label's active element does not
    /// dominate the node's; `LabelWrite`, for a write, where the node's does not dominate the label's; and where the list
    /// refuses, `Search` for a directory that is to be searched and `List` for all else.
    pub fn may_access(
        &self,
        cred: &Cred,
        label: &Subject,
        node: Node,
        read: bool,
        write: bool,
        exec: bool,
    ) -> Result<(), Rule>
        requires { IsLive self.now node }
        ensures denied { result_err result ≡ access_rule cred.now label.now (record_of self.now node) read write exec }
        ensures map { record_of self.now node ≡ at_path (nodes_from self.now) (path_of self.now node) }
    {
        may(cred, label, self.attrs(node), read, write, exec)
    }

    /// Whether a label lets a node be read: its active element dominates the node's. The node is live. (mac_mls(4))
    pub fn reads_by_label(&self, label: &Subject, node: Node) -> bool
        requires { IsLive self.now node }
        ensures reads { result ≡ dominates_node label.now (record_of self.now node) }
        ensures map { record_of self.now node ≡ at_path (nodes_from self.now) (path_of self.now node) }
    {
        dominates(label.active(), &self.attrs(node).element)
    }

    /// Whether a label lets a node be written: the node's element dominates its active one. The node is live. (mac_mls(4))
    pub fn writes_by_label(&self, label: &Subject, node: Node) -> bool
        requires { IsLive self.now node }
        ensures writes { result ≡ node_dominates label.now (record_of self.now node) }
        ensures map { record_of self.now node ≡ at_path (nodes_from self.now) (path_of self.now node) }
    {
        dominates(&self.attrs(node).element, label.active())
    }

    /// Whether a credential is that of a node's owner or of the superuser, whose uid is 0. The node is live. (chmod(2))
    pub fn is_owner(&self, cred: &Cred, node: Node) -> bool
        requires { IsLive self.now node }
        ensures owner { result ≡ not (is_not_owner cred.now (record_of self.now node)) }
        ensures map { record_of self.now node ≡ at_path (nodes_from self.now) (path_of self.now node) }
    {
        cred.uid == self.attrs(node).owner || cred.uid == 0
    }
}
