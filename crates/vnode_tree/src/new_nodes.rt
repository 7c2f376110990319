//! New nodes: open(2), mkdir(2), umask(2).
ghost use Rattle.std.specs.Prelude.{◌≡◌, ◌≤◌, None, option_copied, IfOk, OnOk, OnErr};
ghost use Rattle.std.specs.Result.{result_err};
ghost use Rattle.tree_model.specs.NewNodes.{new_in_dir, new_list, new_default};
ghost use Rattle.tree_model.specs.Tree.{at_path, nodes_from, with_node_at};
ghost use Rattle.vnode_tree.specs.NewNodes.{make_rule_from, node_with_path, path_in_dir};
ghost use Rattle.vnode_tree.specs.Nodes.{IsLive, node_at, path_of, record_of, with_node};
ghost use Rattle.vnode_tree.specs.Standard.{Keeps};
ghost use Rattle.vnode_tree.specs.Walks.{IsFree};

use crate::entry::Name255;
use crate::tree::{Tree, TreeFull};
use access_rule::Attrs;
use acl_core::{Acl, Cred};
use label_core::Subject;
use sys_types::{Kind, Node, Rule};

/// The list of a new node: what the directory's default list hands down, or else the mode's without the bits of the
/// umask.
fn new_list(default: Option<&Acl>, umask: u16, mode: u16) -> Acl
    requires { mode ≤ 0o777 }
    ensures { result ≡ new_list (option_copied default.entry) umask mode }
{
    match default {
        Some(list) => list.inherit(mode),
        None => Acl::minimal(mode & !umask),
    }
}

/// The default list of a new node: a new directory takes that of its directory.
fn new_default(kind: Kind, default: Option<&Acl>) -> Option<Acl>
    ensures { result ≡ new_default kind (option_copied default.entry) }
{
    match kind {
        Kind::Dir => default.map(|list| list.copy()),
        _ => None,
    }
}

impl Tree {
    /// Whether a node may be made in a directory, with a credential and a label. The directory is live.
    ///
    /// Denied by the first rule that holds: `LabelWrite`, where the directory's element does not dominate the label's active
    /// one; `List`, where the directory's list refuses to write; `NodeRoom`, where the tree has 1,024 nodes.
    pub fn may_make(&self, cred: &Cred, label: &Subject, dir: Node) -> Result<(), Rule>
        requires { IsLive self.now dir }
        ensures denied { result_err result ≡ make_rule_from self.now cred.now label.now dir }
        ensures dir { record_of self.now dir ≡ at_path (nodes_from self.now) (path_of self.now dir) }
    {
        self.may_access(cred, label, dir, false, true, false)?;
        if self.is_full() {
            return Err(Rule::NodeRoom);
        }
        Ok(())
    }

    /// Makes a node of a kind with a mode of at most 777 in octal at a free name of a directory, as open(2) and mkdir(2) do. It
    /// has the credential's uid, the label's active element and the directory's group; its list is what the directory's
    /// default list hands down, or else the mode's without the bits of the umask; a new directory takes the default list too.
    /// Nodes that were live stay as they were.
    ///
    /// Denied by the first rule that holds: `LabelWrite`, where the directory's element does not dominate the label's active
    /// one; `List`, where the directory's list refuses to write; `NodeRoom`, where the tree has 1,024 nodes. Then nothing
    /// changes.
    pub fn make_node(
        &mut self,
        cred: &Cred,
        label: &Subject,
        umask: u16,
        dir: Node,
        name: &Name255,
        kind: Kind,
        mode: u16,
    ) -> Result<Node, Rule>
        requires free { IsFree self.old dir name.now }
        requires mode { mode ≤ 0o777 }
        ensures denied { result_err result ≡ make_rule_from self.old cred.now label.now dir }
        ensures nothing { OnErr result (self.new ≡ self.old) }
        ensures unused { IfOk result (λ node. node_at self.old node ≡ None) }
        ensures new_node { IfOk result (λ node. self.new ≡ with_node self.old node
            (node_with_path (path_in_dir self.old dir name.now) (new_in_dir cred.now label.now umask (record_of self.old dir) kind mode))) }
        ensures live { IfOk result (IsLive self.new) }
        ensures path { IfOk result (λ node. path_of self.new node ≡ path_in_dir self.old dir name.now) }
        ensures keeps { OnOk result (Keeps self.old self.new) }
        ensures map { OnOk result (nodes_from self.new ≡ with_node_at (nodes_from self.old) (path_in_dir self.old dir name.now)
            (new_in_dir cred.now label.now umask (record_of self.old dir) kind mode)) }
        ensures dir { record_of self.old dir ≡ at_path (nodes_from self.old) (path_of self.old dir) }
    {
        self.may_make(cred, label, dir)?;
        let default = self.default_list(dir);
        let attrs = Attrs {
            element: label.active().copy(),
            owner: cred.uid,
            group: self.attrs(dir).group,
            list: new_list(default, umask, mode),
            is_dir: matches!(kind, Kind::Dir),
        };
        let default = new_default(kind, default);
        match self.create(dir, name, kind, attrs, default) {
            Ok(node) => Ok(node),
            Err(TreeFull) => unreachable!(),
        }
    }
}
