//! Changes of what access to a node depends on: chmod(2), chown(2), acl_set_file(3), mac_set_file(3).
ghost use Rattle.std.specs.Prelude.{◌≡◌, ◌≤◌, List, option_map};
ghost use Rattle.acl_core.specs.Acl.{acl_of};
ghost use Rattle.acl_core.specs.declared.entry.Entry.{Entry};
ghost use Rattle.tree_model.specs.Attributes.{with_bits, with_element, with_entries, with_owner};
ghost use Rattle.tree_model.specs.Tree.{at_path, nodes_from, with_node_at};
ghost use Rattle.vnode_tree.specs.Nodes.{IsLive, path_of, record_of, with_record};

use crate::tree::Tree;
use access_rule::Attrs;
use acl_core::{Acl, AclFault};
use call_words::WhichList;
use label_core::Element;
use sys_types::Node;

impl Tree {
    /// Gives the list of a node the bits of a mode of at most 777 in octal. The node is live. (chmod(2))
    pub fn set_mode(&mut self, node: Node, mode: u16)
        requires live { IsLive self.old node }
        requires mode { mode ≤ 0o777 }
        ensures set { self.new ≡ with_record (with_bits mode) self.old node }
        ensures map { nodes_from self.new ≡ with_node_at (nodes_from self.old) (path_of self.old node) (option_map (with_bits mode) (record_of self.old node)) }
        ensures node { record_of self.old node ≡ at_path (nodes_from self.old) (path_of self.old node) }
    {
        let attrs = self.attrs(node);
        let changed = Attrs {
            list: attrs.list.with_mode(mode),
            ..attrs.copy()
        };
        self.set_attrs(node, changed);
    }

    /// Gives a node to a user and a group. The node is live. (chown(2))
    pub fn set_owner(&mut self, node: Node, uid: u32, gid: u32)
        requires { IsLive self.old node }
        ensures set { self.new ≡ with_record (with_owner uid gid) self.old node }
        ensures map { nodes_from self.new ≡ with_node_at (nodes_from self.old) (path_of self.old node)
            (option_map (with_owner uid gid) (record_of self.old node)) }
        ensures node { record_of self.old node ≡ at_path (nodes_from self.old) (path_of self.old node) }
    {
        let changed = Attrs {
            owner: uid,
            group: gid,
            ..self.attrs(node).copy()
        };
        self.set_attrs(node, changed);
    }

    /// Gives a node another element. The node is live. (mac_set_file(3))
    pub fn set_element(&mut self, node: Node, element: &Element)
        requires { IsLive self.old node }
        ensures set { self.new ≡ with_record (with_element element.now) self.old node }
        ensures map { nodes_from self.new ≡ with_node_at (nodes_from self.old) (path_of self.old node)
            (option_map (with_element element.now) (record_of self.old node)) }
        ensures node { record_of self.old node ≡ at_path (nodes_from self.old) (path_of self.old node) }
    {
        let changed = Attrs {
            element: element.copy(),
            ..self.attrs(node).copy()
        };
        self.set_attrs(node, changed);
    }

    /// Gives a node the list that entries make, as its own or for new nodes in it. Where they make none, its own stays, and
    /// that for new nodes goes. The node is live. (acl_set_file(3))
    pub fn set_list(&mut self, node: Node, which: WhichList, list: Result<Acl, AclFault>)
        requires { IsLive self.old node }
        ensures set { (entries : List Entry) → list ≡ acl_of entries → self.new ≡ with_record (with_entries which entries) self.old node }
        ensures map { (entries : List Entry) → list ≡ acl_of entries → nodes_from self.new
            ≡ with_node_at (nodes_from self.old) (path_of self.old node) (option_map (with_entries which entries) (record_of self.old node)) }
        ensures node { record_of self.old node ≡ at_path (nodes_from self.old) (path_of self.old node) }
    {
        let attrs = self.attrs(node);
        match which {
            WhichList::Access => {
                let changed = Attrs {
                    list: list.unwrap_or(attrs.list.copy()),
                    ..attrs.copy()
                };
                self.set_attrs(node, changed);
            }
            WhichList::Default => self.set_default(node, list.ok()),
        }
    }
}
