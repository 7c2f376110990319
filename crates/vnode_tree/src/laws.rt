//! Laws of the tree, which the check proves. Each is the contract of a function that does nothing.
ghost use Rattle.std.specs.Prelude.{◌≡◌, ◌≤◌, ℕ, List, Option, length, drop, if◌then◌else◌};
ghost use Rattle.sys_types.specs.declared.limits.TheConstants.{PATH_BYTES};
ghost use Rattle.tree_model.specs.Tree.{NodeRecord, Nodes, at_path, found, walk, with_node_at};
ghost use Rattle.vnode_tree.specs.declared.walk.TheConstants.{MOST_PARTS};
ghost use Rattle.vnode_tree.specs.Nodes.{IsLive, path_of, same_path, tree_of};
ghost use Rattle.vnode_tree.specs.Names.{names_in, names_text, AreBelow, Rise, IsMostOf};
ghost use Rattle.vnode_tree.specs.Walks.{path_text};

use crate::tree::Tree;
use sys_types::Node;

/// The walk of a node's own path, from whatever directory, ends at that node. A path has a text that may be walked where it
/// has at most 1,023 bytes.
pub fn a_path_leads_to_its_node(tree: &Tree, node: Node)
    requires { IsLive tree.now node }
    ensures { (here : List (List ℕ)) → length (path_text (path_of tree.now node)) ≤ PATH_BYTES
        → (walk (tree_of tree.now) here (path_text (path_of tree.now node))).end ≡ found (path_of tree.now node) }
{
    let _ = &tree.entries;
}

/// To put a node at a path, or to take away what is there, changes what is at that path and at no other.
pub fn a_node_is_put_at_one_path()
    ensures { (nodes : Nodes) (path other : List (List ℕ)) (now : Option NodeRecord)
        → at_path (with_node_at nodes path now) other ≡ (if same_path other path then now else at_path nodes other) }
{}

/// The names of a directory are exactly those of its children, and each comes before the next in byte order. No other
/// list is both.
pub fn names_are_the_children(tree: &Tree, dir: Node)
    ensures children { AreBelow tree.now (path_of tree.now dir) (names_in tree.now dir) }
    ensures order { Rise (names_in tree.now dir) }
    ensures only { (names : List (List ℕ)) → AreBelow tree.now (path_of tree.now dir) names → Rise names → names ≡ names_in tree.now dir }
{
    let _ = &tree.entries;
}

/// The text of names from a number on is the most of them, from there on, that fit it.
pub fn texts_hold_the_most_names()
    ensures { (names : List (List ℕ)) (from : ℕ) → IsMostOf (drop from names) (names_text names from) }
{}

/// A path of 1,023 bytes has at most 512 parts: each but the first has a slash before it.
pub fn limits()
    ensures parts { MOST_PARTS ≡ 512 }
{}
