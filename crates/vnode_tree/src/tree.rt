//! The tree: its nodes, made, changed and taken away.
ghost use Rattle.std.specs.Prelude.{◌≡◌, ◌≢◌, ◌↔◌, ℕ, ◌<◌, ◌≤◌, ◌==◌, List, [], ◌∷◌, ◌++◌, Some, None, Ok, Err, option_map, option_copied, MatchOption, length};
ghost use Rattle.std.specs.Prelude.{not, IsTrue, IsErr, IfOk, OnOk, OnErr, ◌+◌};
ghost use Rattle.std.specs.Prelude.{nat_lt, codes, IsSome, false};
ghost use Rattle.std.specs.Bool.{OnTrue, OnFalse};
ghost use Rattle.tree_model.specs.Tree.{NodeRecord, is_dir, is_dir_record, parent_of, at_path, with_node_at, nodes_from, bytes_in};
ghost use Rattle.tree_model.specs.Listing.{is_empty_dir};
ghost use Rattle.tree_model.specs.Standard.{line_name};
ghost use Rattle.vnode_tree.specs.Contents.{bytes_at, with_write, space_of};
ghost use Rattle.vnode_tree.specs.Standard.{Keeps};
ghost use Rattle.sys_types.specs.declared.limits.TheConstants.{NODES, FILE_SPACE, LINES};
ghost use Rattle.vnode_tree.specs.declared.tree.WriteFault.TheVariants.{Space};
ghost use Rattle.vnode_tree.specs.Nodes.{IsLive, IsFile, is_file_record, IsAt, IsLeaf, IsRemovable, HasChild, node_at, path_of, record_of, tree_of, with_node};
ghost use Rattle.vnode_tree.specs.Nodes.{with_record, with_attrs, with_default, with_contents, new_node, is_name, count_of, ChangesAt};

use crate::FILE_SPACE;
use crate::contents::Contents;
use crate::entry::{Entry, Name255};
use crate::places::Places;
use crate::standard::line_name;
use access_rule::Attrs;
use acl_core::Acl;
use std::alloc::AllocError;
use std::marker::Model;
use sys_types::{Kind, Node, Piece};

/// The tree has 1,024 nodes.
#[derive(Clone, Copy)]
pub struct TreeFull;

/// Why a write to a file is refused.
#[derive(Clone, Copy)]
pub enum WriteFault {
    /// The contents of all files would pass 4,194,304 bytes.
    Space,
    /// There is no memory.
    NoMemory,
}

/// The file tree. Contracts see of it, for each node, its path and what it is.
#[derive(Drop)]
pub struct Tree {
    pub(crate) entries: Places,
}

impl Model for Tree {
    ghost use Rattle.std.specs.Prelude.{List, Option};
    ghost use Rattle.vnode_tree.specs.Nodes.{NodeAt};

    ghost Value = { List (Option NodeAt) };

    ghost use Rattle.vnode_tree.specs.Links.{nodes_of};
    ghost use Rattle.vnode_tree.specs.Kept.{IsKept};

    ghost view = { λ t. nodes_of t.entries };

    ghost invariant = { λ t. IsKept t.entries };
}

impl Tree {
    /// The root, which is a directory.
    pub fn root(&self) -> Node
        ensures live { IsLive self.now result }
        ensures path { path_of self.now result ≡ [] }
        ensures directory { IsTrue (is_dir_record (record_of self.now result)) }
    {
        let _ = &self.entries;
        Node::ROOT
    }

    /// Whether a node is the root. The node is live.
    pub fn is_root(&self, node: Node) -> bool
        requires { IsLive self.now node }
        ensures root { OnTrue result (path_of self.now node ≡ []) }
        ensures below { OnFalse result (path_of self.now node ≢ []) }
    {
        let _ = &self.entries;
        if node.number() == 0 {
            return true;
        }
        false
    }

    /// Whether a node is a regular file. The node is live.
    #[tactic(auto, using(crate::proofs::Looks::live_entry, crate::proofs::Looks::record_is, crate::proofs::Finite::what_is_at))]
    pub fn is_file(&self, node: Node) -> bool
        requires { IsLive self.now node }
        ensures file { result ≡ is_file_record (record_of self.now node) }
        ensures map { record_of self.now node ≡ at_path (nodes_from self.now) (path_of self.now node) }
    {
        matches!(self.entries.entry_of(node).kind, Kind::File)
    }

    /// Whether a node is a directory. The node is live.
    #[tactic(auto, using(crate::proofs::Looks::live_entry, crate::proofs::Looks::record_is, crate::proofs::Children::what_is_there, crate::proofs::Finite::what_is_at))]
    pub fn is_dir(&self, node: Node) -> bool
        requires { IsLive self.now node }
        ensures there { result ≡ is_dir_record (tree_of self.now (path_of self.now node)) }
        ensures itself { result ≡ is_dir_record (record_of self.now node) }
        ensures map { record_of self.now node ≡ at_path (nodes_from self.now) (path_of self.now node) }
    {
        matches!(self.entries.entry_of(node).kind, Kind::Dir)
    }

    /// The directory that a node is in; the root is in itself. The node is live.
    pub fn parent(&self, node: Node) -> Node
        requires { IsLive self.now node }
        ensures { IsAt self.now (parent_of (path_of self.now node)) result }
    {
        let dir = self.entries.entry_of(node).dir;
        if node.number() == 0 {
            return node;
        }
        Node::of(dir)
    }

    /// The node of a name in a directory, if it has one. The directory is live, and the name is not empty.
    pub(crate) fn child(&self, dir: Node, name: &[u8]) -> Option<Node>
        requires live { IsLive self.now dir }
        requires some { 0 < length name.now }
        ensures { MatchOption result (tree_of self.now (path_of self.now dir ++ name.now ∷ []) ≡ None)
            (λ node. IsAt self.now (path_of self.now dir ++ name.now ∷ []) node) }
    {
        match self.entries.child_place(dir.number(), name) {
            None => None,
            Some(place) => Some(Node::of(place as u16)),
        }
    }

    /// The node of a terminal line, `/dev/ttyN`. It is there.
    pub fn line_node(&self, line: u8) -> Node
        requires line { line < LINES }
        requires there { IsSome (at_path (nodes_from self.now) (codes "dev" ∷ line_name line ∷ [])) }
        ensures live { IsLive self.now result }
        ensures path { path_of self.now result ≡ codes "dev" ∷ line_name line ∷ [] }
    {
        let _ = &self.entries;
        let Some(dir) = self.child(self.root(), b"dev") else {
            unreachable!()
        };
        let Some(node) = self.child(dir, &line_name(line)) else {
            unreachable!()
        };
        node
    }

    /// The node of a name in `/dev`, if there is one. The name is not empty. (hier(7))
    pub fn device(&self, name: &[u8]) -> Option<Node>
        requires { 0 < length name.now }
        ensures { MatchOption result (at_path (nodes_from self.now) (codes "dev" ∷ name.now ∷ []) ≡ None) (IsAt self.now (codes "dev" ∷ name.now ∷ [])) }
    {
        let _ = &self.entries;
        let Some(dir) = self.child(self.root(), b"dev") else {
            return None;
        };
        self.child(dir, name)
    }

    /// Whether there are 1,024 nodes, and no room for one more.
    pub fn is_full(&self) -> bool
        ensures { result ≡ (length (nodes_from self.now) == NODES) }
    {
        match self.entries.free_place() {
            Some(_) => false,
            None => true,
        }
    }

    /// Whether a node has children. The node is live.
    pub fn has_children(&self, node: Node) -> bool
        requires { IsLive self.now node }
        ensures some { OnTrue result (HasChild self.now (path_of self.now node)) }
        ensures none { OnFalse result (IsLeaf self.now (path_of self.now node)) }
        ensures map { result ≡ not (is_empty_dir (nodes_from self.now) (path_of self.now node)) }
    {
        match self.entries.first_child(node.number()) {
            Some(_) => true,
            None => false,
        }
    }

    /// What a node is. The node is live.
    #[tactic(auto, using(crate::proofs::Looks::live_entry, crate::proofs::Looks::record_is, crate::proofs::Children::what_is_there, crate::proofs::Finite::what_is_at))]
    pub fn kind(&self, node: Node) -> Kind
        requires { IsLive self.now node }
        ensures kind { option_map (λ r. r.kind) (record_of self.now node) ≡ Some result }
        ensures there { record_of self.now node ≡ tree_of self.now (path_of self.now node) }
        ensures map { record_of self.now node ≡ at_path (nodes_from self.now) (path_of self.now node) }
    {
        self.entries.entry_of(node).kind
    }

    /// What access to a node depends on. The node is live.
    #[tactic(auto, using(crate::proofs::Looks::live_entry, crate::proofs::Looks::record_is, crate::proofs::Children::what_is_there, crate::proofs::Finite::what_is_at))]
    pub fn attrs(&self, node: Node) -> &Attrs
        requires { IsLive self.now node }
        ensures attrs { option_map (λ r. r.attrs) (record_of self.now node) ≡ Some result.now }
        ensures dirs { result.now.is_dir ≡ is_dir_record (record_of self.now node) }
        ensures there { record_of self.now node ≡ tree_of self.now (path_of self.now node) }
        ensures map { record_of self.now node ≡ at_path (nodes_from self.now) (path_of self.now node) }
    {
        &self.entries.entry_of(node).attrs
    }

    /// The list that a node gives to new nodes in it, if it has one. The node is live.
    #[tactic(auto, using(crate::proofs::Looks::live_entry, crate::proofs::Looks::record_is, crate::proofs::Finite::what_is_at))]
    pub fn default_list(&self, node: Node) -> Option<&Acl>
        requires { IsLive self.now node }
        ensures list { option_map (λ r. r.default) (record_of self.now node) ≡ Some (option_copied result) }
        ensures map { record_of self.now node ≡ at_path (nodes_from self.now) (path_of self.now node) }
    {
        self.entries.entry_of(node).default.as_ref()
    }

    /// How many bytes a node holds. The node is live. (stat(2))
    #[tactic(auto, using(crate::proofs::Looks::live_entry, crate::proofs::Looks::record_is, crate::proofs::Finite::what_is_at))]
    pub fn size(&self, node: Node) -> u32
        requires { IsLive self.now node }
        ensures size { option_map (λ r. length r.contents) (record_of self.now node) ≡ Some result }
        ensures map { record_of self.now node ≡ at_path (nodes_from self.now) (path_of self.now node) }
    {
        self.entries.entry_of(node).contents.len() as u32
    }

    /// Makes a node of that name in a directory. `TreeFull` comes exactly where there are 1,024 nodes, and then
    /// nothing changes.
    ///
    /// The directory is live and has no node of that name; the name is not empty, `.` or `..`, and has no slash; and
    /// the attributes are a directory's exactly for a directory.
    pub fn create(
        &mut self,
        dir: Node,
        name: &Name255,
        kind: Kind,
        attrs: Attrs,
        default: Option<Acl>,
    ) -> Result<Node, TreeFull>
        requires dir { IsTrue (is_dir_record (record_of self.old dir)) }
        requires absent { tree_of self.old (path_of self.old dir ++ name.now ∷ []) ≡ None }
        requires name { IsTrue (is_name name.now) }
        requires kind { attrs.is_dir ≡ is_dir kind }
        ensures full { IsErr result ↔ (count_of self.old ≡ NODES) }
        ensures full_map { IsErr result ↔ (length (nodes_from self.old) ≡ NODES) }
        ensures free { IfOk result (λ node. node_at self.old node ≡ None) }
        ensures new_node { IfOk result (λ node. self.new ≡ with_node self.old node
            (Some (record { path = path_of self.old dir ++ name.now ∷ []; node = new_node kind attrs default [] }))) }
        ensures live { IfOk result (λ node. IsLive self.new node) }
        ensures changes { OnOk result (ChangesAt (path_of self.old dir ++ name.now ∷ []) (Some (new_node kind attrs default [])) self.old self.new) }
        ensures map { OnOk result (nodes_from self.new ≡ with_node_at (nodes_from self.old) (path_of self.old dir ++ name.now ∷ [])
            (Some (new_node kind attrs default []))) }
        ensures keeps { OnOk result (Keeps self.old self.new) }
        ensures err { OnErr result (self.new ≡ self.old) }
    {
        let contents = self.entries.no_contents();
        self.make(dir, name, kind, attrs, default, contents)
    }

    /// The same for a node that holds something, which there is room for.
    pub(crate) fn make(
        &mut self,
        dir: Node,
        name: &Name255,
        kind: Kind,
        attrs: Attrs,
        default: Option<Acl>,
        contents: Contents,
    ) -> Result<Node, TreeFull>
        requires dir { IsTrue (is_dir_record (record_of self.old dir)) }
        requires absent { tree_of self.old (path_of self.old dir ++ name.now ∷ []) ≡ None }
        requires name { IsTrue (is_name name.now) }
        requires kind { attrs.is_dir ≡ is_dir kind }
        requires room { space_of self.old + length contents ≤ FILE_SPACE }
        ensures full { IsErr result ↔ (count_of self.old ≡ NODES) }
        ensures full_map { IsErr result ↔ (length (nodes_from self.old) ≡ NODES) }
        ensures free { IfOk result (λ node. node_at self.old node ≡ None) }
        ensures new_node { IfOk result (λ node. self.new ≡ with_node self.old node
            (Some (record { path = path_of self.old dir ++ name.now ∷ []; node = new_node kind attrs default contents }))) }
        ensures live { IfOk result (λ node. IsLive self.new node) }
        ensures changes { OnOk result (ChangesAt (path_of self.old dir ++ name.now ∷ []) (Some (new_node kind attrs default contents)) self.old self.new) }
        ensures map { OnOk result (nodes_from self.new ≡ with_node_at (nodes_from self.old) (path_of self.old dir ++ name.now ∷ [])
            (Some (new_node kind attrs default contents))) }
        ensures count { OnOk result (count_of self.new ≡ count_of self.old + 1) }
        ensures space { OnOk result (space_of self.new ≡ space_of self.old + length contents) }
        ensures keeps { OnOk result (Keeps self.old self.new) }
        ensures err { OnErr result (self.new ≡ self.old) }
    {
        let Some(place) = self.entries.free_place() else {
            return Err(TreeFull);
        };
        let entry = Entry {
            dir: dir.number(),
            name: name.copy(),
            kind,
            attrs,
            default,
            contents,
        };
        self.entries.put(place, entry);
        Ok(Node::of(place as u16))
    }

    /// Takes a node away. It is live; if it is a directory, it has no children and is not the root.
    pub fn remove(&mut self, node: Node)
        requires live { IsLive self.old node }
        requires removable { IsTrue (is_dir_record (record_of self.old node)) → IsRemovable self.old node }
        ensures without_node { self.new ≡ with_node self.old node None }
        ensures changes { ChangesAt (path_of self.old node) None self.old self.new }
        ensures map { nodes_from self.new ≡ with_node_at (nodes_from self.old) (path_of self.old node) None }
    {
        self.entries.take_away(node);
    }

    /// Changes what access to a node depends on. The node is live, and the attributes are a directory's exactly for a
    /// directory.
    pub fn set_attrs(&mut self, node: Node, attrs: Attrs)
        requires live { IsLive self.old node }
        requires kind { attrs.is_dir ≡ is_dir_record (record_of self.old node) }
        ensures set { self.new ≡ with_record (with_attrs attrs) self.old node }
        ensures changes { ChangesAt (path_of self.old node) (option_map (with_attrs attrs) (record_of self.old node)) self.old self.new }
        ensures map { nodes_from self.new ≡ with_node_at (nodes_from self.old) (path_of self.old node)
            (option_map (with_attrs attrs) (record_of self.old node)) }
    {
        self.entries.set_attrs(node, attrs);
    }

    /// Changes the list that a node gives to new nodes in it, or takes it away. The node is live.
    pub fn set_default(&mut self, node: Node, list: Option<Acl>)
        requires live { IsLive self.old node }
        ensures set { self.new ≡ with_record (with_default list) self.old node }
        ensures changes { ChangesAt (path_of self.old node) (option_map (with_default list) (record_of self.old node)) self.old self.new }
        ensures map { nodes_from self.new ≡ with_node_at (nodes_from self.old) (path_of self.old node)
            (option_map (with_default list) (record_of self.old node)) }
    {
        self.entries.set_default(node, list);
    }

    /// At most `max` bytes of a file from a place on. The node is a live file, and `max` is at most 512.
    #[tactic(auto, using(crate::proofs::Looks::live_entry, crate::proofs::Looks::record_is, crate::proofs::Finite::what_is_at))]
    pub fn read(&self, node: Node, at: u32, max: u16) -> Piece
        requires file { IsFile self.now node }
        requires max { max ≤ 512 }
        ensures bytes { option_map (λ r. bytes_at at max r.contents) (record_of self.now node) ≡ Some result }
        ensures map { record_of self.now node ≡ at_path (nodes_from self.now) (path_of self.now node) }
    {
        let entry = self.entries.entry_of(node);
        entry.contents.read(at as usize, usize::from(max))
    }

    /// Whether the contents of all files would pass 4,194,304 bytes after a write of bytes at a place of a file, as `write` does it. The
    /// node is a live file.
    pub fn lacks_space(&self, node: Node, at: u32, bytes: &[u8]) -> bool
        requires { IsFile self.now node }
        ensures table { result ≡ nat_lt FILE_SPACE (space_of (with_record (with_write at bytes.now) self.now node)) }
        ensures map { result ≡ nat_lt FILE_SPACE
            (bytes_in (with_node_at (nodes_from self.now) (path_of self.now node) (option_map (with_write at bytes.now) (record_of self.now node)))) }
        ensures behind { result ≡ false → 0 < length bytes.now → at + length bytes.now ≤ FILE_SPACE }
        ensures node { record_of self.now node ≡ at_path (nodes_from self.now) (path_of self.now node) }
    {
        let contents = &self.entries.entry_of(node).contents;
        let others = self.entries.total() - contents.len();
        contents.len_after(at, bytes) > FILE_SPACE - others
    }

    /// Writes bytes at a place of a file. Bytes that are missing before it become 0, and a write of no bytes changes
    /// nothing. The node is a live file.
    ///
    /// `Space` comes exactly where the contents of all files would pass 4,194,304 bytes, so some bytes that are written end within as many
    /// of their file. With `Err` nothing changes.
    pub fn write(&mut self, node: Node, at: u32, bytes: &[u8]) -> Result<(), WriteFault>
        requires { IsFile self.old node }
        ensures space { (result ≡ Err Space) ↔ (FILE_SPACE < space_of (with_record (with_write at bytes.now) self.old node)) }
        ensures space_map { (result ≡ Err Space) ↔ (FILE_SPACE < bytes_in
            (with_node_at (nodes_from self.old) (path_of self.old node) (option_map (with_write at bytes.now) (record_of self.old node)))) }
        ensures after_write { OnOk result (self.new ≡ with_record (with_write at bytes.now) self.old node) }
        ensures behind { OnOk result (0 < length bytes.now → at + length bytes.now ≤ FILE_SPACE) }
        ensures node { record_of self.old node ≡ at_path (nodes_from self.old) (path_of self.old node) }
        ensures changes { OnOk result (ChangesAt (path_of self.old node) (option_map (with_write at bytes.now) (record_of self.old node)) self.old self.new) }
        ensures map { OnOk result (nodes_from self.new ≡ with_node_at (nodes_from self.old) (path_of self.old node)
            (option_map (with_write at bytes.now) (record_of self.old node))) }
        ensures err { OnErr result (self.new ≡ self.old) }
    {
        if self.lacks_space(node, at, bytes) {
            return Err(WriteFault::Space);
        }
        match self.entries.write(node, at, bytes) {
            Ok(()) => return Ok(()),
            Err(AllocError) => return Err(WriteFault::NoMemory),
        }
    }

    /// Lets go what a file holds. The node is a live file.
    pub fn truncate(&mut self, node: Node)
        requires { IsFile self.old node }
        ensures cut { self.new ≡ with_record (with_contents []) self.old node }
        ensures changes { ChangesAt (path_of self.old node) (option_map (with_contents []) (record_of self.old node)) self.old self.new }
        ensures node { record_of self.old node ≡ at_path (nodes_from self.old) (path_of self.old node) }
        ensures map { nodes_from self.new ≡ with_node_at (nodes_from self.old) (path_of self.old node)
            (option_map (with_contents []) (record_of self.old node)) }
    {
        self.entries.clear(node);
    }
}
