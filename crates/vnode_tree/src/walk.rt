//! The walk of a path.
ghost use Rattle.std.specs.Prelude.{◌≡◌, ◌≤◌, ◌+◌, ℕ, List, map, ◌++◌, length, All, Option};
ghost use Rattle.tree_model.specs.Tree.{PathWalk, walk, walk_from, is_parent, absent_end, begin_at};
ghost use Rattle.vnode_tree.specs.Nodes.{NodeAt, IsLive, path_of, tree_of};
ghost use Rattle.vnode_tree.specs.Walks.{paths_of_walk, paths_of_end, IsLiveEnd, IsFree, Passes};

use crate::entry::Name255;
use crate::steps::Steps;
use crate::tree::Tree;
use arrayvec::ArrayVec;
use sys_types::{NAME_BYTES, Node, PATH_BYTES, PathText};

/// How many parts a path of 1,023 bytes has at most.
pub const MOST_PARTS: usize = 512;

/// Where a walk ends.
#[derive(Drop)]
pub enum End {
    /// At a node.
    Found(Node),
    /// At a directory that does not have the name of the last part.
    Absent { dir: Node, name: Name255 },
    /// At a part that is absent and is not the last, or the path is empty.
    Missing,
    /// At a part below a node that is no directory.
    NotDir,
    /// At a part of over 255 bytes.
    NameLong,
    /// The path has over 1,023 bytes.
    PathLong,
}

/// A walk: the directories in which a part was looked for, in order, and its end.
#[derive(Drop)]
pub struct Walk {
    pub passed: ArrayVec<Node, MOST_PARTS>,
    pub end: End,
}

/// Whether a part leads to the parent.
fn is_parent(part: &[u8]) -> bool
    ensures { result ≡ is_parent part.now }
{
    part == b"..".as_slice()
}

/// The end of a walk at a name that a directory does not have: only the last part may be absent.
fn absent_end(dir: Node, part: &[u8], steps: &mut Steps) -> End
    requires { length part.now ≤ NAME_BYTES }
    ensures end { (nodes : List (Option NodeAt)) → paths_of_end nodes result ≡ absent_end (path_of nodes dir) part.now steps.old }
    ensures live { (nodes : List (Option NodeAt)) → IsFree nodes dir part.now → IsLiveEnd nodes result }
{
    if steps.next().is_some() {
        return End::Missing;
    }
    match Name255::from_slice(part) {
        Some(name) => End::Absent { dir, name },
        None => End::NameLong,
    }
}

impl Tree {
    /// Walks the parts from a node, and notes the directories that it passes.
    fn walk_from(
        &self,
        from: Node,
        steps: &mut Steps,
        passed: &mut ArrayVec<Node, MOST_PARTS>,
    ) -> End
        requires live { IsLive self.now from }
        requires room { length passed.old.items + length steps.old ≤ MOST_PARTS }
        requires so_far { All (IsLive self.now) passed.old.items }
        ensures passes { Passes (walk_from (tree_of self.now) (path_of self.now from) steps.old) (map (path_of self.now) passed.old.items)
            (map (path_of self.now) passed.new.items) (paths_of_end self.now result) }
        ensures lives { All (IsLive self.now) passed.new.items }
        ensures live_end { IsLiveEnd self.now result }
    {
        let mut here = from;
        while let Some(part) = steps.next() {
            if part.len() > NAME_BYTES {
                return End::NameLong;
            }
            if !self.is_dir(here) {
                return End::NotDir;
            }
            passed.push(here);
            if is_parent(part) {
                here = self.parent(here);
                continue;
            }
            match self.child(here, part) {
                Some(node) => here = node,
                None => return absent_end(here, part, steps),
            }
        }
        End::Found(here)
    }

    /// Walks a path from a directory, or from the root where its first byte is a slash.
    ///
    /// It ends at a node, at a directory without the name of the last part, or at the first part that fails: a path of
    /// over 1,023 bytes or an empty one, a part of over 255 bytes, a part below a node that is no directory, or a part
    /// that is absent and not the last. It notes the directories in which a part was looked for, so that a caller can
    /// check each of them in order. The node is live.
    pub fn walk(&self, cwd: Node, path: &PathText) -> Walk
        requires { IsLive self.now cwd }
        ensures by_walk { paths_of_walk self.now result ≡ walk (tree_of self.now) (path_of self.now cwd) path.now }
        ensures lives { All (IsLive self.now) result.passed.items }
        ensures live_end { IsLiveEnd self.now result.end }
    {
        let mut passed = ArrayVec::new();
        let bytes = path.as_slice();
        if bytes.len() > PATH_BYTES {
            return Walk {
                passed,
                end: End::PathLong,
            };
        }
        if bytes.is_empty() {
            return Walk {
                passed,
                end: End::Missing,
            };
        }
        let from = self.begin_at(cwd, bytes);
        let end = self.walk_from(from, &mut Steps::new(bytes), &mut passed);
        Walk { passed, end }
    }

    /// The node at which a path begins.
    fn begin_at(&self, cwd: Node, path: &[u8]) -> Node
        requires { IsLive self.now cwd }
        ensures live { IsLive self.now result }
        ensures begins { path_of self.now result ≡ begin_at (path_of self.now cwd) path.now }
    {
        match path.first() {
            Some(b'/') => self.root(),
            _ => cwd,
        }
    }
}
