//! Pathname resolution: path_resolution of POSIX.1, 4.13, namei(9).
ghost use Rattle.std.specs.Prelude.{◌≡◌, List, Option, Some, All, IfOk, MatchResult, map};
ghost use Rattle.std.specs.Result.{result_err};
ghost use Rattle.tree_model.specs.Paths.{path_rule, node_rule};
ghost use Rattle.tree_model.specs.Tree.{at_path, nodes_from};
ghost use Rattle.vnode_tree.specs.Nodes.{NodeAt, IsLive, path_of};
ghost use Rattle.vnode_tree.specs.Resolve.{LeadsTo, LeadsToNode, place_end, IsLivePlace, end_rule, search_rules};
ghost use Rattle.vnode_tree.specs.Walks.{paths_of_end, IsLiveEnd};

use crate::entry::Name255;
use crate::tree::Tree;
use crate::walk::End;
use acl_core::Cred;
use label_core::Subject;
use sys_types::{Node, PathText, Rule};

/// What a path leads to.
#[derive(Drop)]
pub enum Place {
    /// A node.
    Found(Node),
    /// A directory that does not have the name of the last part, so that a node of it may be made there.
    Absent { dir: Node, name: Name255 },
}

/// The place at the end of a walk, or the rule by which the end denies.
fn place_of(end: End) -> Result<Place, Rule>
    ensures place { (nodes : List (Option NodeAt)) → IfOk result (λ place. paths_of_end nodes end ≡ place_end nodes place) }
    ensures denied { (nodes : List (Option NodeAt)) → result_err result ≡ end_rule (paths_of_end nodes end) }
    ensures live { (nodes : List (Option NodeAt)) → IsLiveEnd nodes end → IfOk result (IsLivePlace nodes) }
{
    match end {
        End::Found(node) => Ok(Place::Found(node)),
        End::Absent { dir, name } => Ok(Place::Absent { dir, name }),
        End::Missing => Err(Rule::NoEntry),
        End::NotDir => Err(Rule::NotDir),
        End::NameLong => Err(Rule::NameLong),
        End::PathLong => Err(Rule::PathLong),
    }
}

impl Tree {
    /// Whether each of some directories may be searched. They are live.
    fn may_search(&self, cred: &Cred, label: &Subject, dirs: &[Node]) -> Result<(), Rule>
        requires { All (IsLive self.now) dirs.now }
        ensures { result_err result ≡ search_rules (at_path (nodes_from self.now)) cred.now label.now (map (path_of self.now) dirs.now) }
    {
        for dir in dirs {
            self.may_access(cred, label, *dir, false, false, true)?;
        }
        Ok(())
    }

    /// What a path leads to from a working directory, or from the root where its first byte is a slash, with a credential and
    /// a label. The working directory is live.
    ///
    /// Denied by the first rule that holds: `PathLong`, where the path has over 1,023 bytes; `NoEntry`, where it is empty; and
    /// for each part in order `NameLong`, where it has over 255 bytes, `NotDir`, where the node so far is no directory,
    /// `LabelRead` and `Search` on that directory, and `NoEntry`, where the part is absent and is not the last.
    pub fn find(
        &self,
        cred: &Cred,
        label: &Subject,
        cwd: Node,
        path: &PathText,
    ) -> Result<Place, Rule>
        requires { IsLive self.now cwd }
        ensures { MatchResult result (LeadsTo self.now cred.now label.now cwd path.now)
            (λ denied. path_rule (at_path (nodes_from self.now)) cred.now label.now (path_of self.now cwd) path.now ≡ Some denied) }
    {
        let walk = self.walk(cwd, path);
        self.may_search(cred, label, walk.passed.as_slice())?;
        place_of(walk.end)
    }

    /// The node that a path leads to. The working directory is live.
    ///
    /// Denied by the rules of `find`, and then by `NoEntry`, where the last part is absent.
    pub fn find_node(
        &self,
        cred: &Cred,
        label: &Subject,
        cwd: Node,
        path: &PathText,
    ) -> Result<Node, Rule>
        requires { IsLive self.now cwd }
        ensures { MatchResult result (LeadsToNode self.now cred.now label.now cwd path.now)
            (λ denied. node_rule (at_path (nodes_from self.now)) cred.now label.now (path_of self.now cwd) path.now ≡ Some denied) }
    {
        match self.find(cred, label, cwd, path)? {
            Place::Found(node) => Ok(node),
            Place::Absent { .. } => Err(Rule::NoEntry),
        }
    }
}
