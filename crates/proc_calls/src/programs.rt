//! The programs that files of the tree hold.
ghost use Rattle.std.specs.Prelude.{◌≡◌, ℕ, List, [], Some, None, MatchResult};
ghost use Rattle.std.specs.List.{find};
ghost use Rattle.std.specs.Str.{bytes_eq};
ghost use Rattle.sys_types.specs.Images.{images};
ghost use Rattle.proc_calls.specs.Programs.{IsProgram};
ghost use Rattle.proc_table.specs.Processes.{running_at};
ghost use Rattle.proc_table.specs.Procs.{process_of};
ghost use Rattle.system_model.specs.ProcCalls.{image_in, image_of, exec_row};
ghost use Rattle.system_model.specs.Rows.{refused, first};
ghost use Rattle.system_model.specs.Tables.{Tables, view_of};
ghost use Rattle.tree_model.specs.Standard.{image_text};
ghost use Rattle.tree_model.specs.Numbers.{IsFile, IsLive, record_of};

use arrayvec::ArrayVec;
use call_words::{Node, PathText, Rule, push_bytes};
use proc_table::Proc;
use sys_types::Image;
use vnode_tree::Tree;

/// How many bytes the text of a program has at most.
const MOST_BYTES: usize = 14;

/// Whether bytes are the text of a program: the word `image`, its name and a newline.
fn is_text_of(image: Image, bytes: &[u8]) -> bool
    ensures { result ≡ bytes_eq (image_text image) bytes.now }
{
    let mut text = ArrayVec::<u8, MOST_BYTES>::new();
    push_bytes(&mut text, b"image ");
    push_bytes(&mut text, image.name().as_bytes());
    push_bytes(&mut text, b"\n");
    text.as_slice() == bytes
}

/// The first of some programs of which bytes are the text.
fn first_of(programs: &[Image], bytes: &[u8]) -> Option<Image>
    ensures { result ≡ image_in programs.now bytes.now }
{
    for image in programs {
        if is_text_of(*image, bytes) {
            return Some(*image);
        }
    }
    None
}

/// The program of which a regular file holds the text, if it holds one of a program.
fn image_of(tree: &Tree, node: Node) -> Option<Image>
    requires { IsFile tree.now node }
    ensures { result ≡ image_of (record_of tree.now node) }
{
    first_of(&Image::all(), tree.read(node, 0, 512).as_slice())
}

/// The program in the file that a path leads to, which a process may execute. The process's working directory is live.
///
/// Denied by the first rule that holds: those of `find_node`; `NotFile`, where the node is no regular file; `LabelRead`, where the
/// process's active element does not dominate the node's; `List`, where the node's list refuses to execute it; `Image`, where it holds
/// the text of no program.
pub(crate) fn find_program(tree: &Tree, who: &Proc, path: &PathText) -> Result<Image, Rule>
    requires { IsLive tree.now who.now.cwd }
    ensures { MatchResult result
        (λ image. (t : Tables) (slot : ℕ) (args : List ℕ) → t.nodes ≡ tree.now → running_at t.processes slot ≡ Some (process_of who.now) →
        IsProgram (view_of t) slot path.now args image)
        (λ rule. (t : Tables) (slot : ℕ) (args : List ℕ) → t.nodes ≡ tree.now → running_at t.processes slot ≡ Some (process_of who.now) →
        first (exec_row (view_of t) slot path.now args).checks ≡ Some (refused rule, [])) }
{
    let node = match tree.find_node(&who.cred, &who.label, who.cwd, path) {
        Ok(node) => node,
        Err(rule) => return Err(rule),
    };
    if !tree.is_file(node) {
        return Err(Rule::NotFile);
    }
    if let Err(rule) = tree.may_access(&who.cred, &who.label, node, false, false, true) {
        return Err(rule);
    }
    match image_of(tree, node) {
        None => Err(Rule::Image),
        Some(image) => Ok(image),
    }
}
