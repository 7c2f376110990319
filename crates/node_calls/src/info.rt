//! What a node is, as a text: stat(2).
ghost use Rattle.std.specs.Prelude.{◌≡◌, ◌+◌, ◌≤◌, Some, option_map, ◌++◌, length, codes};
ghost use Rattle.std.specs.Fmt.{decimal};
ghost use Rattle.arrayvec.specs.ArrayVec.{array_vec_len};
ghost use Rattle.system_model.specs.AttrCalls.{kind_word, three_digits, size_of, info_text, info_row};
ghost use Rattle.system_model.specs.Fit.{IsCaller, FitDirectories};
ghost use Rattle.system_model.specs.Rows.{Does};
ghost use Rattle.system_model.specs.Tables.{Tables, view_of};
ghost use Rattle.vnode_tree.specs.Nodes.{IsLive, record_of};

use arrayvec::ArrayVec;
use call_words::{Decision, Kind, Node, PathText, Rule, TextBuf, push_bytes, push_number};
use proc_table::ProcTable;
use system_model::caller;
use vnode_tree::Tree;

/// How many bytes what is told has at most: a word of 4, three numbers of 10, a mode of 3, and 4 colons.
const INFO_BYTES: usize = 41;

/// What is told of a node.
type Info = ArrayVec<u8, INFO_BYTES>;

/// Adds a colon and a number in decimal, of at most ten digits.
fn push_part<const N: usize>(out: &mut ArrayVec<u8, N>, number: u32)
    requires { array_vec_len out.old + 11 ≤ N }
    ensures bytes { out.new.items ≡ out.old.items ++ codes ":" ++ decimal number }
    ensures len { array_vec_len out.new ≤ array_vec_len out.old + 11 }
{
    push_bytes(out, b":");
    push_number(out, number);
}

/// The word for what a node is.
fn kind_word(kind: Kind) -> &'static [u8]
    ensures word { result.now ≡ kind_word kind }
    ensures most { length result.now ≤ 4 }
{
    match kind {
        Kind::File => b"file",
        Kind::Dir => b"dir",
        Kind::Line(_) => b"line",
        Kind::Tty => b"tty",
    }
}

/// A mode as three octal digits.
fn three_digits(mode: u16) -> [u8; 3]
    requires { mode ≤ 0o777 }
    ensures { result ≡ three_digits mode }
{
    [
        b'0' + (mode / 64) as u8,
        b'0' + (mode / 8 % 8) as u8,
        b'0' + (mode % 8) as u8,
    ]
}

/// The size of a node in bytes, which only a file has.
fn size(tree: &Tree, node: Node) -> u32
    requires { IsLive tree.now node }
    ensures { option_map (λ r. size_of r) (record_of tree.now node) ≡ Some result }
{
    match tree.kind(node) {
        Kind::File => tree.size(node),
        _ => 0,
    }
}

/// What is told of a node: what it is, the uid of its owner, the gid of its group, its mode and its size.
#[tactic(auto, unfolding(system_model::specs::AttrCalls::info_text))]
fn info(tree: &Tree, node: Node) -> TextBuf
    requires { IsLive tree.now node }
    ensures { result ≡ info_text (record_of tree.now node) }
{
    let attrs = tree.attrs(node);
    let mut out: Info = ArrayVec::new();
    push_bytes(&mut out, kind_word(tree.kind(node)));
    push_part(&mut out, attrs.owner);
    push_part(&mut out, attrs.group);
    push_bytes(&mut out, b":");
    push_bytes(&mut out, &three_digits(attrs.list.mode_of()));
    push_part(&mut out, size(tree, node));
    TextBuf::from_slice(out.as_slice()).unwrap()
}

/// What a node is (stat(2)): answers a text `KIND:UID:GID:MODE:SIZE`. KIND is `file`, `dir`, `line` or `tty`; MODE is three
/// octal digits; SIZE is in bytes, and 0 but for a file.
///
/// Denied by the first rule that holds: those of `find_node`; `LabelRead`, where the caller's active element does not
/// dominate the node's.
pub fn do_info(tree: &Tree, procs: &ProcTable, slot: u8, path: &PathText) -> Decision
    requires caller { IsCaller procs.now slot }
    requires directories { FitDirectories tree.now procs.now }
    ensures does { (t : Tables) → t.nodes ≡ tree.now → t.processes ≡ procs.now →
        Does (view_of t) (view_of t) result (info_row (view_of t) slot path.now) }
{
    let who = caller(procs, slot);
    let node = match tree.find_node(&who.cred, &who.label, who.cwd, path) {
        Ok(node) => node,
        Err(rule) => return Decision::denied(rule),
    };
    if !tree.reads_by_label(&who.label, node) {
        return Decision::denied(Rule::LabelRead);
    }
    Decision::text(info(tree, node))
}
