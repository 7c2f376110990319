//! What is to be opened, and the first check of open(2) that holds.
ghost use Rattle.std.specs.Prelude.{◌≡◌, ℕ, List, [], ◌∷◌, not, ◌&&◌, Option, Some, None, length, IfOk, OnOk, MatchResult};
ghost use Rattle.std.specs.Result.{result_err};
ghost use Rattle.sys_types.specs.declared.limits.TheConstants.{LINES};
ghost use Rattle.sys_types.specs.declared.rules.Rule.TheVariants.{NoEntry};
ghost use Rattle.fd_table.specs.Calls.{room_rule};
ghost use Rattle.proc_table.specs.Processes.{Process, running_at};
ghost use Rattle.tree_model.specs.Tree.{found};
ghost use Rattle.tree_model.specs.Numbers.{IsLive, path_of};
ghost use Rattle.tty_dev.specs.Table.{counts_of, boots_of};
ghost use Rattle.vnode_tree.specs.NewNodes.{make_rule_from};
ghost use Rattle.vnode_tree.specs.Resolve.{IsLivePlace, place_end};
ghost use Rattle.system_model.specs.Fit.{IsCaller, FitDirectories, FitTree, FitLines, FitBlocks};
ghost use Rattle.system_model.specs.Looks.{caller_of, make_check};
ghost use Rattle.system_model.specs.OpenCalls.{flags_clash, open_row};
ghost use Rattle.system_model.specs.Rows.{deny, deny_by, first};
ghost use Rattle.system_model.specs.Tables.{Tables, view_of};
ghost use Rattle.system_model.specs.Verdicts.{check_of};
ghost use Rattle.open_calls.specs.Openings.{IsFirst, checks_at, IsReady, OpensAt, Opens};

use crate::lines::{may_open_line, own_line};
use block_pool::Pool;
use call_words::{Access, Kind, Node, OpenFlags, PathText, Rule};
use fd_table::FdTable;
use proc_table::ProcTable;
use system_model::{Verdict, caller};
use tty_dev::Line;
use vnode_tree::{Name255, Place, Tree};

/// What is opened.
#[derive(Drop)]
pub enum Opening {
    /// A regular file, by its node.
    File(Node),
    /// A terminal line, by its number.
    Line(u8),
    /// A regular file that is made, at a free name of a directory.
    New { dir: Node, name: Name255 },
}

/// Whether the flags of an open do not go together: to truncate or to append without write access, or to want an absent
/// file without creating it.
fn flags_clash(access: Access, flags: OpenFlags) -> bool
    ensures { result ≡ flags_clash access flags }
{
    if (flags.truncate || flags.append) && !access.writes() {
        return true;
    }
    flags.exclusive && !flags.create
}

/// Whether the flags of an open want an absent file.
fn wants_absent(flags: OpenFlags) -> bool
    ensures { result ≡ (flags.create && flags.exclusive) }
{
    flags.create && flags.exclusive
}

/// What is opened of a node that is there.
///
/// Denied by the first rule that holds: `Exists`, where the open wants an absent one; `IsDir`, where it is a directory; `LabelRead`, for a
/// read where the caller's active element does not dominate the node's; `LabelWrite`, for a write where the node's does not dominate the
/// caller's; `List`, where the node's list refuses; those of `may_open_line` for a line, and those of `own_line` for `/dev/tty`, which may
/// let it sleep too.
fn opening_of(
    tree: &Tree,
    procs: &ProcTable,
    pool: &Pool,
    lines: &[Line],
    slot: u8,
    node: Node,
    access: Access,
    flags: OpenFlags,
) -> Result<Opening, Verdict>
    requires caller { IsCaller procs.now slot }
    requires node { IsLive tree.now node }
    requires tree { FitTree tree.now }
    requires count { length lines.now ≡ LINES }
    ensures ready { IfOk result (λ opening. (who : Process ℕ) → IsReady tree.now who pool.now lines.now opening) }
    ensures checks { (t : Tables) (mode : ℕ) → t.nodes ≡ tree.now → t.processes ≡ procs.now → t.pool ≡ pool.now → t.lines ≡ lines.now →
        FitLines t.descriptors (counts_of lines.now) (boots_of lines.now) → FitBlocks pool.now t.pipes lines.now →
        MatchResult result (OpensAt t slot access flags mode (found (path_of tree.now node)))
        (IsFirst (view_of t) slot (checks_at (view_of t) slot access flags (found (path_of tree.now node)))) }
{
    if wants_absent(flags) {
        return Err(Verdict::Refused(Rule::Exists));
    }
    if tree.is_dir(node) {
        return Err(Verdict::Refused(Rule::IsDir));
    }
    let who = caller(procs, slot);
    if let Err(rule) = tree.may_access(
        &who.cred,
        &who.label,
        node,
        access.reads(),
        access.writes(),
        false,
    ) {
        return Err(Verdict::Refused(rule));
    }
    match tree.kind(node) {
        Kind::File => Ok(Opening::File(node)),
        Kind::Dir => unreachable!(),
        Kind::Line(line) => match may_open_line(procs, pool, lines, slot, flags, line) {
            Ok(()) => Ok(Opening::Line(line)),
            Err(verdict) => Err(verdict),
        },
        Kind::Tty => match own_line(tree, procs, pool, lines, slot, access, flags) {
            Ok(line) => Ok(Opening::Line(line)),
            Err(verdict) => Err(verdict),
        },
    }
}

/// Whether a process of a slot may create a file in a directory, by an open with these flags. The directory is live.
///
/// Denied by the first rule that holds: `NoEntry`, where the open does not create it; `LabelWrite`, where the directory's element does not
/// dominate the caller's active one; `List`, where the directory's list refuses to write; `NodeRoom`, where the tree has 1,024 nodes.
fn may_create(
    tree: &Tree,
    procs: &ProcTable,
    slot: u8,
    dir: Node,
    flags: OpenFlags,
) -> Result<(), Rule>
    requires caller { IsCaller procs.now slot }
    requires dir { IsLive tree.now dir }
    ensures make { OnOk result ((who : Process ℕ) → running_at procs.now slot ≡ Some who → make_rule_from tree.now who.cred who.label dir ≡ None) }
    ensures denied { (t : Tables) → t.nodes ≡ tree.now → t.processes ≡ procs.now →
        first (deny (not flags.create) NoEntry ∷ make_check (view_of t) slot (path_of tree.now dir) ∷ []) ≡ deny_by (result_err result) }
{
    if !flags.create {
        return Err(Rule::NoEntry);
    }
    let who = caller(procs, slot);
    tree.may_make(&who.cred, &who.label, dir)
}

/// What is opened of what a path leads to.
///
/// Denied as `opening_of` is for a node that is there, and as `may_create` is for an absent one.
fn opening_at(
    tree: &Tree,
    procs: &ProcTable,
    pool: &Pool,
    lines: &[Line],
    slot: u8,
    place: Place,
    access: Access,
    flags: OpenFlags,
) -> Result<Opening, Verdict>
    requires caller { IsCaller procs.now slot }
    requires place { IsLivePlace tree.now place }
    requires tree { FitTree tree.now }
    requires count { length lines.now ≡ LINES }
    ensures ready { IfOk result (λ opening. (who : Process ℕ) → running_at procs.now slot ≡ Some who → IsReady tree.now who pool.now lines.now opening) }
    ensures checks { (t : Tables) (mode : ℕ) → t.nodes ≡ tree.now → t.processes ≡ procs.now → t.pool ≡ pool.now → t.lines ≡ lines.now →
        FitLines t.descriptors (counts_of lines.now) (boots_of lines.now) → FitBlocks pool.now t.pipes lines.now →
        MatchResult result (OpensAt t slot access flags mode (place_end tree.now place))
        (IsFirst (view_of t) slot (checks_at (view_of t) slot access flags (place_end tree.now place))) }
{
    match place {
        Place::Found(node) => { opening_of(tree, procs, pool, lines, slot, node, access, flags) }
        Place::Absent { dir, name } => match may_create(tree, procs, slot, dir, flags) {
            Ok(()) => Ok(Opening::New { dir, name }),
            Err(rule) => Err(Verdict::Refused(rule)),
        },
    }
}

/// What open(2) of a path opens, for the process of a slot.
///
/// Denied by the first rule that holds: `Flags`, where the open truncates or appends without write access, or wants an absent file without
/// creating it; those of `Tree::find`; those of `opening_of` for a node that is there, and those of `may_create` for an absent one; `FdRoom`,
/// where all 32 numbers of the process are open; `OpenRoom`, where 256 files are open. An open of a line sleeps before `Pool`, `FdRoom` and
/// `OpenRoom` where it waits for the line's carrier, or is interrupted by `Signal`.
pub fn find_opening(
    tree: &Tree,
    fds: &FdTable,
    procs: &ProcTable,
    pool: &Pool,
    lines: &[Line],
    slot: u8,
    path: &PathText,
    access: Access,
    flags: OpenFlags,
) -> Result<Opening, Verdict>
    requires caller { IsCaller procs.now slot }
    requires directories { FitDirectories tree.now procs.now }
    requires tree { FitTree tree.now }
    requires lines { FitLines fds.now (counts_of lines.now) (boots_of lines.now) }
    ensures ready { IfOk result (λ opening. (who : Process ℕ) → running_at procs.now slot ≡ Some who → IsReady tree.now who pool.now lines.now opening) }
    ensures room { OnOk result (room_rule fds.now slot 1 ≡ None) }
    ensures checks { (t : Tables) (mode : ℕ) → t.nodes ≡ tree.now → t.descriptors ≡ fds.now → t.processes ≡ procs.now → t.pool ≡ pool.now →
        t.lines ≡ lines.now → FitBlocks pool.now t.pipes lines.now →
        MatchResult result (Opens t slot path.now access flags mode) (IsFirst (view_of t) slot (open_row (view_of t) slot path.now access flags mode).checks) }
{
    if flags_clash(access, flags) {
        return Err(Verdict::Refused(Rule::Flags));
    }
    let who = caller(procs, slot);
    let place = match tree.find(&who.cred, &who.label, who.cwd, path) {
        Ok(place) => place,
        Err(rule) => return Err(Verdict::Refused(rule)),
    };
    let opening = match opening_at(tree, procs, pool, lines, slot, place, access, flags) {
        Ok(opening) => opening,
        Err(verdict) => return Err(verdict),
    };
    match fds.room_rule(slot, 1) {
        None => Ok(opening),
        Some(rule) => Err(Verdict::Refused(rule)),
    }
}

/// The verdict of an open(2) of a path, which goes on where `find_opening` finds what is opened.
pub fn open_verdict(
    tree: &Tree,
    fds: &FdTable,
    procs: &ProcTable,
    pool: &Pool,
    lines: &[Line],
    slot: u8,
    path: &PathText,
    access: Access,
    flags: OpenFlags,
) -> Verdict
    requires caller { IsCaller procs.now slot }
    requires directories { FitDirectories tree.now procs.now }
    requires tree { FitTree tree.now }
    requires lines { FitLines fds.now (counts_of lines.now) (boots_of lines.now) }
    ensures { (t : Tables) (mode : ℕ) → t.nodes ≡ tree.now → t.descriptors ≡ fds.now → t.processes ≡ procs.now → t.pool ≡ pool.now →
        t.lines ≡ lines.now → FitBlocks pool.now t.pipes lines.now →
        check_of (caller_of (view_of t) slot) result ≡ first (open_row (view_of t) slot path.now access flags mode).checks }
{
    match find_opening(tree, fds, procs, pool, lines, slot, path, access, flags) {
        Ok(_) => Verdict::Go,
        Err(verdict) => verdict,
    }
}
