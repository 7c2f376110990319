//! Which terminal line an open is of, and what its checks come to (termios(4), tty(4)).
ghost use Rattle.std.specs.Prelude.{◌≡◌, ◌<◌, Some, None, length, position, IfSome, IfOk, OnOk, MatchResult};
ghost use Rattle.std.specs.Bool.{OnFalse};
ghost use Rattle.sys_types.specs.declared.limits.TheConstants.{LINES};
ghost use Rattle.block_pool.specs.Pool.{PoolState};
ghost use Rattle.proc_table.specs.Groups.{is_number};
ghost use Rattle.tree_model.specs.Numbers.{IsLive, path_of};
ghost use Rattle.tty_dev.specs.Table.{counts_of, boots_of, devices};
ghost use Rattle.system_model.specs.Fit.{IsCaller, FitTree, FitLines, FitBlocks};
ghost use Rattle.system_model.specs.Looks.{has_session, tty_path};
ghost use Rattle.system_model.specs.OpenCalls.{waits_for_carrier, lacks_blocks, tty_checks, own_tty, own_tty_checks};
ghost use Rattle.system_model.specs.Rows.{first};
ghost use Rattle.system_model.specs.Tables.{Tables, view_of};
ghost use Rattle.open_calls.specs.Openings.{IsFirst, HasBlocks};

use block_pool::Pool;
use call_words::{Access, Node, OpenFlags, Reason, Rule};
use proc_table::ProcTable;
use sys_types::LINE_BLOCKS;
use system_model::{Verdict, caller, sleep_verdict};
use tty_dev::Line;
use tty_dev::table::{has_carrier, has_ended, is_live, is_zombie, termios_at};
use vnode_tree::Tree;

/// Whether a line is the controlling terminal of a session.
fn is_line_of(line: &Line, session: u32) -> bool
    ensures { result ≡ is_number session line.now.session }
{
    match line.session {
        None => false,
        Some(other) => other == session,
    }
}

/// The place of the first line that is the controlling terminal of a session.
fn place_of_session(lines: &[Line], session: u32) -> Option<usize>
    ensures { result ≡ position (λ line. is_number session line.session) lines.now }
{
    lines.iter().position(|line| is_line_of(line, session))
}

/// The line of a session, if it has one. There are 8 lines.
fn line_of_session(lines: &[Line], session: u32) -> Option<u8>
    requires { length lines.now ≡ LINES }
    ensures line { (pool : PoolState) → result ≡ position (has_session session) (devices pool lines.now) }
    ensures below { IfSome result (λ line. line < LINES) }
{
    match place_of_session(lines, session) {
        None => None,
        Some(place) => Some(place as u8),
    }
}

/// Whether an open of a line would wait for its carrier: not where the flags say so, where the settings do not look at it, or where it is there.
fn waits_for_carrier(lines: &[Line], flags: OpenFlags, line: u8) -> bool
    requires line { line < LINES }
    requires count { length lines.now ≡ LINES }
    ensures { (t : Tables) → t.lines ≡ lines.now → FitLines t.descriptors (counts_of lines.now) (boots_of lines.now) →
        waits_for_carrier (view_of t) flags line ≡ result }
{
    if flags.nonblock {
        return false;
    }
    if termios_at(lines, line).flags.clocal {
        return false;
    }
    !has_carrier(lines, line)
}

/// Whether a line has no blocks yet, and fewer than 40 are free for it.
fn lacks_blocks(pool: &Pool, lines: &[Line], line: u8) -> bool
    requires { line < length lines.now }
    ensures lacks { (t : Tables) → t.pool ≡ pool.now → t.lines ≡ lines.now → FitBlocks pool.now t.pipes lines.now → lacks_blocks (view_of t) line ≡ result }
    ensures enough { OnFalse result (HasBlocks pool.now lines.now line) }
{
    if is_live(lines, line) {
        return false;
    }
    pool.free() < LINE_BLOCKS
}

/// Whether a process of a slot may open a line.
///
/// Denied by the first rule that holds: `Ended`, where the line has ended for good; `Zombie`, where it lost its carrier since its first
/// open; `Pool`, where it has no live file and fewer than 40 blocks are free. Before `Pool` it sleeps where it waits for the line's carrier,
/// or is interrupted by `Signal`.
pub(crate) fn may_open_line(
    procs: &ProcTable,
    pool: &Pool,
    lines: &[Line],
    slot: u8,
    flags: OpenFlags,
    line: u8,
) -> Result<(), Verdict>
    requires caller { IsCaller procs.now slot }
    requires line { line < LINES }
    requires count { length lines.now ≡ LINES }
    ensures blocks { OnOk result (HasBlocks pool.now lines.now line) }
    ensures checks { (t : Tables) → t.processes ≡ procs.now → t.pool ≡ pool.now → t.lines ≡ lines.now →
        FitLines t.descriptors (counts_of lines.now) (boots_of lines.now) → FitBlocks pool.now t.pipes lines.now →
        MatchResult result (λ _. first (tty_checks (view_of t) slot flags line) ≡ None) (IsFirst (view_of t) slot (tty_checks (view_of t) slot flags line)) }
{
    if has_ended(lines, line) {
        return Err(Verdict::Refused(Rule::Ended));
    }
    if is_zombie(lines, line) {
        return Err(Verdict::Refused(Rule::Zombie));
    }
    if waits_for_carrier(lines, flags, line) {
        return Err(sleep_verdict(caller(procs, slot), Reason::Carrier));
    }
    if lacks_blocks(pool, lines, line) {
        return Err(Verdict::Refused(Rule::Pool));
    }
    Ok(())
}

/// The node of a line.
fn line_node(tree: &Tree, line: u8) -> Node
    requires tree { FitTree tree.now }
    requires line { line < LINES }
    ensures live { IsLive tree.now result }
    ensures path { path_of tree.now result ≡ tty_path line }
{
    let Some(node) = tree.device(&[b't', b't', b'y', b'0' + line]) else {
        unreachable!()
    };
    node
}

/// The line of the session of a process of a slot, which `/dev/tty` is.
///
/// Denied by the first rule that holds: `NoTty`, where the session has no line; `LabelRead`, `LabelWrite` and `List` on the line's own node;
/// those of `may_open_line`, which may let it sleep too.
pub(crate) fn own_line(
    tree: &Tree,
    procs: &ProcTable,
    pool: &Pool,
    lines: &[Line],
    slot: u8,
    access: Access,
    flags: OpenFlags,
) -> Result<u8, Verdict>
    requires caller { IsCaller procs.now slot }
    requires tree { FitTree tree.now }
    requires count { length lines.now ≡ LINES }
    ensures blocks { IfOk result (HasBlocks pool.now lines.now) }
    ensures below { IfOk result (λ line. line < LINES) }
    ensures line { (t : Tables) → t.processes ≡ procs.now → t.lines ≡ lines.now → IfOk result (λ line. own_tty (view_of t) slot ≡ Some line) }
    ensures checks { (t : Tables) → t.nodes ≡ tree.now → t.processes ≡ procs.now → t.pool ≡ pool.now → t.lines ≡ lines.now →
        FitLines t.descriptors (counts_of lines.now) (boots_of lines.now) → FitBlocks pool.now t.pipes lines.now →
        MatchResult result (λ _. first (own_tty_checks (view_of t) slot access flags (own_tty (view_of t) slot)) ≡ None)
        (IsFirst (view_of t) slot (own_tty_checks (view_of t) slot access flags (own_tty (view_of t) slot))) }
{
    let who = caller(procs, slot);
    let Some(line) = line_of_session(lines, who.session) else {
        return Err(Verdict::Refused(Rule::NoTty));
    };
    let node = line_node(tree, line);
    if let Err(rule) = tree.may_access(
        &who.cred,
        &who.label,
        node,
        access.reads(),
        access.writes(),
        false,
    ) {
        return Err(Verdict::Refused(rule));
    }
    match may_open_line(procs, pool, lines, slot, flags, line) {
        Ok(()) => Ok(line),
        Err(verdict) => Err(verdict),
    }
}
