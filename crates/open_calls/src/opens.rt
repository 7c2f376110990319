//! open(2).
ghost use Rattle.std.specs.Prelude.{◌≡◌, ◌<◌, ◌≤◌, ℕ, Bool, List, length, Option, Some, None};
ghost use Rattle.sys_types.specs.declared.limits.TheConstants.{SLOTS, LINES};
ghost use Rattle.block_pool.specs.Chain.{ChainState};
ghost use Rattle.block_pool.specs.Pool.{AreOf};
ghost use Rattle.fd_table.specs.Calls.{room_rule, open_lowest};
ghost use Rattle.fd_table.specs.declared.open.Open.{Open as OpenOf};
ghost use Rattle.fd_table.specs.Shared.{Shared, lowest_number};
ghost use Rattle.pipe_core.specs.Pipes.{Pipes};
ghost use Rattle.proc_table.specs.Processes.{Process, Processes, running_at};
ghost use Rattle.tree_model.specs.Tree.{NodeAt};
ghost use Rattle.tree_model.specs.Numbers.{IsFile, path_of};
ghost use Rattle.tty_dev.specs.History.{Counts};
ghost use Rattle.tty_dev.specs.Table.{counts_of, boots_of, count_at, lines_held};
ghost use Rattle.vnode_tree.specs.NewNodes.{make_rule_from};
ghost use Rattle.vnode_tree.specs.Walks.{IsFree};
ghost use Rattle.system_model.specs.Effects.{change_all};
ghost use Rattle.system_model.specs.Fit.{IsCaller, FitFiles, FitDirectories, FitTree, FitSlots, FitPipes, FitLines, FitBlocks, AreRevokedAtMost};
ghost use Rattle.system_model.specs.Looks.{node_at};
ghost use Rattle.system_model.specs.OpenCalls.{open_row};
ghost use Rattle.system_model.specs.Rows.{Does};
ghost use Rattle.system_model.specs.Tables.{Tables, view_of};
ghost use Rattle.open_calls.specs.Openings.{open_for, cuts, effects_of, HasBlocks};
ghost use Rattle.open_calls.specs.declared.openings.Opening.TheVariants as what;

use crate::openings::{Opening, find_opening};
use block_pool::Pool;
use call_words::{Access, Decision, Kind, Node, OpenFlags, PathText};
use fd_table::{FdTable, Open, Target};
use proc_table::ProcTable;
use sys_types::OPEN_FILES;
use system_model::caller;
use tty_dev::Line;
use tty_dev::table::open_line;
use vnode_tree::{Name255, Tree};

/// The open file of a target.
fn open_for(target: Target, access: Access, flags: OpenFlags) -> Open
    ensures { result ≡ open_for access flags target }
{
    Open {
        target,
        readable: access.reads(),
        writable: access.writes(),
        append: flags.append,
        nonblock: flags.nonblock,
        offset: 0,
    }
}

/// Opens a file at the lowest free number, for which there is room. Answers the number.
fn open_lowest(fds: &mut FdTable, slot: u8, file: Open, on_exec: bool) -> u8
    requires slot { slot < SLOTS }
    requires room { room_rule fds.old slot 1 ≡ None }
    ensures { (fds.new, result) ≡ open_lowest fds.old slot file on_exec }
{
    let Ok(number) = fds.open_new(slot, file, on_exec) else {
        unreachable!()
    };
    number
}

/// Lets go what a regular file holds, where the flags say so.
fn cut(tree: &mut Tree, node: Node, flags: OpenFlags)
    requires { IsFile tree.old node }
    ensures file { IsFile tree.new node }
    ensures path { path_of tree.new node ≡ path_of tree.old node }
    ensures files { (d : Shared OpenOf) → FitFiles tree.old d → FitFiles tree.new d }
    ensures directories { (processes : Processes ℕ) → FitDirectories tree.old processes → FitDirectories tree.new processes }
    ensures tree { FitTree tree.old → FitTree tree.new }
    ensures seen { (t : Tables) → t.nodes ≡ tree.old → view_of (record t { nodes = tree.new })
        ≡ change_all (view_of t) (cuts (path_of t.nodes node) flags (node_at (view_of t) (path_of t.nodes node))) }
{
    if flags.truncate {
        tree.truncate(node);
    }
}

/// Opens a regular file, whose contents go where the flags say so. Answers its number.
fn open_node(
    tree: &mut Tree,
    fds: &mut FdTable,
    slot: u8,
    node: Node,
    access: Access,
    flags: OpenFlags,
) -> u8
    requires slot { slot < SLOTS }
    requires file { IsFile tree.old node }
    requires room { room_rule fds.old slot 1 ≡ None }
    ensures files { FitFiles tree.old fds.old → FitFiles tree.new fds.new }
    ensures directories { (processes : Processes ℕ) → FitDirectories tree.old processes → FitDirectories tree.new processes }
    ensures tree { FitTree tree.old → FitTree tree.new }
    ensures slots { (processes : Processes ℕ) → IsCaller processes slot → FitSlots fds.old processes → FitSlots fds.new processes }
    ensures pipes { (pipes : Pipes ChainState) → FitPipes fds.old pipes → FitPipes fds.new pipes }
    ensures lines { (counts : List Counts) (boots : List Bool) → FitLines fds.old counts boots → FitLines fds.new counts boots }
    ensures number { result ≡ lowest_number fds.old.table slot }
    ensures seen { (t : Tables) (mode : ℕ) → t.nodes ≡ tree.old → t.descriptors ≡ fds.old →
        view_of (record t { nodes = tree.new; descriptors = fds.new }) ≡ change_all (view_of t) (effects_of t slot access flags mode (what.File node)) }
{
    cut(tree, node, flags);
    open_lowest(
        fds,
        slot,
        open_for(Target::File(node), access, flags),
        flags.on_exec,
    )
}

/// How often a line was revoked.
fn generation_of(lines: &[Line], line: u8) -> u64
    requires { line < length lines.now }
    ensures { result ≡ (count_at (counts_of lines.now) line).generation }
{
    let device = &lines[usize::from(line)];
    device.generation
}

/// Opens a terminal line, which has its blocks or takes 40. Answers its number.
fn open_tty(
    fds: &mut FdTable,
    pool: &mut Pool,
    lines: &mut [Line],
    slot: u8,
    line: u8,
    access: Access,
    flags: OpenFlags,
) -> u8
    requires slot { slot < SLOTS }
    requires line { line < LINES }
    requires room { room_rule fds.old slot 1 ≡ None }
    requires lines { FitLines fds.old (counts_of lines.old) (boots_of lines.old) }
    requires blocks { AreOf pool.old (lines_held lines.old) }
    requires enough { HasBlocks pool.old lines.old line }
    ensures files { (nodes : List (Option NodeAt)) → FitFiles nodes fds.old → FitFiles nodes fds.new }
    ensures slots { (processes : Processes ℕ) → IsCaller processes slot → FitSlots fds.old processes → FitSlots fds.new processes }
    ensures pipes { (pipes : Pipes ChainState) → FitPipes fds.old pipes → FitPipes fds.new pipes }
    ensures lines { FitLines fds.new (counts_of lines.new) (boots_of lines.new) }
    ensures blocks { (pipes : Pipes ChainState) → FitBlocks pool.old pipes lines.old → FitBlocks pool.new pipes lines.new }
    ensures revokes { (most : ℕ) → AreRevokedAtMost most pool.old lines.old → AreRevokedAtMost most pool.new lines.new }
    ensures number { result ≡ lowest_number fds.old.table slot }
    ensures seen { (t : Tables) (mode : ℕ) → t.descriptors ≡ fds.old → t.pool ≡ pool.old → t.lines ≡ lines.old → FitBlocks pool.old t.pipes lines.old →
        view_of (record t { descriptors = fds.new; pool = pool.new; lines = lines.new })
        ≡ change_all (view_of t) (effects_of t slot access flags mode (what.Line line)) }
{
    let opened = generation_of(lines, line);
    let target = Target::Line { line, opened };
    let number = open_lowest(fds, slot, open_for(target, access, flags), flags.on_exec);
    prove!(fds.live(&target) <= OPEN_FILES as u16);
    let Ok(_) = open_line(lines, pool, line) else {
        unreachable!()
    };
    number
}

/// Makes a regular file with a mode of at most 777 in octal at a free name of a directory, which takes it, and opens it. Answers its number.
fn open_new(
    tree: &mut Tree,
    fds: &mut FdTable,
    procs: &ProcTable,
    slot: u8,
    dir: Node,
    name: &Name255,
    access: Access,
    flags: OpenFlags,
    mode: u16,
) -> u8
    requires caller { IsCaller procs.now slot }
    requires room { room_rule fds.old slot 1 ≡ None }
    requires free { IsFree tree.old dir name.now }
    requires make { (who : Process ℕ) → running_at procs.now slot ≡ Some who → make_rule_from tree.old who.cred who.label dir ≡ None }
    requires mode { mode ≤ 0o777 }
    ensures files { FitFiles tree.old fds.old → FitFiles tree.new fds.new }
    ensures directories { FitDirectories tree.old procs.now → FitDirectories tree.new procs.now }
    ensures tree { FitTree tree.old → FitTree tree.new }
    ensures slots { FitSlots fds.old procs.now → FitSlots fds.new procs.now }
    ensures pipes { (pipes : Pipes ChainState) → FitPipes fds.old pipes → FitPipes fds.new pipes }
    ensures lines { (counts : List Counts) (boots : List Bool) → FitLines fds.old counts boots → FitLines fds.new counts boots }
    ensures number { result ≡ lowest_number fds.old.table slot }
    ensures seen { (t : Tables) → t.nodes ≡ tree.old → t.descriptors ≡ fds.old → t.processes ≡ procs.now → FitFiles tree.old fds.old →
        FitDirectories tree.old procs.now →
        view_of (record t { nodes = tree.new; descriptors = fds.new })
        ≡ change_all (view_of t) (effects_of t slot access flags mode (what.New dir name.now)) }
{
    let who = caller(procs, slot);
    let made = tree.make_node(
        &who.cred,
        &who.label,
        who.umask,
        dir,
        name,
        Kind::File,
        mode,
    );
    let Ok(node) = made else { unreachable!() };
    open_lowest(
        fds,
        slot,
        open_for(Target::File(node), access, flags),
        flags.on_exec,
    )
}

/// open(2): opens what a path leads to on the lowest free number of the process, as `find_opening` finds it, and answers that number. An absent
/// file is created with a mode of at most 777 in octal, as `Tree::make_node` does, where the flags say so; a regular file loses what it
/// holds, where they say so; a line's first live file takes 40 blocks of the pool, and finds the settings of the boot.
///
/// Denied by the first rule that holds: `Flags`, where the open truncates or appends without write access, or wants an absent file without
/// creating it; those of `Tree::find`; for a node that is there `Exists`, where the open wants an absent one, `IsDir`, where it is a
/// directory, `LabelRead`, for a read where the caller's active element does not dominate the node's, `LabelWrite`, for a write where the
/// node's does not dominate the caller's, and `List`, where the node's list refuses; for `/dev/tty` `NoTty`, where the caller's session has
/// no line, and the last three of the line's own node; for a line `Ended`, where it has ended for good, `Zombie`, where it lost its carrier
/// since its first open, and `Pool`, where it has no live file and fewer than 40 blocks are free; for an absent file `NoEntry`, where the
/// open does not create it, and those of `Tree::may_make`; `FdRoom`, where all 32 numbers of the process are open; `OpenRoom`, where 256
/// files are open. Before `Pool` an open of a line sleeps until it has a carrier, unless `nonblock` or the line's clocal is on, and is
/// interrupted by `Signal` where a caught signal is pending. Where it is denied or sleeps nothing changes.
pub fn do_open(
    tree: &mut Tree,
    fds: &mut FdTable,
    procs: &ProcTable,
    pool: &mut Pool,
    lines: &mut [Line],
    slot: u8,
    path: &PathText,
    access: Access,
    flags: OpenFlags,
    mode: u16,
) -> Decision
    requires caller { IsCaller procs.now slot }
    requires files { FitFiles tree.old fds.old }
    requires directories { FitDirectories tree.old procs.now }
    requires tree { FitTree tree.old }
    requires lines { FitLines fds.old (counts_of lines.old) (boots_of lines.old) }
    requires blocks { AreOf pool.old (lines_held lines.old) }
    requires mode { mode ≤ 0o777 }
    ensures files { FitFiles tree.new fds.new }
    ensures directories { FitDirectories tree.new procs.now }
    ensures tree { FitTree tree.new }
    ensures slots { FitSlots fds.old procs.now → FitSlots fds.new procs.now }
    ensures pipes { (pipes : Pipes ChainState) → FitPipes fds.old pipes → FitPipes fds.new pipes }
    ensures lines { FitLines fds.new (counts_of lines.new) (boots_of lines.new) }
    ensures blocks { (pipes : Pipes ChainState) → FitBlocks pool.old pipes lines.old → FitBlocks pool.new pipes lines.new }
    ensures revokes { (most : ℕ) → AreRevokedAtMost most pool.old lines.old → AreRevokedAtMost most pool.new lines.new }
    ensures does { (t : Tables) → t.nodes ≡ tree.old → t.descriptors ≡ fds.old → t.processes ≡ procs.now → t.pool ≡ pool.old → t.lines ≡ lines.old →
        FitBlocks pool.old t.pipes lines.old →
        Does (view_of t) (view_of (record t { nodes = tree.new; descriptors = fds.new; pool = pool.new; lines = lines.new })) result
        (open_row (view_of t) slot path.now access flags mode) }
{
    let found = match find_opening(tree, fds, procs, pool, lines, slot, path, access, flags) {
        Ok(found) => found,
        Err(verdict) => return verdict.decision(),
    };
    match found {
        Opening::File(node) => {
            Decision::number(u32::from(open_node(tree, fds, slot, node, access, flags)))
        }
        Opening::Line(line) => Decision::number(u32::from(open_tty(
            fds, pool, lines, slot, line, access, flags,
        ))),
        Opening::New { dir, name } => Decision::number(u32::from(open_new(
            tree, fds, procs, slot, dir, &name, access, flags, mode,
        ))),
    }
}
