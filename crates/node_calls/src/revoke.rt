//! revoke(2), which names a line by the path of its node.
ghost use Rattle.std.specs.Prelude.{◌≡◌, ◌+◌, ◌-◌, ◌^◌, ℕ, List, Option, length};
ghost use Rattle.sys_types.specs.declared.limits.TheConstants.{LINES};
ghost use Rattle.block_pool.specs.Chain.{ChainState};
ghost use Rattle.block_pool.specs.Pool.{AreOf};
ghost use Rattle.fd_table.specs.declared.open.Open.{Open};
ghost use Rattle.fd_table.specs.Shared.{Shared};
ghost use Rattle.pipe_core.specs.Pipes.{Pipes};
ghost use Rattle.proc_table.specs.Posts as posts;
ghost use Rattle.tree_model.specs.Tree.{NodeAt};
ghost use Rattle.tty_dev.specs.Table.{lines_held, counts_of, boots_of};
ghost use Rattle.system_model.specs.Effects.{change_all};
ghost use Rattle.system_model.specs.Fit.{IsCaller, FitDirectories, FitTree, FitSlots, FitLines, FitBlocks, AreRevokedAtMost};
ghost use Rattle.system_model.specs.Looks.{caller_of};
ghost use Rattle.system_model.specs.Rows.{Does};
ghost use Rattle.system_model.specs.Tables.{Tables, view_of};
ghost use Rattle.system_model.specs.TtyCalls.{tell_leader, revoke_row};

use block_pool::Pool;
use call_words::{Decision, Kind, PathText, Rule, To};
use proc_table::{EndingList, ProcTable};
use sys_types::Sig;
use system_model::{caller, post, revoke_line};
use tty_dev::Line;
use vnode_tree::Tree;

/// HUP is sent to the former leader of a session, unless it is the caller.
fn tell_leader(procs: &mut ProcTable, ending: &mut EndingList, slot: u8, session: Option<u32>)
    requires caller { IsCaller procs.old slot }
    requires list { posts.IsEndingList ending.old.items }
    ensures list { posts.IsEndingList ending.new.items }
    ensures directories { (nodes : List (Option NodeAt)) → FitDirectories nodes procs.old → FitDirectories nodes procs.new }
    ensures slots { (d : Shared Open) → FitSlots d procs.old → FitSlots d procs.new }
    ensures does { (t : Tables) → t.processes ≡ procs.old → t.ending ≡ ending.old.items →
        view_of (record t { processes = procs.new; ending = ending.new.items })
        ≡ change_all (view_of t) (tell_leader (caller_of (view_of t) slot) session) }
{
    let Some(leader) = session else {
        return;
    };
    if caller(procs, slot).pid != leader {
        post(procs, ending, Sig::HUP, To::Pid(leader));
    }
}

/// revoke(2): every open file of the line at `path` is dead from now on, nothing is queued there, and the line is no controlling terminal
/// any more, of which the leader of its session is told by HUP, unless it is the caller. Answers 0. Each line was revoked fewer than 2^63
/// times. A revoke never wants memory.
///
/// Denied by the first rule that holds: those of `find_node`; `NoRevoke`, where the node is not that of a line; `LabelWrite`, where the
/// node's element does not dominate the caller's active one; `Owner`, where the caller neither owns the node nor has the uid 0. Then
/// nothing changes.
pub fn do_revoke(
    tree: &Tree,
    procs: &mut ProcTable,
    pool: &mut Pool,
    lines: &mut [Line],
    ending: &mut EndingList,
    slot: u8,
    path: &PathText,
) -> Decision
    requires caller { IsCaller procs.old slot }
    requires directories { FitDirectories tree.now procs.old }
    requires tree { FitTree tree.now }
    requires places { length lines.old ≡ LINES }
    requires few { AreRevokedAtMost (2 ^ 63 - 1) pool.old lines.old }
    requires of_pool { AreOf pool.old (lines_held lines.old) }
    requires list { posts.IsEndingList ending.old.items }
    ensures list { posts.IsEndingList ending.new.items }
    ensures directories { FitDirectories tree.now procs.new }
    ensures slots { (d : Shared Open) → FitSlots d procs.old → FitSlots d procs.new }
    ensures lines { (d : Shared Open) → FitLines d (counts_of lines.old) (boots_of lines.old) → FitLines d (counts_of lines.new) (boots_of lines.new) }
    ensures blocks { (pipes : Pipes ChainState) → FitBlocks pool.old pipes lines.old → FitBlocks pool.new pipes lines.new }
    ensures revokes { (most : ℕ) → AreRevokedAtMost most pool.old lines.old → AreRevokedAtMost (most + 1) pool.new lines.new }
    ensures does { (t : Tables) → t.nodes ≡ tree.now → t.processes ≡ procs.old → t.pool ≡ pool.old → t.lines ≡ lines.old → t.ending ≡ ending.old.items →
        FitLines t.descriptors (counts_of lines.old) (boots_of lines.old) → FitBlocks pool.old t.pipes lines.old →
        Does (view_of t) (view_of (record t { processes = procs.new; pool = pool.new; lines = lines.new; ending = ending.new.items })) result
        (revoke_row (view_of t) slot path.now) }
{
    let who = caller(procs, slot);
    let node = match tree.find_node(&who.cred, &who.label, who.cwd, path) {
        Ok(node) => node,
        Err(rule) => return Decision::denied(rule),
    };
    let Kind::Line(line) = tree.kind(node) else {
        return Decision::denied(Rule::NoRevoke);
    };
    if !tree.writes_by_label(&who.label, node) {
        return Decision::denied(Rule::LabelWrite);
    }
    if !tree.is_owner(&who.cred, node) {
        return Decision::denied(Rule::Owner);
    }
    let session = revoke_line(lines, pool, line);
    tell_leader(procs, ending, slot, session);
    Decision::nothing()
}
