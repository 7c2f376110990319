//! The end of a line (tty(4)).
ghost use Rattle.std.specs.Prelude.{◌≡◌, ◌<◌, ℕ, Bool, Option, List, [], length, if◌then◌else◌};
ghost use Rattle.std.specs.List.{list_all};
ghost use Rattle.block_pool.specs.Chain.{ChainState};
ghost use Rattle.fd_table.specs.declared.open.Open.{Open};
ghost use Rattle.fd_table.specs.Shared.{Shared};
ghost use Rattle.pipe_core.specs.Pipes.{Pipes};
ghost use Rattle.proc_table.specs.Posts as posts;
ghost use Rattle.tree_model.specs.Tree.{NodeAt};
ghost use Rattle.tty_dev.specs.Table.{counts_of, boots_of};
ghost use Rattle.system_model.specs.Effects.{change_all};
ghost use Rattle.system_model.specs.Fit.{FitDirectories, FitSlots, FitLines, FitBlocks, AreRevokedAtMost};
ghost use Rattle.system_model.specs.LineEvents.{end_row, hang_up_leader};
ghost use Rattle.system_model.specs.Rows.{Does};
ghost use Rattle.system_model.specs.Tables.{Tables, view_of};

use block_pool::Pool;
use call_words::{Decision, To};
use proc_table::{EndingList, ProcTable};
use sys_types::Sig;
use system_model::post;
use tty_dev::Line;
use tty_dev::table::{end_line, has_ended, session_at};

/// HUP is sent to the leader of a line's session, where it is to be told and the line has one.
fn hang_up(procs: &mut ProcTable, ending: &mut EndingList, told: bool, session: Option<u32>)
    requires list { posts.IsEndingList ending.old.items }
    ensures list { posts.IsEndingList ending.new.items }
    ensures directories { (nodes : List (Option NodeAt)) → FitDirectories nodes procs.old → FitDirectories nodes procs.new }
    ensures slots { (d : Shared Open) → FitSlots d procs.old → FitSlots d procs.new }
    ensures does { (t : Tables) → t.processes ≡ procs.old → t.ending ≡ ending.old.items →
        view_of (record t { processes = procs.new; ending = ending.new.items })
        ≡ change_all (view_of t) (if told then hang_up_leader session else []) }
{
    if !told {
        return;
    }
    let Some(leader) = session else {
        return;
    };
    post(procs, ending, Sig::HUP, To::Pid(leader));
}

/// Whether each line has ended.
fn all_ended(lines: &[Line]) -> bool
    ensures { result ≡ list_all (λ line. line.ended) lines.now }
{
    lines.iter().all(|line| line.ended)
}

/// A line ends for good, as its other side does: its carrier is lost, of which the leader of its session is told as `do_carrier` tells it.
/// The end of the last line halts the system. A line ends once: the end of one that has ended changes nothing.
pub fn do_end(
    procs: &mut ProcTable,
    pool: &mut Pool,
    lines: &mut [Line],
    ending: &mut EndingList,
    halted: &mut bool,
    line: u8,
) -> Decision
    requires line { line < length lines.old }
    requires list { posts.IsEndingList ending.old.items }
    ensures list { posts.IsEndingList ending.new.items }
    ensures directories { (nodes : List (Option NodeAt)) → FitDirectories nodes procs.old → FitDirectories nodes procs.new }
    ensures slots { (d : Shared Open) → FitSlots d procs.old → FitSlots d procs.new }
    ensures lines { (d : Shared Open) → FitLines d (counts_of lines.old) (boots_of lines.old) → FitLines d (counts_of lines.new) (boots_of lines.new) }
    ensures blocks { (pipes : Pipes ChainState) → FitBlocks pool.old pipes lines.old → FitBlocks pool.new pipes lines.new }
    ensures revokes { (most : ℕ) → AreRevokedAtMost most pool.old lines.old → AreRevokedAtMost most pool.new lines.new }
    ensures does { (t : Tables) → t.processes ≡ procs.old → t.pool ≡ pool.old → t.lines ≡ lines.old → t.ending ≡ ending.old.items → t.halted ≡ halted.old →
        FitBlocks pool.old t.pipes lines.old →
        Does (view_of t) (view_of (record t { processes = procs.new; pool = pool.new; lines = lines.new; ending = ending.new.items; halted = halted.new })) result (end_row (view_of t) line) }
{
    if has_ended(lines, line) {
        return Decision::Noted;
    }
    let session = session_at(lines, line);
    let told = end_line(lines, pool, line);
    hang_up(procs, ending, told, session);
    if all_ended(lines) {
        *halted = true;
    }
    Decision::Noted
}
