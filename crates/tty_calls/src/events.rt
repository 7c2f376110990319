//! What happens at a line: a byte, a taking of its output, and its carrier.
ghost use Rattle.std.specs.Prelude.{◌≡◌, ◌<◌, ◌≤◌, ℕ, Option, List, length};
ghost use Rattle.sys_types.specs.declared.limits.TheConstants.{PIECE_BYTES};
ghost use Rattle.block_pool.specs.Pool.{AreOf};
ghost use Rattle.block_pool.specs.Chain.{ChainState};
ghost use Rattle.fd_table.specs.declared.open.Open.{Open};
ghost use Rattle.fd_table.specs.Shared.{Shared};
ghost use Rattle.pipe_core.specs.Pipes.{Pipes};
ghost use Rattle.proc_table.specs.Posts as posts;
ghost use Rattle.tree_model.specs.Tree.{NodeAt};
ghost use Rattle.tty_dev.specs.Table.{counts_of, boots_of, lines_held};
ghost use Rattle.system_model.specs.Fit.{FitDirectories, FitSlots, FitLines, FitBlocks, AreRevokedAtMost};
ghost use Rattle.system_model.specs.LineEvents.{byte_row, take_row, carrier_row};
ghost use Rattle.system_model.specs.Rows.{Does};
ghost use Rattle.system_model.specs.Tables.{Tables, view_of};

use block_pool::Pool;
use call_words::{Decision, To};
use proc_table::{EndingList, ProcTable};
use sys_types::Sig;
use system_model::post;
use tty_dev::Line;
use tty_dev::table::{foreground_at, receive, session_at, set_carrier, take};

/// A byte comes in at a line. The signal that it sends goes to the foreground group, where the line has a session.
pub fn do_byte(
    procs: &mut ProcTable,
    pool: &mut Pool,
    lines: &mut [Line],
    ending: &mut EndingList,
    line: u8,
    byte: u8,
) -> Decision
    requires line { line < length lines.old }
    requires blocks { AreOf pool.old (lines_held lines.old) }
    requires list { posts.IsEndingList ending.old.items }
    ensures list { posts.IsEndingList ending.new.items }
    ensures directories { (nodes : List (Option NodeAt)) → FitDirectories nodes procs.old → FitDirectories nodes procs.new }
    ensures slots { (d : Shared Open) → FitSlots d procs.old → FitSlots d procs.new }
    ensures lines { (d : Shared Open) → FitLines d (counts_of lines.old) (boots_of lines.old) → FitLines d (counts_of lines.new) (boots_of lines.new) }
    ensures blocks { (pipes : Pipes ChainState) → FitBlocks pool.old pipes lines.old → FitBlocks pool.new pipes lines.new }
    ensures revokes { (most : ℕ) → AreRevokedAtMost most pool.old lines.old → AreRevokedAtMost most pool.new lines.new }
    ensures does { (t : Tables) → t.processes ≡ procs.old → t.pool ≡ pool.old → t.lines ≡ lines.old → t.ending ≡ ending.old.items →
        FitBlocks pool.old t.pipes lines.old →
        Does (view_of t) (view_of (record t { processes = procs.new; pool = pool.new; lines = lines.new; ending = ending.new.items })) result (byte_row (view_of t) line byte) }
{
    let session = session_at(lines, line);
    let foreground = foreground_at(lines, line);
    let Some(sig) = receive(lines, pool, line, byte) else {
        return Decision::Noted;
    };
    match session {
        None => Decision::Noted,
        Some(_) => {
            post(procs, ending, sig, To::Group(foreground));
            Decision::Noted
        }
    }
}

/// Up to `max` bytes of a line's output are taken for sending, at most 512: none while output is stopped or no file is live.
pub fn do_take(pool: &Pool, lines: &mut [Line], line: u8, max: u16) -> Decision
    requires line { line < length lines.old }
    requires most { max ≤ PIECE_BYTES }
    requires blocks { AreOf pool.now (lines_held lines.old) }
    ensures lines { (d : Shared Open) → FitLines d (counts_of lines.old) (boots_of lines.old) → FitLines d (counts_of lines.new) (boots_of lines.new) }
    ensures blocks { (pipes : Pipes ChainState) → FitBlocks pool.now pipes lines.old → FitBlocks pool.now pipes lines.new }
    ensures revokes { (most : ℕ) → AreRevokedAtMost most pool.now lines.old → AreRevokedAtMost most pool.now lines.new }
    ensures does { (t : Tables) → t.pool ≡ pool.now → t.lines ≡ lines.old →
        Does (view_of t) (view_of (record t { lines = lines.new })) result (take_row (view_of t) line max) }
{
    Decision::Taken(take(lines, pool, line, max))
}

/// The carrier of a line comes or goes, unless the line has ended. Where its loss disconnects the line (termios(4), "Modem
/// Disconnect"), the leader of the line's session is sent HUP.
pub fn do_carrier(
    procs: &mut ProcTable,
    pool: &mut Pool,
    lines: &mut [Line],
    ending: &mut EndingList,
    line: u8,
    up: bool,
) -> Decision
    requires line { line < length lines.old }
    requires list { posts.IsEndingList ending.old.items }
    ensures list { posts.IsEndingList ending.new.items }
    ensures directories { (nodes : List (Option NodeAt)) → FitDirectories nodes procs.old → FitDirectories nodes procs.new }
    ensures slots { (d : Shared Open) → FitSlots d procs.old → FitSlots d procs.new }
    ensures lines { (d : Shared Open) → FitLines d (counts_of lines.old) (boots_of lines.old) → FitLines d (counts_of lines.new) (boots_of lines.new) }
    ensures blocks { (pipes : Pipes ChainState) → FitBlocks pool.old pipes lines.old → FitBlocks pool.new pipes lines.new }
    ensures revokes { (most : ℕ) → AreRevokedAtMost most pool.old lines.old → AreRevokedAtMost most pool.new lines.new }
    ensures does { (t : Tables) → t.processes ≡ procs.old → t.pool ≡ pool.old → t.lines ≡ lines.old → t.ending ≡ ending.old.items →
        FitBlocks pool.old t.pipes lines.old →
        Does (view_of t) (view_of (record t { processes = procs.new; pool = pool.new; lines = lines.new; ending = ending.new.items })) result (carrier_row (view_of t) line up) }
{
    let session = session_at(lines, line);
    if !set_carrier(lines, pool, line, up) {
        return Decision::Noted;
    }
    let Some(leader) = session else {
        return Decision::Noted;
    };
    post(procs, ending, Sig::HUP, To::Pid(leader));
    Decision::Noted
}
