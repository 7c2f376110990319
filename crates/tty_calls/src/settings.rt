//! The settings of a line: tcgetattr(3) and tcsetattr(3).
ghost use Rattle.std.specs.Prelude.{◌≡◌, ◌<◌, ℕ, List, Option, length};
ghost use Rattle.sys_types.specs.declared.limits.TheConstants.{SLOTS};
ghost use Rattle.block_pool.specs.Chain.{ChainState};
ghost use Rattle.block_pool.specs.Pool.{AreOf};
ghost use Rattle.fd_table.specs.declared.open.Open.{Open};
ghost use Rattle.fd_table.specs.Shared.{Shared};
ghost use Rattle.pipe_core.specs.Pipes.{Pipes};
ghost use Rattle.proc_table.specs.Posts as posts;
ghost use Rattle.tree_model.specs.Tree.{NodeAt};
ghost use Rattle.termios_core.specs.Text.{termios_text};
ghost use Rattle.tty_dev.specs.Table.{counts_of, boots_of, lines_held};
ghost use Rattle.system_model.specs.Fit.{IsCaller, FitDirectories, FitSlots, FitLines, FitBlocks, AreRevokedAtMost};
ghost use Rattle.system_model.specs.Looks.{caller_of};
ghost use Rattle.system_model.specs.Rows.{Does, first};
ghost use Rattle.system_model.specs.Tables.{Tables, view_of};
ghost use Rattle.system_model.specs.TtyCalls.{tcgetattr_row, tcsetattr_on, tcsetattr_row};
ghost use Rattle.system_model.specs.Verdicts.{check_of};
ghost use Rattle.tty_calls.specs.Settings.{flush_input};
ghost use Rattle.tty_dev.specs.Table.{devices, KeepsLines};
ghost use Rattle.block_pool.specs.Pool.{PoolState};

use crate::changes::change_verdict;
use crate::descriptors::line_of_fd;
use arrayvec::ArrayVec;
use block_pool::Pool;
use call_words::{Decision, Rule, When};
use fd_table::FdTable;
use proc_table::{EndingList, ProcTable};
use sys_types::TextBuf;
use system_model::{Verdict, settle};
use termios_core::{Termios, print_termios};
use tty_dev::Line;
use tty_dev::table::{flush, retune, termios_at};

/// The text of settings.
fn text_of(termios: &Termios) -> TextBuf
    ensures { result ≡ termios_text termios.now }
{
    let mut out = ArrayVec::new();
    print_termios(termios, &mut out);
    TextBuf::from_slice(out.as_slice()).unwrap()
}

/// tcgetattr(3): answers the settings of a number's line, as their text.
///
/// Denied by the first rule that holds: `BadFd`, where the number is not open; `Dead`, where the line was revoked since it was opened;
/// `NotLine`, where the number's file is not of a line.
pub fn do_tcgetattr(fds: &FdTable, lines: &[Line], slot: u8, fd: u8) -> Decision
    requires slot { slot < SLOTS }
    requires lines { FitLines fds.now (counts_of lines.now) (boots_of lines.now) }
    ensures does { (t : Tables) → t.descriptors ≡ fds.now → t.lines ≡ lines.now →
        Does (view_of t) (view_of t) result (tcgetattr_row (view_of t) slot fd) }
{
    match line_of_fd(fds, lines, slot, fd) {
        Ok(line) => Decision::text(text_of(&termios_at(lines, line))),
        Err(rule) => Decision::denied(rule),
    }
}

/// What the checks of a tcsetattr(3) of a line come to: those of each change of a line, and then that no timed read is asked for.
fn settings_verdict(
    procs: &ProcTable,
    lines: &[Line],
    slot: u8,
    line: u8,
    termios: &Termios,
) -> Verdict
    requires caller { IsCaller procs.now slot }
    requires line { line < length lines.now }
    ensures { (t : Tables) (when : When) → t.processes ≡ procs.now → t.lines ≡ lines.now →
        check_of (caller_of (view_of t) slot) result ≡ first (tcsetattr_on (view_of t) slot when termios.now line).checks }
{
    let verdict = change_verdict(procs, lines, slot, line);
    if verdict.is_held() {
        return verdict;
    }
    if termios.time != 0 {
        return Verdict::Refused(Rule::Time);
    }
    Verdict::Go
}

/// Empties the input of a line where that is asked for before a change.
fn flush_input(lines: &mut [Line], line: u8, when: When)
    requires { line < length lines.old }
    ensures devices { (pool : PoolState) → devices pool lines.new ≡ flush_input when (devices pool lines.old) line }
    ensures counts { counts_of lines.new ≡ counts_of lines.old }
    ensures keeps { (pool : PoolState) → KeepsLines pool pool lines.old lines.new }
{
    if when == When::Flush {
        flush(lines, line, true, false);
    }
}

/// tcsetattr(3): gives a number's line other settings, from the next byte on; with `flush` what came in before is let go. Answers 0.
///
/// Denied by the first rule that holds: `BadFd`, where the number is not open; `Dead`, where the line was revoked since it was opened;
/// `NotLine`, where the number's file is not of a line; `Zombie`, where the line lost its carrier; `Background`, where the caller is in the
/// line's background and its group is orphaned; `Time`, where the settings ask for a timed read. Before the last of them, in the background
/// TTOU is sent to the caller's group, which stops it in the call, or interrupts the call by `Signal` where it is caught. Then no line
/// changes.
pub fn do_tcsetattr(
    fds: &FdTable,
    procs: &mut ProcTable,
    pool: &mut Pool,
    lines: &mut [Line],
    ending: &mut EndingList,
    slot: u8,
    fd: u8,
    when: When,
    termios: &Termios,
) -> Decision
    requires caller { IsCaller procs.old slot }
    requires lines { FitLines fds.now (counts_of lines.old) (boots_of lines.old) }
    requires of_pool { AreOf pool.old (lines_held lines.old) }
    requires list { posts.IsEndingList ending.old.items }
    ensures list { posts.IsEndingList ending.new.items }
    ensures directories { (nodes : List (Option NodeAt)) → FitDirectories nodes procs.old → FitDirectories nodes procs.new }
    ensures slots { (d : Shared Open) → FitSlots d procs.old → FitSlots d procs.new }
    ensures lines { FitLines fds.now (counts_of lines.new) (boots_of lines.new) }
    ensures blocks { (pipes : Pipes ChainState) → FitBlocks pool.old pipes lines.old → FitBlocks pool.new pipes lines.new }
    ensures revokes { (most : ℕ) → AreRevokedAtMost most pool.old lines.old → AreRevokedAtMost most pool.new lines.new }
    ensures does { (t : Tables) → t.descriptors ≡ fds.now → t.processes ≡ procs.old → t.pool ≡ pool.old → t.lines ≡ lines.old → t.ending ≡ ending.old.items →
        FitBlocks pool.old t.pipes lines.old →
        Does (view_of t) (view_of (record t { processes = procs.new; pool = pool.new; lines = lines.new; ending = ending.new.items })) result
        (tcsetattr_row (view_of t) slot fd when termios.now) }
{
    let line = match line_of_fd(fds, lines, slot, fd) {
        Ok(line) => line,
        Err(rule) => return Decision::denied(rule),
    };
    let verdict = settings_verdict(procs, lines, slot, line, termios);
    if verdict.is_held() {
        return settle(procs, ending, slot, verdict);
    }
    flush_input(lines, line, when);
    retune(lines, pool, line, *termios);
    Decision::nothing()
}
