//! Reads and writes from the background of a terminal (termios(4), "Terminal Access Control").
ghost use Rattle.std.specs.Prelude.{◌≡◌, ◌<◌, length, Some, [], ◌∷◌};
ghost use Rattle.call_words.specs.declared.signal.To.TheVariants.{Group};
ghost use Rattle.proc_table.specs.Procs.{process_of};
ghost use Rattle.system_model.specs.Background.{stop_by, post_to_group, background_read, background_write};
ghost use Rattle.system_model.specs.Rows.{first};
ghost use Rattle.system_model.specs.Tables.{Tables, seen_process, view_of};
ghost use Rattle.system_model.specs.Verdicts.{check_of};

use crate::verdict::Verdict;
use call_words::Rule;
use proc_table::{Proc, ProcTable};
use sys_types::Sig;
use tty_dev::Line;
use tty_dev::table::{foreground_at, session_at};

/// A signal to the group of a process, which stops it in its call, or interrupts the call where the process catches it.
fn stop_by(sig: Sig, who: &Proc) -> Verdict
    ensures { (t : Tables) → check_of (seen_process t.nodes (process_of who.now)) result
        ≡ Some (stop_by sig (seen_process t.nodes (process_of who.now)), post_to_group sig (seen_process t.nodes (process_of who.now))) }
{
    if who.catches(sig) {
        return Verdict::Interrupted(sig);
    }
    Verdict::Stopped(sig)
}

/// What the checks of a read of a line by a process come to that concern the background. There the read is denied by `Background`
/// where TTIN would not stop the process: it is ignored, the group is orphaned, or the process is pid 1. Else TTIN is sent to the group.
pub fn background_read(lines: &[Line], line: u8, procs: &ProcTable, who: &Proc) -> Verdict
    requires { line < length lines.now }
    ensures { (t : Tables) → t.processes ≡ procs.now → t.lines ≡ lines.now →
        check_of (seen_process t.nodes (process_of who.now)) result ≡ first (background_read (view_of t) line (seen_process t.nodes (process_of who.now))) }
{
    if !who.is_background(session_at(lines, line), foreground_at(lines, line)) {
        return Verdict::Go;
    }
    if procs.may_not_stop(who) {
        return Verdict::Refused(Rule::Background);
    }
    stop_by(Sig::TTIN, who)
}

/// What the checks of a change of a line by a process, or of a write to it with tostop, come to that concern the background. There it
/// is allowed where TTOU is ignored and to pid 1. Else it is denied by `Background` where the group is orphaned, and else TTOU is sent
/// to the group.
pub fn background_write(lines: &[Line], line: u8, procs: &ProcTable, who: &Proc) -> Verdict
    requires { line < length lines.now }
    ensures { (t : Tables) → t.processes ≡ procs.now → t.lines ≡ lines.now →
        check_of (seen_process t.nodes (process_of who.now)) result ≡ first (background_write (view_of t) line (seen_process t.nodes (process_of who.now))) }
{
    if !who.is_stopped_by_write(session_at(lines, line), foreground_at(lines, line)) {
        return Verdict::Go;
    }
    if procs.orphaned(who.group) {
        return Verdict::Refused(Rule::Background);
    }
    stop_by(Sig::TTOU, who)
}
