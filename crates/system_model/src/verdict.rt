//! What the checks of a call come to. A call that can sleep only reads, gives its verdict, and acts where no check holds; so the wakeup
//! list asks the verdict again (wakeup(9)).
ghost use Rattle.std.specs.Prelude.{◌≡◌, true, ℕ, List, [], Option, Some};
ghost use Rattle.fd_table.specs.declared.open.Open.{Open};
ghost use Rattle.fd_table.specs.Shared.{Shared};
ghost use Rattle.proc_table.specs.Posts as posts;
ghost use Rattle.proc_table.specs.Processes.{Process};
ghost use Rattle.proc_table.specs.Procs.{process_of};
ghost use Rattle.tree_model.specs.Tree.{NodeAt};
ghost use Rattle.system_model.specs.Effects.{on_processes, change};
ghost use Rattle.system_model.specs.Fit.{IsCaller, FitDirectories, FitSlots};
ghost use Rattle.system_model.specs.Looks.{caller_of};
ghost use Rattle.system_model.specs.ProcessEffects.{post};
ghost use Rattle.system_model.specs.Parts.{Path};
ghost use Rattle.system_model.specs.Rows.{Row, Does, sleep_of, first, decision_by, effects_by, noted};
ghost use Rattle.system_model.specs.Step.{reason_of_check};
ghost use Rattle.system_model.specs.Tables.{Tables, seen_process, view_of};
ghost use Rattle.system_model.specs.Verdicts.{check_of, is_held, posts_of};

use crate::callers::caller;
use call_words::{Decision, Reason, Rule, To};
use proc_table::{EndingList, Proc, ProcTable};
use sys_types::{Piece, Sig};

/// What the checks of a call come to: the first that holds, or none.
#[derive(Clone, Copy, PartialEq, Eq)]
pub enum Verdict {
    /// A rule denies it.
    Refused(Rule),
    /// It gives no bytes.
    Empty,
    /// It answers 0.
    Zero,
    /// It sleeps.
    Asleep(Reason),
    /// This signal is posted to the caller's group and stops it in the call.
    Stopped(Sig),
    /// This signal is posted to the caller's group, and interrupts the call, since the caller catches it.
    Interrupted(Sig),
    /// PIPE is posted to the caller, and the call is denied by `NoReader`, since no open file reads what it writes (pipe(2)).
    Broken,
    /// No check holds.
    Go,
}

impl Verdict {
    /// Whether some check holds.
    pub fn is_held(self) -> bool
        ensures { result ≡ is_held self }
    {
        !matches!(self, Verdict::Go)
    }

    /// What the check decides. Where none holds, that an event was noted.
    pub fn decision(self) -> Decision
        ensures { (who : Process Path) → result ≡ decision_by (check_of who self) noted }
    {
        match self {
            Verdict::Refused(rule) => Decision::denied(rule),
            Verdict::Empty => Decision::bytes(Piece::empty()),
            Verdict::Zero => Decision::nothing(),
            Verdict::Asleep(reason) => Decision::Sleep(reason),
            Verdict::Stopped(_) => Decision::Sleep(Reason::Stop),
            Verdict::Interrupted(_) => Decision::denied(Rule::Signal),
            Verdict::Broken => Decision::denied(Rule::NoReader),
            Verdict::Go => Decision::Noted,
        }
    }

    /// The signal that the check posts for a process, and to whom.
    fn signal(self, who: &Proc) -> Option<(Sig, To)>
        ensures { (nodes : List (Option NodeAt)) → posts_of result ≡ effects_by (check_of (seen_process nodes (process_of who.now)) self) [] }
    {
        match self {
            Verdict::Stopped(sig) | Verdict::Interrupted(sig) => Some((sig, To::Group(who.group))),
            Verdict::Broken => Some((Sig::PIPE, To::Pid(who.pid))),
            _ => None,
        }
    }

    /// What the call waits for, where the check sleeps and changes nothing.
    pub fn reason(self) -> Option<Reason>
        ensures { (who : Process Path) → result ≡ reason_of_check (check_of who self) }
    {
        match self {
            Verdict::Asleep(reason) => Some(reason),
            _ => None,
        }
    }
}

/// Posts a signal, as `ProcTable::post` does.
pub fn post(procs: &mut ProcTable, ending: &mut EndingList, sig: Sig, to: To)
    requires list { posts.IsEndingList ending.old.items }
    ensures list { posts.IsEndingList ending.new.items }
    ensures directories { (nodes : List (Option NodeAt)) → FitDirectories nodes procs.old → FitDirectories nodes procs.new }
    ensures slots { (d : Shared Open) → FitSlots d procs.old → FitSlots d procs.new }
    ensures does { (t : Tables) → t.processes ≡ procs.old → t.ending ≡ ending.old.items →
        view_of (record t { processes = procs.new; ending = ending.new.items }) ≡ change (view_of t) (on_processes (post sig to)) }
{
    procs.post(sig, to, ending);
}

/// The verdict of a call that would sleep: it is interrupted, by `Signal`, where a caught signal of the process is pending
/// (sigaction(2), EINTR).
pub fn sleep_verdict(who: &Proc, reason: Reason) -> Verdict
    ensures { (t : Tables) → check_of (seen_process t.nodes (process_of who.now)) result
        ≡ Some (sleep_of (seen_process t.nodes (process_of who.now)) reason, []) }
{
    if who.least_caught().is_some() {
        return Verdict::Refused(Rule::Signal);
    }
    Verdict::Asleep(reason)
}

/// Does what the check of a verdict on a call of a slot does, and gives its decision. The verdict is not to go on.
pub fn settle(
    procs: &mut ProcTable,
    ending: &mut EndingList,
    slot: u8,
    verdict: Verdict,
) -> Decision
    requires caller { IsCaller procs.old slot }
    requires held { is_held verdict ≡ true }
    requires list { posts.IsEndingList ending.old.items }
    ensures list { posts.IsEndingList ending.new.items }
    ensures directories { (nodes : List (Option NodeAt)) → FitDirectories nodes procs.old → FitDirectories nodes procs.new }
    ensures slots { (d : Shared Open) → FitSlots d procs.old → FitSlots d procs.new }
    ensures does { (t : Tables) (row : Row) → t.processes ≡ procs.old → t.ending ≡ ending.old.items →
        check_of (caller_of (view_of t) slot) verdict ≡ first row.checks →
        Does (view_of t) (view_of (record t { processes = procs.new; ending = ending.new.items })) result row }
{
    if let Some((sig, to)) = verdict.signal(caller(procs, slot)) {
        post(procs, ending, sig, to);
    }
    verdict.decision()
}
