//! sigaction(2), sigwait(2), pause(3).
ghost use Rattle.std.specs.Prelude.{◌≡◌, List, Option};
ghost use Rattle.fd_table.specs.declared.open.Open.{Open};
ghost use Rattle.fd_table.specs.Shared.{Shared};
ghost use Rattle.tree_model.specs.Tree.{NodeAt};
ghost use Rattle.proc_table.specs.Posts.{is_fixed};
ghost use Rattle.system_model.specs.Fit.{FitDirectories, FitSlots, IsCaller};
ghost use Rattle.system_model.specs.Looks.{caller_of};
ghost use Rattle.system_model.specs.SignalCalls.{sigset_row, sigtake_row, pause_row};
ghost use Rattle.system_model.specs.Rows.{Does, first};
ghost use Rattle.system_model.specs.Tables.{Tables, view_of};
ghost use Rattle.system_model.specs.Verdicts.{check_of};

use call_words::{Action, Decision, Reason, Rule, Sig};
use proc_table::ProcTable;
use system_model::{Verdict, caller, sleep_verdict};

/// Whether a signal does the same whatever the action is.
fn is_fixed(sig: Sig) -> bool
    ensures { result ≡ is_fixed sig }
{
    matches!(sig, Sig::KILL | Sig::STOP)
}

/// sigaction(2): what the process does at a signal from now on. A caught one of that number that is pending goes.
/// Answers 0.
///
/// Denied by `SigFixed`, where the signal is KILL or STOP.
pub fn do_sigset(procs: &mut ProcTable, slot: u8, sig: Sig, action: Action) -> Decision
    requires caller { IsCaller procs.old slot }
    ensures directories { (nodes : List (Option NodeAt)) → FitDirectories nodes procs.old → FitDirectories nodes procs.new }
    ensures slots { (files : Shared Open) → FitSlots files procs.old → FitSlots files procs.new }
    ensures does { (t : Tables) → t.processes ≡ procs.old →
        Does (view_of t) (view_of (record t { processes = procs.new })) result (sigset_row (view_of t) slot sig action) }
{
    if is_fixed(sig) {
        return Decision::denied(Rule::SigFixed);
    }
    procs.set_action(slot, sig, action);
    Decision::nothing()
}

/// sigwait(2), which does not wait: the caught signal of the least number that is pending goes, and is answered; 0,
/// where none is.
pub fn do_sigtake(procs: &mut ProcTable, slot: u8) -> Decision
    requires caller { IsCaller procs.old slot }
    ensures directories { (nodes : List (Option NodeAt)) → FitDirectories nodes procs.old → FitDirectories nodes procs.new }
    ensures slots { (files : Shared Open) → FitSlots files procs.old → FitSlots files procs.new }
    ensures does { (t : Tables) → t.processes ≡ procs.old →
        Does (view_of t) (view_of (record t { processes = procs.new })) result (sigtake_row (view_of t) slot) }
{
    let Some(sig) = caller(procs, slot).least_caught() else {
        return Decision::nothing();
    };
    procs.drop_caught(slot, sig);
    Decision::number(u32::from(sig.number()))
}

/// What holds of a pause: it sleeps, or is refused by `Signal`, where a caught signal is pending.
pub fn pause_verdict(procs: &ProcTable, slot: u8) -> Verdict
    requires caller { IsCaller procs.now slot }
    ensures verdict { (t : Tables) → t.processes ≡ procs.now → check_of (caller_of (view_of t) slot) result ≡ first (pause_row (view_of t) slot).checks }
{
    sleep_verdict(caller(procs, slot), Reason::Pause)
}

/// pause(3): sleeps until a signal is caught.
///
/// Denied by `Signal`, where a caught signal is pending.
pub fn do_pause(procs: &ProcTable, slot: u8) -> Decision
    requires caller { IsCaller procs.now slot }
    ensures does { (t : Tables) → t.processes ≡ procs.now → Does (view_of t) (view_of t) result (pause_row (view_of t) slot) }
{
    pause_verdict(procs, slot).decision()
}
