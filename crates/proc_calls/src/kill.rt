//! kill(2).
ghost use Rattle.std.specs.Prelude.{◌≡◌, List, Option};
ghost use Rattle.fd_table.specs.declared.open.Open.{Open};
ghost use Rattle.fd_table.specs.Shared.{Shared};
ghost use Rattle.tree_model.specs.Tree.{NodeAt};
ghost use Rattle.proc_table.specs.Posts.{IsEndingList};
ghost use Rattle.system_model.specs.Fit.{FitDirectories, FitSlots, IsCaller};
ghost use Rattle.system_model.specs.SignalCalls.{kill_row};
ghost use Rattle.system_model.specs.Rows.{Does};
ghost use Rattle.system_model.specs.Tables.{Tables, view_of};

use call_words::{Decision, Sig, To};
use proc_table::{EndingList, ProcTable};
use system_model::caller;

/// kill(2): a signal is posted to each running process that a pid or a group names and that the caller sees and may
/// signal, in rising order of their pids. Answers 0. Those that it ends are ended after the event.
///
/// Denied by the first rule that holds: `NoProcess`, where the caller sees no running one of them; and where it may
/// signal none of those that it sees, the rule for the one of least pid, which is `LabelWrite` where that one's active
/// element does not dominate the caller's, else `SigOwner`, where it is another user's and the caller is not the
/// superuser. Then nothing changes.
pub fn do_kill(
    procs: &mut ProcTable,
    ending: &mut EndingList,
    slot: u8,
    to: To,
    sig: Sig,
) -> Decision
    requires caller { IsCaller procs.old slot }
    requires list { IsEndingList ending.old.items }
    ensures directories { (nodes : List (Option NodeAt)) → FitDirectories nodes procs.old → FitDirectories nodes procs.new }
    ensures slots { (files : Shared Open) → FitSlots files procs.old → FitSlots files procs.new }
    ensures list { IsEndingList ending.new.items }
    ensures does { (t : Tables) → t.processes ≡ procs.old → t.ending ≡ ending.old.items →
        Does (view_of t) (view_of (record t { processes = procs.new; ending = ending.new.items })) result (kill_row (view_of t) slot to sig) }
{
    let who = caller(procs, slot);
    if let Some(rule) = procs.kill_refusal(who, to) {
        return Decision::denied(rule);
    }
    let pids = procs.pids_to_signal(who, to);
    procs.post_to_each(sig, pids.as_slice(), ending);
    Decision::nothing()
}
