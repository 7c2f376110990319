//! wait4(2).
ghost use Rattle.std.specs.Prelude.{◌≡◌, List, Option};
ghost use Rattle.fd_table.specs.declared.open.Open.{Open};
ghost use Rattle.fd_table.specs.Shared.{Shared};
ghost use Rattle.tree_model.specs.Tree.{NodeAt};
ghost use Rattle.system_model.specs.Fit.{FitDirectories, FitSlots, IsCaller};
ghost use Rattle.system_model.specs.Looks.{caller_of};
ghost use Rattle.system_model.specs.ProcCalls.{child_answer, wait_row};
ghost use Rattle.system_model.specs.Rows.{Does, answer_of, first};
ghost use Rattle.system_model.specs.Tables.{Tables, view_of};
ghost use Rattle.system_model.specs.Verdicts.{check_of};

use call_words::{Decision, How, Reason, Reply, Rule, WaitFlags};
use proc_table::ProcTable;
use system_model::{Verdict, caller, sleep_verdict};

/// The first check of a wait that holds: it is refused by `NoChild`, where no child is the one of the pid, or any where
/// that is 0; it answers 0, where there is no news of such a child and it may not sleep; else it sleeps where there is
/// no news, or is refused by `Signal`, where a caught signal is pending.
pub fn wait_verdict(procs: &ProcTable, slot: u8, pid: u32, flags: WaitFlags) -> Verdict
    requires caller { IsCaller procs.now slot }
    ensures verdict { (t : Tables) → t.processes ≡ procs.now →
        check_of (caller_of (view_of t) slot) result ≡ first (wait_row (view_of t) slot pid flags).checks }
{
    let Ok(news) = procs.child_news(slot, pid, flags.untraced) else {
        return Verdict::Refused(Rule::NoChild);
    };
    if news.is_some() {
        return Verdict::Go;
    }
    if flags.no_hang {
        return Verdict::Zero;
    }
    sleep_verdict(caller(procs, slot), Reason::Child)
}

/// wait4(2): answers the pid of a child and how it ended, of the zombie of least pid, which is no more then; else,
/// where `untraced` says so, the stop of least pid that no wait has told. The child is the one of a pid, or any where
/// that is 0. It sleeps where there is no such news, or answers 0, where `no_hang` says so.
///
/// Denied by the first rule that holds: `NoChild`, where there is no such child; `Signal`, where it would sleep and a
/// caught signal is pending.
pub fn do_wait(procs: &mut ProcTable, slot: u8, pid: u32, flags: WaitFlags) -> Decision
    requires caller { IsCaller procs.old slot }
    ensures directories { (nodes : List (Option NodeAt)) → FitDirectories nodes procs.old → FitDirectories nodes procs.new }
    ensures slots { (files : Shared Open) → FitSlots files procs.old → FitSlots files procs.new }
    ensures does { (t : Tables) → t.processes ≡ procs.old →
        Does (view_of t) (view_of (record t { processes = procs.new })) result (wait_row (view_of t) slot pid flags) }
{
    let verdict = wait_verdict(procs, slot, pid, flags);
    if verdict.is_held() {
        return verdict.decision();
    }
    child_answer(procs.reap(slot, pid, flags.untraced))
}

/// What news of a child answers; without news, that an event was noted.
fn child_answer(news: Result<Option<(u32, How)>, Rule>) -> Decision
    ensures { result ≡ answer_of (child_answer news) }
{
    match news {
        Ok(Some((pid, how))) => Decision::Answer(Reply::Child { pid, how }),
        Ok(None) | Err(_) => Decision::Noted,
    }
}
