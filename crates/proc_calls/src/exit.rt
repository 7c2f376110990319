//! _exit(2).
ghost use Rattle.std.specs.Prelude.{◌≡◌};
ghost use Rattle.proc_table.specs.Posts.{IsEndingList};
ghost use Rattle.system_model.specs.Fit.{IsCaller};
ghost use Rattle.system_model.specs.ProcCalls.{exit_row};
ghost use Rattle.system_model.specs.Rows.{Does};
ghost use Rattle.system_model.specs.Tables.{Tables, view_of};

use call_words::{Decision, How, Rule};
use proc_table::{EndingList, INIT, ProcTable, add_ending};
use system_model::caller;

/// _exit(2): the process is to be ended with a status of 8 bits, after the event. Answers 0.
///
/// Denied by `Init`, where its pid is 1.
pub fn do_exit(procs: &ProcTable, ending: &mut EndingList, slot: u8, status: u8) -> Decision
    requires caller { IsCaller procs.now slot }
    requires list { IsEndingList ending.old.items }
    ensures list { IsEndingList ending.new.items }
    ensures does { (t : Tables) → t.processes ≡ procs.now → t.ending ≡ ending.old.items →
        Does (view_of t) (view_of (record t { ending = ending.new.items })) result (exit_row (view_of t) slot status) }
{
    if caller(procs, slot).pid == INIT {
        return Decision::denied(Rule::Init);
    }
    add_ending(ending, slot, How::Exit(status));
    Decision::nothing()
}
