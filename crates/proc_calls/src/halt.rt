//! reboot(2), which only halts.
ghost use Rattle.std.specs.Prelude.{◌≡◌};
ghost use Rattle.proc_calls.specs.Halting.{halted_after};
ghost use Rattle.system_model.specs.Fit.{IsCaller};
ghost use Rattle.system_model.specs.ProcCalls.{halt_row};
ghost use Rattle.system_model.specs.Rows.{Does};
ghost use Rattle.system_model.specs.Tables.{Tables, view_of};

use call_words::{Decision, Rule};
use proc_table::ProcTable;
use system_model::caller;

/// Decides on a halt of the system (reboot(2)): answers 0, and then the system takes no more events.
///
/// Denied by `Super`, where the caller's uid is not 0.
pub fn do_halt(procs: &ProcTable, slot: u8) -> Decision
    requires caller { IsCaller procs.now slot }
    ensures does { (t : Tables) → t.processes ≡ procs.now →
        Does (view_of t) (view_of (record t { halted = halted_after t.halted result })) result (halt_row (view_of t) slot) }
{
    if caller(procs, slot).cred.uid != 0 {
        return Decision::denied(Rule::Super);
    }
    Decision::nothing()
}
