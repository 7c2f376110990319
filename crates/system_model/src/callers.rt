//! The process that asks.
ghost use Rattle.std.specs.Prelude.{◌≡◌, Some};
ghost use Rattle.proc_table.specs.Processes.{running_at};
ghost use Rattle.proc_table.specs.Procs.{process_of};
ghost use Rattle.system_model.specs.Fit.{IsCaller};

use proc_table::{Proc, ProcTable};

/// The process of a slot, which is running.
pub fn caller(procs: &ProcTable, slot: u8) -> &Proc
    requires { IsCaller procs.now slot }
    ensures { running_at procs.now slot ≡ Some (process_of result.now) }
{
    match procs.running(slot) {
        Some(process) => process,
        None => unreachable!(),
    }
}
