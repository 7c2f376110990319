//! The first call of a process.
ghost use Rattle.std.specs.Prelude.{◌≡◌, List, Option};
ghost use Rattle.fd_table.specs.declared.open.Open.{Open};
ghost use Rattle.fd_table.specs.Shared.{Shared};
ghost use Rattle.tree_model.specs.Tree.{NodeAt};
ghost use Rattle.system_model.specs.Fit.{FitDirectories, FitSlots, IsCaller};
ghost use Rattle.system_model.specs.ProcCalls.{begin_row};
ghost use Rattle.system_model.specs.Rows.{Does};
ghost use Rattle.system_model.specs.Tables.{Tables, view_of};

use call_words::{Decision, Reply, Rule};
use proc_table::ProcTable;
use system_model::caller;

/// The process begins its program: answers the program and its arguments.
///
/// Denied by `Begun`, where it has begun since it was forked or, as pid 1, since the boot.
pub fn do_begin(procs: &mut ProcTable, slot: u8) -> Decision
    requires caller { IsCaller procs.old slot }
    ensures directories { (nodes : List (Option NodeAt)) → FitDirectories nodes procs.old → FitDirectories nodes procs.new }
    ensures slots { (files : Shared Open) → FitSlots files procs.old → FitSlots files procs.new }
    ensures does { (t : Tables) → t.processes ≡ procs.old →
        Does (view_of t) (view_of (record t { processes = procs.new })) result (begin_row (view_of t) slot) }
{
    let who = caller(procs, slot);
    if who.begun {
        return Decision::denied(Rule::Begun);
    }
    let image = who.image;
    let args = who.args.copy();
    procs.set_begun(slot);
    Decision::Answer(Reply::Image { image, args })
}
