//! The calls on what the process that asks is: setuid(2), setgid(2) and setgroups(2) in one, mac_set_proc(3), umask(2).
ghost use Rattle.std.specs.Prelude.{◌≡◌, List, Option};
ghost use Rattle.fd_table.specs.declared.open.Open.{Open};
ghost use Rattle.fd_table.specs.Shared.{Shared};
ghost use Rattle.tree_model.specs.Tree.{NodeAt};
ghost use Rattle.system_model.specs.CredCalls.{setcred_row, setproclabel_row, umask_row};
ghost use Rattle.system_model.specs.Fit.{FitDirectories, FitSlots, IsCaller};
ghost use Rattle.system_model.specs.Rows.{Does};
ghost use Rattle.system_model.specs.Tables.{Tables, view_of};

use acl_core::Cred;
use call_words::{Decision, Rule};
use label_core::{Subject, may_become};
use proc_table::ProcTable;
use system_model::caller;

/// The process becomes that of a user, a group and supplementary groups (setuid(2), setgid(2), setgroups(2)). Answers
/// 0.
///
/// Denied by `Super`, where the caller's uid is not 0.
pub fn do_setcred(procs: &mut ProcTable, slot: u8, cred: &Cred) -> Decision
    requires caller { IsCaller procs.old slot }
    ensures directories { (nodes : List (Option NodeAt)) → FitDirectories nodes procs.old → FitDirectories nodes procs.new }
    ensures slots { (files : Shared Open) → FitSlots files procs.old → FitSlots files procs.new }
    ensures does { (t : Tables) → t.processes ≡ procs.old →
        Does (view_of t) (view_of (record t { processes = procs.new })) result (setcred_row (view_of t) slot cred.now) }
{
    if caller(procs, slot).cred.uid != 0 {
        return Decision::denied(Rule::Super);
    }
    procs.set_cred(slot, cred.copy());
    Decision::nothing()
}

/// The process takes a label (mac_set_proc(3)). Answers 0.
///
/// Denied by `Proclabel`, where the caller's label does not let it become the other: a part of it is outside the
/// caller's range, or has the element `equal` that the caller's has not.
pub fn do_setproclabel(procs: &mut ProcTable, slot: u8, subject: &Subject) -> Decision
    requires caller { IsCaller procs.old slot }
    ensures directories { (nodes : List (Option NodeAt)) → FitDirectories nodes procs.old → FitDirectories nodes procs.new }
    ensures slots { (files : Shared Open) → FitSlots files procs.old → FitSlots files procs.new }
    ensures does { (t : Tables) → t.processes ≡ procs.old →
        Does (view_of t) (view_of (record t { processes = procs.new })) result (setproclabel_row (view_of t) slot subject.now) }
{
    if !may_become(&caller(procs, slot).label, subject) {
        return Decision::denied(Rule::Proclabel);
    }
    procs.set_label(slot, subject.copy());
    Decision::nothing()
}

/// umask(2): the bits of a mode that new nodes do not get from now on. Answers those before.
pub fn do_umask(procs: &mut ProcTable, slot: u8, mode: u16) -> Decision
    requires caller { IsCaller procs.old slot }
    ensures directories { (nodes : List (Option NodeAt)) → FitDirectories nodes procs.old → FitDirectories nodes procs.new }
    ensures slots { (files : Shared Open) → FitSlots files procs.old → FitSlots files procs.new }
    ensures does { (t : Tables) → t.processes ≡ procs.old →
        Does (view_of t) (view_of (record t { processes = procs.new })) result (umask_row (view_of t) slot mode) }
{
    let before = caller(procs, slot).umask;
    procs.set_umask(slot, mode);
    Decision::number(u32::from(before))
}
