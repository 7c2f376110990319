//! setsid(2), setpgid(2).
ghost use Rattle.std.specs.Prelude.{◌≡◌, List, Option};
ghost use Rattle.fd_table.specs.declared.open.Open.{Open};
ghost use Rattle.fd_table.specs.Shared.{Shared};
ghost use Rattle.tree_model.specs.Tree.{NodeAt};
ghost use Rattle.std.specs.Prelude.{◌==◌, if◌then◌else◌, option_map, option_copied};
ghost use Rattle.proc_table.specs.Jobs as jobs;
ghost use Rattle.proc_table.specs.Procs.{process_of};
ghost use Rattle.proc_calls.specs.Joining.{setpgid_rule};
ghost use Rattle.system_model.specs.Fit.{FitDirectories, FitSlots, IsCaller};
ghost use Rattle.system_model.specs.ProcCalls.{setpgid_row, setsid_row};
ghost use Rattle.system_model.specs.Rows.{Does};
ghost use Rattle.system_model.specs.Tables.{Tables, view_of};

use call_words::{Decision, Rule};
use proc_table::{Proc, ProcTable};
use system_model::caller;

/// setsid(2): the process leads a session and a group of its own, both of the number of its pid, which is answered.
///
/// Denied by `Leader`, where a running process is of the group of that number.
pub fn do_setsid(procs: &mut ProcTable, slot: u8) -> Decision
    requires caller { IsCaller procs.old slot }
    ensures directories { (nodes : List (Option NodeAt)) → FitDirectories nodes procs.old → FitDirectories nodes procs.new }
    ensures slots { (files : Shared Open) → FitSlots files procs.old → FitSlots files procs.new }
    ensures does { (t : Tables) → t.processes ≡ procs.old →
        Does (view_of t) (view_of (record t { processes = procs.new })) result (setsid_row (view_of t) slot) }
{
    let pid = caller(procs, slot).pid;
    if procs.has_member(pid) {
        return Decision::denied(Rule::Leader);
    }
    procs.set_session(slot);
    Decision::number(pid)
}

/// A pid, of which 0 is the caller's.
fn named_pid(who: &Proc, pid: u32) -> u32
    ensures { result ≡ (if pid == 0 then (process_of who.now).pid else pid) }
{
    if pid == 0 { who.pid } else { pid }
}

/// Whether a process is the caller or a child of it.
fn is_target(who: &Proc, target: &Proc) -> bool
    ensures { result ≡ jobs.is_target (process_of who.now) (process_of target.now) }
{
    target.pid == who.pid || target.parent == who.pid
}

/// The process that a pid names, of which 0 is the caller's, where it is the caller or a running child of it.
fn setpgid_target<'a>(procs: &'a ProcTable, who: &Proc, pid: u32) -> Option<&'a Proc>
    ensures { option_map process_of (option_copied result) ≡ jobs.setpgid_target procs.now (process_of who.now) pid }
{
    let target = procs.running_by_pid(named_pid(who, pid))?;
    if is_target(who, target) {
        Some(target)
    } else {
        None
    }
}

/// A group of a number, of which 0 is the target's pid.
fn group_for(target: &Proc, group: u32) -> u32
    ensures { result ≡ jobs.group_for (process_of target.now) group }
{
    if group == 0 { target.pid } else { group }
}

/// The first rule by which a target does not join a group: `ChildExec`, where it is another process, which has called
/// execve(2); `Leader`, where it leads a session; `Session`, where it is of another session than the caller; `Group`,
/// where the number is neither the target's own pid nor that of a group in its session.
fn setpgid_rule(procs: &ProcTable, who: &Proc, target: &Proc, group: u32) -> Option<Rule>
    ensures { result ≡ setpgid_rule procs.now (process_of who.now) (process_of target.now) group }
{
    if target.pid != who.pid && target.execed {
        return Some(Rule::ChildExec);
    }
    if target.pid == target.session {
        return Some(Rule::Leader);
    }
    if target.session != who.session {
        return Some(Rule::Session);
    }
    if group != target.pid && !procs.has_member_in(group, target.session) {
        return Some(Rule::Group);
    }
    None
}

/// setpgid(2): the caller or a running child of it, which a pid names, of which 0 is the caller's, joins a group, of
/// which 0 is the one of its own pid. Answers 0.
///
/// Denied by the first rule that holds: `NoProcess`, where the pid names neither; `ChildExec`, where it is a child that
/// has called execve(2); `Leader`, where it leads a session; `Session`, where it is of another session than the caller;
/// `Group`, where the group is neither its own nor one of its session.
pub fn do_setpgid(procs: &mut ProcTable, slot: u8, pid: u32, group: u32) -> Decision
    requires caller { IsCaller procs.old slot }
    ensures directories { (nodes : List (Option NodeAt)) → FitDirectories nodes procs.old → FitDirectories nodes procs.new }
    ensures slots { (files : Shared Open) → FitSlots files procs.old → FitSlots files procs.new }
    ensures does { (t : Tables) → t.processes ≡ procs.old →
        Does (view_of t) (view_of (record t { processes = procs.new })) result (setpgid_row (view_of t) slot pid group) }
{
    let who = caller(procs, slot);
    let Some(target) = setpgid_target(procs, who, pid) else {
        return Decision::denied(Rule::NoProcess);
    };
    let joined = group_for(target, group);
    if let Some(rule) = setpgid_rule(procs, who, target, joined) {
        return Decision::denied(rule);
    }
    let place = procs.slot_of(target.pid).unwrap_or(slot);
    procs.set_group(place, joined);
    Decision::nothing()
}
