//! What stands before and behind a call: the call of a process that is stopped, calls that wait, and slots without a process.
ghost use Rattle.std.specs.Prelude.{◌≡◌, ◌<◌, true, Some, None, OnOk, OnErr};
ghost use Rattle.sys_types.specs.declared.limits.TheConstants.{SLOTS};
ghost use Rattle.call_words.specs.Calls.{HasFitMode};
ghost use Rattle.proc_table.specs.Processes.{running_at, pending_at};
ghost use Rattle.system_model.specs.Fit.{IsCaller};
ghost use Rattle.system_model.specs.Looks.{caller_of};
ghost use Rattle.system_model.specs.Rows.{Does, first};
ghost use Rattle.system_model.specs.Step.{run_row, enter_row, retry_row, again_row};
ghost use Rattle.system_model.specs.Tables.{view_of};
ghost use Rattle.kern_core.specs.Bounds.{RevokesNone, RevokesOnce, HasRoom};
ghost use Rattle.system_model.specs.Memory.{wants_memory, pending_wants};
ghost use Rattle.system_laws.specs.PendingCalls.{IsFitCall};

use crate::pending::is_sleep;
use crate::system::System;
use crate::tell::{tell_denied, tell_gone, tell_sleep};
use call_words::{Call, Decision, Reason, Rule};
use system_model::caller;
use vnode_tree::NoMemory;

impl System {
    /// A call of a process, which sleeps while it is stopped.
    fn run(&mut self, slot: u8, call: &Call, decision: &mut Decision) -> Result<(), NoMemory>
        requires caller { IsCaller self.old.processes slot }
        requires mode { HasFitMode call.now }
        requires room { HasRoom self.old }
        ensures does { OnOk result (Does (view_of self.old) (view_of self.new) decision.new
            (run_row (view_of self.old) slot (caller_of (view_of self.old) slot) call.now)) }
        ensures revokes { RevokesOnce self.old self.new }
        ensures nothing { OnErr result (self.new ≡ self.old) }
        ensures memory { OnErr result (wants_memory (view_of self.old) slot call.now ≡ true) }
        ensures free { OnErr result (first (run_row (view_of self.old) slot (caller_of (view_of self.old) slot) call.now).checks ≡ None) }
    {
        if caller(&self.procs, slot).is_stopped() {
            tell_sleep(decision, Reason::Stop);
            return Ok(());
        }
        self.do_call(slot, call, decision)
    }

    /// A call that is asked now. It is pending from then on, where it sleeps.
    ///
    /// Denied by `Asleep`, where the slot waits in a call, and else by the rules of the call.
    pub(crate) fn enter(
        &mut self,
        slot: u8,
        call: &Call,
        decision: &mut Decision,
    ) -> Result<(), NoMemory>
        requires caller { IsCaller self.old.processes slot }
        requires mode { HasFitMode call.now }
        requires room { HasRoom self.old }
        ensures does { OnOk result (Does (view_of self.old) (view_of self.new) decision.new
            (enter_row (view_of self.old) slot call.now (Some (caller_of (view_of self.old) slot)))) }
        ensures revokes { RevokesOnce self.old self.new }
        ensures nothing { OnErr result (self.new ≡ self.old) }
        ensures memory { OnErr result (wants_memory (view_of self.old) slot call.now ≡ true) }
        ensures free { OnErr result (first (enter_row (view_of self.old) slot call.now (Some (caller_of (view_of self.old) slot))).checks ≡ None) }
    {
        if self.procs.pending(slot).is_some() {
            tell_denied(decision, Rule::Asleep);
            return Ok(());
        }
        self.run(slot, call, decision)?;
        if is_sleep(decision) {
            self.set_pending(slot, Some(call.copy()));
        }
        Ok(())
    }

    /// The call that a slot waits in is tried again. It is pending no more, where it does not sleep.
    ///
    /// Denied by `Awake`, where the slot waits in no call, and else by the rules of the call.
    pub(crate) fn retry(&mut self, slot: u8, decision: &mut Decision) -> Result<(), NoMemory>
        requires caller { IsCaller self.old.processes slot }
        requires mode { IsFitCall (pending_at self.old.processes slot) }
        requires room { HasRoom self.old }
        ensures does { OnOk result (Does (view_of self.old) (view_of self.new) decision.new
            (retry_row (view_of self.old) slot (caller_of (view_of self.old) slot) (pending_at (view_of self.old).processes slot))) }
        ensures revokes { RevokesOnce self.old self.new }
        ensures nothing { OnErr result (self.new ≡ self.old) }
        ensures memory { OnErr result (pending_wants (view_of self.old) slot (pending_at (view_of self.old).processes slot) ≡ true) }
        ensures free { OnErr result
            (first (retry_row (view_of self.old) slot (caller_of (view_of self.old) slot) (pending_at (view_of self.old).processes slot)).checks ≡ None) }
    {
        let Some(pending) = self.procs.pending(slot) else {
            tell_denied(decision, Rule::Awake);
            return Ok(());
        };
        let call = pending.copy();
        self.run(slot, &call, decision)?;
        if !is_sleep(decision) {
            self.set_pending(slot, None);
        }
        Ok(())
    }

    /// A call of a slot without a running process is gone; but `begin` sleeps until there is one.
    pub(crate) fn enter_empty(&mut self, slot: u8, call: &Call, decision: &mut Decision)
        requires { slot < SLOTS }
        ensures does { Does (view_of self.old) (view_of self.new) decision.new (enter_row (view_of self.old) slot call.now None) }
        ensures revokes { RevokesNone self.old self.new }
    {
        self.tell_if_left(slot);
        if matches!(call, Call::Begin) {
            self.set_pending(slot, Some(Call::Begin));
            return tell_sleep(decision, Reason::Begin);
        }
        self.set_pending(slot, None);
        tell_gone(decision);
    }

    /// So is the call that such a slot waits in, where it is tried again.
    pub(crate) fn retry_empty(&mut self, slot: u8, decision: &mut Decision)
        requires { slot < SLOTS }
        ensures does { Does (view_of self.old) (view_of self.new) decision.new (again_row (view_of self.old) slot None) }
        ensures revokes { RevokesNone self.old self.new }
    {
        let begins = self.waits_to_begin(slot);
        self.tell_if_left(slot);
        if begins {
            return tell_sleep(decision, Reason::Begin);
        }
        self.set_pending(slot, None);
        tell_gone(decision);
    }

    /// A call that a slot asks now.
    pub(crate) fn ask(
        &mut self,
        slot: u8,
        call: &Call,
        decision: &mut Decision,
    ) -> Result<(), NoMemory>
        requires slot { slot < SLOTS }
        requires mode { HasFitMode call.now }
        requires room { HasRoom self.old }
        ensures does { OnOk result (Does (view_of self.old) (view_of self.new) decision.new
            (enter_row (view_of self.old) slot call.now (running_at (view_of self.old).processes slot))) }
        ensures revokes { RevokesOnce self.old self.new }
        ensures nothing { OnErr result (self.new ≡ self.old) }
        ensures memory { OnErr result (wants_memory (view_of self.old) slot call.now ≡ true) }
        ensures free { OnErr result (first (enter_row (view_of self.old) slot call.now (running_at (view_of self.old).processes slot)).checks ≡ None) }
    {
        if self.procs.running(slot).is_some() {
            return self.enter(slot, call, decision);
        }
        self.enter_empty(slot, call, decision);
        Ok(())
    }

    /// The call that a slot waits in, tried again.
    pub(crate) fn try_again(&mut self, slot: u8, decision: &mut Decision) -> Result<(), NoMemory>
        requires slot { slot < SLOTS }
        requires mode { IsFitCall (pending_at self.old.processes slot) }
        requires room { HasRoom self.old }
        ensures does { OnOk result (Does (view_of self.old) (view_of self.new) decision.new
            (again_row (view_of self.old) slot (running_at (view_of self.old).processes slot))) }
        ensures revokes { RevokesOnce self.old self.new }
        ensures nothing { OnErr result (self.new ≡ self.old) }
        ensures memory { OnErr result (pending_wants (view_of self.old) slot (pending_at (view_of self.old).processes slot) ≡ true) }
        ensures free { OnErr result (first (again_row (view_of self.old) slot (running_at (view_of self.old).processes slot)).checks ≡ None) }
    {
        if self.procs.running(slot).is_some() {
            return self.retry(slot, decision);
        }
        self.retry_empty(slot, decision);
        Ok(())
    }
}
