//! The call that a slot waits in, and whether its last process was ended.
ghost use Rattle.std.specs.Prelude.{◌≡◌, ◌<◌, option_copied};
ghost use Rattle.sys_types.specs.declared.limits.TheConstants.{SLOTS};
ghost use Rattle.proc_table.specs.Processes.{pending_at};
ghost use Rattle.system_model.specs.Effects.{on_processes, change, change_all};
ghost use Rattle.system_model.specs.ProcessEffects.{set_pending};
ghost use Rattle.system_model.specs.Step.{tell_if_left, is_begin_pending};
ghost use Rattle.system_model.specs.Tables.{view_of};
ghost use Rattle.kern_core.specs.Bounds.{RevokesNone};
ghost use Rattle.kern_core.specs.Pending.{is_sleep};

use crate::system::System;
use call_words::{Call, Decision};

/// Whether a decision is a sleep.
pub(crate) fn is_sleep(decision: &Decision) -> bool
    ensures { result ≡ is_sleep decision.now }
{
    matches!(decision, Decision::Sleep(_))
}

/// Whether a call, if there is one, is `begin`.
fn is_begin(call: Option<&Call>) -> bool
    ensures { result ≡ is_begin_pending (option_copied call.entry) }
{
    match call {
        Some(Call::Begin) => true,
        Some(_) | None => false,
    }
}

impl System {
    /// Whether a slot waits in `begin`.
    pub(crate) fn waits_to_begin(&self, slot: u8) -> bool
        ensures { result ≡ is_begin_pending (pending_at (view_of self.now).processes slot) }
    {
        is_begin(self.procs.pending(slot))
    }

    /// A slot waits in this call from now on, or in none.
    pub(crate) fn set_pending(&mut self, slot: u8, call: Option<Call>)
        requires { slot < SLOTS }
        ensures does { view_of self.new ≡ change (view_of self.old) (on_processes (set_pending slot call)) }
        ensures revokes { RevokesNone self.old self.new }
    {
        self.procs.set_pending(slot, call);
    }

    /// Tells that the last process of a slot was ended by a signal, where that was not told yet.
    pub(crate) fn tell_if_left(&mut self, slot: u8)
        requires { slot < SLOTS }
        ensures does { view_of self.new ≡ change_all (view_of self.old) (tell_if_left (view_of self.old) slot) }
        ensures revokes { RevokesNone self.old self.new }
    {
        if self.procs.is_left(slot) {
            self.procs.told(slot);
        }
    }
}
