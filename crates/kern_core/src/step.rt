//! One step of the system.
ghost use Rattle.std.specs.Prelude.{◌≡◌, true, None, OnOk, OnErr, ℕ, ◌+◌};
ghost use Rattle.call_words.specs.Events.{MayBeUsed, wake_list};
ghost use Rattle.system_model.specs.Rows.{Does, first};
ghost use Rattle.system_model.specs.State.{State};
ghost use Rattle.system_model.specs.Step.{event_row, row, step, view_after, answer_to, wakes};
ghost use Rattle.system_model.specs.Tables.{view_of};
ghost use Rattle.kern_core.specs.Bounds.{RevokesOnce, HasRoom, IsAfter, HasEventLeft};
ghost use Rattle.system_model.specs.Memory.{may_want_memory};
ghost use Rattle.system_laws.specs.PendingCalls.{AreFitCalls};
ghost use Rattle.system_laws.specs.Stands.{Stands};

use crate::system::System;
use crate::tell::tell_gone;
use call_words::{Decision, Event, Wakes};
use vnode_tree::NoMemory;

impl System {
    /// An event of a system that is not halted, by what it is.
    #[tactic(auto, using(crate::proofs::BoundLemmas::none_once))]
    fn dispatch(&mut self, event: &Event, decision: &mut Decision) -> Result<(), NoMemory>
        requires used { MayBeUsed event.now }
        requires room { HasRoom self.old }
        requires calls { AreFitCalls self.old.processes }
        ensures does { OnOk result (Does (view_of self.old) (view_of self.new) decision.new (event_row (view_of self.old) event.now)) }
        ensures revokes { RevokesOnce self.old self.new }
        ensures nothing { OnErr result (self.new ≡ self.old) }
        ensures memory { OnErr result (may_want_memory (view_of self.old) event.now ≡ true) }
        ensures free { OnErr result (first (event_row (view_of self.old) event.now).checks ≡ None) }
    {
        match event {
            Event::Call { slot, call } => return self.ask(*slot, call, decision),
            Event::Again { slot } => return self.try_again(*slot, decision),
            Event::Byte { line, byte } => self.byte(*line, *byte, decision),
            Event::Carrier { line, up } => self.carrier(*line, *up, decision),
            Event::Take { line, max } => self.take(*line, *max, decision),
            Event::Ended { line } => self.end(*line, decision),
        }
        Ok(())
    }

    /// An event, before what it ends is ended. After a halt each is gone.
    #[tactic(auto, using(crate::proofs::BoundLemmas::none_once))]
    pub(crate) fn do_event(
        &mut self,
        event: &Event,
        decision: &mut Decision,
    ) -> Result<(), NoMemory>
        requires used { MayBeUsed event.now }
        requires room { HasRoom self.old }
        requires calls { AreFitCalls self.old.processes }
        ensures does { OnOk result (Does (view_of self.old) (view_of self.new) decision.new (row (view_of self.old) event.now)) }
        ensures revokes { RevokesOnce self.old self.new }
        ensures nothing { OnErr result (self.new ≡ self.old) }
        ensures memory { OnErr result (may_want_memory (view_of self.old) event.now ≡ true) }
        ensures free { OnErr result (first (row (view_of self.old) event.now).checks ≡ None) }
    {
        if self.halted {
            tell_gone(decision);
            return Ok(());
        }
        self.dispatch(event, decision)
    }

    /// One step: what the system makes of an event, with all that it ends, what it answers, and who can go on then.
    ///
    /// Whatever state of the machine the system stood for, the answer is the machine's there, and then it stands for the machine's next
    /// state. `NoMemory`, where memory runs out, is the only error, and comes only at a write to a regular file of which no check holds; then
    /// nothing has changed. A trail has at most 2,147,483,648 events.
    pub(crate) fn step(
        &mut self,
        event: &Event,
        decision: &mut Decision,
        list: &mut Wakes,
    ) -> Result<(), NoMemory>
        requires used { MayBeUsed event.now }
        requires left { HasEventLeft self.old }
        // By what calls see.
        ensures seen { OnOk result (view_of self.new ≡ view_after (view_of self.old) event.now) }
        ensures answer { OnOk result (decision.new ≡ answer_to (view_of self.old) event.now) }
        ensures wakes { OnOk result (wake_list list.new ≡ wakes (view_of self.new)) }
        // By the state, with its names, tags and positions.
        ensures stands { OnOk result ((n : ℕ) (s : State) → Stands (view_of self.old) n s →
            Stands (view_of self.new) (n + 1) (step s (n + 1) event.now).0 × (decision.new ≡ (step s (n + 1) event.now).1)) }
        ensures after { OnOk result ((n : ℕ) → IsAfter n self.old → IsAfter (n + 1) self.new) }
        ensures nothing { OnErr result ((self.new ≡ self.old) × (list.new ≡ list.old)) }
        ensures memory { OnErr result (may_want_memory (view_of self.old) event.now ≡ true) }
        ensures free { OnErr result (first (row (view_of self.old) event.now).checks ≡ None) }
    {
        self.do_event(event, decision)?;
        self.work_endings();
        self.list_wakes(list);
        Ok(())
    }
}
