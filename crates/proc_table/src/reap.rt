//! What a process learns of its children.
ghost use Rattle.std.specs.Prelude.{◌≡◌, ◌<◌, Ok, is_some, IsTrue, IfSome};
ghost use Rattle.std.specs.List.{list_any};
ghost use Rattle.sys_types.specs.declared.limits.TheConstants.{SLOTS};
ghost use Rattle.proc_table.specs.Processes as spec;
ghost use Rattle.proc_table.specs.Reaping as reaping;
ghost use Rattle.proc_table.specs.Roles.{has_role};

use crate::lookup::any_child;
use crate::order::Role;
use crate::proc::ProcState;
use crate::table::ProcTable;
use call_words::How;
use sys_types::{Rule, SLOTS};

impl ProcTable {
    /// The slot of the process of least pid with this role.
    fn least(&self, role: Role) -> Option<u8>
        ensures slot { result ≡ reaping.least (has_role role) self.now }
        ensures most { IfSome result (λ slot. slot < SLOTS) }
    {
        self.slots_by_pid(role).as_slice().first().copied()
    }

    /// Whether a pid has a child that a wait names.
    fn has_child(&self, parent: u32, who: u32) -> bool
        ensures { result ≡ list_any (λ s. spec.holds (reaping.is_child parent who) s.process) self.now.slots }
    {
        any_child(&self.places, parent, who)
    }

    /// Takes the zombie of a slot away, and says its pid and how it ended.
    fn reap_zombie(&mut self, slot: u8) -> Option<(u32, How)>
        requires { slot < SLOTS }
        ensures { (self.new, Ok result) ≡ reaping.reap_zombie self.old slot (spec.process_at self.old slot) }
    {
        let process = self.get(slot)?;
        let pid = process.pid;
        match process.state {
            ProcState::Running => None,
            ProcState::Zombie(how) => {
                self.places[usize::from(slot)].remove();
                Some((pid, how))
            }
        }
    }

    /// Marks the stop of a slot's process as told, and says its pid and which signal stopped it.
    fn report_stop(&mut self, slot: u8) -> Option<(u32, How)>
        requires { slot < SLOTS }
        ensures { (self.new, Ok result) ≡ reaping.report_stop self.old slot (spec.process_at self.old slot) }
    {
        let process = self.get(slot)?;
        let pid = process.pid;
        let sig = process.stopped?;
        self.places[usize::from(slot)].report();
        Some((pid, How::Stop(sig)))
    }

    /// Tells the stop of least pid among the children of a pid that a wait names, if there is one.
    fn report_least(&mut self, parent: u32, who: u32) -> Option<(u32, How)>
        ensures { (self.new, Ok result) ≡ reaping.report_or_none self.old (reaping.least (reaping.is_stopped_child parent who) self.old) }
    {
        let slot = self.least(Role::StoppedChild { parent, who })?;
        self.report_stop(slot)
    }

    /// What the running process of a slot learns of its children: the one of the pid `who`, or any where that is 0. The zombie of least pid
    /// is taken away, and its pid and how it ended are answered. Else, where `untraced` says so, the stop of least pid that no wait has
    /// told counts as told, and its pid and signal are answered. `None` comes exactly where there is no such news. It is refused by
    /// `NoChild` exactly where no child is the one that is asked, and then nothing changes. (wait4(2))
    pub fn reap(&mut self, caller: u8, who: u32, untraced: bool) -> Result<Option<(u32, How)>, Rule>
        requires slot { caller < SLOTS }
        requires running { IsTrue (is_some (spec.running_at self.old caller)) }
        ensures { (self.new, result) ≡ reaping.reap self.old caller who untraced }
    {
        let parent = self.pid_at(caller);
        if !self.has_child(parent, who) {
            return Err(Rule::NoChild);
        }
        if let Some(slot) = self.least(Role::Zombie { parent, who }) {
            return Ok(self.reap_zombie(slot));
        }
        if untraced {
            Ok(self.report_least(parent, who))
        } else {
            Ok(None)
        }
    }

    /// The pid of the zombie of a slot, and how it ended.
    fn ending_of(&self, slot: u8) -> Option<(u32, How)>
        ensures { Ok result ≡ (reaping.reap_zombie self.now slot (spec.process_at self.now slot)).1 }
    {
        let process = self.get(slot)?;
        match process.state {
            ProcState::Running => None,
            ProcState::Zombie(how) => Some((process.pid, how)),
        }
    }

    /// The pid of the process of a slot, and which signal stopped it.
    fn stop_of(&self, slot: u8) -> Option<(u32, How)>
        ensures { Ok result ≡ (reaping.report_stop self.now slot (spec.process_at self.now slot)).1 }
    {
        let process = self.get(slot)?;
        let sig = process.stopped?;
        Some((process.pid, How::Stop(sig)))
    }

    /// The stop of least pid among the children of a pid that a wait names, if there is one.
    fn least_stop(&self, parent: u32, who: u32) -> Option<(u32, How)>
        ensures { Ok result ≡ (reaping.report_or_none self.now (reaping.least (reaping.is_stopped_child parent who) self.now)).1 }
    {
        self.stop_of(self.least(Role::StoppedChild { parent, who })?)
    }

    /// What a wait of the process of a slot would learn of its children, while nothing changes: what `reap` would answer. It is refused by
    /// `NoChild` exactly where no child is the one of the pid `who`, or any where that is 0. (wait4(2))
    pub fn child_news(
        &self,
        caller: u8,
        who: u32,
        untraced: bool,
    ) -> Result<Option<(u32, How)>, Rule>
        ensures { result ≡ (reaping.reap self.now caller who untraced).1 }
    {
        let parent = self.pid_at(caller);
        if !self.has_child(parent, who) {
            return Err(Rule::NoChild);
        }
        if let Some(slot) = self.least(Role::Zombie { parent, who }) {
            return Ok(self.ending_of(slot));
        }
        if untraced {
            Ok(self.least_stop(parent, who))
        } else {
            Ok(None)
        }
    }
}
