//! Whom a process sees, and whom it may signal.
ghost use Rattle.std.specs.Prelude.{◌≡◌, ◌<◌, ◌≤◌, true, length, filter, filter_map, option_and_then, is_some};
ghost use Rattle.sys_types.specs.declared.limits.TheConstants.{SLOTS};
ghost use Rattle.proc_table.specs.Processes as spec;
ghost use Rattle.proc_table.specs.Posts as posts;
ghost use Rattle.proc_table.specs.Kills as kills;
ghost use Rattle.proc_table.specs.Procs.{process_of};

use crate::order::{Role, is_to};
use crate::post::EndingList;
use crate::proc::Proc;
use crate::table::ProcTable;
use arrayvec::ArrayVec;
use call_words::To;
use label_core::dominates;
use sys_types::{Rule, SLOTS, Sig};

/// Pids, at most one for each slot.
pub type Pids = ArrayVec<u32, SLOTS>;

impl Proc {
    /// Whether it sees a process: its active element dominates that of the process (mac_mls(4)).
    pub fn sees(&self, process: &Proc) -> bool
        ensures { result ≡ kills.is_seen (process_of self.now) (process_of process.now) }
    {
        dominates(self.label.active(), process.label.active())
    }

    /// The rule by which it may not signal a process that it sees, if there is one: `LabelWrite` where the active element of the process
    /// does not dominate its own, else `SigOwner` where the process is another user's and it is not the superuser.
    pub fn kill_rule(&self, process: &Proc) -> Option<Rule>
        ensures { result ≡ kills.kill_rule (process_of self.now) (process_of process.now) }
    {
        if !dominates(process.label.active(), self.label.active()) {
            return Some(Rule::LabelWrite);
        }
        if process.cred.uid != self.cred.uid && self.cred.uid != 0 {
            return Some(Rule::SigOwner);
        }
        None
    }
}

impl ProcTable {
    /// Whether a slot has a process that another sees.
    fn is_seen_at(&self, slot: u8, who: &Proc) -> bool
        ensures { result ≡ spec.holds (kills.is_seen (process_of who.now)) (spec.process_at self.now slot) }
    {
        match self.get(slot) {
            None => false,
            Some(process) => who.sees(process),
        }
    }

    /// Those of these slots whose processes another sees.
    fn seen_among(&self, slots: &[u8], who: &Proc) -> ArrayVec<u8, SLOTS>
        requires { length slots.now ≤ SLOTS }
        ensures { result.items ≡ filter (λ slot. spec.holds (kills.is_seen (process_of who.now)) (spec.process_at self.now slot)) slots.now }
    {
        let mut chosen = ArrayVec::new();
        for slot in slots {
            if self.is_seen_at(*slot, who) {
                chosen.push(*slot);
            }
        }
        chosen
    }

    /// The slots of the processes that another sees, zombies too, in rising order of their pids (ps(1)).
    pub fn slots_seen(&self, who: &Proc) -> ArrayVec<u8, SLOTS>
        ensures slots { result.items ≡ filter (λ slot. spec.holds (kills.is_seen (process_of who.now)) (spec.process_at self.now slot))
            (spec.slots_by_pid (λ p. true) self.now) }
        ensures processes { filter_map (spec.with_process self.now) result.items ≡ kills.processes_seen self.now (process_of who.now) }
    {
        let slots = self.slots_by_pid(Role::Any);
        self.seen_among(slots.as_slice(), who)
    }

    /// Whether a slot has a process that is named and that another sees.
    fn is_target_at(&self, slot: u8, who: &Proc, to: To) -> bool
        ensures { result ≡ spec.holds (kills.is_named_and_seen (process_of who.now) to) (spec.process_at self.now slot) }
    {
        match self.get(slot) {
            None => false,
            Some(process) => is_to(process, to) && who.sees(process),
        }
    }

    /// Those of these slots whose processes are named and seen.
    fn targets_among(&self, slots: &[u8], who: &Proc, to: To) -> ArrayVec<u8, SLOTS>
        requires { length slots.now ≤ SLOTS }
        ensures { result.items
            ≡ filter (λ slot. spec.holds (kills.is_named_and_seen (process_of who.now) to) (spec.process_at self.now slot)) slots.now }
    {
        let mut chosen = ArrayVec::new();
        for slot in slots {
            if self.is_target_at(*slot, who, to) {
                chosen.push(*slot);
            }
        }
        chosen
    }

    /// The slots of the running processes that are named and seen, in rising order of their pids.
    fn targets(&self, who: &Proc, to: To) -> ArrayVec<u8, SLOTS>
        ensures { result.items ≡ filter (λ slot. spec.holds (kills.is_named_and_seen (process_of who.now) to) (spec.process_at self.now slot))
            (spec.slots_by_pid spec.is_running self.now) }
    {
        let slots = self.slots_by_pid(Role::Running);
        self.targets_among(slots.as_slice(), who, to)
    }

    /// The rule by which a process may not signal that of a slot.
    fn kill_rule_at(&self, slot: u8, who: &Proc) -> Option<Rule>
        ensures { result ≡ option_and_then (kills.kill_rule (process_of who.now)) (spec.process_at self.now slot) }
    {
        who.kill_rule(self.get(slot)?)
    }

    /// The pid of the process of a slot, where another may signal it.
    fn receiver_pid(&self, slot: u8, who: &Proc) -> Option<u32>
        ensures { result ≡ option_and_then (kills.receiver_pid (process_of who.now)) (spec.process_at self.now slot) }
    {
        let process = self.get(slot)?;
        if who.kill_rule(process).is_some() {
            return None;
        }
        Some(process.pid)
    }

    /// The pids of the processes of these slots that another may signal.
    fn receivers_among(&self, slots: &[u8], who: &Proc) -> Pids
        requires { length slots.now ≤ SLOTS }
        ensures { result.items
            ≡ filter_map (λ slot. option_and_then (kills.receiver_pid (process_of who.now)) (spec.process_at self.now slot)) slots.now }
    {
        let mut pids = ArrayVec::new();
        for slot in slots {
            if let Some(pid) = self.receiver_pid(*slot, who) {
                pids.push(pid);
            }
        }
        pids
    }

    /// The pids of the running processes that a pid or a group names and that a process sees and may signal, in rising order. (kill(2))
    pub fn pids_to_signal(&self, who: &Proc, to: To) -> Pids
        ensures { result.items ≡ kills.pids_to_signal self.now (process_of who.now) to }
    {
        let targets = self.targets(who, to);
        self.receivers_among(targets.as_slice(), who)
    }

    /// Why a process may not signal those that a pid or a group names: by `NoProcess` where it sees no running one of them; where it may
    /// signal none of those that it sees, by the rule for the one of least pid. `None` comes exactly where it may signal one. (kill(2))
    pub fn kill_refusal(&self, who: &Proc, to: To) -> Option<Rule>
        ensures { result ≡ kills.kill_refusal (process_of who.now) (kills.targets self.now (process_of who.now) to) }
    {
        let targets = self.targets(who, to);
        let Some(first) = targets.as_slice().first() else {
            return Some(Rule::NoProcess);
        };
        if !self.receivers_among(targets.as_slice(), who).is_empty() {
            return None;
        }
        self.kill_rule_at(*first, who)
    }

    /// Posts a signal to the running processes of these pids, one after the other, as `post` does to each. The list `ending` holds slots
    /// below 32, and none twice. (kill(2))
    pub fn post_to_each(&mut self, sig: Sig, pids: &[u32], ending: &mut EndingList)
        requires { posts.IsEndingList ending.old.items }
        ensures posted { posts.table_and_list self.new ending.new.items
            ≡ kills.post_to_each sig pids.now (posts.table_and_list self.old ending.old.items) }
        ensures list { posts.IsEndingList ending.new.items }
    {
        for pid in pids {
            self.post(sig, To::Pid(*pid), ending);
        }
    }
}
