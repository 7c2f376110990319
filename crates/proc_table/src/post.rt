//! Posts of signals.
ghost use Rattle.std.specs.Prelude.{◌≡◌, ◌==◌, ◌<◌, ◌&&◌, All};
ghost use Rattle.std.specs.List.{list_any};
ghost use Rattle.sys_types.specs.declared.limits.TheConstants.{SLOTS};
ghost use Rattle.proc_table.specs.Processes as spec;
ghost use Rattle.proc_table.specs.Posts as posts;
ghost use Rattle.proc_table.specs.Procs.{process_of};

use crate::order::Role;
use crate::place::Place;
use crate::proc::{INIT, Proc};
use crate::table::ProcTable;
use arrayvec::ArrayVec;
use call_words::{Action, How, To};
use sys_types::{SLOTS, Sig};

/// What a signal does to a process.
#[derive(Clone, Copy, PartialEq, Eq)]
pub(crate) enum Disposition {
    /// It is put on the list of those to be ended.
    End,
    /// It is stopped.
    Stop,
    /// The signal becomes pending.
    Catch,
    /// Nothing.
    Nothing,
}

/// What a signal does by default (signal(3)).
fn by_default(sig: Sig, orphaned: bool) -> Disposition
    ensures { result ≡ posts.by_default sig orphaned }
{
    match sig {
        Sig::CHLD | Sig::CONT => Disposition::Nothing,
        Sig::TSTP | Sig::TTIN | Sig::TTOU if orphaned => Disposition::Nothing,
        Sig::TSTP | Sig::TTIN | Sig::TTOU | Sig::STOP => Disposition::Stop,
        _ => Disposition::End,
    }
}

/// What it does by the action of the process.
fn by_action(action: Action, sig: Sig, orphaned: bool) -> Disposition
    ensures { result ≡ posts.by_action action sig orphaned }
{
    match action {
        Action::Ignore => Disposition::Nothing,
        Action::Catch => Disposition::Catch,
        Action::Normal => by_default(sig, orphaned),
    }
}

/// Whether a signal does the same whatever the action is.
fn is_fixed(sig: Sig) -> bool
    ensures { result ≡ posts.is_fixed sig }
{
    matches!(sig, Sig::KILL | Sig::STOP)
}

/// Pid 1 is neither ended nor stopped.
fn unless_init(pid: u32, disposition: Disposition) -> Disposition
    ensures { result ≡ posts.unless_init pid disposition }
{
    if pid == INIT && disposition != Disposition::Catch {
        return Disposition::Nothing;
    }
    disposition
}

/// Whether the process of a slot stands on the list of those to be ended.
fn is_ending(ending: &[(u8, How)], slot: u8) -> bool
    ensures { result ≡ posts.is_ending ending.now slot }
{
    ending.iter().any(|(other, _)| *other == slot)
}

/// Those that are to be ended when all posts of an event are through, each slot with how, in the order in which they are ended.
pub type EndingList = ArrayVec<(u8, How), SLOTS>;

/// Puts the process of a slot behind those on the list of those to be ended, with how it ends, unless it stands there. The list holds
/// slots below 32, and none twice.
pub fn add_ending(ending: &mut EndingList, slot: u8, how: How)
    requires slot { slot < SLOTS }
    requires list { posts.IsEndingList ending.old.items }
    ensures added { ending.new.items ≡ posts.add_ending ending.old.items slot how }
    ensures list { posts.IsEndingList ending.new.items }
{
    if !is_ending(ending.as_slice(), slot) {
        ending.push((slot, how));
    }
}

impl ProcTable {
    /// Whether a process has its parent in its session, in another group.
    fn has_parent_near(&self, process: &Proc) -> bool
        ensures { result ≡ spec.has_parent_near self.now (process_of process.now) }
    {
        match self.running_by_pid(process.parent) {
            None => false,
            Some(parent) => parent.session == process.session && parent.group != process.group,
        }
    }

    /// Whether a slot has a running member of a group that has its parent in its session, in another group.
    fn is_anchored(&self, place: &Place, group: u32) -> bool
        ensures { result ≡ spec.holds (λ p. spec.is_running p && (p.group == group && spec.has_parent_near self.now p)) place.now.process }
    {
        match place.process() {
            None => false,
            Some(process) => process.is_running()
                && process.group == group
                && self.has_parent_near(process),
        }
    }

    /// Whether some of these slots has such a member.
    fn any_anchored(&self, places: &[Place], group: u32) -> bool
        ensures { result ≡ list_any (λ s. spec.holds (λ p. spec.is_running p && (p.group == group && spec.has_parent_near self.now p)) s.process) places.now }
    {
        for place in places {
            if self.is_anchored(place, group) {
                return true;
            }
        }
        false
    }

    /// Whether a process group is orphaned: the parent of each of its running members is in the group, in another session, or does not
    /// run, as that of pid 1. A group without a running member is. (termios(4), "Orphaned Process Groups")
    pub fn orphaned(&self, group: u32) -> bool
        ensures { result ≡ spec.is_orphaned self.now group }
    {
        !self.any_anchored(&self.places, group)
    }

    /// What a signal does to a process.
    #[tactic(auto, unfolding(crate::specs::Posts::disposition_of))]
    fn disposition_of(&self, process: &Proc, sig: Sig) -> Disposition
        ensures { result ≡ posts.disposition_of self.now (process_of process.now) sig }
    {
        let action = if is_fixed(sig) {
            Action::Normal
        } else {
            process.actions.get(sig)
        };
        unless_init(
            process.pid,
            by_action(action, sig, self.orphaned(process.group)),
        )
    }

    /// Continues the process of a slot where the signal is CONT.
    fn continue_at(&mut self, sig: Sig, slot: u8)
        requires { slot < SLOTS }
        ensures { self.new ≡ posts.continue_at sig self.old slot }
    {
        if sig == Sig::CONT {
            self.places[usize::from(slot)].continue_on();
        }
    }

    /// Posts CHLD to a parent: it becomes pending where the parent catches it.
    #[tactic(auto, unfolding(crate::specs::Posts::post_child))]
    pub(crate) fn post_child(&mut self, parent: u32)
        ensures { self.new ≡ posts.post_child self.old parent }
    {
        let Some(slot) = self.slot_of(parent) else {
            return;
        };
        if self.catches_child(slot) {
            self.places[usize::from(slot)].add_caught(Sig::CHLD);
        }
    }

    /// Whether a slot has a running process that catches CHLD.
    fn catches_child(&self, slot: u8) -> bool
        ensures { result ≡ spec.holds posts.catches_child (spec.running_at self.now slot) }
    {
        match self.running(slot) {
            None => false,
            Some(process) => process.actions.get(Sig::CHLD) == Action::Catch,
        }
    }

    /// Does to the process of a slot what the signal does; a stop is told to its parent.
    fn dispose(
        &mut self,
        disposition: Disposition,
        sig: Sig,
        slot: u8,
        parent: u32,
        ending: &mut EndingList,
    )
        requires slot { slot < SLOTS }
        requires list { posts.IsEndingList ending.old.items }
        ensures posted { posts.table_and_list self.new ending.new.items
            ≡ posts.dispose disposition sig slot parent (posts.table_and_list self.old ending.old.items) }
        ensures list { posts.IsEndingList ending.new.items }
    {
        match disposition {
            Disposition::End => add_ending(ending, slot, How::Signal(sig)),
            Disposition::Stop => {
                self.places[usize::from(slot)].stop(sig);
                self.post_child(parent);
            }
            Disposition::Catch => self.places[usize::from(slot)].add_caught(sig),
            Disposition::Nothing => {}
        }
    }

    /// Posts a signal to the running process of a slot.
    pub(crate) fn post_at(&mut self, sig: Sig, slot: u8, ending: &mut EndingList)
        requires slot { slot < SLOTS }
        requires list { posts.IsEndingList ending.old.items }
        ensures posted { posts.table_and_list self.new ending.new.items ≡ posts.post_at sig (posts.table_and_list self.old ending.old.items) slot }
        ensures list { posts.IsEndingList ending.new.items }
    {
        let Some(process) = self.running(slot) else {
            return;
        };
        let parent = process.parent;
        let disposition = self.disposition_of(process, sig);
        self.continue_at(sig, slot);
        self.dispose(disposition, sig, slot, parent, ending);
    }

    /// Posts a signal to the running processes of slots, one after the other.
    fn post_all(&mut self, sig: Sig, slots: &[u8], ending: &mut EndingList)
        requires slots { All (λ slot. slot < SLOTS) slots.now }
        requires list { posts.IsEndingList ending.old.items }
        ensures posted { posts.table_and_list self.new ending.new.items ≡ posts.post_all sig slots.now (posts.table_and_list self.old ending.old.items) }
        ensures list { posts.IsEndingList ending.new.items }
    {
        for slot in slots {
            self.post_at(sig, *slot, ending);
        }
    }

    /// Posts a signal to a process, or to each running process of a group in rising order of their pids. (kill(2))
    ///
    /// KILL ends and STOP stops, whatever the action is; CONT continues a process that is stopped, whatever the action is. Else an
    /// ignored signal does nothing, and a caught one becomes pending. By default HUP, INT, QUIT, PIPE, TERM, USR1 and USR2 end; TSTP,
    /// TTIN and TTOU stop unless the group is orphaned; CHLD and CONT do nothing. Pid 1 is neither ended nor stopped. A stop is by
    /// the new signal also where the process is stopped already, counts as not yet told, and posts CHLD to the parent.
    ///
    /// A process that is to be ended is put behind those on the list `ending`, with this signal, unless it stands there; it runs on. The
    /// list holds slots below 32, and none twice.
    pub fn post(&mut self, sig: Sig, to: To, ending: &mut EndingList)
        requires { posts.IsEndingList ending.old.items }
        ensures posted { posts.table_and_list self.new ending.new.items ≡ posts.post self.old sig to ending.old.items }
        ensures list { posts.IsEndingList ending.new.items }
    {
        let receivers = self.slots_by_pid(Role::Receiver(to));
        self.post_all(sig, receivers.as_slice(), ending);
    }
}
