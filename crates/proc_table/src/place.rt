//! A slot of the table.
ghost use Rattle.std.specs.Prelude.{◌≡◌, ◌==◌, ◌&&◌, false, Some, None, option_map, option_copied, IfSome};
ghost use Rattle.proc_table.specs.Processes as spec;
ghost use Rattle.proc_table.specs.Posts as posts;
ghost use Rattle.proc_table.specs.Endings as endings;
ghost use Rattle.proc_table.specs.Reaping as reaping;
ghost use Rattle.proc_table.specs.Forks.{is_free};
ghost use Rattle.proc_table.specs.Procs.{process_of};

use crate::order::is_child;
use crate::proc::Proc;
use call_words::{Call, How};
use std::marker::Model;
use sys_types::{Node, Sig};

/// A slot: its process, and what it has while it has none: a call that is pending. Contracts see a `Slot` in which working
/// directories are numbers of nodes.
#[derive(Drop)]
pub(crate) struct Place {
    pub(crate) process: Option<Proc>,
    pending_of_empty: Option<Call>,
    left: bool,
}

impl Model for Place {
    ghost use Rattle.std.specs.Prelude.{ℕ};
    ghost use Rattle.proc_table.specs.Processes.{Slot};
    ghost use Rattle.proc_table.specs.Procs.{slot_seen};

    ghost Value = { Slot ℕ };

    ghost view = { λ p. slot_seen p.process p.pending_of_empty p.left };
}

impl Place {
    /// A slot without a process.
    pub(crate) fn empty() -> Place
        ensures { result ≡ spec.empty_slot }
    {
        Place {
            process: None,
            pending_of_empty: None,
            left: false,
        }
    }

    /// Its process, if it has one.
    pub(crate) fn process(&self) -> Option<&Proc>
        ensures process { option_map process_of (option_copied result) ≡ self.now.process }
        ensures pending { IfSome result (λ process. process.now.pending ≡ self.now.pending) }
    {
        self.process.as_ref()
    }

    /// Whether it has the process of a pid.
    pub(crate) fn has_pid(&self, pid: u32) -> bool
        ensures { result ≡ spec.holds (λ p. p.pid == pid) self.now.process }
    {
        match &self.process {
            None => false,
            Some(process) => process.pid == pid,
        }
    }

    /// Whether it has a running process of a group that is stopped.
    pub(crate) fn has_stopped(&self, group: u32) -> bool
        ensures { result ≡ spec.holds (λ p. spec.is_running p && (p.group == group && spec.is_stopped p)) self.now.process }
    {
        match &self.process {
            None => false,
            Some(process) => process.is_running() && process.group == group && process.is_stopped(),
        }
    }

    /// Whether it has a running process of a group.
    pub(crate) fn has_member(&self, group: u32) -> bool
        ensures { result ≡ spec.holds (λ p. spec.is_running p && p.group == group) self.now.process }
    {
        match &self.process {
            None => false,
            Some(process) => process.is_running() && process.group == group,
        }
    }

    /// Whether it has a running process of a group in a session.
    pub(crate) fn has_member_in(&self, group: u32, session: u32) -> bool
        ensures { result ≡ spec.holds (λ p. spec.is_running p && (p.group == group && p.session == session)) self.now.process }
    {
        match &self.process {
            None => false,
            Some(process) => process.is_running()
                && process.group == group
                && process.session == session,
        }
    }

    /// Whether it has a running process that works in a directory.
    pub(crate) fn works_in(&self, directory: Node) -> bool
        ensures { result ≡ spec.holds (λ p. spec.is_running p && p.directory == directory) self.now.process }
    {
        match &self.process {
            None => false,
            Some(process) => process.is_running() && process.cwd == directory,
        }
    }

    /// The group of its process, where that runs and is stopped.
    pub(crate) fn stopped_group(&self) -> Option<u32>
        ensures { result ≡ endings.stopped_group self.now.process }
    {
        match &self.process {
            Some(process) if process.is_running() && process.is_stopped() => Some(process.group),
            _ => None,
        }
    }

    /// Whether its process is a child of a pid, and the one that a wait names.
    pub(crate) fn has_child(&self, parent: u32, who: u32) -> bool
        ensures { result ≡ spec.holds (reaping.is_child parent who) self.now.process }
    {
        match &self.process {
            None => false,
            Some(process) => is_child(process, parent, who),
        }
    }

    /// Its pending call, if one is.
    pub(crate) fn pending(&self) -> Option<&Call>
        ensures { option_copied result ≡ self.now.pending }
    {
        match &self.process {
            Some(process) => process.pending.as_ref(),
            None => self.pending_of_empty.as_ref(),
        }
    }

    /// Whether a signal ended its last process, and no event of the slot has told that yet.
    pub(crate) fn is_left(&self) -> bool
        ensures { result ≡ self.now.left }
    {
        self.left
    }

    /// Whether a fork may take it.
    pub(crate) fn is_free(&self) -> bool
        ensures { result ≡ is_free self.now }
    {
        self.process.is_none()
            && matches!(self.pending_of_empty, None | Some(Call::Begin))
            && !self.left
    }

    /// Puts a process with its pending call into the slot.
    pub(crate) fn put(&mut self, process: Proc)
        ensures { self.new ≡ record self.old { process = Some (process_of process); pending = process.pending } }
    {
        self.process = Some(process);
    }

    /// Sets the pending call.
    pub(crate) fn set_pending(&mut self, call: Option<Call>)
        ensures { self.new ≡ record self.old { pending = call } }
    {
        match &mut self.process {
            Some(process) => process.pending = call,
            None => self.pending_of_empty = call,
        }
    }

    /// The slot is not left any more.
    pub(crate) fn tell(&mut self)
        ensures { self.new ≡ record self.old { left = false } }
    {
        self.left = false;
    }

    /// Takes its process away. What is pending stays.
    pub(crate) fn remove(&mut self)
        ensures { self.new ≡ record self.old { process = None } }
    {
        if let Some(process) = self.process.take() {
            self.pending_of_empty = process.pending;
        }
    }

    /// A copy of the pending call.
    pub(crate) fn copy_pending(&self) -> Option<Call>
        ensures { result ≡ self.now.pending }
    {
        match self.pending() {
            None => None,
            Some(call) => Some(call.copy()),
        }
    }

    /// Continues its process, if it has one.
    pub(crate) fn continue_on(&mut self)
        ensures { self.new ≡ record self.old { process = option_map posts.continue self.old.process } }
    {
        if let Some(process) = &mut self.process {
            process.continue_on();
        }
    }

    /// Makes a caught signal of its process pending, if it has one.
    pub(crate) fn add_caught(&mut self, sig: Sig)
        ensures { self.new ≡ record self.old { process = option_map (spec.add_caught sig) self.old.process } }
    {
        if let Some(process) = &mut self.process {
            process.add_caught(sig);
        }
    }

    /// Marks the stop of its process as told, if it has one.
    pub(crate) fn report(&mut self)
        ensures { self.new ≡ record self.old { process = option_map reaping.report self.old.process } }
    {
        if let Some(process) = &mut self.process {
            process.report();
        }
    }

    /// Gives its process pid 1 as its parent where this is its parent.
    pub(crate) fn adopt(&mut self, parent: u32)
        ensures { self.new ≡ endings.adopt_in parent self.old }
    {
        if let Some(process) = &mut self.process {
            process.adopt(parent);
        }
    }

    /// Makes its process a zombie, if it has one, and the slot left where a signal ended it.
    pub(crate) fn end(&mut self, how: How)
        ensures { self.new ≡ record self.old { process = option_map (endings.end how) self.old.process; left = endings.is_by_signal how } }
    {
        if let Some(process) = &mut self.process {
            process.end(how);
        }
        self.left = matches!(how, How::Signal(_));
    }

    /// Stops its process, if it has one.
    pub(crate) fn stop(&mut self, sig: Sig)
        ensures { self.new ≡ record self.old { process = option_map (posts.stop sig) self.old.process } }
    {
        if let Some(process) = &mut self.process {
            process.stop(sig);
        }
    }
}
