//! The table of processes.
ghost use Rattle.std.specs.Prelude.{◌≡◌, ◌==◌, ℕ, ◌+◌, ◌<◌, ◌^◌, Some, None, is_some, option_map, option_copied, ok_or, IfOk, IfSome, IsTrue, replicate};
ghost use Rattle.sys_types.specs.declared.limits.TheConstants.{SLOTS};
ghost use Rattle.sys_types.specs.declared.rules.Rule.TheVariants as rule;
ghost use Rattle.proc_table.specs.Processes as spec;
ghost use Rattle.proc_table.specs.Forks as forks;
ghost use Rattle.proc_table.specs.Procs.{process_of, put_proc};

use crate::actions::Actions;
use crate::lookup::{any_in, free_place, place_of};
use crate::place::Place;
use crate::proc::{INIT, Proc, ProcState};
use acl_core::Cred;
use arrayvec::ArrayVec;
use call_words::Call;
use label_core::{Element, Subject};
pub use std::alloc::AllocError as NoMemory;
use std::alloc::Global;
use std::marker::Model;
use sys_types::{Image, Node, Piece, Rule, SLOTS};

/// The processes, each in one of 32 slots.
///
/// Contracts see of it a `Processes` in which a working directory is named by the number of its node. Every slot is below 32.
#[derive(Drop)]
pub struct ProcTable {
    pub(crate) places: Vec<Place>,
    pub(crate) next_pid: u32,
}

impl Model for ProcTable {
    ghost use Rattle.std.specs.Prelude.{◌≡◌, ℕ, length};
    ghost use Rattle.sys_types.specs.declared.limits.TheConstants.{SLOTS};
    ghost use Rattle.proc_table.specs.Processes.{Processes};

    ghost Value = { Processes ℕ };

    ghost view = { λ t. record { slots = t.places.items; next_pid = t.next_pid } };

    ghost invariant = { λ t. length t.places.items ≡ SLOTS };
}

/// init(8) at a boot: pid 1, the superuser, who may take every label, in the root, with the umask 022 in octal.
#[tactic(auto, unfolding(label_core::specs::Element::dom))]
fn first_process() -> Proc
    ensures process { process_of result ≡ spec.first_process 0 }
    ensures pending { result.pending ≡ None }
{
    Proc {
        pid: INIT,
        parent: 0,
        group: INIT,
        session: INIT,
        cred: Cred {
            uid: 0,
            gid: 0,
            groups: ArrayVec::new(),
        },
        label: Subject::new(Element::Equal, Element::Low, Element::High).unwrap(),
        cwd: Node::ROOT,
        umask: 0o022,
        actions: Actions::normal(),
        caught: 0,
        state: ProcState::Running,
        stopped: None,
        reported: false,
        begun: false,
        execed: false,
        image: Image::Init,
        args: Piece::empty(),
        pending: None,
    }
}

/// Slots without a process.
fn empty_places(alloc: Global) -> Result<Vec<Place>, NoMemory>
    ensures { IfOk result (λ places. places.items ≡ replicate SLOTS spec.empty_slot) }
{
    let mut places = Vec::with_capacity(alloc, SLOTS)?;
    for _slot in 0..SLOTS {
        places.push_reserved(Place::empty());
    }
    Ok(places)
}

impl ProcTable {
    /// The processes at a boot: pid 1 in slot 0, and no other. All memory is taken here, and none later; `NoMemory`, where it runs
    /// out, is the only error.
    pub fn new(alloc: Global) -> Result<ProcTable, NoMemory>
        ensures { IfOk result (λ table. table ≡ spec.at_boot 0) }
    {
        let mut places = empty_places(alloc)?;
        places[0].put(first_process());
        Ok(ProcTable {
            places,
            next_pid: INIT + 1,
        })
    }

    /// The process of a slot, a zombie too, with its pending call. `None` comes exactly where the slot has none.
    pub fn get(&self, slot: u8) -> Option<&Proc>
        ensures process { option_map process_of (option_copied result) ≡ spec.process_at self.now slot }
        ensures pending { IfSome result (λ process. process.now.pending ≡ spec.pending_at self.now slot) }
    {
        self.places.get(usize::from(slot))?.process()
    }

    /// Puts a changed process, with its pending call, in the place of the one that a slot has, which has the same pid.
    pub fn put(&mut self, slot: u8, process: Proc)
        requires slot { slot < SLOTS }
        requires same { option_map (λ p. p.pid) (spec.process_at self.old slot) ≡ Some process.pid }
        ensures { self.new ≡ put_proc self.old slot process }
    {
        self.places[usize::from(slot)].put(process);
    }

    /// The slot of the process of a pid, a zombie's too. `None` comes exactly where there is none.
    pub fn slot_of(&self, pid: u32) -> Option<u8>
        ensures slot { result ≡ spec.slot_of self.now pid }
        ensures most { IfSome result (λ slot. slot < SLOTS) }
    {
        match place_of(&self.places, pid) {
            None => None,
            Some(slot) => Some(slot as u8),
        }
    }

    /// The call that is pending in a slot without a process. `None` comes exactly where none is.
    pub fn pending_of_empty(&self, slot: u8) -> Option<&Call>
        requires slot { slot < SLOTS }
        ensures { option_copied result ≡ spec.pending_at self.now slot }
    {
        self.places[usize::from(slot)].pending()
    }

    /// Sets the call that is pending in a slot without a process.
    pub fn set_pending_of_empty(&mut self, slot: u8, call: Option<Call>)
        requires slot { slot < SLOTS }
        requires empty { spec.process_at self.old slot ≡ None }
        ensures { self.new ≡ spec.set_pending self.old slot call }
    {
        self.places[usize::from(slot)].set_pending(call);
    }

    /// The call that is pending in a slot, with a process or without. `None` comes exactly where none is.
    pub fn pending(&self, slot: u8) -> Option<&Call>
        ensures { option_copied result ≡ spec.pending_at self.now slot }
    {
        self.places.get(usize::from(slot))?.pending()
    }

    /// Sets the call that is pending in a slot, with a process or without.
    pub fn set_pending(&mut self, slot: u8, call: Option<Call>)
        requires { slot < SLOTS }
        ensures { self.new ≡ spec.set_pending self.old slot call }
    {
        self.places[usize::from(slot)].set_pending(call);
    }

    /// Whether a signal ended the slot's last process, and `told` was not called for the slot since.
    pub fn is_left(&self, slot: u8) -> bool
        requires { slot < SLOTS }
        ensures { result ≡ spec.is_left self.now slot }
    {
        self.places[usize::from(slot)].is_left()
    }

    /// Tells that the last process of a slot was ended: the slot is not left any more.
    pub fn told(&mut self, slot: u8)
        requires { slot < SLOTS }
        ensures { self.new ≡ spec.tell self.old slot }
    {
        self.places[usize::from(slot)].tell();
    }

    /// The running process of a slot, with its pending call. `None` comes exactly where the slot has none.
    pub fn running(&self, slot: u8) -> Option<&Proc>
        ensures process { option_map process_of (option_copied result) ≡ spec.running_at self.now slot }
        ensures pending { IfSome result (λ process. process.now.pending ≡ spec.pending_at self.now slot) }
    {
        let process = self.get(slot)?;
        if process.is_running() {
            Some(process)
        } else {
            None
        }
    }

    /// Whether a running process has a node as its working directory.
    pub fn is_directory_of_any(&self, node: Node) -> bool
        ensures { result ≡ spec.any_running (λ p. p.directory == node) self.now }
    {
        any_in(&self.places, node)
    }

    /// The running process of a pid. `None` comes exactly where no running process has it.
    pub fn running_by_pid(&self, pid: u32) -> Option<&Proc>
        ensures { option_map process_of (option_copied result) ≡ spec.running_by_pid self.now pid }
    {
        self.running(self.slot_of(pid)?)
    }
}

impl ProcTable {
    /// The lowest slot that a fork may take: it has no process, zombies counted, no pending call but a `begin`, and is not left. `None`
    /// comes exactly where there is none.
    pub fn lowest_slot(&self) -> Option<u8>
        ensures slot { result ≡ forks.lowest_slot self.now }
        ensures most { IfSome result (λ slot. slot < SLOTS) }
    {
        match free_place(&self.places) {
            None => None,
            Some(slot) => Some(slot as u8),
        }
    }

    /// Puts the child of a slot's process into a slot that has none, under the next pid.
    fn put_child(&mut self, parent: u8, slot: u8, note: &Piece)
        requires slot { slot < SLOTS }
        requires pid { self.old.next_pid + 1 < 2 ^ 32 }
        ensures { self.new ≡ forks.put_child self.old slot note.now (spec.running_at self.old parent) }
    {
        let pending = self.places[usize::from(slot)].copy_pending();
        let Some(parent) = self.running(parent) else {
            return;
        };
        let child = parent.child(self.next_pid, note, pending);
        self.places[usize::from(slot)].put(child);
        self.next_pid += 1;
    }

    /// Makes a child of the running process of a slot, with a note as its arguments, in the lowest slot that has no process, zombies
    /// counted, no pending call but a `begin`, and is not left; and says which. Its pid is the next one, which is below 2^32 - 1. It has
    /// not begun, has called no exec, no stop of it was told and no caught signal is pending; all else is its parent's. It is refused by
    /// `Slots` exactly where there is no such slot, and then nothing changes. (fork(2))
    pub fn fork(&mut self, slot: u8, note: &Piece) -> Result<u8, Rule>
        requires slot { slot < SLOTS }
        requires running { IsTrue (is_some (spec.running_at self.old slot)) }
        requires pid { self.old.next_pid + 1 < 2 ^ 32 }
        ensures processes { self.new ≡ forks.fork self.old slot note.now }
        ensures slot { result ≡ ok_or (forks.lowest_slot self.old) rule.Slots }
    {
        let Some(free) = self.lowest_slot() else {
            return Err(Rule::Slots);
        };
        self.put_child(slot, free, note);
        Ok(free)
    }
}
