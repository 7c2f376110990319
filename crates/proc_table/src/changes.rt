//! What calls of a process change of itself.
ghost use Rattle.std.specs.Prelude.{◌≡◌, ◌<◌};
ghost use Rattle.sys_types.specs.declared.limits.TheConstants.{SLOTS};
ghost use Rattle.proc_table.specs.Processes as spec;
ghost use Rattle.proc_table.specs.Changes as changes;

use crate::table::ProcTable;
use acl_core::Cred;
use call_words::Action;
use label_core::Subject;
use sys_types::{Image, Node, Piece, SLOTS, Sig};

// Each changes the process of a slot, if the slot has one, and nothing else: not its pending call either.
impl ProcTable {
    /// The process of a slot begins its program.
    pub fn set_begun(&mut self, slot: u8)
        requires { slot < SLOTS }
        ensures { self.new ≡ spec.change_process changes.begin self.old slot }
    {
        if let Some(process) = &mut self.places[usize::from(slot)].process {
            process.begun = true;
        }
    }

    /// Sets who the process of a slot is (setuid(2), setgid(2), setgroups(2)).
    pub fn set_cred(&mut self, slot: u8, cred: Cred)
        requires { slot < SLOTS }
        ensures { self.new ≡ spec.change_process (changes.with_cred cred) self.old slot }
    {
        if let Some(process) = &mut self.places[usize::from(slot)].process {
            process.cred = cred;
        }
    }

    /// Sets the label of the process of a slot (mac_set_proc(3)).
    pub fn set_label(&mut self, slot: u8, label: Subject)
        requires { slot < SLOTS }
        ensures { self.new ≡ spec.change_process (changes.with_label label) self.old slot }
    {
        if let Some(process) = &mut self.places[usize::from(slot)].process {
            process.label = label;
        }
    }

    /// Sets the bits that are off in the modes of new files of the process of a slot (umask(2)).
    pub fn set_umask(&mut self, slot: u8, umask: u16)
        requires { slot < SLOTS }
        ensures { self.new ≡ spec.change_process (changes.with_umask umask) self.old slot }
    {
        if let Some(process) = &mut self.places[usize::from(slot)].process {
            process.umask = umask;
        }
    }

    /// Sets the working directory of the process of a slot (chdir(2)).
    pub fn set_directory(&mut self, slot: u8, directory: Node)
        requires { slot < SLOTS }
        ensures { self.new ≡ spec.change_process (changes.with_directory directory) self.old slot }
    {
        if let Some(process) = &mut self.places[usize::from(slot)].process {
            process.cwd = directory;
        }
    }

    /// Sets the group of the process of a slot (setpgid(2)).
    pub fn set_group(&mut self, slot: u8, group: u32)
        requires { slot < SLOTS }
        ensures { self.new ≡ spec.change_process (changes.with_group group) self.old slot }
    {
        if let Some(process) = &mut self.places[usize::from(slot)].process {
            process.group = group;
        }
    }

    /// Makes the process of a slot the leader of a session and of a group, both of the number of its pid (setsid(2)).
    pub fn set_session(&mut self, slot: u8)
        requires { slot < SLOTS }
        ensures { self.new ≡ spec.change_process changes.lead_session self.old slot }
    {
        if let Some(process) = &mut self.places[usize::from(slot)].process {
            process.session = process.pid;
            process.group = process.pid;
        }
    }

    /// The process of a slot has another program with these arguments: signals that it catches do again what they do by default, caught
    /// signals that are pending go, and it has called execve(2).
    pub fn exec(&mut self, slot: u8, image: Image, args: Piece)
        requires { slot < SLOTS }
        ensures { self.new ≡ spec.change_process (λ p. changes.exec_process p image args) self.old slot }
    {
        if let Some(process) = &mut self.places[usize::from(slot)].process {
            process.exec(image, args);
        }
    }

    /// Sets what the process of a slot does at a signal, and takes such a signal away, if it is caught and pending (sigaction(2)).
    pub fn set_action(&mut self, slot: u8, sig: Sig, action: Action)
        requires { slot < SLOTS }
        ensures { self.new ≡ spec.change_process (changes.act_on sig action) self.old slot }
    {
        if let Some(process) = &mut self.places[usize::from(slot)].process {
            process.set_action(sig, action);
        }
    }

    /// Takes a caught signal of the process of a slot away, if it is pending (sigwait(2)).
    pub fn drop_caught(&mut self, slot: u8, sig: Sig)
        requires { slot < SLOTS }
        ensures { self.new ≡ spec.change_process (spec.drop_caught sig) self.old slot }
    {
        if let Some(process) = &mut self.places[usize::from(slot)].process {
            process.drop_caught(sig);
        }
    }
}
