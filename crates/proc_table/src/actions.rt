//! What a process does at each signal.
ghost use Rattle.std.specs.Prelude.{◌≡◌, ◌<◌, map};
ghost use Rattle.proc_table.specs.Processes.{action_of, set_action, default_actions};
ghost use Rattle.proc_table.specs.Changes.{reset_action};

use call_words::Action;
use std::marker::Model;
use sys_types::Sig;

/// How many numbers signals have: 0 to 31 (NSIG of signal(3)).
pub const SIGNAL_NUMBERS: usize = 32;

/// What a process does at each signal, in place (sigaction(2)). Contracts see the list of the actions, by the number of the signal.
#[derive(Drop)]
pub struct Actions {
    actions: [Action; SIGNAL_NUMBERS],
}

impl Model for Actions {
    ghost use Rattle.std.specs.Prelude.{◌≡◌, List, length};
    ghost use Rattle.call_words.specs.declared.signal.Action.{Action};
    ghost use Rattle.proc_table.specs.declared.actions.TheConstants.{SIGNAL_NUMBERS};

    ghost Value = { List Action };

    ghost view = { λ a. a.actions };

    ghost invariant = { λ a. length a.actions ≡ SIGNAL_NUMBERS };
}

/// A signal that was caught does again what it does by default.
fn reset_action(action: &mut Action)
    ensures { action.new ≡ reset_action action.old }
{
    if *action == Action::Catch {
        *action = Action::Normal;
    }
}

/// The same for each of these.
fn reset_all(actions: &mut [Action])
    ensures { actions.new ≡ map reset_action actions.old }
{
    for action in actions.iter_mut() {
        reset_action(action);
    }
}

impl Actions {
    /// Every signal does what it does by default.
    pub fn normal() -> Self
        ensures { result ≡ default_actions }
    {
        Actions {
            actions: [Action::Normal; SIGNAL_NUMBERS],
        }
    }

    /// What the process does at a signal.
    pub fn get(&self, sig: Sig) -> Action
        ensures { result ≡ action_of self.now sig }
    {
        self.actions[usize::from(sig.number())]
    }

    /// Sets what the process does at a signal, and at no other.
    pub fn set(&mut self, sig: Sig, to: Action)
        ensures { self.new ≡ set_action self.old sig to }
    {
        self.actions[usize::from(sig.number())] = to;
    }

    /// Every signal that was caught does again what it does by default (execve(2)).
    pub fn reset(&mut self)
        ensures { self.new ≡ map reset_action self.old }
    {
        reset_all(&mut self.actions);
    }

    /// Equal actions.
    pub fn copy(&self) -> Self
        ensures { result ≡ self.now }
    {
        Actions {
            actions: self.actions,
        }
    }
}
