//! The kernel: the system with the boot that it was made of, as a machine of which a trail is kept.
ghost use Rattle.std.specs.Prelude.{◌≡◌, ◌<◌, [], IfOk};
ghost use Rattle.sys_types.specs.declared.limits.TheConstants.{SLOTS, TRAIL_EVENTS};
ghost use Rattle.user_db.specs.Boot.{IsBoot};
ghost use Rattle.call_words.specs.Events.{MayBeUsed};
ghost use Rattle.system_model.specs.Step.{waits};
ghost use Rattle.system_model.specs.Tables.{view_of};
ghost use Rattle.kern_core.specs.Trails.{StandsFor, NeedsNoMemory, MayRunOut, IsIdle, decision_after, wakes_after, wakes_of, nobody};

use crate::system::System;
use call_words::{Decision, Event, Reason, Wakes};
use std::alloc::Global;
use std::marker::Model;
use sys_types::TRAIL_EVENTS;
use trail_core::{Machine, Recorded};
use user_db::Boot;
use vnode_tree::NoMemory;

/// The kernel: the system, and the boot that it was made of. Contracts see these two.
#[derive(Drop)]
pub struct Kernel {
    system: System,
    says: Boot,
}

impl Model for Kernel {
    ghost use Rattle.kern_core.specs.Trails.{Booted};

    ghost Value = { Booted };

    ghost view = { λ k. record { says = k.says; tables = k.system } };
}

impl Kernel {
    /// A kernel that has taken no event, with a copy of its boot. All memory is taken here but that of what files hold; `NoMemory`, where it
    /// runs out, is the only error.
    ///
    /// The boot is one that some boot text gives.
    pub fn boot(alloc: Global, says: &Boot) -> Result<Self, NoMemory>
        requires { IsBoot says.now }
        ensures says { IfOk result (λ kernel. kernel.says ≡ says.now) }
        ensures stands { IfOk result (λ kernel. StandsFor kernel []) }
    {
        let system = System::boot(alloc, says)?;
        let says = says.copy(alloc)?;
        Ok(Kernel { system, says })
    }

    /// What the pending call of a slot waits for, where another try would leave it asleep and change nothing. The slot is below 32.
    pub fn waits(&self, slot: u8) -> Option<Reason>
        requires { slot < SLOTS }
        ensures { result ≡ waits (view_of self.now.tables) slot }
    {
        self.system.waits(slot)
    }

    /// Whether the system is halted: each event is gone then.
    pub fn halted(&self) -> bool
        ensures { result ≡ self.now.tables.halted }
    {
        self.system.halted
    }
}

impl Machine for Kernel {
    type Event = Event;

    type Decision = Decision;

    type Wakes = Wakes;

    type Root = Boot;

    ghost root = { λ kernel. kernel.says };

    ghost stands = { StandsFor };

    ghost may_ask = { MayBeUsed };

    ghost needs_no_memory = { NeedsNoMemory };

    ghost may_run_out = { MayRunOut };

    ghost decision = { decision_after };

    ghost wakeups = { λ says es e. wakes_of (wakes_after says es e) };

    ghost is_idle = { IsIdle };

    ghost no_wakeups = { nobody };

    fn step(&mut self, pos: u32, event: &Event, wakes: &mut Wakes) -> Result<Decision, NoMemory> {
        let mut decision = Decision::Noted;
        self.step_into(pos, event, &mut decision, wakes)?;
        Ok(decision)
    }

    fn step_into(
        &mut self,
        _pos: u32,
        event: &Event,
        into: &mut Decision,
        wakes: &mut Wakes,
    ) -> Result<(), NoMemory> {
        self.system.step(event, into, wakes)?;
        Ok(())
    }

    fn no_wakes() -> Wakes {
        Wakes::none()
    }

    fn still_waits(&self, event: &Event) -> bool {
        match event {
            Event::Again { slot } => self.system.waits(*slot).is_some(),
            _ => false,
        }
    }
}

/// A kernel of the boot with an empty trail, and room for 262,144 events. `NoMemory`, where memory runs out, is the only error.
///
/// The boot is one that some boot text gives.
pub fn boot_trail(alloc: Global, says: Boot) -> Result<Recorded<Kernel>, NoMemory>
    requires { IsBoot says }
    ensures { IfOk result (λ trail. trail ≡ record { root = says; most = TRAIL_EVENTS; events = [] }) }
{
    let system = System::boot(alloc, &says)?;
    Recorded::new(alloc, Kernel { system, says }, TRAIL_EVENTS)
}
