//! A load as a stream of events.
ghost use Rattle.std.specs.Prelude.{◌≡◌, ◌+◌, ◌≤◌, [], ◌∷◌, IfSome, MatchOption};
ghost use Rattle.sys_types.specs.declared.limits.TheConstants.{TRAIL_EVENTS};
ghost use Rattle.call_words.specs.Events.{MayBeUsed};
ghost use Rattle.event_load.specs.Load.{load_events};

use crate::drawn::{drawn_event, opening_event};
use call_words::Event;
use rand_core::utils::NextWord;
use rand_pcg::Lcg64Xsh32;
use std::marker::Model;

/// How many events open a load.
const OPENING_EVENTS: usize = 4;

/// The stream of the generator.
const STREAM: u64 = 1;

/// A load. Contracts see the list of the events that are still to come.
#[derive(Drop)]
pub struct Load {
    /// How many of the opening events have come.
    opening_at: usize,
    /// How many events are still to be drawn.
    draws: u32,
    generator: Lcg64Xsh32,
}

impl Model for Load {
    ghost use Rattle.std.specs.Prelude.{List, ◌++◌, drop};
    ghost use Rattle.call_words.specs.declared.event.Event.{Event};

    ghost Value = { List Event };

    ghost use Rattle.event_load.specs.Load.{opening, drawn_events};

    ghost view = { λ l. drop l.opening_at opening ++ drawn_events l.draws l.generator };
}

impl Load {
    /// The load of `n` drawn events, at most 262,140, from the generator's state `start`: four opening events, and then the drawn ones.
    pub fn new(n: u32, start: u64) -> Load
        requires { n + 4 ≤ TRAIL_EVENTS }
        ensures { result ≡ load_events n start }
    {
        Load {
            opening_at: 0,
            draws: n,
            generator: Lcg64Xsh32::new(start, STREAM),
        }
    }

    /// The next event. `None` exactly where no event is still to come. Each event meets the conditions of its use.
    pub fn next(&mut self) -> Option<Event>
        ensures event { MatchOption result ((self.old ≡ []) × (self.new ≡ [])) (λ event. self.old ≡ event ∷ self.new) }
        ensures valid { IfSome result MayBeUsed }
    {
        if self.opening_at < OPENING_EVENTS {
            let event = opening_event(self.opening_at);
            self.opening_at += 1;
            return Some(event);
        }
        if self.draws == 0 {
            return None;
        }
        self.draws -= 1;
        Some(drawn_event(self.generator.next_word()))
    }
}
