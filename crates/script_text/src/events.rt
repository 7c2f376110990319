//! The events of a line.
ghost use Rattle.std.specs.Prelude.{◌≡◌, ℕ, ◌<◌, ◌≤◌, List, [], ◌∷◌, length, slice_get, Some};
ghost use Rattle.sys_types.specs.declared.limits.TheConstants.{PIECE_BYTES};
ghost use Rattle.script_text.specs.Reading.{arrivals};

use call_words::{Event, Piece};
use std::marker::Model;

/// How the events of a line are kept.
#[derive(Drop)]
enum Form {
    One(Event),
    /// The arrival of each of the bytes at the line.
    Arrivals(u8, Piece),
}

/// The events of a line: one, or one for each of the 1 to 512 bytes of an `in` line. In
/// contracts it is the list of them.
#[derive(Drop)]
pub struct Events {
    form: Form,
}

impl Model for Events {
    ghost use Rattle.std.specs.Prelude.{ℕ, ◌<◌, ◌≤◌, List, length};
    ghost use Rattle.call_words.specs.declared.event.Event.{Event};
    ghost use Rattle.sys_types.specs.declared.limits.TheConstants.{PIECE_BYTES};

    ghost Value = { List Event };

    ghost use Rattle.script_text.specs.EventList.{events_in};

    ghost view = { λ e. events_in e.form };

    ghost invariant = { λ e. (0 < length (events_in e.form)) × (length (events_in e.form) ≤ PIECE_BYTES) };
}

/// What an event line says: one event, which stands beside it, or the 1 to 512 bytes that arrive at a line.
#[derive(Drop)]
pub enum LineKind {
    Event,
    Input { line: u8, bytes: Piece },
}

impl Events {
    /// One event.
    pub(crate) fn one(event: Event) -> Self
        ensures { result ≡ event ∷ [] }
    {
        Events {
            form: Form::One(event),
        }
    }

    /// For each of the bytes its arrival at a line.
    pub(crate) fn arrivals(line: u8, bytes: Piece) -> Self
        requires { 0 < length bytes }
        ensures { result ≡ arrivals line bytes }
    {
        let _len = bytes.len();
        Events {
            form: Form::Arrivals(line, bytes),
        }
    }

    /// How many events there are.
    pub fn len(&self) -> u16
        ensures len { result ≡ length self.now }
        ensures some { 0 < result }
        ensures most { result ≤ PIECE_BYTES }
    {
        match &self.form {
            Form::One(_) => 1,
            Form::Arrivals(_, bytes) => bytes.len() as u16,
        }
    }

    /// The event at a place, counted from 0.
    pub fn get(&self, i: u16) -> Event
        requires { i < length self.now }
        ensures { slice_get self.now i ≡ Some result }
    {
        match &self.form {
            Form::One(event) => event.copy(),
            Form::Arrivals(line, bytes) => Event::Byte {
                line: *line,
                byte: bytes.as_slice()[usize::from(i)],
            },
        }
    }
}
