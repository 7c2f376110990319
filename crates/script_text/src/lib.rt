//! The text of scripts: event lines to events, and events and answers to lines.
//!
//! `specs/` has the grammar of event lines: `Grammar` says for each event which words its line
//! has, and for each kind of word which values it spells; `Calls` and `Reading` compute the call of
//! some words and the events of a line, `Printing` the line of an event, and the laws join them. `Answers`
//! has the answer lines. The generated load comes from the crate below and is named here too.
#![tactic(auto)]

mod attr;
mod cred;
mod dir;
mod event_lines;
mod events;
mod io;
mod laws;
mod numbers;
mod open;
mod paths;
mod pipe;
mod print;
mod proc;
mod push;
mod read;
mod rights;
mod signal;
mod tty;
mod values;
mod words;

pub use event_lines::{EventLine, print_event};
pub use event_load::Load;
pub use events::{Events, LineKind};
pub use laws::{events_are_read_back, one_grammar, paths_are_read_as_spelled, words_are_read_back};
pub use numbers::{DECIMAL, read_number, read_u64};
pub use print::{ANSWER_BYTES, AnswerLine, print_answer};
pub use read::{read_event_line, read_event_line_into};
