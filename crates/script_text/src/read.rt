//! Event lines as events.
ghost use Rattle.std.specs.Prelude.{◌≡◌, ℕ, ◌<◌, ◌≤◌, List, [], ◌∷◌, length, option_map, All, IfSome, OnSome};
ghost use Rattle.sys_types.specs.declared.limits.TheConstants.{PIECE_BYTES, SLOTS};
ghost use Rattle.call_words.specs.declared.event.Event.{Event};
ghost use Rattle.call_words.specs.Events.{MayBeUsed};
ghost use Rattle.script_text.specs.EventList.{events_beside};
ghost use Rattle.script_text.specs.Words.{words as words_of};
ghost use Rattle.script_text.specs.Args.{alone};
ghost use Rattle.script_text.specs.Calls.{call_of};
ghost use Rattle.script_text.specs.Reading.{in_of, take_of, carrier_of, end_of, slot_events_of, slot_line_of, one_of, events_of_words, events_of_line};

use crate::events::{Events, LineKind};
use crate::numbers::read_bytes;
use crate::open::read_open_call;
use crate::values::{read_line, read_slot, read_take_max};
use crate::words::{Words, alone, both, is_word, only};
use call_words::{Call, Event, SCRIPT_LINE_BYTES};

/// `in ttyN HEX`
fn read_in(words: &mut Words) -> Option<LineKind>
    ensures events { (event : Event) → option_map (events_beside event) result ≡ in_of words.old }
    ensures valid { (event : Event) → IfSome result (λ kind. All MayBeUsed (events_beside event kind)) }
    ensures some { (event : Event) → IfSome result (λ kind. 0 < length (events_beside event kind)) }
{
    let (line, bytes) = both(words)?;
    let line = read_line(line)?;
    let bytes = read_bytes(bytes)?;
    if bytes.is_empty() {
        return None;
    }
    Some(LineKind::Input { line, bytes })
}

/// `take ttyN MAX`
fn read_take(words: &mut Words, event: &mut Event) -> Option<()>
    ensures events { option_map (λ _. event.new ∷ []) result ≡ take_of words.old }
    ensures valid { OnSome result (MayBeUsed event.new) }
{
    let (line, max) = both(words)?;
    let line = read_line(line)?;
    let max = read_take_max(max)?;
    if max == 0 {
        return None;
    }
    *event = Event::Take { line, max };
    Some(())
}

/// `up ttyN` or `down ttyN`, of which the first word is read already.
fn read_carrier(words: &mut Words, up: bool, event: &mut Event) -> Option<()>
    ensures events { option_map (λ _. event.new ∷ []) result ≡ carrier_of up words.old }
    ensures valid { OnSome result (MayBeUsed event.new) }
{
    let line = read_line(only(words)?)?;
    *event = Event::Carrier { line, up };
    Some(())
}

/// `end ttyN`
fn read_end(words: &mut Words, event: &mut Event) -> Option<()>
    ensures events { option_map (λ _. event.new ∷ []) result ≡ end_of words.old }
    ensures valid { OnSome result (MayBeUsed event.new) }
{
    let line = read_line(only(words)?)?;
    *event = Event::Ended { line };
    Some(())
}

/// `again` alone, behind the slot's word.
fn read_again(slot: u8, words: &mut Words, event: &mut Event) -> Option<()>
    requires { slot < SLOTS }
    ensures events { option_map (λ _. event.new ∷ []) result ≡ alone (Event.Again slot ∷ []) words.old }
    ensures valid { OnSome result (MayBeUsed event.new) }
{
    alone(words, ())?;
    *event = Event::Again { slot };
    Some(())
}

/// A call, behind the slot's word.
fn read_call(slot: u8, name: &[u8], words: &mut Words, event: &mut Event) -> Option<()>
    requires { slot < SLOTS }
    ensures events { option_map (λ _. event.new ∷ []) result ≡ option_map (λ c. Event.Call slot c ∷ []) (call_of name.now words.old) }
    ensures valid { OnSome result (MayBeUsed event.new) }
{
    *event = Event::Call {
        slot,
        call: Call::Ident,
    };
    match event {
        Event::Call { slot: _, call } => read_open_call(name, words, call),
        _ => unreachable!(),
    }
}

/// `again` alone, or a call.
fn read_slot_event(slot: u8, words: &mut Words, event: &mut Event) -> Option<()>
    requires { slot < SLOTS }
    ensures events { option_map (λ _. event.new ∷ []) result ≡ slot_events_of slot words.old }
    ensures valid { OnSome result (MayBeUsed event.new) }
{
    let name = words.next()?;
    if is_word(name, b"again") {
        read_again(slot, words, event)
    } else {
        read_call(slot, name, words, event)
    }
}

/// `SLOT again` or `SLOT CALL`, of which the slot's word is read already.
fn read_slot_line(slot: &[u8], words: &mut Words, event: &mut Event) -> Option<()>
    ensures events { option_map (λ _. event.new ∷ []) result ≡ slot_line_of slot.now words.old }
    ensures valid { OnSome result (MayBeUsed event.new) }
{
    read_slot_event(read_slot(slot)?, words, event)
}

/// The event of a line of one event, of which the first word is read already.
fn read_one(first: &[u8], words: &mut Words, event: &mut Event) -> Option<()>
    ensures events { option_map (λ _. event.new ∷ []) result ≡ one_of first.now words.old }
    ensures valid { OnSome result (MayBeUsed event.new) }
{
    if is_word(first, b"take") {
        read_take(words, event)
    } else if is_word(first, b"up") {
        read_carrier(words, true, event)
    } else if is_word(first, b"down") {
        read_carrier(words, false, event)
    } else if is_word(first, b"end") {
        read_end(words, event)
    } else {
        read_slot_line(first, words, event)
    }
}

fn read_words(words: &mut Words, event: &mut Event) -> Option<LineKind>
    ensures events { option_map (events_beside event.new) result ≡ events_of_words words.old }
    ensures valid { IfSome result (λ kind. All MayBeUsed (events_beside event.new kind)) }
    ensures some { IfSome result (λ kind. 0 < length (events_beside event.new kind)) }
{
    let first = words.next()?;
    if is_word(first, b"in") {
        return read_in(words);
    }
    read_one(first, words, event)?;
    Some(LineKind::Event)
}

/// What an event line says, without its newline. The one event of a line that is no `in` line is written to `event`. `None` exactly where
/// the line is outside the grammar. Each event meets the conditions of its use.
#[tactic(auto, unfolding(crate::specs::Reading::events_of_line))]
pub fn read_event_line_into(line: &[u8], event: &mut Event) -> Option<LineKind>
    ensures events { option_map (events_beside event.new) result ≡ events_of_line line.now }
    ensures valid { IfSome result (λ kind. All MayBeUsed (events_beside event.new kind)) }
    ensures some { IfSome result (λ kind. 0 < length (events_beside event.new kind)) }
{
    if line.len() > SCRIPT_LINE_BYTES {
        return None;
    }
    read_words(&mut Words::new(line), event)
}

/// The events of an event line, without its newline: one, or one for each byte of an `in` line.
/// `None` exactly where the line is outside the grammar. Each event meets the conditions of its
/// use.
pub fn read_event_line(line: &[u8]) -> Option<Events>
    ensures events { result ≡ events_of_line line.now }
    ensures valid { IfSome result (All MayBeUsed) }
{
    let mut event = Event::Again { slot: 0 };
    match read_event_line_into(line, &mut event)? {
        LineKind::Event => Some(Events::one(event)),
        LineKind::Input { line, bytes } => Some(Events::arrivals(line, bytes)),
    }
}
