//! A text as a termios.
ghost use Rattle.std.specs.Prelude.{◌≡◌, ◌==◌, ◌<◌, length, position, Some, option_map, MatchOption, IfSome};
ghost use Rattle.termios_core.specs.declared.termios.Termios.{Termios};
ghost use Rattle.termios_core.specs.Flags.{flags_of};
ghost use Rattle.termios_core.specs.Termios.{HasBytes};
ghost use Rattle.termios_core.specs.Text.{comma, colon, Spells};
ghost use Rattle.termios_core.specs.Reading.{each, parts, flag_of, flags_in, byte_of, bytes_in, around_colon, settings_of, termios_of};

use crate::flags::{Flag, Flags};
use crate::termios::{NUMBERS, Termios};
use arrayvec::ArrayVec;
use std::str;

/// A byte in decimal, without leading zeros.
#[tactic(auto, using(crate::proofs::ByteLemmas::other_texts))]
fn read_number(text: &[u8]) -> Option<u8>
    ensures { result ≡ byte_of text.now }
{
    let first = *text.first()?;
    if first == b'+' {
        return None;
    }
    if first == b'0' && text.len() > 1 {
        return None;
    }
    str::from_utf8(text).ok()?.parse::<u8>().ok()
}

/// At most eleven bytes, with a plus between each two.
fn read_numbers(text: &[u8]) -> Option<ArrayVec<u8, NUMBERS>>
    ensures { MatchOption result (IfSome (bytes_in text.now) (λ all. NUMBERS < length all)) (λ found. bytes_in text.now ≡ Some (found.items)) }
{
    let mut numbers = ArrayVec::new();
    for word in text.split(|byte| *byte == b'+') {
        let number = read_number(word)?;
        if numbers.is_full() {
            return None;
        }
        numbers.push(number);
    }
    Some(numbers)
}

/// Words of flags, with a comma between each two.
fn read_words(text: &[u8]) -> Option<Flags>
    ensures { result ≡ option_map flags_of (each flag_of (parts comma text.now)) }
{
    let mut flags = Flags::none();
    for word in text.split(|byte| *byte == b',') {
        let flag = Flag::of_word(word)?;
        flags.set(flag, true);
    }
    Some(flags)
}

/// A dash, or words of flags.
fn read_flags(text: &[u8]) -> Option<Flags>
    ensures { result ≡ flags_in text.now }
{
    if text == b"-".as_slice() {
        return Some(Flags::none());
    }
    read_words(text)
}

/// Where the first colon stands.
fn first_colon(text: &[u8]) -> Option<usize>
    ensures place { result ≡ position (λ b. b == colon) text.now }
    ensures within { IfSome result (λ k. k < length text.now) }
{
    text.iter().position(|byte| *byte == b':')
}

/// What stands before and after the first colon.
fn around_colon(text: &[u8]) -> Option<(&[u8], &[u8])>
    ensures { option_map (λ sides. (sides.0.now, sides.1.now)) result ≡ around_colon text.now }
{
    let colon = first_colon(text)?;
    Some((&text[..colon], &text[colon + 1..]))
}

/// Flags and eleven numbers.
fn read_settings(flags: &[u8], numbers: &[u8]) -> Option<Termios>
    ensures { result ≡ settings_of flags.now numbers.now }
{
    let flags = read_flags(flags)?;
    let numbers = read_numbers(numbers)?;
    match numbers.as_slice() {
        [
            intr,
            quit,
            erase,
            kill,
            eof,
            eol,
            start,
            stop,
            susp,
            min,
            time,
        ] => Some(Termios {
            flags,
            intr: *intr,
            quit: *quit,
            erase: *erase,
            kill: *kill,
            eof: *eof,
            eol: *eol,
            start: *start,
            stop: *stop,
            susp: *susp,
            min: *min,
            time: *time,
        }),
        _ => None,
    }
}

/// A termios in any of its spellings.
#[tactic(auto, unfolding(crate::specs::Reading::termios_of))]
fn read_spelling(text: &[u8]) -> Option<Termios>
    ensures { result ≡ termios_of text.now }
{
    if text == b"cooked".as_slice() {
        return Some(Termios::cooked());
    }
    if text == b"raw".as_slice() {
        return Some(Termios::raw());
    }
    let (flags, numbers) = around_colon(text)?;
    read_settings(flags, numbers)
}

/// The termios that a text spells (stty(1)): `cooked`, `raw`, or flags, a colon and eleven numbers.
///
/// The flags are a dash, or words with commas, in any order and however often. The numbers are
/// decimal without leading zeros, at most 255, with pluses. `None` comes exactly where the text is
/// none of these.
pub fn read_termios(text: &[u8]) -> Option<Termios>
    // What is read is spelled so.
    ensures spelling { IfSome result (λ t. Spells text.now t) }
    // What is spelled so is read.
    ensures only { (t : Termios) → HasBytes t → Spells text.now t → result ≡ Some t }
    // The same, as a function that computes.
    ensures value { result ≡ termios_of text.now }
{
    read_spelling(text)
}
