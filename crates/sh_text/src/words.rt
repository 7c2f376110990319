//! Words, and their quotes.
ghost use Rattle.std.specs.Prelude.{◌≡◌, ◌<◌, ◌≤◌, length, IfOk, IfErr};
ghost use Rattle.sh_text.specs.Bytes.{after_blanks};
ghost use Rattle.sh_text.specs.Reading.{Gives, left_of, is_end, is_kept, quoting_after, begins_word, word_at, target_at};

use crate::bytes::{after_blanks, ends_word};
use crate::fault::{Halt, stop_at};
use crate::tree::Word;
use std::alloc::Global;

const QUOTE: u8 = b'\'';

const BACKSLASH: u8 = b'\\';

/// How the next byte of a word is quoted.
#[derive(Clone, Copy)]
pub(crate) enum Quoting {
    /// Not at all.
    Bare,
    /// It stands between two single quotes.
    InQuotes,
    /// It follows a backslash.
    BehindBackslash,
}

/// Whether the byte ends the word.
fn is_end(quoting: Quoting, byte: u8) -> bool
    ensures { result ≡ is_end quoting byte }
{
    match quoting {
        Quoting::Bare => ends_word(byte),
        Quoting::InQuotes | Quoting::BehindBackslash => false,
    }
}

/// Whether the byte is one of the word's own, and no quote.
fn is_kept(quoting: Quoting, byte: u8) -> bool
    ensures { result ≡ is_kept quoting byte }
{
    match quoting {
        Quoting::Bare => byte != QUOTE && byte != BACKSLASH,
        Quoting::InQuotes => byte != QUOTE,
        Quoting::BehindBackslash => true,
    }
}

/// How the byte after this one is quoted.
fn quoting_after(quoting: Quoting, byte: u8) -> Quoting
    ensures { result ≡ quoting_after quoting byte }
{
    match quoting {
        Quoting::Bare if byte == QUOTE => Quoting::InQuotes,
        Quoting::Bare if byte == BACKSLASH => Quoting::BehindBackslash,
        Quoting::InQuotes if byte != QUOTE => Quoting::InQuotes,
        _ => Quoting::Bare,
    }
}

/// Whether a word comes next.
pub(crate) fn begins_word(bytes: &[u8]) -> bool
    ensures { result ≡ begins_word bytes.now }
{
    match bytes {
        [byte, ..] => !ends_word(*byte),
        [] => false,
    }
}

/// A word, which has to come next, and the bytes after it.
#[tactic(auto, unfolding(crate::specs::Reading::word_from, crate::specs::Reading::word_at))]
pub(crate) fn word(alloc: Global, bytes: &[u8]) -> Result<(Word, &[u8]), Halt>
    ensures gives { Gives (λ x. (x.0, x.1.now)) result (word_at bytes.now) }
    ensures within { IfErr result (λ halt. left_of halt ≤ length bytes.now) }
    ensures shorter { IfOk result (λ x. length x.1.now < length bytes.now) }
{
    if !begins_word(bytes) {
        return Err(Halt::Text(stop_at(bytes)));
    }
    let mut word = Word::new(alloc);
    let mut quoting = Quoting::Bare;
    let mut rest = bytes;
    while let [byte, after @ ..] = rest {
        if is_end(quoting, *byte) {
            return Ok((word, rest));
        }
        if is_kept(quoting, *byte) {
            word.push(*byte)?;
        }
        quoting = quoting_after(quoting, *byte);
        rest = after;
    }
    match quoting {
        Quoting::Bare => Ok((word, rest)),
        Quoting::InQuotes | Quoting::BehindBackslash => Err(Halt::Text(stop_at(&[]))),
    }
}

/// The word behind a mark of redirection, with blanks before it or none, and the bytes after it.
#[tactic(auto, unfolding(crate::specs::Reading::target_at))]
pub(crate) fn target(alloc: Global, bytes: &[u8]) -> Result<(Word, &[u8]), Halt>
    ensures gives { Gives (λ x. (x.0, x.1.now)) result (target_at bytes.now) }
    ensures within { IfErr result (λ halt. left_of halt ≤ length bytes.now) }
    ensures shorter { IfOk result (λ x. length x.1.now < length bytes.now) }
{
    word(alloc, after_blanks(bytes))
}
