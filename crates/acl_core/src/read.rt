//! Reading the text of a list.
ghost use Rattle.std.specs.Prelude.{◌≡◌, ◌+◌, ◌<◌, ◌≤◌, ◌^◌, List, length, SomeIff, MatchResult, IsOkAnd, IfOk, IfErr, Ok, Err};
ghost use Rattle.acl_core.specs.declared.entry.Entry.{Entry};
ghost use Rattle.acl_core.specs.Text.{list_text, HasText, IsFaultAt};
ghost use Rattle.acl_core.specs.declared.text.TheConstants.{ZERO};
ghost use Rattle.acl_core.specs.Reading.{Gives, byte_at, word_at, with_digit, digits_at, number_at, numbered_at, qualifier_at, tag_at, letter_at, perm_at, entry_at, next_at, entries_at, list_at, read_of};

use crate::fault::{ListFault, Stop, stop_at};
use crate::text::{COLON, COMMA, DASH, LETTER_R, LETTER_W, LETTER_X, ZERO};
use crate::{Entry, MOST_ENTRIES, Perm, Tag};
use arrayvec::ArrayVec;

fn byte_at(byte: u8, bytes: &[u8]) -> Result<&[u8], Stop>
    ensures { Gives (λ rest. rest.now) result (byte_at byte bytes.now) }
{
    match bytes {
        [first, rest @ ..] if *first == byte => Ok(rest),
        _ => Err(stop_at(bytes)),
    }
}

fn word_at<'a>(word: &[u8], bytes: &'a [u8]) -> Result<&'a [u8], Stop>
    ensures { Gives (λ rest. rest.now) result (word_at word.now bytes.now) }
{
    let mut rest = bytes;
    for byte in word {
        rest = byte_at(*byte, rest)?;
    }
    Ok(rest)
}

/// The number with one more digit, where it still has 32 bits.
fn with_digit(n: u32, digit: u8) -> Option<u32>
    requires low { ZERO ≤ digit }
    requires high { digit < ZERO + 10 }
    ensures { SomeIff result (with_digit n digit < 2 ^ 32) (with_digit n digit) }
{
    n.checked_mul(10)?.checked_add(u32::from(digit - ZERO))
}

/// The digits that go on with a number.
#[tactic(auto, unfolding(crate::specs::Reading::digits_at))]
fn digits_at(mut n: u32, bytes: &[u8]) -> Result<(u32, &[u8]), Stop>
    ensures { Gives (λ x. (x.0, x.1.now)) result (digits_at n bytes.now) }
{
    let mut rest = bytes;
    while let [digit @ b'0'..=b'9', after @ ..] = rest {
        match with_digit(n, *digit) {
            Some(more) => n = more,
            None => return Err(stop_at(rest)),
        }
        rest = after;
    }
    Ok((n, rest))
}

/// A number, which no digit follows where it is 0.
#[tactic(auto, unfolding(crate::specs::Reading::number_at))]
fn number_at(bytes: &[u8]) -> Result<(u32, &[u8]), Stop>
    ensures { Gives (λ x. (x.0, x.1.now)) result (number_at bytes.now) }
{
    match bytes {
        [ZERO, rest @ ..] => Ok((0, rest)),
        [digit @ b'1'..=b'9', rest @ ..] => digits_at(u32::from(*digit - ZERO), rest),
        _ => Err(stop_at(bytes)),
    }
}

/// A number and a colon.
#[tactic(auto, unfolding(crate::specs::Reading::numbered_at))]
fn numbered_at(bytes: &[u8]) -> Result<(Option<u32>, &[u8]), Stop>
    ensures { Gives (λ x. (x.0, x.1.now)) result (numbered_at bytes.now) }
{
    let (number, rest) = number_at(bytes)?;
    let rest = byte_at(COLON, rest)?;
    Ok((Some(number), rest))
}

/// A colon alone, or a number and a colon.
#[tactic(auto, unfolding(crate::specs::Reading::qualifier_at))]
fn qualifier_at(bytes: &[u8]) -> Result<(Option<u32>, &[u8]), Stop>
    ensures { Gives (λ x. (x.0, x.1.now)) result (qualifier_at bytes.now) }
{
    match byte_at(COLON, bytes) {
        Ok(rest) => Ok((None, rest)),
        Err(_) => numbered_at(bytes),
    }
}

/// A tag, with its colons.
#[tactic(auto, unfolding(crate::specs::Reading::tag_at))]
fn tag_at(bytes: &[u8]) -> Result<(Tag, &[u8]), Stop>
    ensures { Gives (λ x. (x.0, x.1.now)) result (tag_at bytes.now) }
{
    match bytes {
        [b'u', ..] => {
            let (uid, rest) = qualifier_at(word_at(b"user:", bytes)?)?;
            Ok((uid.map_or(Tag::UserObj, Tag::User), rest))
        }
        [b'g', ..] => {
            let (gid, rest) = qualifier_at(word_at(b"group:", bytes)?)?;
            Ok((gid.map_or(Tag::GroupObj, Tag::Group), rest))
        }
        [b'm', ..] => Ok((Tag::Mask, word_at(b"mask::", bytes)?)),
        [b'o', ..] => Ok((Tag::Other, word_at(b"other::", bytes)?)),
        _ => Err(stop_at(bytes)),
    }
}

/// A letter, or a dash in its place.
fn letter_at(letter: u8, bytes: &[u8]) -> Result<(bool, &[u8]), Stop>
    ensures { Gives (λ x. (x.0, x.1.now)) result (letter_at letter bytes.now) }
{
    match bytes {
        [first, rest @ ..] if *first == letter => Ok((true, rest)),
        [DASH, rest @ ..] => Ok((false, rest)),
        _ => Err(stop_at(bytes)),
    }
}

#[tactic(auto, unfolding(crate::specs::Reading::perm_at))]
fn perm_at(bytes: &[u8]) -> Result<(Perm, &[u8]), Stop>
    ensures { Gives (λ x. (x.0, x.1.now)) result (perm_at bytes.now) }
{
    let (read, rest) = letter_at(LETTER_R, bytes)?;
    let (write, rest) = letter_at(LETTER_W, rest)?;
    let (exec, rest) = letter_at(LETTER_X, rest)?;
    Ok((Perm { read, write, exec }, rest))
}

#[tactic(auto, unfolding(crate::specs::Reading::entry_at))]
fn entry_at(bytes: &[u8]) -> Result<(Entry, &[u8]), Stop>
    ensures { Gives (λ x. (x.0, x.1.now)) result (entry_at bytes.now) }
{
    let (tag, rest) = tag_at(bytes)?;
    let (perm, rest) = perm_at(rest)?;
    Ok((Entry { tag, perm }, rest))
}

/// An entry after a comma.
fn next_at(bytes: &[u8]) -> Result<(Entry, &[u8]), Stop>
    ensures { Gives (λ x. (x.0, x.1.now)) result (next_at bytes.now) }
{
    entry_at(byte_at(COMMA, bytes)?)
}

/// The entries to the end of the text, of which there is at least one.
#[tactic(auto, unfolding(crate::specs::Reading::entries_at, crate::specs::Reading::more_at))]
fn entries_at(bytes: &[u8]) -> Result<ArrayVec<Entry, MOST_ENTRIES>, Stop>
    ensures { Gives (λ v. v.items) result (entries_at bytes.now) }
{
    let (first, mut rest) = entry_at(bytes)?;
    let mut entries = ArrayVec::new();
    entries.push(first);
    while !rest.is_empty() {
        if entries.is_full() {
            return Err(stop_at(rest));
        }
        let (next, after) = next_at(rest)?;
        entries.push(next);
        rest = after;
    }
    Ok(entries)
}

/// The whole text.
#[tactic(auto, unfolding(crate::specs::Reading::list_at))]
fn list_at(bytes: &[u8]) -> Result<ArrayVec<Entry, MOST_ENTRIES>, Stop>
    ensures { Gives (λ v. v.items) result (list_at bytes.now) }
{
    match bytes {
        [DASH] => Ok(ArrayVec::new()),
        [DASH, rest @ ..] => Err(stop_at(rest)),
        _ => entries_at(bytes),
    }
}

/// The entries of a text, in their order, whether they make a list or not (acl_from_text(3)). The
/// text is `-`, or at most 64 entries joined by commas: `user::P`, `user:UID:P`, `group::P`,
/// `group:GID:P`, `mask::P` or `other::P`, with three letters such as `r-x` for P and a number of 32
/// bits, in decimal without leading zeros, for UID and GID.
#[tactic(auto, unfolding(crate::specs::Reading::read_of))]
pub fn read_list(text: &[u8]) -> Result<ArrayVec<Entry, MOST_ENTRIES>, ListFault>
    // What is read is spelled so.
    ensures spelling { IfOk result (λ v. HasText v.items × (text.now ≡ list_text v.items)) }
    // What is spelled so is read.
    ensures only { (list : List Entry) → HasText list → text.now ≡ list_text list
        → IsOkAnd result (λ v. v.items ≡ list) }
    ensures fault { IfErr result (λ fault. IsFaultAt text.now fault.at) }

    // The same as the grammar says it from left to right.
    ensures exact { MatchResult result (λ v. read_of text.now ≡ Ok v.items)
        (λ fault. read_of text.now ≡ Err fault) }
{
    match list_at(text) {
        Ok(entries) => Ok(entries),
        Err(stop) => Err(ListFault {
            at: text.len() - stop.left,
        }),
    }
}
