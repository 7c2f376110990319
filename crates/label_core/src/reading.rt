//! Labels from texts.
ghost use Rattle.std.specs.Prelude.{◌≡◌, ◌<◌, ◌≤◌, length, drop, if◌then◌else◌, option_copied, IfOk};
ghost use Rattle.label_core.specs.Element.{IsElement};
ghost use Rattle.label_core.specs.Subject.{IsSubject};
ghost use Rattle.label_core.specs.Reading.{Gives, begins, after_literal, after_word, digits_at, number_at, compartments_at, grade_at, body_at, element_at, range_at, subject_or_fault, whole_element, whole_subject, element_of, subject_of};

use crate::comp_set::{COMPARTMENTS, CompSet};
use crate::element::{Element, POLICY};
use crate::fault::{LabelFault, LabelKind, Stop, stop_at};
use crate::subject::Subject;

/// What follows the byte, where the bytes begin with it.
fn after_byte(byte: u8, bytes: &[u8]) -> Option<&[u8]>
    ensures { option_copied result ≡ (if begins byte bytes.now then Some (drop 1 bytes.now) else None) }
{
    match bytes.split_first() {
        Some((first, rest)) if *first == byte => Some(rest),
        _ => None,
    }
}

/// What follows a literal.
fn after_literal<'a>(literal: &[u8], bytes: &'a [u8]) -> Result<&'a [u8], Stop>
    ensures { Gives (λ rest. rest.now) result (after_literal literal.now bytes.now) }
{
    let mut rest = bytes;
    for expected in literal {
        let [first, after @ ..] = rest else {
            return Err(stop_at(LabelKind::Form, rest));
        };
        if first != expected {
            return Err(stop_at(LabelKind::Form, rest));
        }
        rest = after;
    }
    Ok(rest)
}

/// What follows a word that may end early, after its short form.
#[tactic(auto, unfolding(crate::specs::Reading::after_word))]
fn after_word<'a>(short: &[u8], ending: &[u8], bytes: &'a [u8]) -> Result<&'a [u8], Stop>
    ensures { Gives (λ rest. rest.now) result (after_word short.now ending.now bytes.now) }
{
    let rest = after_literal(short, bytes)?;
    match (ending.first(), rest.first()) {
        (Some(expected), Some(first)) if first == expected => after_literal(ending, rest),
        _ => Ok(rest),
    }
}

/// A number of which `n` are the digits so far, and the bytes after it.
fn digits(kind: LabelKind, most: u16, n: u16, bytes: &[u8]) -> Result<(u16, &[u8]), Stop>
    ensures { Gives (λ x. (x.0, x.1.now)) result (digits_at kind most n bytes.now) }
{
    let mut n = n;
    for (i, digit) in bytes.iter().enumerate() {
        if !digit.is_ascii_digit() {
            return Ok((n, &bytes[i..]));
        }
        let more = u32::from(n) * 10 + u32::from(*digit - b'0');
        // A number that begins with 0 is 0, and goes on with no digit.
        if n == 0 || more > u32::from(most) {
            return Err(stop_at(kind, &bytes[i..]));
        }
        n = more as u16;
    }
    Ok((n, &[]))
}

/// A decimal number without leading zeros, from `least` to `most`, and the bytes after it.
#[tactic(auto, unfolding(crate::specs::Reading::number_at))]
fn number(kind: LabelKind, least: u16, most: u16, bytes: &[u8]) -> Result<(u16, &[u8]), Stop>
    // One digit alone never makes too much.
    requires { 9 ≤ most }
    ensures gives { Gives (λ x. (x.0, x.1.now)) result (number_at kind least most bytes.now) }
    ensures range { IfOk result (λ x. (least ≤ x.0) × (x.0 ≤ most)) }
    ensures shorter { IfOk result (λ x. length x.1.now < length bytes.now) }
{
    let [first, rest @ ..] = bytes else {
        return Err(stop_at(LabelKind::Form, bytes));
    };
    if !first.is_ascii_digit() {
        return Err(stop_at(LabelKind::Form, bytes));
    }
    let n = u16::from(*first - b'0');
    if n < least {
        return Err(stop_at(kind, bytes));
    }
    digits(kind, most, n, rest)
}

/// Compartments that are joined by plus signs, as a set, and the bytes after them.
fn compartments(bytes: &[u8]) -> Result<(CompSet, &[u8]), Stop>
    ensures { Gives (λ x. (x.0, x.1.now)) result (compartments_at bytes.now) }
{
    let mut set = CompSet::empty();
    let mut rest = bytes;
    loop {
        let (n, after) = number(LabelKind::Compartment, 1, COMPARTMENTS, rest)?;
        set = set.with(n);
        let Some(more) = after_byte(b'+', after) else {
            return Ok((set, after));
        };
        rest = more;
    }
}

/// A grade, behind a colon its compartments, and the bytes after them.
#[tactic(auto, unfolding(crate::specs::Reading::grade_at))]
fn grade(bytes: &[u8]) -> Result<(Element, &[u8]), Stop>
    ensures { Gives (λ x. (x.0, x.1.now)) result (grade_at bytes.now) }
{
    let (grade, rest) = number(LabelKind::Grade, 0, u16::MAX, bytes)?;
    match after_byte(b':', rest) {
        Some(list) => {
            let (set, rest) = compartments(list)?;
            Ok((Element::Grade { grade, set }, rest))
        }
        None => {
            let set = CompSet::empty();
            Ok((Element::Grade { grade, set }, rest))
        }
    }
}

/// An element without its policy's name, and the bytes after it.
#[tactic(auto, unfolding(crate::specs::Reading::body_at))]
fn body(bytes: &[u8]) -> Result<(Element, &[u8]), Stop>
    ensures { Gives (λ x. (x.0, x.1.now)) result (body_at bytes.now) }
{
    match bytes.first() {
        Some(b'l') => Ok((Element::Low, after_word(b"lo", b"w", bytes)?)),
        Some(b'e') => Ok((Element::Equal, after_word(b"eq", b"ual", bytes)?)),
        Some(b'h') => Ok((Element::High, after_word(b"hi", b"gh", bytes)?)),
        _ => grade(bytes),
    }
}

/// An element, and the bytes after it.
#[tactic(auto, unfolding(crate::specs::Reading::element_at))]
fn element(text: &[u8]) -> Result<(Element, &[u8]), Stop>
    ensures { Gives (λ x. (x.0, x.1.now)) result (element_at text.now) }
{
    body(after_literal(POLICY, text)?)
}

/// The two ends of a range in brackets, and the bytes after it. Where there is none, both ends are
/// the active element.
#[tactic(auto, unfolding(crate::specs::Reading::range_at))]
fn range<'a>(active: &Element, bytes: &'a [u8]) -> Result<(Element, Element, &'a [u8]), Stop>
    ensures { Gives (λ x. ((x.0, x.1), x.2.now)) result (range_at active.now bytes.now) }
{
    let Some(inner) = after_byte(b'(', bytes) else {
        return Ok((active.copy(), active.copy(), bytes));
    };
    let (low, rest) = body(inner)?;
    let (high, rest) = body(after_literal(b"-", rest)?)?;
    let end = after_literal(b")", rest)?;
    Ok((low, high, end))
}

/// A whole text that is an element.
#[tactic(auto, unfolding(crate::specs::Reading::whole_element))]
fn whole_element(text: &[u8]) -> Result<Element, Stop>
    ensures { Gives (λ e. e) result (whole_element text.now) }
{
    let (e, rest) = element(text)?;
    if !rest.is_empty() {
        return Err(stop_at(LabelKind::Form, rest));
    }
    Ok(e)
}

/// The subject of three parts, at the end of the text.
fn subject_or_fault(active: Element, low: Element, high: Element) -> Result<Subject, Stop>
    ensures { Gives (λ s. s) result (subject_or_fault (record { active = active; low = low; high = high })) }
{
    match Subject::new(active, low, high) {
        Some(s) => Ok(s),
        None => Err(stop_at(LabelKind::Range, &[])),
    }
}

/// A whole text that is a subject.
#[tactic(auto, unfolding(crate::specs::Reading::whole_subject, crate::specs::Reading::whole_parts))]
fn whole_subject(text: &[u8]) -> Result<Subject, Stop>
    ensures { Gives (λ s. s) result (whole_subject text.now) }
{
    let (active, rest) = element(text)?;
    let (low, high, rest) = range(&active, rest)?;
    if !rest.is_empty() {
        return Err(stop_at(LabelKind::Form, rest));
    }
    subject_or_fault(active, low, high)
}

/// Reads a whole text as an element, as mac_mls(4) writes it: `mls/` and a word, or a grade from 0
/// to 65535 and optionally `:` and compartments from 1 to 256 joined by `+`, in any order and with
/// repeats. The words are `low`, `lo`, `equal`, `eq`, `high` and `hi`. Numbers are decimal, without
/// leading zeros.
///
/// A fault stands at the first byte that no element's text has after those before it, or at the
/// length where the text ends early. It is `Grade` or `Compartment` where that byte is a digit that
/// goes on with or begins such a number, and else `Form`.
#[tactic(auto, unfolding(crate::specs::Reading::element_of))]
pub fn read_element(text: &[u8]) -> Result<Element, LabelFault>
    ensures gives { result ≡ element_of text.now }
    ensures valid { IfOk result IsElement }
{
    match whole_element(text) {
        Ok(e) => Ok(e),
        Err(stop) => Err(LabelFault {
            kind: stop.kind,
            at: text.len() - stop.left,
        }),
    }
}

/// Reads a whole text as a subject: an element's text for the active element, and optionally the
/// low and the high end in brackets, both without `mls/`, with `-` between them. Without these both
/// ends are the active element.
///
/// A fault is as that of an element, and is `Range`, at the length, where the text is whole and the
/// three parts are no subject.
#[tactic(auto, unfolding(crate::specs::Reading::subject_of))]
pub fn read_subject(text: &[u8]) -> Result<Subject, LabelFault>
    ensures gives { result ≡ subject_of text.now }
    ensures valid { IfOk result IsSubject }
{
    match whole_subject(text) {
        Ok(s) => Ok(s),
        Err(stop) => Err(LabelFault {
            kind: stop.kind,
            at: text.len() - stop.left,
        }),
    }
}
