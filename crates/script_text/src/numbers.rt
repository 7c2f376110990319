//! The numbers and bytes that a word writes.
ghost use Rattle.std.specs.Prelude.{◌≡◌, ℕ, ◌+◌, ◌-◌, ◌*◌, ◌/◌, ◌%◌, ◌<◌, ◌≤◌, List, [], ◌^◌, length, IsTrue, IfSome};
ghost use Rattle.std.specs.List.{list_all};
ghost use Rattle.std.specs.Option.{SomeIff};
ghost use Rattle.std.specs.Str.Parse.{digits_value};
ghost use Rattle.std.specs.Result.{result_ok};
ghost use Rattle.sys_types.specs.declared.limits.TheConstants.{PIECE_BYTES};
ghost use Rattle.hex.specs.Hex.{decode_of};
ghost use Rattle.script_text.specs.Words.{is_digit, is_number, number_below, bytes_of_word};

use crate::words::is_word;
use call_words::{PIECE_BYTES, Piece};
use std::str;

/// The radix of most numbers.
pub const DECIMAL: u8 = 10;

/// The radix of modes.
pub const OCTAL: u8 = 8;

fn is_all_digits(word: &[u8], radix: u8) -> bool
    requires { radix ≤ 10 }
    ensures { result ≡ list_all (is_digit radix) word.now }
{
    word.iter()
        .all(|byte| b'0' <= *byte && *byte < b'0' + radix)
}

/// Whether a word is digits, of which the first is no 0 but where it stands alone.
fn is_number(word: &[u8], radix: u8) -> bool
    requires { radix ≤ 10 }
    ensures { result ≡ is_number radix word.now }
{
    if word.is_empty() || !is_all_digits(word, radix) {
        return false;
    }
    word.len() == 1 || word[0] != b'0'
}

/// The number that digits write, where it is below 2^32.
fn read_digits(digits: &[u8], radix: u8) -> Option<u32>
    requires low { 2 ≤ radix }
    requires high { radix ≤ 10 }
    requires some { 0 < length digits.now }
    requires digits { IsTrue (list_all (is_digit radix) digits.now) }
    ensures { SomeIff result (digits_value radix digits.now < 2 ^ 32) (digits_value radix digits.now) }
{
    match str::from_utf8(digits) {
        Ok(text) => u32::from_str_radix(text, u32::from(radix)).ok(),
        Err(_) => None,
    }
}

/// The number that a word writes in a radix, without a sign or a leading zero, where it is
/// below a limit.
#[tactic(auto, unfolding(crate::specs::Words::number_below))]
pub fn read_number(word: &[u8], radix: u8, limit: u32) -> Option<u32>
    requires low { 2 ≤ radix }
    requires high { radix ≤ 10 }
    ensures value { result ≡ number_below radix limit word.now }
    ensures below { IfSome result (λ n. n < limit) }
{
    if !is_number(word, radix) {
        return None;
    }
    let number = read_digits(word, radix)?;
    if number < limit { Some(number) } else { None }
}

/// The number of 32 bits that a word writes in decimal, without a sign or a leading zero.
#[tactic(auto, unfolding(crate::specs::Words::number_below))]
pub fn read_u32(word: &[u8]) -> Option<u32>
    ensures { result ≡ number_below 10 (2 ^ 32) word.now }
{
    if !is_number(word, DECIMAL) {
        return None;
    }
    read_digits(word, DECIMAL)
}

/// The number that decimal digits write, where it is below 2^64.
fn read_long_digits(digits: &[u8]) -> Option<u64>
    requires some { 0 < length digits.now }
    requires digits { IsTrue (list_all (is_digit 10) digits.now) }
    ensures { SomeIff result (digits_value 10 digits.now < 2 ^ 64) (digits_value 10 digits.now) }
{
    match str::from_utf8(digits) {
        Ok(text) => u64::from_str_radix(text, 10).ok(),
        Err(_) => None,
    }
}

/// The number of 64 bits that a word writes in decimal, without a sign or a leading zero.
#[tactic(auto, unfolding(crate::specs::Words::number_below))]
pub fn read_u64(word: &[u8]) -> Option<u64>
    ensures { result ≡ number_below 10 (2 ^ 64) word.now }
{
    if !is_number(word, DECIMAL) {
        return None;
    }
    read_long_digits(word)
}

/// The bytes that pairs of hex digits write, in either case. `room` has a place for each.
fn read_pairs(digits: &[u8], room: &mut [u8]) -> Option<Piece>
    requires places { length room.old ≡ length digits.now / 2 }
    requires most { length room.old ≤ PIECE_BYTES }
    ensures { result ≡ result_ok (decode_of digits.now) }
{
    match hex::decode_to_slice(digits, room) {
        Ok(()) => Piece::from_slice(room),
        Err(_) => None,
    }
}

/// The bytes that a word writes: a dash for none, or pairs of hex digits for 1 to 512.
#[tactic(auto, unfolding(crate::specs::Words::bytes_of_word))]
pub fn read_bytes(word: &[u8]) -> Option<Piece>
    ensures { result ≡ bytes_of_word word.now }
{
    if is_word(word, b"-") {
        return Some(Piece::empty());
    }
    if word.is_empty() || word.len() > 2 * PIECE_BYTES {
        return None;
    }
    let mut room = [0; PIECE_BYTES];
    read_pairs(word, &mut room[..word.len() / 2])
}
