//! The words of paths, and which bytes a word writes as themselves.
ghost use Rattle.std.specs.Prelude.{◌≡◌, ℕ, ◌<◌, ◌≤◌, List, [], ◌∷◌, length, MatchOption, IfSome, None};
ghost use Rattle.acl_core.specs.declared.mode.TheConstants.{MODE_MOST};
ghost use Rattle.script_text.specs.Args.{with_one, with_two};
ghost use Rattle.script_text.specs.Values.{mode_of};
ghost use Rattle.script_text.specs.Paths.{is_plain, escape_value, then_bytes, path_bytes_of, if_short, path_of};

use crate::values::read_mode;
use crate::words::{Words, both, is_word, only};
use arrayvec::ArrayVec;
use call_words::{PATH_TEXT_BYTES, PathText};

const PERCENT: u8 = b'%';

/// Whether a byte is written as itself.
pub fn is_plain(byte: u8) -> bool
    ensures { result ≡ is_plain byte }
{
    (33..=126).contains(&byte) && byte != PERCENT
}

/// The byte that two hex digits write behind a percent sign.
fn read_escape(high: u8, low: u8) -> Option<u8>
    ensures { result ≡ escape_value high low }
{
    let high = char::from(high).to_digit(16)?;
    let low = char::from(low).to_digit(16)?;
    let byte = (16 * high + low) as u8;
    if is_plain(byte) { None } else { Some(byte) }
}

/// The byte that comes first, and the text after it.
#[tactic(auto, unfolding(crate::specs::Paths::path_bytes_of))]
fn next_byte(text: &[u8]) -> Option<(u8, &[u8])>
    requires { 0 < length text.now }
    ensures byte { MatchOption result (path_bytes_of text.now ≡ None)
        (λ next. path_bytes_of text.now ≡ then_bytes (Some next.0) (path_bytes_of next.1.now)) }
    ensures shorter { IfSome result (λ next. length next.1.now < length text.now) }
{
    match text {
        [PERCENT, high, low, rest @ ..] => Some((read_escape(*high, *low)?, rest)),
        [byte, rest @ ..] if is_plain(*byte) => Some((*byte, rest)),
        _ => None,
    }
}

/// The path that a text of plain bytes and escapes writes, where it has at most 1,024 bytes.
fn read_path_bytes(text: &[u8]) -> Option<PathText>
    ensures { result ≡ if_short (path_bytes_of text.now) }
{
    let mut path: ArrayVec<u8, PATH_TEXT_BYTES> = ArrayVec::new();
    let mut rest = text;
    while !rest.is_empty() {
        let (byte, after) = next_byte(rest)?;
        if path.is_full() {
            return None;
        }
        path.push(byte);
        rest = after;
    }
    PathText::from_slice(path.as_slice())
}

/// The path that a word writes: a percent sign for the empty one, or its bytes, of which those
/// that are not plain are escaped.
#[tactic(auto, unfolding(crate::specs::Paths::path_of))]
pub fn read_path(word: &[u8]) -> Option<PathText>
    ensures { result ≡ path_of word.now }
{
    if is_word(word, b"%") {
        return Some(PathText::empty());
    }
    if word.is_empty() {
        return None;
    }
    read_path_bytes(word)
}

/// The path that is left.
pub fn only_path(words: &mut Words) -> Option<PathText>
    ensures { result ≡ with_one path_of (λ path. path) words.old }
{
    read_path(only(words)?)
}

/// The path and the mode that are left.
pub fn path_and_mode(words: &mut Words) -> Option<(PathText, u16)>
    ensures words { result ≡ with_two path_of mode_of (λ path mode. (path, mode)) words.old }
    ensures most { IfSome result (λ pair. pair.1 ≤ MODE_MOST) }
{
    let (path, mode) = both(words)?;
    Some((read_path(path)?, read_mode(mode)?))
}
