//! The value of a word, for each kind of word.
ghost use Rattle.std.specs.Prelude.{◌≡◌, ◌==◌, ℕ, ◌+◌, ◌*◌, ◌<◌, ◌≤◌, ◌^◌, List, length, count_by, nat_le, IfSome};
ghost use Rattle.std.specs.List.{list_all};
ghost use Rattle.acl_core.specs.declared.mode.TheConstants.{MODE_MOST};
ghost use Rattle.sys_types.specs.declared.limits.TheConstants.{SLOTS, LINES};
ghost use Rattle.sys_types.specs.declared.limits.TheConstants.{PIECE_BYTES};
ghost use Rattle.script_text.specs.Words.{number_below};
ghost use Rattle.script_text.specs.Values.{slot_of, line_of, fd_of, status_of, pid_of, max_of, take_max_of, from_of, mode_of, access_of, flag_letters};
ghost use Rattle.script_text.specs.Values.{is_flag_letter, times, are_flags, flags_in, flags_of};

use crate::numbers::{DECIMAL, OCTAL, read_number, read_u32};
use crate::words::is_word;
use acl_core::MODE_MOST;
use call_words::{Access, LINES, OpenFlags, PIECE_BYTES, SLOTS};

/// The mode of an open that names none.
pub const DEFAULT_MODE: u16 = 0o666;

/// The number of a slot.
pub fn read_slot(word: &[u8]) -> Option<u8>
    ensures value { result ≡ slot_of word.now }
    ensures below { IfSome result (λ slot. slot < SLOTS) }
{
    let slot = read_number(word, DECIMAL, SLOTS as u32)?;
    Some(slot as u8)
}

/// The line of `ttyN`.
pub fn read_line(word: &[u8]) -> Option<u8>
    ensures value { result ≡ line_of word.now }
    ensures below { IfSome result (λ line. line < LINES) }
{
    let number = word.strip_prefix(b"tty".as_slice())?;
    let line = read_number(number, DECIMAL, LINES as u32)?;
    Some(line as u8)
}

/// The number of a descriptor.
pub fn read_fd(word: &[u8]) -> Option<u8>
    ensures { result ≡ fd_of word.now }
{
    let fd = read_number(word, DECIMAL, 1 << 8)?;
    Some(fd as u8)
}

/// The status of an exit.
pub fn read_status(word: &[u8]) -> Option<u8>
    ensures { result ≡ status_of word.now }
{
    let status = read_number(word, DECIMAL, 1 << 8)?;
    Some(status as u8)
}

/// The number of a process or of a group of processes.
pub fn read_pid(word: &[u8]) -> Option<u32>
    ensures { result ≡ pid_of word.now }
{
    read_u32(word)
}

/// The most bytes that a read asks.
pub fn read_max(word: &[u8]) -> Option<u16>
    ensures { result ≡ max_of word.now }
{
    let max = read_number(word, DECIMAL, 1 << 16)?;
    Some(max as u16)
}

/// The most bytes that a taking asks.
pub fn read_take_max(word: &[u8]) -> Option<u16>
    ensures value { result ≡ take_max_of word.now }
    ensures most { IfSome result (λ max. max ≤ PIECE_BYTES) }
{
    let max = read_number(word, DECIMAL, PIECE_BYTES as u32 + 1)?;
    Some(max as u16)
}

/// How many names a listing passes over.
pub fn read_from(word: &[u8]) -> Option<u16>
    ensures { result ≡ from_of word.now }
{
    let from = read_number(word, DECIMAL, 1 << 16)?;
    Some(from as u16)
}

/// A mode, in octal, up to 777.
pub fn read_mode(word: &[u8]) -> Option<u16>
    ensures value { result ≡ mode_of word.now }
    ensures most { IfSome result (λ mode. mode ≤ MODE_MOST) }
{
    let mode = read_number(word, OCTAL, u32::from(MODE_MOST) + 1)?;
    Some(mode as u16)
}

/// `r`, `w` or `rw`.
pub fn read_access(word: &[u8]) -> Option<Access>
    ensures { result ≡ access_of word.now }
{
    match word {
        b"r" => Some(Access::Read),
        b"w" => Some(Access::Write),
        b"rw" => Some(Access::ReadWrite),
        _ => None,
    }
}

fn is_flag_letter(byte: u8) -> bool
    ensures { result ≡ is_flag_letter byte }
{
    byte == b'c' || byte == b'x' || byte == b't' || byte == b'a' || byte == b'n' || byte == b'e'
}

fn are_flag_letters(word: &[u8]) -> bool
    ensures { result ≡ list_all is_flag_letter word.now }
{
    word.iter().all(|byte| is_flag_letter(*byte))
}

/// How often a letter stands in a word.
fn times(letter: u8, word: &[u8]) -> usize
    ensures { result ≡ times letter word.now }
{
    word.iter().filter(|byte| **byte == letter).count()
}

/// Whether each letter stands in a word at most once.
fn stand_once(letters: &[u8], word: &[u8]) -> bool
    ensures { result ≡ list_all (λ letter. nat_le (times letter word.now) 1) letters.now }
{
    letters.iter().all(|letter| times(*letter, word) <= 1)
}

/// The flags whose letters stand in a word.
fn flags_in(word: &[u8]) -> OpenFlags
    ensures { result ≡ flags_in word.now }
{
    OpenFlags {
        create: times(b'c', word) > 0,
        exclusive: times(b'x', word) > 0,
        truncate: times(b't', word) > 0,
        append: times(b'a', word) > 0,
        nonblock: times(b'n', word) > 0,
        on_exec: times(b'e', word) > 0,
    }
}

/// A dash for no flags, or their letters, each at most once, in any order.
#[tactic(auto, unfolding(crate::specs::Values::flags_of))]
pub fn read_flags(word: &[u8]) -> Option<OpenFlags>
    ensures { result ≡ flags_of word.now }
{
    if is_word(word, b"-") {
        return Some(OpenFlags::default());
    }
    if word.is_empty() || !are_flag_letters(word) || !stand_once(b"cxtane", word) {
        return None;
    }
    Some(flags_in(word))
}
