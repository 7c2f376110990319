//! The opening events, and the event that a word draws.
ghost use Rattle.std.specs.Prelude.{◌≡◌, ◌<◌, [], ◌∷◌, Some, length, slice_get, codes};
ghost use Rattle.call_words.specs.Events.{MayBeUsed};
ghost use Rattle.event_load.specs.Load.{opening, open_line, revoke_or_dup, drawn_event};

use call_words::{Access, Call, Event, OpenFlags, PathText, Piece, RAW_LINE};

/// The path of the line that a load is about.
const LINE_PATH: &[u8] = b"/dev/tty7";

/// The mode of an open that names none, octal 666.
const DEFAULT_MODE: u16 = 0o666;

fn line_path() -> PathText
    ensures { result ≡ codes "/dev/tty7" }
{
    PathText::from_slice(LINE_PATH).unwrap()
}

/// `SLOT open /dev/tty7 rw`
fn open_line(slot: u8) -> Event
    ensures { result ≡ open_line slot }
{
    Event::Call {
        slot,
        call: Call::Open {
            path: line_path(),
            access: Access::ReadWrite,
            flags: OpenFlags::default(),
            mode: DEFAULT_MODE,
        },
    }
}

/// The opening event at a place, counted from 0: `0 open /dev/tty7 rw`, and then `0 fork`.
pub fn opening_event(at: usize) -> Event
    requires { at < length opening }
    ensures event { slice_get opening at ≡ Some result }
    ensures valid { MayBeUsed result }
{
    if at == 0 {
        return open_line(0);
    }
    Event::Call {
        slot: 0,
        call: Call::Fork {
            note: Piece::empty(),
        },
    }
}

/// `write FD` with one byte
fn write_byte(fd: u8, byte: u8) -> Call
    ensures { result ≡ Call.Write fd (byte ∷ []) }
{
    Call::Write {
        fd,
        bytes: Piece::from_slice(&[byte]).unwrap(),
    }
}

/// `revoke /dev/tty7` where the descriptor is 0, and else `dup` of another one
fn revoke_or_dup(fd: u8, other: u8) -> Call
    ensures { result ≡ revoke_or_dup fd other }
{
    if fd == 0 {
        Call::Revoke { path: line_path() }
    } else {
        Call::Dup { fd: other }
    }
}

/// The event that a word draws.
pub fn drawn_event(word: u32) -> Event
    ensures event { result ≡ drawn_event word }
    ensures valid { MayBeUsed result }
{
    let slot = (word / 8 % 4) as u8;
    let fd = (word / 32 % 8) as u8;
    let call = match word % 8 {
        0 => return open_line(slot),
        1 => Call::Read { fd, max: 16 },
        2 => write_byte(fd, (word / 256 % 256) as u8),
        3 => Call::Close { fd },
        4 => {
            return Event::Byte {
                line: RAW_LINE,
                byte: (word / 32 % 256) as u8,
            };
        }
        5 => {
            return Event::Take {
                line: RAW_LINE,
                max: 64,
            };
        }
        6 => return Event::Again { slot },
        _ => revoke_or_dup(fd, (word / 256 % 8) as u8),
    };
    Event::Call { slot, call }
}
