//! The terminal lines of a kernel over one pool, by the calls of their table: two lines that share the blocks, and what a revoke of
//! the one leaves of the other.
ghost use Rattle.std.specs.Prelude.{◌≡◌, ◌<◌, length};
ghost use Rattle.block_pool.specs.Pool.{AreOf};
ghost use Rattle.tty_dev.specs.Table.{lines_held};

use block_pool::Pool;
use std::test::Fail;
use sys_types::Sig;
use termios_core::Termios;
use tty_dev::{Line, table};

/// What is done at a line, with what is answered.
#[derive(Clone, Copy)]
enum Step {
    /// A file is opened, at this generation.
    Opens(u64),
    /// An open finds no room.
    FindsNoRoom,
    /// A file of this generation is closed.
    Closes(u64),
    /// A file of this generation is dead, or is not.
    IsDead(u64, bool),
    /// A byte comes in, and sends this signal.
    Comes(u8, Option<Sig>),
    /// A read of so many bytes gives these.
    Reads(u16, &'static [u8]),
    /// A read waits.
    Waits(u16),
    /// So many of these bytes are put.
    Puts(&'static [u8], u16),
    /// A taking of so many bytes gives these.
    Takes(u16, &'static [u8]),
    /// The carrier comes or goes, and whether this disconnects the line.
    Carrier(bool, bool),
    /// The line ends, and whether this disconnects it.
    Ends(bool),
    /// The line is revoked, and had this session.
    Revoked(Option<u32>),
    /// It gets a session and a group in the foreground.
    Session(u32, u32),
    /// It has this session and this group in the foreground.
    HasSession(Option<u32>, u32),
    /// Its input, its output or both are emptied.
    Flushes(bool, bool),
    /// It gets the settings `raw`.
    BecomesRaw,
    /// It gets the settings `cooked`.
    BecomesCooked,
    /// So many blocks of the pool are free.
    Free(u16),
}

/// Opens a file of a line. `None` where there is no room, and where eight are open.
#[tactic(auto, using(crate::proofs::LineTableLemmas::lines_of_pool, crate::proofs::LineTableLemmas::as_many_lines))]
fn open(lines: &mut [Line], pool: &mut Pool, line: u8) -> Option<u64>
    requires line { line < length lines.old }
    requires of_pool { AreOf pool.old (lines_held lines.old) }
    ensures of_pool { AreOf pool.new (lines_held lines.new) }
    ensures size { length lines.new ≡ length lines.old }
{
    let device = &lines[usize::from(line)];
    if device.live > 7 {
        return None;
    }
    table::open_line(lines, pool, line).ok()
}

/// Closes a file of a line, if it is dead or one is live.
#[tactic(auto, using(crate::proofs::LineTableLemmas::lines_of_pool, crate::proofs::LineTableLemmas::as_many_lines))]
fn close(lines: &mut [Line], pool: &mut Pool, line: u8, opened: u64) -> bool
    requires line { line < length lines.old }
    requires of_pool { AreOf pool.old (lines_held lines.old) }
    ensures of_pool { AreOf pool.new (lines_held lines.new) }
    ensures size { length lines.new ≡ length lines.old }
{
    let device = &lines[usize::from(line)];
    if device.live == 0 && !table::is_dead(lines, line, opened) {
        return false;
    }
    table::close_file(lines, pool, line, opened);
    true
}

/// Revokes a line. `None` where this was done eight times.
#[tactic(auto, using(crate::proofs::LineTableLemmas::lines_of_pool, crate::proofs::LineTableLemmas::as_many_lines))]
fn revoke(lines: &mut [Line], pool: &mut Pool, line: u8) -> Option<Option<u32>>
    requires line { line < length lines.old }
    requires of_pool { AreOf pool.old (lines_held lines.old) }
    ensures of_pool { AreOf pool.new (lines_held lines.new) }
    ensures size { length lines.new ≡ length lines.old }
{
    let device = &lines[usize::from(line)];
    if device.generation > 7 {
        return None;
    }
    Some(table::revoke(lines, pool, line))
}

/// Whether a read gives these bytes.
#[tactic(auto, using(crate::proofs::LineTableLemmas::lines_of_pool, crate::proofs::LineTableLemmas::as_many_lines))]
fn reads(lines: &mut [Line], pool: &Pool, line: u8, max: u16, wanted: &[u8]) -> bool
    requires line { line < length lines.old }
    requires of_pool { AreOf pool.now (lines_held lines.old) }
    ensures of_pool { AreOf pool.now (lines_held lines.new) }
    ensures size { length lines.new ≡ length lines.old }
{
    if max > 512 {
        return false;
    }
    match table::read(lines, pool, line, max) {
        Some(piece) => piece.as_slice() == wanted,
        None => false,
    }
}

/// Whether a read waits.
#[tactic(auto, using(crate::proofs::LineTableLemmas::lines_of_pool, crate::proofs::LineTableLemmas::as_many_lines))]
fn waits(lines: &mut [Line], pool: &Pool, line: u8, max: u16) -> bool
    requires line { line < length lines.old }
    requires of_pool { AreOf pool.now (lines_held lines.old) }
    ensures of_pool { AreOf pool.now (lines_held lines.new) }
    ensures size { length lines.new ≡ length lines.old }
{
    if max > 512 {
        return false;
    }
    table::waits(lines, line, max) && table::read(lines, pool, line, max).is_none()
}

/// Whether a taking gives these bytes.
#[tactic(auto, using(crate::proofs::LineTableLemmas::lines_of_pool, crate::proofs::LineTableLemmas::as_many_lines))]
fn takes(lines: &mut [Line], pool: &Pool, line: u8, max: u16, wanted: &[u8]) -> bool
    requires line { line < length lines.old }
    requires of_pool { AreOf pool.now (lines_held lines.old) }
    ensures of_pool { AreOf pool.now (lines_held lines.new) }
    ensures size { length lines.new ≡ length lines.old }
{
    if max > 512 {
        return false;
    }
    table::take(lines, pool, line, max).as_slice() == wanted
}

/// A step of opens, of what moves bytes, or of none of these.
#[tactic(auto, using(crate::proofs::LineTableLemmas::lines_of_pool, crate::proofs::LineTableLemmas::as_many_lines))]
fn moves(lines: &mut [Line], pool: &mut Pool, line: u8, step: Step) -> bool
    requires line { line < length lines.old }
    requires of_pool { AreOf pool.old (lines_held lines.old) }
    ensures of_pool { AreOf pool.new (lines_held lines.new) }
    ensures size { length lines.new ≡ length lines.old }
{
    match step {
        Step::Opens(opened) => open(lines, pool, line) == Some(opened),
        Step::FindsNoRoom => open(lines, pool, line).is_none(),
        Step::Closes(opened) => close(lines, pool, line, opened),
        Step::Comes(byte, signal) => table::receive(lines, pool, line, byte) == signal,
        Step::Reads(max, wanted) => reads(lines, pool, line, max, wanted),
        Step::Waits(max) => waits(lines, pool, line, max),
        Step::Puts(written, count) => table::write(lines, pool, line, written) == count,
        Step::Takes(max, wanted) => takes(lines, pool, line, max, wanted),
        Step::Revoked(session) => revoke(lines, pool, line) == Some(session),
        _ => changes(lines, pool, line, step),
    }
}

/// A step of carriers, ends, sessions, settings and looks.
#[tactic(auto, using(crate::proofs::LineTableLemmas::lines_of_pool, crate::proofs::LineTableLemmas::as_many_lines))]
fn changes(lines: &mut [Line], pool: &mut Pool, line: u8, step: Step) -> bool
    requires line { line < length lines.old }
    requires of_pool { AreOf pool.old (lines_held lines.old) }
    ensures of_pool { AreOf pool.new (lines_held lines.new) }
    ensures size { length lines.new ≡ length lines.old }
{
    match step {
        Step::Carrier(up, told) => table::set_carrier(lines, pool, line, up) == told,
        Step::Ends(told) => table::end_line(lines, pool, line) == told,
        Step::BecomesRaw => {
            table::retune(lines, pool, line, Termios::raw());
            true
        }
        Step::BecomesCooked => {
            table::retune(lines, pool, line, Termios::cooked());
            true
        }
        Step::Flushes(input, output) => {
            table::flush(lines, line, input, output);
            true
        }
        Step::Session(session, foreground) => {
            table::set_session(lines, line, session, foreground);
            true
        }
        Step::HasSession(session, foreground) => {
            table::session_at(lines, line) == session
                && table::foreground_at(lines, line) == foreground
        }
        Step::IsDead(opened, dead) => table::is_dead(lines, line, opened) == dead,
        Step::Free(blocks) => pool.free() == blocks,
        _ => false,
    }
}

/// Whether each step is answered as it says; if not, the first that is not.
#[tactic(auto, using(crate::proofs::LineTableLemmas::lines_of_pool, crate::proofs::LineTableLemmas::as_many_lines))]
fn first_wrong(lines: &mut [Line], pool: &mut Pool, rows: &[(u8, Step)]) -> Option<usize>
    requires of_pool { AreOf pool.old (lines_held lines.old) }
    ensures of_pool { AreOf pool.new (lines_held lines.new) }
{
    for (i, (line, step)) in rows.iter().enumerate() {
        if usize::from(*line) >= lines.len() || !moves(lines, pool, *line, *step) {
            return Some(i);
        }
    }
    None
}

/// Line 0 has the settings `cooked` and a terminal, line 7 the settings `raw` and none, which clocal does not ask for.
const TWO_LINES: [(u8, Step); 69] = [
    (0, Step::Carrier(true, false)),
    (0, Step::Opens(0)),
    (0, Step::Free(472)),
    (7, Step::Opens(0)),
    (7, Step::Free(432)),
    // A byte comes in at one line alone. Line 0 echoes it, and is edited.
    (0, Step::Comes(b'h', None)),
    (0, Step::Comes(b'\n', None)),
    (7, Step::Waits(100)),
    (7, Step::Comes(b'y', None)),
    (0, Step::Reads(100, b"h\n")),
    (0, Step::Waits(100)),
    (7, Step::Reads(100, b"y")),
    (7, Step::Takes(100, b"")),
    (0, Step::Takes(2, b"h\r")),
    (0, Step::Takes(100, b"\n")),
    // What is written goes out at the line that it is written to, by the output rule of that line.
    (0, Step::Puts(b"a\n", 2)),
    (7, Step::Puts(b"a\n", 2)),
    (0, Step::Takes(100, b"a\r\n")),
    (7, Step::Takes(100, b"a\n")),
    // A signal character empties both queues and is echoed.
    (0, Step::Comes(b'a', None)),
    (7, Step::Comes(3, None)),
    (0, Step::Comes(3, Some(Sig::INT))),
    (0, Step::Takes(100, b"^C")),
    (7, Step::Reads(100, b"\x03")),
    // One queue is emptied, or the other.
    (7, Step::Comes(b'd', None)),
    (7, Step::Puts(b"e", 1)),
    (0, Step::Comes(b'f', None)),
    (0, Step::Comes(b'\n', None)),
    (7, Step::Flushes(true, false)),
    (7, Step::Waits(100)),
    (7, Step::Takes(100, b"e")),
    (0, Step::Flushes(false, true)),
    (0, Step::Takes(100, b"")),
    (0, Step::Reads(100, b"f\n")),
    // What is queued can be read at once where lines are not edited any more.
    (0, Step::Comes(b'i', None)),
    (0, Step::Waits(100)),
    (0, Step::BecomesRaw),
    (0, Step::Reads(100, b"i")),
    (0, Step::Comes(b'\r', None)),
    (0, Step::Reads(100, b"\r")),
    (0, Step::Takes(100, b"i")),
    // Without clocal a byte is dropped at a line that has no carrier.
    (7, Step::BecomesCooked),
    (7, Step::Comes(b'k', None)),
    (7, Step::BecomesRaw),
    (7, Step::Waits(100)),
    // With clocal a loss of carrier tells nobody, and without it disconnects the line.
    (0, Step::Comes(b'l', None)),
    (0, Step::Carrier(false, false)),
    (0, Step::Reads(100, b"l")),
    (0, Step::BecomesCooked),
    (0, Step::Carrier(true, false)),
    (0, Step::Comes(b'm', None)),
    (0, Step::Carrier(false, true)),
    (0, Step::Takes(100, b"")),
    (0, Step::Carrier(true, false)),
    (0, Step::Comes(b'n', None)),
    (0, Step::Takes(100, b"")),
    // The last close of a live file gives its blocks back, and a line that has ended takes no byte.
    (0, Step::Closes(0)),
    (0, Step::Free(472)),
    (7, Step::Ends(false)),
    (7, Step::Comes(b'o', None)),
    (7, Step::Waits(100)),
    // A first open finds no mark of the lost carrier. The end of a line is such a loss, and no carrier comes after it.
    (0, Step::Opens(0)),
    (0, Step::Comes(b'p', None)),
    (0, Step::Takes(100, b"p")),
    (0, Step::Ends(true)),
    (0, Step::Carrier(true, false)),
    (0, Step::Comes(b'q', None)),
    (0, Step::Takes(100, b"")),
    (0, Step::Ends(false)),
];

#[test]
fn two_lines_share_a_pool(rt: HostRuntime) -> Result<(), Fail> {
    let mut pool = Pool::new(rt.alloc(), 512)?;
    let mut lines = table::lines_at_boot();
    let wrong = first_wrong(&mut lines, &mut pool, &TWO_LINES);
    assert!(rt; wrong == None, "{wrong:?}");
    Ok(())
}

/// Both lines have a session, a line of input and output. Line 0 is revoked and opened anew.
const REVOKED: [(u8, Step); 46] = [
    (0, Step::Carrier(true, false)),
    (1, Step::Carrier(true, false)),
    (0, Step::Opens(0)),
    (1, Step::Opens(0)),
    (1, Step::Opens(0)),
    (0, Step::Session(4, 5)),
    (1, Step::Session(6, 7)),
    (0, Step::Comes(b'a', None)),
    (0, Step::Comes(b'\n', None)),
    (1, Step::Comes(b'b', None)),
    (1, Step::Comes(b'\n', None)),
    (1, Step::Comes(b'c', None)),
    (0, Step::Puts(b"d", 1)),
    (1, Step::Puts(b"e", 1)),
    (1, Step::Revoked(Some(6))),
    (1, Step::Opens(1)),
    (1, Step::Session(6, 7)),
    (1, Step::Comes(b'b', None)),
    (1, Step::Comes(b'\n', None)),
    (1, Step::Comes(b'c', None)),
    (1, Step::Puts(b"e", 1)),
    (0, Step::Free(432)),
    // Its file is dead, its queues are empty, and its blocks are free.
    (0, Step::Revoked(Some(4))),
    (0, Step::IsDead(0, true)),
    (0, Step::Free(472)),
    (0, Step::HasSession(None, 0)),
    (0, Step::Takes(100, b"")),
    (0, Step::Comes(b'f', None)),
    (0, Step::Revoked(None)),
    (0, Step::Opens(2)),
    (0, Step::IsDead(2, false)),
    (0, Step::Waits(100)),
    (0, Step::Takes(100, b"")),
    (0, Step::Comes(b'g', None)),
    // The other line has all that it had.
    (1, Step::IsDead(0, true)),
    (1, Step::IsDead(1, false)),
    (1, Step::HasSession(Some(6), 7)),
    (1, Step::Reads(100, b"b\n")),
    (1, Step::Takes(100, b"b\r\nce")),
    (1, Step::Comes(b'\n', None)),
    (1, Step::Reads(100, b"c\n")),
    // A dead file's close leaves the line and its blocks.
    (0, Step::Closes(0)),
    (0, Step::Free(432)),
    (0, Step::Comes(b'\n', None)),
    (0, Step::Reads(100, b"g\n")),
    (0, Step::Takes(100, b"g\r\n")),
];

#[test]
fn a_revoke_leaves_the_other_line(rt: HostRuntime) -> Result<(), Fail> {
    let mut pool = Pool::new(rt.alloc(), 512)?;
    let mut lines = table::lines_at_boot();
    let wrong = first_wrong(&mut lines, &mut pool, &REVOKED);
    assert!(rt; wrong == None, "{wrong:?}");
    Ok(())
}

/// A pool of 79 blocks has room for one line. A revoke makes room for the other.
const NO_ROOM: [(u8, Step); 9] = [
    (0, Step::Opens(0)),
    (0, Step::Opens(0)),
    (7, Step::FindsNoRoom),
    (7, Step::Free(39)),
    (0, Step::Revoked(None)),
    (7, Step::Opens(0)),
    (0, Step::FindsNoRoom),
    (7, Step::Comes(b'a', None)),
    (7, Step::Reads(100, b"a")),
];

#[test]
fn a_revoke_makes_room(rt: HostRuntime) -> Result<(), Fail> {
    let mut pool = Pool::new(rt.alloc(), 79)?;
    let mut lines = table::lines_at_boot();
    let wrong = first_wrong(&mut lines, &mut pool, &NO_ROOM);
    assert!(rt; wrong == None, "{wrong:?}");
    Ok(())
}
