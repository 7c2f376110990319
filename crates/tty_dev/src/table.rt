//! The terminal lines of a kernel by their numbers, over the one pool of their blocks.
//!
//! Each call on one line says what it makes of the devices of all lines, and that other owners of blocks of the pool, such as
//! pipes, keep theirs with the bytes in them.
ghost use Rattle.std.specs.Prelude.{◌≡◌, ℕ, ◌+◌, ◌*◌, ◌<◌, ◌≤◌, ◌^◌, ◌↔◌, ◌==◌, true, false, not, ◌&&◌, [], ◌∷◌, length, if◌then◌else◌, None, IfOk, OnOk, OnErr, IsErr};
ghost use Rattle.std.specs.Prelude.{◌++◌, slice_index_or, replicate, All};
ghost use Rattle.sys_types.specs.declared.limits.TheConstants.{LINES, RAW_LINE, LINE_BLOCKS, OPEN_FILES, PIECE_BYTES};
ghost use Rattle.block_pool.specs.Pool.{PoolState, AreOf};
ghost use Rattle.line_disc.specs.Discipline.{bytes};
ghost use Rattle.line_disc.specs.Device.{closed_device, open_file, close_last, receive, output_of, take_output, set_carrier, hangs_up, end_for_good, revoke};
ghost use Rattle.line_disc.specs.Device.{read, after_read, put, put_count, flush, retune, set_session, set_foreground, waits, is_takeable, is_drained, is_live};
ghost use Rattle.line_disc.specs.Lines.{line_at, change_line};
ghost use Rattle.tty_dev.specs.Line.{boot_termios, termios_of};
ghost use Rattle.tty_dev.specs.History.{at_first, opens, closes, revokes};
ghost use Rattle.tty_dev.specs.Table.{devices, lines_held, counts_of, boots_of, count_at, use_line, is_dead_at, is_last_at, HoldsBlocks, KeepsLines};

use crate::line::Line;
use block_pool::{Pool, PoolFull};
use sys_types::{LINES, Piece, Sig};
use termios_core::Termios;

/// The lines as the boot finds them: the last one has the settings `raw`, and each other `cooked`. None has a carrier, a file or
/// blocks.
pub fn lines_at_boot() -> [Line; LINES]
    ensures devices { (pool : PoolState) → devices pool result ≡ replicate LINES closed_device }
    ensures counts { counts_of result ≡ replicate LINES at_first }
    ensures boots { boots_of result ≡ replicate RAW_LINE true ++ false ∷ [] }
    ensures held { lines_held result ≡ [] }
    ensures blocks { All HoldsBlocks result }
{
    [
        Line::new(true),
        Line::new(true),
        Line::new(true),
        Line::new(true),
        Line::new(true),
        Line::new(true),
        Line::new(true),
        Line::new(false),
    ]
}

/// Opens a file of a line (tty(4)), of which fewer than 256 are live. Answers its generation.
///
/// A first open takes 40 blocks, and finds the settings of the boot, empty queues and output that is not stopped. `PoolFull`
/// comes exactly where it finds fewer blocks, and then nothing changes.
pub fn open_line(lines: &mut [Line], pool: &mut Pool, line: u8) -> Result<u64, PoolFull>
    requires line { line < length lines.old }
    requires few { (count_at (counts_of lines.old) line).live < OPEN_FILES }
    requires of_pool { AreOf pool.old (lines_held lines.old) }
    ensures full { IsErr result ↔ (((line_at (devices pool.old lines.old) line).discipline ≡ None) × (length pool.old.free < LINE_BLOCKS)) }
    ensures generation { IfOk result (λ opened. opened ≡ (count_at (counts_of lines.old) line).generation) }
    ensures devices { OnOk result (devices pool.new lines.new
        ≡ change_line (open_file (boot_termios (slice_index_or (boots_of lines.old) line false))) (devices pool.old lines.old) line) }
    ensures counts { OnOk result (counts_of lines.new ≡ use_line opens (counts_of lines.old) line) }
    ensures keeps { KeepsLines pool.old pool.new lines.old lines.new }
    ensures err { OnErr result ((lines.new ≡ lines.old) × (pool.new ≡ pool.old)) }
{
    lines[usize::from(line)].open(pool)
}

/// Closes a file of a line that was opened at this generation. It is dead, or at least one is live. The last close of a live file
/// takes what is queued and the zombie mark away, and gives the blocks back. A dead file's close changes nothing.
pub fn close_file(lines: &mut [Line], pool: &mut Pool, line: u8, opened: u64)
    requires line { line < length lines.old }
    requires live { is_dead_at (counts_of lines.old) line opened ≡ false → 0 < (count_at (counts_of lines.old) line).live }
    requires of_pool { AreOf pool.old (lines_held lines.old) }
    ensures devices { devices pool.new lines.new
        ≡ (if is_last_at (counts_of lines.old) line opened then change_line close_last (devices pool.old lines.old) line else devices pool.old lines.old) }
    ensures counts { counts_of lines.new ≡ use_line (closes opened) (counts_of lines.old) line }
    ensures keeps { KeepsLines pool.old pool.new lines.old lines.new }
{
    lines[usize::from(line)].closed(pool, opened);
}

/// A byte comes in at a line. Answers the signal that it sends to the foreground. It is dropped where no file is live, where the
/// line is a zombie or has ended, and without carrier unless clocal is on.
pub fn receive(lines: &mut [Line], pool: &mut Pool, line: u8, byte: u8) -> Option<Sig>
    requires line { line < length lines.old }
    requires of_pool { AreOf pool.old (lines_held lines.old) }
    ensures signal { result ≡ (receive bytes (line_at (devices pool.old lines.old) line) byte).1 }
    ensures devices { devices pool.new lines.new ≡ change_line (λ device. (receive bytes device byte).0) (devices pool.old lines.old) line }
    ensures counts { counts_of lines.new ≡ counts_of lines.old }
    ensures keeps { KeepsLines pool.old pool.new lines.old lines.new }
{
    lines[usize::from(line)].byte(pool, byte)
}

/// Reads up to `max` bytes of a line, at most 512 (read(2)). `None` where the read waits, and where no file is live; then nothing
/// changes.
pub fn read(lines: &mut [Line], pool: &Pool, line: u8, max: u16) -> Option<Piece>
    requires line { line < length lines.old }
    requires most { max ≤ PIECE_BYTES }
    requires of_pool { AreOf pool.now (lines_held lines.old) }
    ensures bytes { result ≡ read (line_at (devices pool.now lines.old) line) max }
    ensures devices { devices pool.now lines.new ≡ change_line (λ device. after_read device max) (devices pool.now lines.old) line }
    ensures none { result ≡ None → devices pool.now lines.new ≡ devices pool.now lines.old }
    ensures counts { counts_of lines.new ≡ counts_of lines.old }
    ensures keeps { KeepsLines pool.now pool.now lines.old lines.new }
{
    lines[usize::from(line)].read(pool, max)
}

/// Writes as many of the bytes as fit into a line's output, each with all that goes out for it (write(2)). Answers how many: none
/// where no file is live. Where it is none, no line changes.
pub fn write(lines: &mut [Line], pool: &mut Pool, line: u8, written: &[u8]) -> u16
    requires line { line < length lines.old }
    requires of_pool { AreOf pool.old (lines_held lines.old) }
    ensures count { result ≡ put_count (line_at (devices pool.old lines.old) line) written.now }
    ensures devices { devices pool.new lines.new ≡ change_line (λ device. put bytes device written.now) (devices pool.old lines.old) line }
    ensures none { result ≡ 0 → devices pool.new lines.new ≡ devices pool.old lines.old }
    ensures counts { counts_of lines.new ≡ counts_of lines.old }
    ensures keeps { KeepsLines pool.old pool.new lines.old lines.new }
{
    lines[usize::from(line)].write(pool, written)
}

/// Takes up to `max` bytes of a line's output for sending, at most 512: none while output is stopped or no file is live.
pub fn take(lines: &mut [Line], pool: &Pool, line: u8, max: u16) -> Piece
    requires line { line < length lines.old }
    requires most { max ≤ PIECE_BYTES }
    requires of_pool { AreOf pool.now (lines_held lines.old) }
    ensures front { result ≡ output_of max (line_at (devices pool.now lines.old) line).discipline }
    ensures devices { devices pool.now lines.new ≡ change_line (λ device. take_output device max) (devices pool.now lines.old) line }
    ensures counts { counts_of lines.new ≡ counts_of lines.old }
    ensures keeps { KeepsLines pool.now pool.now lines.old lines.new }
{
    lines[usize::from(line)].take(pool, max)
}

/// The carrier of a line comes or goes, unless the line has ended. Answers whether this disconnects the line, of which its
/// session's leader is to be told (termios(4), "Modem Disconnect"): the carrier goes while a file is live and clocal is off. Then
/// both queues are emptied, and the line is a zombie.
pub fn set_carrier(lines: &mut [Line], pool: &mut Pool, line: u8, up: bool) -> bool
    requires { line < length lines.old }
    ensures told { result ≡ hangs_up (line_at (devices pool.old lines.old) line) up }
    ensures devices { devices pool.new lines.new ≡ change_line (λ device. set_carrier device up) (devices pool.old lines.old) line }
    ensures counts { counts_of lines.new ≡ counts_of lines.old }
    ensures keeps { KeepsLines pool.old pool.new lines.old lines.new }
{
    lines[usize::from(line)].carrier(pool, up)
}

/// A line ends for good: its carrier goes, and what comes later of bytes, carriers and ends changes nothing. Answers whether this
/// disconnects the line, as `set_carrier` does.
pub fn end_line(lines: &mut [Line], pool: &mut Pool, line: u8) -> bool
    requires { line < length lines.old }
    ensures told { result ≡ hangs_up (line_at (devices pool.old lines.old) line) false }
    ensures devices { devices pool.new lines.new ≡ change_line end_for_good (devices pool.old lines.old) line }
    ensures counts { counts_of lines.new ≡ counts_of lines.old }
    ensures keeps { KeepsLines pool.old pool.new lines.old lines.new }
{
    lines[usize::from(line)].end(pool)
}

/// Revokes a line (revoke(2)), which was revoked fewer than 2^63 times: each of its files is dead, nothing is queued, its blocks
/// are free, and it has no session. Answers the session that it had. It never wants memory.
pub fn revoke(lines: &mut [Line], pool: &mut Pool, line: u8) -> Option<u32>
    requires line { line < length lines.old }
    requires few { (count_at (counts_of lines.old) line).generation < 2 ^ 63 }
    requires of_pool { AreOf pool.old (lines_held lines.old) }
    ensures session { result ≡ (line_at (devices pool.old lines.old) line).session }
    ensures devices { devices pool.new lines.new ≡ change_line revoke (devices pool.old lines.old) line }
    ensures counts { counts_of lines.new ≡ use_line revokes (counts_of lines.old) line }
    ensures keeps { KeepsLines pool.old pool.new lines.old lines.new }
{
    lines[usize::from(line)].revoke(pool)
}

/// Empties a line's input, its output, or both (tcflush(3)).
pub fn flush(lines: &mut [Line], line: u8, input: bool, output: bool)
    requires { line < length lines.old }
    ensures devices { (pool : PoolState) → devices pool lines.new ≡ change_line (λ device. flush device input output) (devices pool lines.old) line }
    ensures counts { counts_of lines.new ≡ counts_of lines.old }
    ensures keeps { (pool : PoolState) → KeepsLines pool pool lines.old lines.new }
{
    lines[usize::from(line)].flush(input, output);
}

/// Gives a line other settings, while a file of it is live (tcsetattr(3)).
pub fn retune(lines: &mut [Line], pool: &mut Pool, line: u8, termios: Termios)
    requires line { line < length lines.old }
    requires of_pool { AreOf pool.old (lines_held lines.old) }
    ensures devices { devices pool.new lines.new ≡ change_line (λ device. retune device termios) (devices pool.old lines.old) line }
    ensures counts { counts_of lines.new ≡ counts_of lines.old }
    ensures keeps { KeepsLines pool.old pool.new lines.old lines.new }
{
    lines[usize::from(line)].retune(pool, termios);
}

/// Makes a line the controlling terminal of a session, with a group in the foreground (tcsetsid(3)).
pub fn set_session(lines: &mut [Line], line: u8, session: u32, foreground: u32)
    requires { line < length lines.old }
    ensures devices { (pool : PoolState) → devices pool lines.new ≡ change_line (λ device. set_session device session foreground) (devices pool lines.old) line }
    ensures counts { counts_of lines.new ≡ counts_of lines.old }
    ensures keeps { (pool : PoolState) → KeepsLines pool pool lines.old lines.new }
{
    lines[usize::from(line)].set_session(session, foreground);
}

/// Brings another group of a line's session to the foreground (tcsetpgrp(3)).
pub fn set_foreground(lines: &mut [Line], line: u8, foreground: u32)
    requires { line < length lines.old }
    ensures devices { (pool : PoolState) → devices pool lines.new ≡ change_line (λ device. set_foreground device foreground) (devices pool lines.old) line }
    ensures counts { counts_of lines.new ≡ counts_of lines.old }
    ensures keeps { (pool : PoolState) → KeepsLines pool pool lines.old lines.new }
{
    lines[usize::from(line)].set_foreground(foreground);
}

/// Whether a file of a line that was opened at this generation is dead: the line was revoked since.
pub fn is_dead(lines: &[Line], line: u8, opened: u64) -> bool
    requires { line < length lines.now }
    ensures { result ≡ is_dead_at (counts_of lines.now) line opened }
{
    lines[usize::from(line)].is_dead(opened)
}

/// Whether a read of so many bytes of a line waits: never where no file is live.
pub fn waits(lines: &[Line], line: u8, max: u16) -> bool
    requires { line < length lines.now }
    ensures { (pool : PoolState) → result ≡ waits (line_at (devices pool lines.now) line) max }
{
    lines[usize::from(line)].waits(max)
}

/// Whether a write to a line puts none of the bytes: there are none, not all fits that goes out for the first, or no file is live.
pub fn puts_none(lines: &[Line], line: u8, written: &[u8]) -> bool
    requires { line < length lines.now }
    ensures { (pool : PoolState) → result ≡ (put_count (line_at (devices pool lines.now) line) written.now == 0) }
{
    lines[usize::from(line)].puts_none(written)
}

/// Whether a taking of a line's output would give a byte.
pub fn is_takeable(lines: &[Line], line: u8) -> bool
    requires { line < length lines.now }
    ensures { (pool : PoolState) → result ≡ is_takeable (line_at (devices pool lines.now) line) }
{
    lines[usize::from(line)].is_takeable()
}

/// Whether all output of a line has been taken (tcdrain(3)).
pub fn is_drained(lines: &[Line], line: u8) -> bool
    requires { line < length lines.now }
    ensures { (pool : PoolState) → result ≡ is_drained (line_at (devices pool lines.now) line) }
{
    lines[usize::from(line)].is_drained()
}

/// The settings of a line (tcgetattr(3)): those that the boot gives it while no file of it is live.
pub fn termios_at(lines: &[Line], line: u8) -> Termios
    requires { line < length lines.now }
    ensures { (pool : PoolState) → result ≡ termios_of (slice_index_or (boots_of lines.now) line false) (line_at (devices pool lines.now) line) }
{
    lines[usize::from(line)].termios()
}

/// Whether a file of a line is live.
pub fn is_live(lines: &[Line], line: u8) -> bool
    requires { line < length lines.now }
    ensures { (pool : PoolState) → result ≡ is_live (line_at (devices pool lines.now) line) }
{
    let device = &lines[usize::from(line)];
    device.disc.is_some()
}

/// Whether a terminal is at a line.
pub fn has_carrier(lines: &[Line], line: u8) -> bool
    requires { line < length lines.now }
    ensures { (pool : PoolState) → result ≡ (line_at (devices pool lines.now) line).carrier }
{
    let device = &lines[usize::from(line)];
    device.carrier
}

/// Whether a line lost its carrier since its first open.
pub fn is_zombie(lines: &[Line], line: u8) -> bool
    requires { line < length lines.now }
    ensures { (pool : PoolState) → result ≡ (line_at (devices pool lines.now) line).zombie }
{
    let device = &lines[usize::from(line)];
    device.zombie
}

/// Whether a line has ended for good.
pub fn has_ended(lines: &[Line], line: u8) -> bool
    requires { line < length lines.now }
    ensures { (pool : PoolState) → result ≡ (line_at (devices pool lines.now) line).ended }
{
    let device = &lines[usize::from(line)];
    device.ended
}

/// The session whose controlling terminal a line is (tcgetsid(3)).
pub fn session_at(lines: &[Line], line: u8) -> Option<u32>
    requires { line < length lines.now }
    ensures { (pool : PoolState) → result ≡ (line_at (devices pool lines.now) line).session }
{
    let device = &lines[usize::from(line)];
    device.session
}

/// The group of that session that is in the foreground (tcgetpgrp(3)).
pub fn foreground_at(lines: &[Line], line: u8) -> u32
    requires { line < length lines.now }
    ensures { (pool : PoolState) → result ≡ (line_at (devices pool lines.now) line).foreground }
{
    let device = &lines[usize::from(line)];
    device.foreground
}
