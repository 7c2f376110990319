//! The line discipline: what a byte does, what is read, written and taken.
ghost use Rattle.std.specs.Prelude.{◌≡◌, ℕ, ◌<◌, ◌≤◌, ◌&&◌, ◌||◌, ◌==◌, not, true, false, List, [], ◌++◌, length, take, Option, None, Some};
ghost use Rattle.sys_types.specs.declared.limits.TheConstants.{INPUT_PLACES, PIECE_BYTES, OUTPUT_BYTES};
ghost use Rattle.block_pool.specs.Pool.{PoolState, AreOf, WritesTo};
ghost use Rattle.line_disc.specs.Echo.{newline, is_char};
ghost use Rattle.line_disc.specs.Discipline.{bytes, fresh};
ghost use Rattle.line_disc.specs.Cook.{put_whole, strip, is_flow, flush, interrupt, signal_of, translate, erase, drop_line, is_full, end_file, end_line};
ghost use Rattle.line_disc.specs.Cook.{is_long, add_byte, enter, enter_as, cook_by_case, cook};
ghost use Rattle.line_disc.specs.Transfers.{has_none, waits, read, after_read, put_count, put, output_front, after_take, is_takeable, is_drained, retune};
ghost use Rattle.line_disc.specs.Places.{with_back, input_of, all_bytes};
ghost use Rattle.line_disc.specs.Disc.{DiscState, discipline_of, blocks_of, KeepsBlocks};

use crate::echo::{Echo, drop_line_echo, echo, erase_echo, is_char, shown};
use crate::input::Input;
use crate::place::PlaceKind;
use crate::transfer::{append, append_shown, take_front, takes_none};
use block_pool::{Chain, Lease, Pool};
use std::marker::Model;
use sys_types::{PIECE_BYTES, Piece, READY_LINE_BYTES, Sig};
use termios_core::Termios;

/// How many blocks of a line's lease are its input's: one byte for each of 1,024 places.
const INPUT_BLOCKS: u16 = 8;

/// The line discipline of a terminal line, over a lease of 40 blocks (termios(4)).
///
/// Contracts see of it a `DiscState`, which is read over the pool of its blocks as a `Discipline`. No call takes memory.
#[derive(Drop)]
pub struct Disc {
    termios: Termios,
    input: Input,
    output: Chain,
    stopped: bool,
}

impl Model for Disc {
    ghost use Rattle.line_disc.specs.Disc.{DiscState, IsWholeDisc};

    ghost Value = { DiscState };

    ghost view = { λ d. record { termios = d.termios; input = d.input; output = d.output; stopped = d.stopped } };

    ghost invariant = { λ d. IsWholeDisc (record { termios = d.termios; input = d.input; output = d.output; stopped = d.stopped }) };
}

/// A byte as istrip reads it.
fn strip(termios: &Termios, byte: u8) -> u8
    ensures { result ≡ strip termios.now byte }
{
    if termios.flags.istrip {
        byte % 128
    } else {
        byte
    }
}

/// Whether a byte is STOP or START, and ixon is on.
fn is_flow(termios: &Termios, byte: u8) -> bool
    ensures { result ≡ is_flow termios.now byte }
{
    termios.flags.ixon && (is_char(termios.stop, byte) || is_char(termios.start, byte))
}

/// The signal that a byte sends: INT, QUIT or TSTP, where isig is on.
fn signal_of(termios: &Termios, byte: u8) -> Option<Sig>
    ensures { result ≡ signal_of termios.now byte }
{
    if !termios.flags.isig {
        return None;
    }
    if is_char(termios.intr, byte) {
        return Some(Sig::INT);
    }
    if is_char(termios.quit, byte) {
        return Some(Sig::QUIT);
    }
    if is_char(termios.susp, byte) {
        return Some(Sig::TSTP);
    }
    None
}

/// What a byte is read as, by igncr, icrnl and inlcr. `None` where it is dropped.
fn translate(termios: &Termios, byte: u8) -> Option<u8>
    ensures { result ≡ translate termios.now byte }
{
    let flags = termios.flags;
    match byte {
        b'\r' if flags.igncr => None,
        b'\r' if flags.icrnl => Some(b'\n'),
        b'\n' if flags.inlcr => Some(b'\r'),
        _ => Some(byte),
    }
}

/// Whether a byte is a character that edits lines, which icanon turns on.
fn is_edit(termios: &Termios, char: u8, byte: u8) -> bool
    ensures { result ≡ (termios.now.flags.icanon && is_char char byte) }
{
    termios.flags.icanon && is_char(char, byte)
}

/// Whether a byte ends the current line.
fn ends_line(termios: &Termios, byte: u8) -> bool
    ensures { result ≡ (termios.now.flags.icanon && ((byte == newline) || is_char termios.now.eol byte)) }
{
    termios.flags.icanon && (byte == b'\n' || is_char(termios.eol, byte))
}

#[tactic(auto, using(crate::proofs::DiscLemmas::disc))]
impl Disc {
    /// A line with these settings, empty queues, and output that is not stopped, over the blocks of a lease, which are 40.
    pub fn over(lease: Lease, termios: Termios) -> Disc
        requires { length lease ≡ 40 }
        ensures line { (pool : PoolState) → discipline_of pool result ≡ fresh termios }
        ensures blocks { blocks_of result ≡ lease }
        ensures size { length (blocks_of result) ≡ 40 }
    {
        let (input, output) = lease.cut(INPUT_BLOCKS);
        Disc {
            termios,
            input: Input::over(input),
            output: Chain::over(output),
            stopped: false,
        }
    }

    /// The lease of its blocks. What was queued is gone.
    pub fn into_lease(self) -> Lease
        ensures blocks { result ≡ blocks_of self }
        ensures size { length result ≡ 40 }
    {
        let Disc {
            termios: _,
            input,
            output,
            stopped: _,
        } = self;
        input.into_lease().join(output.into_lease())
    }

    /// The line's settings.
    pub fn termios(&self) -> &Termios
        ensures { result.now ≡ self.now.termios }
    {
        &self.termios
    }

    /// Whether a taking would give a byte: there is output, and it is not stopped.
    pub fn takeable(&self) -> bool
        ensures { (pool : PoolState) → result ≡ is_takeable (discipline_of pool self.now) }
    {
        !self.stopped && self.output.len() > 0
    }

    /// Whether all output has been taken (tcdrain(3)).
    pub fn drained(&self) -> bool
        ensures { (pool : PoolState) → result ≡ is_drained (discipline_of pool self.now) }
    {
        self.output.len() == 0
    }

    /// Empties the input, the output, or both (tcflush(3)).
    pub fn flush(&mut self, input: bool, output: bool)
        ensures line { (pool : PoolState) → discipline_of pool self.new ≡ flush (discipline_of pool self.old) input output }
        ensures keeps { (pool : PoolState) → KeepsBlocks pool pool self.old self.new }
    {
        if input {
            self.input.clear();
        }
        if output {
            self.output.clear();
        }
    }

    /// Puts what goes out for an echo, whole, or nothing where it does not fit.
    fn put_echo(&mut self, pool: &mut Pool, echo: &Echo)
        requires { AreOf pool.old (blocks_of self.old) }
        ensures line { discipline_of pool.new self.new ≡ put_whole bytes (discipline_of pool.old self.old) echo.now.items }
        ensures keeps { KeepsBlocks pool.old pool.new self.old self.new }
    {
        let out = shown(&self.termios, echo);
        if out.len() > usize::from(self.output.room()) {
            return;
        }
        append(&mut self.output, pool, out.as_slice());
    }

    /// Takes one more place of the input. One is free, and lines are edited where a line ends there.
    fn push(&mut self, pool: &mut Pool, kind: PlaceKind, byte: u8)
        requires room { length self.old.input.kinds < INPUT_PLACES }
        requires bytes { self.old.termios.flags.icanon ≡ false → kind ≡ PlaceKind.Byte }
        requires of_pool { AreOf pool.old (blocks_of self.old) }
        ensures line { discipline_of pool.new self.new
            ≡ record (discipline_of pool.old self.old) { input = with_back kind byte (discipline_of pool.old self.old).input } }
        ensures keeps { KeepsBlocks pool.old pool.new self.old self.new }
    {
        self.input.push(pool, kind, byte);
    }

    /// INTR, QUIT and SUSP empty both queues, unless noflsh is on, and are echoed.
    fn interrupt(&mut self, pool: &mut Pool, byte: u8)
        requires { AreOf pool.old (blocks_of self.old) }
        ensures line { discipline_of pool.new self.new ≡ interrupt bytes (discipline_of pool.old self.old) byte }
        ensures keeps { KeepsBlocks pool.old pool.new self.old self.new }
    {
        let flushes = !self.termios.flags.noflsh;
        let echoed = echo(&self.termios, byte);
        self.flush(flushes, flushes);
        self.put_echo(pool, &echoed);
    }

    /// ERASE takes the last byte of the current line.
    fn erase(&mut self, pool: &mut Pool, byte: u8)
        requires { AreOf pool.old (blocks_of self.old) }
        ensures line { discipline_of pool.new self.new ≡ erase bytes (discipline_of pool.old self.old) byte }
        ensures keeps { KeepsBlocks pool.old pool.new self.old self.new }
    {
        let Some(removed) = self.input.pop_current(pool) else {
            return;
        };
        let echoed = erase_echo(&self.termios, byte, removed);
        self.put_echo(pool, &echoed);
    }

    /// KILL takes the current line.
    fn drop_line(&mut self, pool: &mut Pool, byte: u8)
        requires { AreOf pool.old (blocks_of self.old) }
        ensures line { discipline_of pool.new self.new ≡ drop_line bytes (discipline_of pool.old self.old) byte }
        ensures keeps { KeepsBlocks pool.old pool.new self.old self.new }
    {
        self.input.clear_current(pool);
        let echoed = drop_line_echo(&self.termios, byte);
        self.put_echo(pool, &echoed);
    }

    /// EOF makes the current line ready. A place is free, and lines are edited.
    fn end_file(&mut self, pool: &mut Pool)
        requires room { length self.old.input.kinds < INPUT_PLACES }
        requires edits { self.old.termios.flags.icanon ≡ true }
        requires of_pool { AreOf pool.old (blocks_of self.old) }
        ensures line { discipline_of pool.new self.new ≡ end_file (discipline_of pool.old self.old) }
        ensures keeps { KeepsBlocks pool.old pool.new self.old self.new }
    {
        self.push(pool, PlaceKind::FileEnd, 0);
    }

    /// A newline or EOL ends the current line. A place is free, and lines are edited.
    fn end_line(&mut self, pool: &mut Pool, byte: u8)
        requires room { length self.old.input.kinds < INPUT_PLACES }
        requires edits { self.old.termios.flags.icanon ≡ true }
        requires of_pool { AreOf pool.old (blocks_of self.old) }
        ensures line { discipline_of pool.new self.new ≡ end_line bytes (discipline_of pool.old self.old) byte }
        ensures keeps { KeepsBlocks pool.old pool.new self.old self.new }
    {
        let echoed = echo(&self.termios, byte);
        self.push(pool, PlaceKind::LineEnd, byte);
        self.put_echo(pool, &echoed);
    }

    /// Any other byte joins the current line. A place is free.
    fn add(&mut self, pool: &mut Pool, byte: u8)
        requires room { length self.old.input.kinds < INPUT_PLACES }
        requires of_pool { AreOf pool.old (blocks_of self.old) }
        ensures line { discipline_of pool.new self.new ≡ add_byte bytes (discipline_of pool.old self.old) byte }
        ensures keeps { KeepsBlocks pool.old pool.new self.old self.new }
    {
        let echoed = echo(&self.termios, byte);
        self.push(pool, PlaceKind::Byte, byte);
        self.put_echo(pool, &echoed);
    }

    /// Whether all places of the input are taken.
    fn is_full(&self) -> bool
        ensures line { (pool : PoolState) → result ≡ is_full (discipline_of pool self.now) }
        ensures room { result ≡ false → length self.now.input.kinds < INPUT_PLACES }
    {
        self.input.is_full()
    }

    /// Whether the current line may not grow.
    fn is_long(&self) -> bool
        ensures { (pool : PoolState) → result ≡ is_long (discipline_of pool self.now) }
    {
        self.termios.flags.icanon && usize::from(self.input.current_len()) >= READY_LINE_BYTES
    }

    /// What a byte does that is no STOP or START, sends no signal, and is read as it is.
    fn enter(&mut self, pool: &mut Pool, byte: u8)
        requires { AreOf pool.old (blocks_of self.old) }
        ensures line { discipline_of pool.new self.new ≡ enter bytes (discipline_of pool.old self.old) byte }
        ensures keeps { KeepsBlocks pool.old pool.new self.old self.new }
    {
        let termios = *self.termios();
        if is_edit(&termios, termios.erase, byte) {
            self.erase(pool, byte);
            return;
        }
        if is_edit(&termios, termios.kill, byte) {
            self.drop_line(pool, byte);
            return;
        }
        if self.is_full() {
            return;
        }
        if is_edit(&termios, termios.eof, byte) {
            self.end_file(pool);
            return;
        }
        if ends_line(&termios, byte) {
            self.end_line(pool, byte);
            return;
        }
        if self.is_long() {
            return;
        }
        self.add(pool, byte);
    }

    /// What a byte does that is no STOP or START and sends this signal or none.
    fn act(&mut self, pool: &mut Pool, byte: u8, signal: Option<Sig>)
        requires { AreOf pool.old (blocks_of self.old) }
        ensures line { discipline_of pool.new self.new ≡ cook_by_case bytes (discipline_of pool.old self.old) byte signal }
        ensures keeps { KeepsBlocks pool.old pool.new self.old self.new }
    {
        if let Some(_signal) = signal {
            self.interrupt(pool, byte);
            return;
        }
        let termios = *self.termios();
        if let Some(byte) = translate(&termios, byte) {
            self.enter(pool, byte);
        }
    }

    /// A byte comes in. Answers the signal that it sends to the foreground: INT, QUIT or TSTP.
    ///
    /// Its echo goes out whole, or not at all where it does not fit. Where all 1,024 places of the input are taken, or 255
    /// bytes of a line that is edited, it is dropped.
    pub fn take_in(&mut self, pool: &mut Pool, byte: u8) -> Option<Sig>
        requires { AreOf pool.old (blocks_of self.old) }
        ensures line { discipline_of pool.new self.new ≡ (cook bytes (discipline_of pool.old self.old) byte).0 }
        ensures signal { result ≡ (cook bytes (discipline_of pool.old self.old) byte).1 }
        ensures keeps { KeepsBlocks pool.old pool.new self.old self.new }
    {
        let termios = *self.termios();
        let byte = strip(&termios, byte);
        if is_flow(&termios, byte) {
            self.stopped = is_char(termios.stop, byte);
            return None;
        }
        let signal = signal_of(&termios, byte);
        self.act(pool, byte, signal);
        signal
    }

    /// Writes as many of the bytes as fit into the output, each with all that goes out for it, and answers how many.
    pub fn put_out(&mut self, pool: &mut Pool, written: &[u8]) -> u16
        requires { AreOf pool.old (blocks_of self.old) }
        ensures count { result ≡ put_count (discipline_of pool.old self.old) written.now }
        ensures line { discipline_of pool.new self.new ≡ put bytes (discipline_of pool.old self.old) written.now }
        ensures keeps { KeepsBlocks pool.old pool.new self.old self.new }
    {
        append_shown(&mut self.output, pool, &self.termios, written)
    }

    /// Whether a write puts none of the bytes: there are none, or not all fits that goes out for the first.
    pub fn puts_none(&self, written: &[u8]) -> bool
        ensures { (pool : PoolState) → result ≡ (put_count (discipline_of pool self.now) written.now == 0) }
    {
        takes_none(&self.output, &self.termios, written)
    }

    /// Whether a read of so many bytes waits: for a ready line, or without icanon for MIN bytes, or `max` where that is less.
    pub fn waits(&self, max: u16) -> bool
        ensures waits { (pool : PoolState) → result ≡ waits (discipline_of pool self.now) max }
        ensures seen { (pool : PoolState) → has_none (input_of pool self.now.input).ready ≡ all_bytes self.now.input.kinds }
    {
        let current = self.input.current_len();
        if self.termios.flags.icanon {
            return !self.input.has_line();
        }
        current < max.min(u16::from(self.termios.min))
    }

    /// Reads up to `max` bytes, at most 512. `None` exactly where a read waits: for a ready line, or without icanon for MIN
    /// bytes, or `max` where that is less.
    pub fn read(&mut self, pool: &Pool, max: u16) -> Option<Piece>
        requires most { max ≤ PIECE_BYTES }
        requires of_pool { AreOf pool.now (blocks_of self.old) }
        ensures bytes { result ≡ read (discipline_of pool.now self.old) max }
        ensures line { discipline_of pool.now self.new ≡ after_read (discipline_of pool.now self.old) max }
        ensures keeps { KeepsBlocks pool.now pool.now self.old self.new }
    {
        if self.waits(max) {
            return None;
        }
        Some(self.input.read(pool, max))
    }

    /// Takes up to `max` bytes of output for sending, at most 512: none while it is stopped.
    pub fn take(&mut self, pool: &Pool, max: u16) -> Piece
        requires most { max ≤ PIECE_BYTES }
        requires of_pool { AreOf pool.now (blocks_of self.old) }
        ensures front { result ≡ output_front (discipline_of pool.now self.old) max }
        ensures line { discipline_of pool.now self.new ≡ after_take (discipline_of pool.now self.old) max }
        ensures keeps { KeepsBlocks pool.now pool.now self.old self.new }
    {
        if self.stopped {
            return Piece::empty();
        }
        take_front(&mut self.output, pool, max)
    }

    /// Gives the line other settings (tcsetattr(3)). Where icanon goes off, all that is queued is one list without ends of
    /// lines and of file. Where it comes on, it is one ready line.
    pub fn retune(&mut self, pool: &mut Pool, termios: Termios)
        requires { AreOf pool.old (blocks_of self.old) }
        ensures line { discipline_of pool.new self.new ≡ retune (discipline_of pool.old self.old) termios }
        ensures keeps { KeepsBlocks pool.old pool.new self.old self.new }
    {
        self.input
            .turn(pool, self.termios.flags.icanon, termios.flags.icanon);
        self.termios = termios;
    }
}
