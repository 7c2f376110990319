//! A terminal line.
ghost use Rattle.std.specs.Prelude.{◌≡◌, ℕ, ◌+◌, ◌<◌, ◌≤◌, ◌^◌, ◌↔◌, true, false, List, [], length, nat_lt, is_some, if◌then◌else◌, Option, Some, None, IfOk};
ghost use Rattle.std.specs.Prelude.{OnOk, OnErr, IsErr, ◌==◌};
ghost use Rattle.sys_types.specs.declared.limits.TheConstants.{LINE_BLOCKS, OPEN_FILES, PIECE_BYTES};
ghost use Rattle.block_pool.specs.Pool.{PoolState, AreOf, Lends, WritesTo};
ghost use Rattle.line_disc.specs.Discipline.{bytes};
ghost use Rattle.line_disc.specs.Device.{closed_device, open_file, close_last, receive, output_of, take_output, is_connected, disconnect, set_carrier};
ghost use Rattle.line_disc.specs.Device.{hangs_up, end_for_good, revoke, read, after_read, put, put_count, flush, retune, set_session, set_foreground};
ghost use Rattle.line_disc.specs.Device.{waits, is_takeable, is_drained};
ghost use Rattle.tty_dev.specs.Line.{boot_termios, termios_of, device_of, blocks_in, held_by, new_blocks, is_dead, is_last, live_after, KeepsCounts, AddsOneFile};

use block_pool::{Pool, PoolFull};
use line_disc::Disc;
use std::marker::Model;
use sys_types::{LINE_BLOCKS, Piece, Sig};
use termios_core::Termios;

/// A terminal line (tty(4)). It holds 40 blocks of the pool while a file of it is live: from the first open to the last
/// close or a revoke.
#[derive(Drop)]
pub struct Line {
    /// Whether a terminal is at the line.
    pub carrier: bool,
    /// Whether the carrier was lost since the first open.
    pub zombie: bool,
    /// Whether the line has ended for good.
    pub ended: bool,
    /// The session whose controlling terminal it is.
    pub session: Option<u32>,
    /// The foreground group of that session.
    pub foreground: u32,
    /// Its line discipline, while a file of it is live.
    pub disc: Option<Disc>,
    /// How often it was revoked.
    pub generation: u64,
    /// How many of its files are live.
    pub live: u16,
    /// Whether a first open gives it the settings `cooked`. Otherwise they are `raw`.
    pub is_cooked: bool,
}

impl Model for Line {
    ghost use Rattle.tty_dev.specs.Line.{LineState, IsWholeLine};

    ghost Value = { LineState };

    ghost view = { λ l. record {
      carrier = l.carrier;
      zombie = l.zombie;
      ended = l.ended;
      session = l.session;
      foreground = l.foreground;
      disc = l.disc;
      generation = l.generation;
      live = l.live;
      is_cooked = l.is_cooked;
    } };

    ghost invariant = { λ l. IsWholeLine (record {
      carrier = l.carrier;
      zombie = l.zombie;
      ended = l.ended;
      session = l.session;
      foreground = l.foreground;
      disc = l.disc;
      generation = l.generation;
      live = l.live;
      is_cooked = l.is_cooked;
    }) };
}

/// The settings that the boot gives a line.
fn boot_termios(is_cooked: bool) -> Termios
    ensures { result ≡ boot_termios is_cooked }
{
    if is_cooked {
        Termios::cooked()
    } else {
        Termios::raw()
    }
}

/// Takes a discipline away, and gives its blocks back to the pool.
fn give_back(place: &mut Option<Disc>, pool: &mut Pool)
    requires { AreOf pool.old (blocks_in place.old) }
    ensures none { place.new ≡ None }
    ensures lends { Lends (blocks_in place.old) pool.new pool.old }
    ensures size { length (blocks_in place.old) ≡ (if is_some place.old then 40 else 0) }
{
    let Some(disc) = place.take() else {
        return;
    };
    pool.give_back(disc.into_lease());
}

impl Line {
    /// A line without carrier that nobody has opened.
    pub fn new(cooked: bool) -> Line
        ensures line { (pool : PoolState) → device_of pool result ≡ closed_device }
        ensures generation { result.generation ≡ 0 }
        ensures live { result.live ≡ 0 }
        ensures cooked { result.is_cooked ≡ cooked }
        ensures held { held_by result ≡ [] }
    {
        Line {
            carrier: false,
            zombie: false,
            ended: false,
            session: None,
            foreground: 0,
            disc: None,
            generation: 0,
            live: 0,
            is_cooked: cooked,
        }
    }

    /// Opens a file of the line (tty(4)), of which fewer than 256 are live. Answers its generation.
    ///
    /// A first open takes 40 blocks, and finds the settings of the boot, empty queues and output that is not stopped.
    /// `PoolFull` comes exactly where it finds fewer blocks, and then nothing changes.
    pub fn open(&mut self, pool: &mut Pool) -> Result<u64, PoolFull>
        requires { self.old.live < OPEN_FILES }
        ensures full { IsErr result ↔ ((self.old.disc ≡ None) × (length pool.old.free < LINE_BLOCKS)) }
        ensures number { IfOk result (λ number. number ≡ self.old.generation) }
        ensures line { OnOk result (device_of pool.new self.new ≡ open_file (boot_termios self.old.is_cooked) (device_of pool.old self.old)) }
        ensures counts { OnOk result (AddsOneFile self.old self.new) }
        ensures lends { OnOk result (Lends (new_blocks self.old self.new) pool.old pool.new) }
        ensures of_pool { AreOf pool.old (held_by self.old) → OnOk result (AreOf pool.new (held_by self.new)) }
        ensures err { OnErr result ((self.new ≡ self.old) × (pool.new ≡ pool.old)) }
    {
        if self.disc.is_none() {
            let lease = match pool.reserve(LINE_BLOCKS) {
                Ok(lease) => lease,
                Err(full) => return Err(full),
            };
            self.disc = Some(Disc::over(lease, boot_termios(self.is_cooked)));
        }
        self.live += 1;
        Ok(self.generation)
    }

    /// Closes a file that was opened at this generation. It is dead, or at least one is live. The last close of a live file
    /// takes what is queued and the zombie mark away, and gives the blocks back. A dead file's close changes nothing.
    pub fn closed(&mut self, pool: &mut Pool, opened: u64)
        requires live { is_dead self.old opened ≡ false → 0 < self.old.live }
        requires of_pool { AreOf pool.old (held_by self.old) }
        ensures line { device_of pool.new self.new
            ≡ (if is_last self.old opened then close_last (device_of pool.old self.old) else device_of pool.old self.old) }
        ensures live { self.new.live ≡ live_after self.old opened }
        ensures generation { self.new.generation ≡ self.old.generation }
        ensures cooked { self.new.is_cooked ≡ self.old.is_cooked }
        ensures held { held_by self.new ≡ (if is_last self.old opened then [] else held_by self.old) }
        ensures lends { Lends (if is_last self.old opened then held_by self.old else []) pool.new pool.old }
    {
        if self.is_dead(opened) {
            return;
        }
        if self.live > 1 {
            self.live -= 1;
            return;
        }
        self.shut(pool);
    }

    /// No file is live any more: what is queued and the zombie mark go, and the blocks are free.
    fn shut(&mut self, pool: &mut Pool)
        requires { AreOf pool.old (held_by self.old) }
        ensures line { device_of pool.new self.new ≡ close_last (device_of pool.old self.old) }
        ensures live { self.new.live ≡ 0 }
        ensures generation { self.new.generation ≡ self.old.generation }
        ensures cooked { self.new.is_cooked ≡ self.old.is_cooked }
        ensures held { held_by self.new ≡ [] }
        ensures lends { Lends (held_by self.old) pool.new pool.old }
        ensures size { length (held_by self.old) ≡ (if is_some self.old.disc then 40 else 0) }
    {
        give_back(&mut self.disc, pool);
        self.zombie = false;
        self.live = 0;
    }

    /// A byte comes in at the line. Answers the signal that it sends to the foreground. It is dropped where no file is live,
    /// where the line is a zombie or has ended, and without carrier unless clocal is on.
    pub fn byte(&mut self, pool: &mut Pool, byte: u8) -> Option<Sig>
        requires { AreOf pool.old (held_by self.old) }
        ensures line { device_of pool.new self.new ≡ (receive bytes (device_of pool.old self.old) byte).0 }
        ensures signal { result ≡ (receive bytes (device_of pool.old self.old) byte).1 }
        ensures keeps { KeepsCounts self.old self.new }
        ensures writes { WritesTo (held_by self.old) pool.old pool.new }
    {
        let lost = self.zombie || self.ended;
        let carrier = self.carrier;
        let disc = self.disc.as_mut()?;
        if lost || !(carrier || disc.termios().flags.clocal) {
            return None;
        }
        disc.take_in(pool, byte)
    }

    /// Takes up to `max` bytes of output for sending, at most 512: none while output is stopped or no file is live.
    pub fn take(&mut self, pool: &Pool, max: u16) -> Piece
        requires most { max ≤ PIECE_BYTES }
        requires of_pool { AreOf pool.now (held_by self.old) }
        ensures front { result ≡ output_of max (device_of pool.now self.old).discipline }
        ensures line { device_of pool.now self.new ≡ take_output (device_of pool.now self.old) max }
        ensures keeps { KeepsCounts self.old self.new }
    {
        match &mut self.disc {
            Some(disc) => disc.take(pool, max),
            None => Piece::empty(),
        }
    }

    /// Reads up to `max` bytes, at most 512 (read(2)). `None` where the read waits, and where no file is live.
    pub fn read(&mut self, pool: &Pool, max: u16) -> Option<Piece>
        requires most { max ≤ PIECE_BYTES }
        requires of_pool { AreOf pool.now (held_by self.old) }
        ensures bytes { result ≡ read (device_of pool.now self.old) max }
        ensures line { device_of pool.now self.new ≡ after_read (device_of pool.now self.old) max }
        ensures keeps { KeepsCounts self.old self.new }
    {
        self.disc.as_mut()?.read(pool, max)
    }

    /// Writes as many of the bytes as fit into the output, each with all that goes out for it (write(2)). Answers how many: none
    /// where no file is live.
    pub fn write(&mut self, pool: &mut Pool, written: &[u8]) -> u16
        requires { AreOf pool.old (held_by self.old) }
        ensures count { result ≡ put_count (device_of pool.old self.old) written.now }
        ensures line { device_of pool.new self.new ≡ put bytes (device_of pool.old self.old) written.now }
        ensures keeps { KeepsCounts self.old self.new }
        ensures writes { WritesTo (held_by self.old) pool.old pool.new }
    {
        match &mut self.disc {
            Some(disc) => disc.put_out(pool, written),
            None => 0,
        }
    }

    /// Empties the input, the output, or both (tcflush(3)).
    pub fn flush(&mut self, input: bool, output: bool)
        ensures line { (pool : PoolState) → device_of pool self.new ≡ flush (device_of pool self.old) input output }
        ensures keeps { KeepsCounts self.old self.new }
    {
        let Some(disc) = &mut self.disc else {
            return;
        };
        disc.flush(input, output);
    }

    /// Gives the line other settings, while a file of it is live (tcsetattr(3)).
    pub fn retune(&mut self, pool: &mut Pool, termios: Termios)
        requires { AreOf pool.old (held_by self.old) }
        ensures line { device_of pool.new self.new ≡ retune (device_of pool.old self.old) termios }
        ensures keeps { KeepsCounts self.old self.new }
        ensures writes { WritesTo (held_by self.old) pool.old pool.new }
    {
        if let Some(disc) = &mut self.disc {
            disc.retune(pool, termios);
        }
    }

    /// Makes it the controlling terminal of a session, with a group in the foreground (tcsetsid(3)).
    pub fn set_session(&mut self, session: u32, foreground: u32)
        ensures line { (pool : PoolState) → device_of pool self.new ≡ set_session (device_of pool self.old) session foreground }
        ensures keeps { KeepsCounts self.old self.new }
    {
        self.session = Some(session);
        self.foreground = foreground;
    }

    /// Brings another group of its session to the foreground (tcsetpgrp(3)).
    pub fn set_foreground(&mut self, foreground: u32)
        ensures line { (pool : PoolState) → device_of pool self.new ≡ set_foreground (device_of pool self.old) foreground }
        ensures keeps { KeepsCounts self.old self.new }
    {
        self.foreground = foreground;
    }

    /// Whether a read of so many bytes waits: never where no file is live.
    pub fn waits(&self, max: u16) -> bool
        ensures { (pool : PoolState) → result ≡ waits (device_of pool self.now) max }
    {
        match &self.disc {
            Some(disc) => disc.waits(max),
            None => false,
        }
    }

    /// Whether a write puts none of the bytes: there are none, not all fits that goes out for the first, or no file is live.
    pub fn puts_none(&self, written: &[u8]) -> bool
        ensures { (pool : PoolState) → result ≡ (put_count (device_of pool self.now) written.now == 0) }
    {
        match &self.disc {
            Some(disc) => disc.puts_none(written),
            None => true,
        }
    }

    /// Whether a taking would give a byte.
    pub fn is_takeable(&self) -> bool
        ensures { (pool : PoolState) → result ≡ is_takeable (device_of pool self.now) }
    {
        match &self.disc {
            Some(disc) => disc.takeable(),
            None => false,
        }
    }

    /// Whether all output has been taken (tcdrain(3)).
    pub fn is_drained(&self) -> bool
        ensures { (pool : PoolState) → result ≡ is_drained (device_of pool self.now) }
    {
        match &self.disc {
            Some(disc) => disc.drained(),
            None => true,
        }
    }

    /// Its settings (tcgetattr(3)): those that the boot gives it while no file of it is live.
    pub fn termios(&self) -> Termios
        ensures { (pool : PoolState) → result ≡ termios_of self.now.is_cooked (device_of pool self.now) }
    {
        match &self.disc {
            Some(disc) => *disc.termios(),
            None => boot_termios(self.is_cooked),
        }
    }

    /// The carrier comes or goes, unless the line has ended. Answers whether this disconnects the line, of which its
    /// session's leader is to be told (termios(4), "Modem Disconnect"): the carrier goes while a file is live and clocal is
    /// off. Then both queues are emptied, and the line is a zombie.
    pub fn carrier(&mut self, _pool: &mut Pool, up: bool) -> bool
        ensures line { (pool : PoolState) → device_of pool self.new ≡ set_carrier (device_of pool self.old) up }
        ensures told { (pool : PoolState) → result ≡ hangs_up (device_of pool self.old) up }
        ensures keeps { KeepsCounts self.old self.new }
        ensures pool { _pool.new ≡ _pool.old }
    {
        if self.ended {
            return false;
        }
        self.carrier = up;
        if up {
            return false;
        }
        self.disconnect()
    }

    /// The line ends for good: its carrier goes, and what comes later of bytes, carriers and ends changes nothing. Answers
    /// whether this disconnects the line, as `carrier` does.
    pub fn end(&mut self, pool: &mut Pool) -> bool
        ensures line { (pool : PoolState) → device_of pool self.new ≡ end_for_good (device_of pool self.old) }
        ensures told { (pool : PoolState) → result ≡ hangs_up (device_of pool self.old) false }
        ensures keeps { KeepsCounts self.old self.new }
        ensures pool { pool.new ≡ pool.old }
    {
        let told = self.carrier(pool, false);
        self.ended = true;
        told
    }

    /// A modem disconnect, where a file is live and clocal is off. Answers whether it is one.
    fn disconnect(&mut self) -> bool
        ensures line { (pool : PoolState) → device_of pool self.new ≡ disconnect (device_of pool self.old) }
        ensures told { (pool : PoolState) → result ≡ is_connected (device_of pool self.old).discipline }
        ensures keeps { KeepsCounts self.old self.new }
    {
        let Some(disc) = &mut self.disc else {
            return false;
        };
        if disc.termios().flags.clocal {
            return false;
        }
        disc.flush(true, true);
        self.zombie = true;
        true
    }

    /// Revokes the line (revoke(2)), which was revoked fewer than 2^63 times: each of its files is dead, nothing is queued,
    /// its blocks are free, and it has no session. Answers the session that it had. It never wants memory.
    pub fn revoke(&mut self, pool: &mut Pool) -> Option<u32>
        requires few { self.old.generation < 2 ^ 63 }
        requires of_pool { AreOf pool.old (held_by self.old) }
        ensures session { result ≡ self.old.session }
        ensures line { device_of pool.new self.new ≡ revoke (device_of pool.old self.old) }
        ensures generation { self.new.generation ≡ self.old.generation + 1 }
        ensures live { self.new.live ≡ 0 }
        ensures cooked { self.new.is_cooked ≡ self.old.is_cooked }
        ensures held { held_by self.new ≡ [] }
        ensures lends { Lends (held_by self.old) pool.new pool.old }
        ensures size { length (held_by self.old) ≡ (if is_some self.old.disc then 40 else 0) }
    {
        self.shut(pool);
        self.generation += 1;
        self.foreground = 0;
        self.session.take()
    }

    /// Whether a file that was opened at this generation is dead: the line was revoked since.
    pub fn is_dead(&self, opened: u64) -> bool
        ensures { result ≡ is_dead self.now opened }
    {
        opened < self.generation
    }
}
