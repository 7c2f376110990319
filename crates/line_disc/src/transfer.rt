//! Bytes that go into a chain and come out of it.
ghost use Rattle.std.specs.Prelude.{◌≡◌, ◌==◌, ℕ, ◌-◌, ◌≤◌, ◌++◌, length, take, drop};
ghost use Rattle.sys_types.specs.declared.limits.TheConstants.{PIECE_BYTES, OUTPUT_BYTES};
ghost use Rattle.block_pool.specs.Pool.{PoolState, AreOf, WritesTo};
ghost use Rattle.block_pool.specs.Chain.{room_of, holds};
ghost use Rattle.line_disc.specs.Echo.{shown};
ghost use Rattle.line_disc.specs.Transfers.{fit_count};

use crate::echo::shown_byte;
use arrayvec::ArrayVec;
use block_pool::{Chain, Pool};
use sys_types::{PIECE_BYTES, Piece};
use termios_core::Termios;

/// The bytes of a list in place.
pub(crate) fn piece_of(bytes: &ArrayVec<u8, PIECE_BYTES>) -> Piece
    ensures { result ≡ bytes.now.items }
{
    Piece::from_slice(bytes.as_slice()).unwrap()
}

/// Adds bytes at the end of a chain, which has room for them.
pub(crate) fn append(chain: &mut Chain, pool: &mut Pool, bytes: &[u8])
    requires room { length bytes.now ≤ room_of chain.old }
    requires of_pool { AreOf pool.old chain.old.blocks }
    ensures bytes { holds pool.new chain.new ≡ holds pool.old chain.old ++ bytes.now }
    ensures blocks { chain.new.blocks ≡ chain.old.blocks }
    ensures writes { WritesTo chain.old.blocks pool.old pool.new }
{
    chain.push_all(pool, bytes);
}

/// Adds what goes out for bytes at the end of a line's output, of 32 blocks, as long as all of it fits for each byte. Answers
/// for how many.
pub(crate) fn append_shown(
    output: &mut Chain,
    pool: &mut Pool,
    termios: &Termios,
    bytes: &[u8],
) -> u16
    requires blocks { length output.old.blocks ≡ 32 }
    requires of_pool { AreOf pool.old output.old.blocks }
    ensures count { result ≡ fit_count termios.now (OUTPUT_BYTES - length (holds pool.old output.old)) bytes.now }
    ensures bytes { holds pool.new output.new ≡ holds pool.old output.old ++ shown termios.now (take result bytes.now) }
    ensures blocks { output.new.blocks ≡ output.old.blocks }
    ensures writes { WritesTo output.old.blocks pool.old pool.new }
{
    if !termios.flags.opost {
        let count = bytes.len().min(usize::from(output.room()));
        append(output, pool, &bytes[..count]);
        return count as u16;
    }
    let mut count = 0;
    for byte in bytes {
        let out = shown_byte(termios, *byte);
        if out.len() > usize::from(output.room()) {
            return count;
        }
        append(output, pool, out.as_slice());
        count += 1;
    }
    count
}

/// Whether a line's output, of 32 blocks, takes none of the bytes: there are none, or not all fits that goes out for the first.
pub(crate) fn takes_none(output: &Chain, termios: &Termios, bytes: &[u8]) -> bool
    requires { length output.now.blocks ≡ 32 }
    ensures { (pool : PoolState) → result ≡ (fit_count termios.now (OUTPUT_BYTES - length (holds pool output.now)) bytes.now == 0) }
{
    let Some(byte) = bytes.first() else {
        return true;
    };
    shown_byte(termios, *byte).len() > usize::from(output.room())
}

/// Takes up to `max` bytes, at most 512, from the front of a chain.
pub(crate) fn take_front(chain: &mut Chain, pool: &Pool, max: u16) -> Piece
    requires most { max ≤ PIECE_BYTES }
    requires of_pool { AreOf pool.now chain.old.blocks }
    ensures front { result ≡ take max (holds pool.now chain.old) }
    ensures rest { holds pool.now chain.new ≡ drop max (holds pool.now chain.old) }
    ensures blocks { chain.new.blocks ≡ chain.old.blocks }
{
    let mut bytes = ArrayVec::<u8, PIECE_BYTES>::new();
    let max = usize::from(max);
    while bytes.len() < max {
        let run = chain.pop_run(pool, max - bytes.len());
        if run.is_empty() {
            return piece_of(&bytes);
        }
        let _ = bytes.try_extend_from_slice(run);
    }
    piece_of(&bytes)
}
