//! Floods at a line discipline, and what a line is where much comes in at once.
ghost use Rattle.block_pool.specs.Pool.{AreOf};
ghost use Rattle.line_disc.specs.Disc.{blocks_of};

use block_pool::Pool;
use line_disc::Disc;
use std::test::Fail;
use termios_core::Termios;

/// So many equal bytes come in.
#[tactic(auto, using(line_disc::proofs::DiscLemmas::disc))]
fn flood(disc: &mut Disc, pool: &mut Pool, byte: u8, count: u16)
    requires { AreOf pool.old (blocks_of disc.old) }
    ensures { AreOf pool.new (blocks_of disc.new) }
{
    for _byte in 0..count {
        let _ = disc.take_in(pool, byte);
    }
}

/// How many reads of 512 give one byte until one waits, of 2,000 at most.
#[tactic(auto, using(line_disc::proofs::DiscLemmas::disc))]
fn reads(disc: &mut Disc, pool: &Pool) -> u16
    requires { AreOf pool.now (blocks_of disc.old) }
    ensures { AreOf pool.now (blocks_of disc.new) }
{
    for count in 0..2000 {
        match disc.read(pool, 512) {
            Some(piece) if piece.len() == 1 => {}
            _ => return count,
        }
    }
    2000
}

/// How many bytes a taking of 512 gives.
#[tactic(auto, using(line_disc::proofs::DiscLemmas::disc))]
fn take_some(disc: &mut Disc, pool: &Pool) -> usize
    requires { AreOf pool.now (blocks_of disc.old) }
    ensures { AreOf pool.now (blocks_of disc.new) }
{
    disc.take(pool, 512).len()
}

/// 5,000 bytes without a newline: 255 of them are echoed, and no read gives one.
#[test]
fn flood_of_bytes(rt: HostRuntime) -> Result<(), Fail> {
    let mut pool = Pool::new(rt.alloc(), 512)?;
    let Ok(lease) = pool.reserve(40) else {
        return Err("40 blocks are free".into());
    };
    let mut disc = Disc::over(lease, Termios::cooked());
    flood(&mut disc, &mut pool, b'a', 5000);
    let first = take_some(&mut disc, &pool);
    let second = take_some(&mut disc, &pool);
    let lines = reads(&mut disc, &pool);
    pool.give_back(disc.into_lease());
    assert!(rt; first == 255 && second == 0 && lines == 0);
    Ok(())
}

/// 1,100 newlines: 1,024 of them are lines, and each of these is echoed as two bytes.
#[test]
fn flood_of_newlines(rt: HostRuntime) -> Result<(), Fail> {
    let mut pool = Pool::new(rt.alloc(), 512)?;
    let Ok(lease) = pool.reserve(40) else {
        return Err("40 blocks are free".into());
    };
    let mut disc = Disc::over(lease, Termios::cooked());
    flood(&mut disc, &mut pool, b'\n', 1100);
    let lines = reads(&mut disc, &pool);
    let first = take_some(&mut disc, &pool);
    let second = take_some(&mut disc, &pool);
    let third = take_some(&mut disc, &pool);
    let fourth = take_some(&mut disc, &pool);
    let fifth = take_some(&mut disc, &pool);
    pool.give_back(disc.into_lease());
    assert!(rt; lines == 1024 && fifth == 0);
    assert!(rt; first == 512 && second == 512 && third == 512 && fourth == 512);
    Ok(())
}
