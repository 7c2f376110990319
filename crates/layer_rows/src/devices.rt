//! A terminal line as a device, once on its way.
ghost use Rattle.std.specs.Prelude.{◌<◌};
ghost use Rattle.block_pool.specs.Pool.{AreOf};
ghost use Rattle.tty_dev.specs.Line.{held_by};

use block_pool::Pool;
use std::test::Fail;
use tty_dev::Line;

/// Ends a line, and gives back what it holds.
fn end(line: Line, pool: &mut Pool)
    requires { AreOf pool.old (held_by line) }
{
    let Line {
        carrier: _,
        zombie: _,
        ended: _,
        session: _,
        foreground: _,
        disc,
        generation: _,
        live: _,
        is_cooked: _,
    } = line;
    if let Some(disc) = disc {
        pool.give_back(disc.into_lease());
    }
}

/// Opens a line, revokes it, opens it again and closes it. Answers how many blocks are free after each, and whether the file
/// of each open is dead before the close.
fn opened_twice(line: &mut Line, pool: &mut Pool) -> Option<([u16; 4], [bool; 2])>
    requires live { line.old.live < 9 }
    requires generation { line.old.generation < 9 }
    requires of_pool { AreOf pool.old (held_by line.old) }
    ensures { AreOf pool.new (held_by line.new) }
{
    let Ok(first) = line.open(pool) else {
        return None;
    };
    let held = pool.free();
    let _ = line.revoke(pool);
    let back = pool.free();
    let Ok(second) = line.open(pool) else {
        return None;
    };
    let again = pool.free();
    let dead = [line.is_dead(first), line.is_dead(second)];
    line.closed(pool, second);
    Some(([held, back, again, pool.free()], dead))
}

/// The 40 blocks of a line go and come back, and only the file that was opened before the revoke is dead.
#[test]
fn opened_and_revoked(rt: HostRuntime) -> Result<(), Fail> {
    let mut pool = Pool::new(rt.alloc(), 512)?;
    let mut line = Line::new(true);
    let told = opened_twice(&mut line, &mut pool);
    end(line, &mut pool);
    assert!(rt; told == Some(([472, 512, 472, 512], [true, false])));
    Ok(())
}

/// A pool of 39 blocks is no room for a line.
#[test]
fn no_room_for_a_line(rt: HostRuntime) -> Result<(), Fail> {
    let mut pool = Pool::new(rt.alloc(), 39)?;
    let mut line = Line::new(false);
    let refused = line.open(&mut pool).is_err();
    end(line, &mut pool);
    assert!(rt; refused && pool.free() == 39);
    Ok(())
}
