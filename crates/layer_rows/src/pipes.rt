//! A pipe of 4,096 bytes and one more, and the table of sixteen pipes.

use block_pool::Pool;
use label_core::Element;
use pipe_core::{Pipe, Pipes};
use std::test::Fail;

/// Three blocks hold 384 bytes: a write of one byte more than is left is put not at all.
#[test]
fn writes_are_whole(rt: HostRuntime) -> Result<(), Fail> {
    let mut pool = Pool::new(rt.alloc(), 4)?;
    let Ok(lease) = pool.reserve(3) else {
        return Err("3 blocks are free".into());
    };
    let mut pipe = Pipe::over(lease);
    let first = pipe.put(&mut pool, &[b'a'; 383]);
    let over = pipe.put(&mut pool, b"bc");
    let last = pipe.put(&mut pool, b"d");
    let full = pipe.put(&mut pool, b"e");
    let front = pipe.take(&pool, 382);
    let rest = pipe.take(&pool, 512);
    assert!(rt;
        first && !over && last && !full && front.len() == 382 && rest.as_slice() == b"ad".as_slice()
    );
    assert!(rt; pipe.len() == 0);
    pool.give_back(pipe.into_lease());
    assert!(rt; pool.free() == 4);
    Ok(())
}

/// Pipes take the lowest free number, and each has bytes and an element of its own.
#[test]
fn pipes_by_number(rt: HostRuntime) -> Result<(), Fail> {
    let mut pool = Pool::new(rt.alloc(), 2)?;
    let Ok(lease) = pool.reserve(1) else {
        return Err("a block is free".into());
    };
    let mut pipes = Pipes::new();
    let number = pipes.add(Pipe::over(lease), Element::High);
    let put = pipes.put(0, &mut pool, b"abc");
    let taken = pipes.take(0, &pool, 2);
    assert!(rt;
        number == 0
            && put
            && taken.as_slice() == b"ab".as_slice()
            && *pipes.element(0) == Element::High
    );
    let there = pipes.get(0).map(|pipe| pipe.len());
    let absent = pipes.get(1).is_none();
    let removed = pipes.remove(0);
    assert!(rt; there == Some(1) && absent && removed.len() == 1 && pipes.get(0).is_none());
    Ok(())
}
