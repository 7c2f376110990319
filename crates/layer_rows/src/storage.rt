//! Blocks that are lent, a machine that is recorded, and boots that are copied, each once on its way.

use acl_core::Cred;
use arrayvec::ArrayVec;
use block_pool::{Chain, Pool};
use label_core::{Element, Subject};
use std::alloc::Global;
use std::test::Fail;
use trail_core::Recorded;
use trail_core::toy::{Tally, TallyDecision, TallyEvent};
use user_db::{Boot, DIGEST_BYTES, Name, User, Users};

/// A pool of 512 blocks lends 40, and takes them back.
#[test]
fn a_lease_of_forty(rt: HostRuntime) -> Result<(), Fail> {
    let mut pool = Pool::new(rt.alloc(), 512)?;
    let Ok(lease) = pool.reserve(40) else {
        return Err("40 blocks are free".into());
    };
    let left = pool.free();
    pool.give_back(lease);
    assert!(rt; left == 472 && pool.free() == 512);
    Ok(())
}

/// Two blocks have 256 places. 200 bytes stand in them; 178 are taken, 128 of the first block and 50 of the second; 100 more go round
/// from place 200 to place 43. They come out as 22 and 56 to the end of the second block, and as 44 of the first.
#[test]
fn bytes_go_round_two_blocks(rt: HostRuntime) -> Result<(), Fail> {
    let mut pool = Pool::new(rt.alloc(), 2)?;
    let Ok(lease) = pool.reserve(2) else {
        return Err("2 blocks are free".into());
    };
    let mut chain = Chain::over(lease);
    chain.push_all(&mut pool, &[b'a'; 200]);
    let block = chain.pop_run(&pool, 512).len();
    let part = chain.pop_run(&pool, 50).len();
    if chain.room() < 100 {
        return Err("22 of 256 places are taken".into());
    }
    chain.push_all(&mut pool, &[b'b'; 100]);
    let held = chain.len();
    let mut wanted = [b'b'; 78];
    wanted[..22].copy_from_slice(&[b'a'; 22]);
    let to_end = chain.pop_run(&pool, 512) == wanted.as_slice();
    let from_start = chain.pop_run(&pool, 512) == [b'b'; 44].as_slice();
    let none = chain.pop_run(&pool, 512).is_empty();
    pool.give_back(chain.into_lease());
    assert!(rt; block == 128 && part == 50 && held == 122);
    assert!(rt; to_end && from_start && none);
    Ok(())
}

/// A tally that takes one event hands a second back.
#[test]
fn tally(rt: HostRuntime) -> Result<(), Fail> {
    let mut trail = Recorded::new(rt.alloc(), Tally::new(), 1)?;
    let first = trail.apply(TallyEvent::Add(2), &mut ()).ok();
    let second = trail.apply(TallyEvent::Add(1), &mut ()).ok();
    assert!(rt; first == Some(TallyDecision::Sum(2)) && second.is_none() && trail.len() == 1);
    Ok(())
}

fn ann_label() -> Option<Subject> {
    Subject::new(Element::Equal, Element::Low, Element::High)
}

/// A user with a group, a salt and a digest.
fn ann() -> Option<User> {
    let mut groups = ArrayVec::new();
    groups.push(7);
    let mut salt = ArrayVec::new();
    salt.push(b's');
    let cred = Cred {
        uid: 1001,
        gid: 100,
        groups,
    };
    Some(User {
        name: Name::from_slice(b"ann")?,
        cred,
        label: ann_label()?,
        salt,
        digest: Some([3; DIGEST_BYTES]),
    })
}

/// Ann alone.
fn users(alloc: Global) -> Result<Users, Fail> {
    let mut users = Users::new(alloc);
    users.push(ann().ok_or("no user")?)?;
    Ok(users)
}

#[test]
fn boots_are_copied(rt: HostRuntime) -> Result<(), Fail> {
    let boot = Boot {
        recheck: true,
        users: users(rt.alloc())?,
        on: [false, true, false, false, false, false, false, true],
    };
    let copy = boot.copy(rt.alloc())?;
    assert!(rt; copy.recheck && copy.on == boot.on && copy.users.len() == 1);
    Ok(())
}
