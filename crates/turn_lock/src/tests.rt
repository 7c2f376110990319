//! A tally under a lock, on one thread and on two.
ghost use Rattle.std.specs.Prelude.{◌≡◌, ◌+◌, Some, length, MatchResult};

use crate::{Pass, Turn, TurnLock};
use std::sync::Wait;
use std::test::Fail;
use std::thread;
use trail_core::Recorded;
use trail_core::toy::{Tally, TallyDecision, TallyEvent};

/// Why an event was not entered.
#[derive(Clone, Copy, PartialEq, Eq)]
enum NotEntered {
    StillWaiting,
    Full,
    NoMemory,
}

/// The decision, or why there is none.
fn answer<R: Wait>(
    rt: &R,
    lock: &TurnLock<Tally>,
    pass: &mut Pass<Tally>,
    event: TallyEvent,
) -> Result<TallyDecision, NotEntered>
    requires { pass.old.lock ≡ Some lock.now }
    ensures same { (pass.new.lock ≡ pass.old.lock) × (pass.new.number ≡ pass.old.number) }
    ensures mine { MatchResult result (λ _. length pass.new.mine ≡ length pass.old.mine + 1) (λ _. length pass.new.mine ≡ length pass.old.mine) }
{
    match lock.enter(rt, pass, event) {
        Turn::Done { decision, wakes: _ } => Ok(decision),
        Turn::StillWaiting => Err(NotEntered::StillWaiting),
        Turn::Full(_) => Err(NotEntered::Full),
        Turn::NoMemory(_) => Err(NotEntered::NoMemory),
    }
}

/// Adds 1 so many times, and counts how often it was entered.
fn add_ones<R: Wait>(
    rt: &R,
    lock: &TurnLock<Tally>,
    mut pass: Pass<Tally>,
    times: u32,
) -> (Pass<Tally>, u32)
    requires { pass.lock ≡ Some lock.now }
    ensures same { (result.0.lock ≡ pass.lock) × (result.0.number ≡ pass.number) }
    ensures mine { length result.0.mine ≡ length pass.mine + result.1 }
{
    let mut count = 0;
    for i in 0..times {
        if answer(rt, lock, &mut pass, TallyEvent::Add(1)).is_ok() {
            count += 1;
        }
    }
    (pass, count)
}

/// Of at most 3 events a draw waits until the sum is there, and the fourth event finds the history full.
#[test]
fn tally(rt: HostRuntime) -> Result<(), Fail> {
    let inner = Recorded::new(rt.alloc(), Tally::new(), 3)?;
    let (lock, mut passes) = TurnLock::new(rt.alloc(), inner, 1)?;
    let Some(mut pass) = passes.pop() else {
        return Err("no pass".into());
    };
    assert!(rt; answer(&rt, &lock, &mut pass, TallyEvent::Add(2)) == Ok(TallyDecision::Sum(2)));
    assert!(rt;
        answer(&rt, &lock, &mut pass, TallyEvent::Draw(3)) == Err(NotEntered::StillWaiting)
    );
    assert!(rt; answer(&rt, &lock, &mut pass, TallyEvent::Add(1)) == Ok(TallyDecision::Sum(3)));
    assert!(rt; answer(&rt, &lock, &mut pass, TallyEvent::Draw(3)) == Ok(TallyDecision::Sum(0)));
    assert!(rt; answer(&rt, &lock, &mut pass, TallyEvent::Add(1)) == Err(NotEntered::Full));
    let Ok(machine) = lock.close(vec![in rt.alloc(); pass]?) else {
        return Err("no memory".into());
    };
    assert!(rt; machine.len() == 3);
    Ok(())
}

/// Two threads enter 1,000 events each, and the machine has 2,000.
#[test]
fn tally_of_two_threads(rt: HostRuntime) -> Result<(), Fail> {
    let inner = Recorded::new(rt.alloc(), Tally::new(), 2000)?;
    let (lock, mut passes) = TurnLock::new(rt.alloc(), inner, 2)?;
    let Some(second) = passes.pop() else {
        return Err("no second pass".into());
    };
    let Some(first) = passes.pop() else {
        return Err("no first pass".into());
    };
    let (host, shared) = (&rt, &lock);
    let (one, two) = thread::join(
        host,
        move ||
            requires { first.lock ≡ Some shared.now }
            ensures { (result.0.lock ≡ first.lock) × (result.0.number ≡ first.number) }
        { add_ones(host, shared, first, 1000) },
        move ||
            requires { second.lock ≡ Some shared.now }
            ensures { (result.0.lock ≡ second.lock) × (result.0.number ≡ second.number) }
        { add_ones(host, shared, second, 1000) },
    );
    assert!(rt; one.1 == 1000 && two.1 == 1000);
    let (mut first, mut second) = (one.0, two.0);
    lock.meet(&mut first, &mut second);
    let Ok(machine) = lock.close(vec![in rt.alloc(); first, second]?) else {
        return Err("no memory".into());
    };
    assert!(rt; machine.len() == 2000);
    Ok(())
}
