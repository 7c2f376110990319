//! Crews, whose jobs run in threads at once or are handed back.
ghost use Rattle.std.specs.Prelude.{◌≤◌};

use crate::{Crew, Job, MemCrew, Refused, ThreadCrew};
use std::alloc::Global;
use std::sync::Wait;
use std::sync::atomic::{AtomicU64, Ordering};
use std::test::Fail;
use std::thread;

/// A job that waits until as many have begun as there are, so that one thread alone never comes to an end.
#[derive(Drop)]
struct Meet {
    number: u64,
    all: u64,
    seen: u64,
}

impl Job<AtomicU64> for Meet {
    ghost use Rattle.std.specs.Prelude.{◌≡◌, ◌≤◌, ⊤};

    ghost fits = { λ _ _. ⊤ };

    ghost ran = { λ _ before after. (after.number ≡ before.number) × (before.all ≤ after.seen) };

    fn run<R: Wait>(&mut self, rt: &R, shared: &AtomicU64) {
        shared.fetch_add(1, Ordering::SeqCst);
        self.seen = all_begun(rt, shared, self.all);
    }
}

/// Waits until so many jobs have begun.
fn all_begun<R: Wait>(rt: &R, begun: &AtomicU64, all: u64) -> u64
    ensures { all ≤ result }
{
    for _ in rt.forever() {
        let seen = begun.load(Ordering::SeqCst);
        if seen >= all {
            return seen;
        }
        thread::yield_now();
    }
    unreachable!()
}

/// So many jobs, numbered from 0.
fn jobs(alloc: Global, all: u64) -> Result<Vec<Meet>, Fail> {
    let mut jobs = Vec::new(alloc);
    for number in 0..all {
        jobs.push(Meet {
            number,
            all,
            seen: 0,
        })?;
    }
    Ok(jobs)
}

/// Whether these are so many jobs in the order of their numbers, each of which saw so many begin.
fn are_in_order(jobs: &[Meet], all: u64, seen: u64) -> bool {
    let are_placed = jobs.iter().enumerate().all(|(place, job)| job.number == place as u64
        && job.seen == seen);
    jobs.len() as u64 == all && are_placed
}

#[test]
fn forty_jobs_meet(rt: HostRuntime) -> Result<(), Fail> {
    let begun = AtomicU64::new(0);
    let mut crew = ThreadCrew::new();
    let Ok(done) = crew.run_all(&rt, rt.alloc(), &begun, jobs(rt.alloc(), 40)?) else {
        panic!(rt; "refused");
    };
    assert!(rt; are_in_order(&done, 40, 40));
    Ok(())
}

/// The second call is to fail: all jobs are handed back as they were, and none was begun.
#[test]
fn a_crew_that_fails_hands_the_jobs_back(rt: HostRuntime) -> Result<(), Fail> {
    let begun = AtomicU64::new(0);
    let mut crew = MemCrew::new(vec![in rt.alloc(); 2]?);
    let first = crew.run_all(&rt, rt.alloc(), &begun, jobs(rt.alloc(), 3)?);
    assert!(rt; first.is_ok());
    let Err(Refused::NoWorker(back)) = crew.run_all(&rt, rt.alloc(), &begun, jobs(rt.alloc(), 3)?)
    else {
        panic!(rt; "not refused");
    };
    assert!(rt; are_in_order(&back, 3, 0));
    assert_eq!(rt; begun.load(Ordering::SeqCst), 3);
    Ok(())
}
