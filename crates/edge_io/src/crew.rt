//! A crew, which runs jobs in threads, and what a job is.
ghost use Rattle.std.specs.Prelude.{◌≡◌, ◌≤◌, ◌↔◌, vec_len, IsTrue, IsErr, IfOk, OnOk, OnErr, IfErr};
ghost use Rattle.std.specs.List.{All, AllZip};
ghost use Rattle.edge_io.specs.Outside.{Rose, count_after};
ghost use Rattle.edge_io.specs.Crew.{jobs_of, CountsFault};

use crate::threads;
use std::alloc::Global;
use std::sync::{OnceLock, Wait};
use std::thread::Threads;

/// Work for one thread, which shares a `C` with all other jobs and borrows nothing else. Where jobs are handed to
/// threads they are `Send` too.
pub trait Job<C>: Drop {
    /// That the job may be run with what is shared.
    ghost fits: { C → Self → Type 0 };
    /// What a run makes of the job: what is shared, the job before, the job after.
    ghost ran: { C → Self → Self → Type 0 };

    /// Does the work.
    fn run<R: Wait>(&mut self, rt: &R, shared: &C)
        requires { fits shared.now self.old }
        ensures { ran shared.now self.old self.new };
}

/// The jobs as they were, in their order. None was begun.
#[derive(Drop)]
pub enum Refused<J: Drop> {
    /// A thread could not be started.
    NoWorker(Vec<J>),
    /// There was no memory for the answer.
    NoMemory(Vec<J>),
}

/// What runs jobs, each in a thread of its own.
pub trait Crew {
    ghost use Rattle.std.specs.Prelude.{ℕ};

    /// How many faults there were.
    ghost faults: { Self → ℕ };
    /// How many jobs were run. At 2^64 - 1 the count stays.
    ghost job_count: { Self → ℕ };

    /// That the next call is to fail for want of a worker.
    ghost refuses: { Self → Type 0 };

    /// Whether the call that begins now is to fail.
    fn is_to_fail(&mut self) -> bool
        ensures told { IsTrue result ↔ refuses self.old }
        ensures same_faults { faults self.new ≡ faults self.old }
        ensures same_jobs { job_count self.new ≡ job_count self.old };

    /// Counts a fault.
    fn count_fault(&mut self)
        ensures rose { Rose (faults self.old) (faults self.new) }
        ensures grows { faults self.old ≤ faults self.new }
        ensures same_jobs { job_count self.new ≡ job_count self.old };

    /// Counts so many jobs that were run.
    fn count_jobs(&mut self, count: u64)
        ensures count { job_count self.new ≡ count_after (job_count self.old) count }
        ensures same_faults { faults self.new ≡ faults self.old };

    /// Runs all jobs at once, each in a thread of its own, and hands them back in their order when all have ended.
    ///
    /// Where it refuses, it hands the jobs back as they were, in their order, and none was begun. It refuses where the
    /// crew is told to. `NoWorker` comes only where the count of faults rose, and `NoMemory` and Ok leave that count.
    final fn run_all<R: Threads + Wait + Sync, C: Sync, J: Job<C> + Send>(
        &mut self,
        rt: &R,
        alloc: Global,
        shared: &C,
        jobs: Vec<J>,
    ) -> Result<Vec<J>, Refused<J>>
        requires { All (J.fits shared.now) jobs.items }
        ensures ran { IfOk result (λ done. AllZip (J.ran shared.now) jobs.items done.items) }
        ensures count { OnOk result (job_count self.new ≡ count_after (job_count self.old) (vec_len jobs)) }
        ensures no_fault { OnOk result (faults self.new ≡ faults self.old) }
        ensures told { refuses self.old → IsErr result }
        ensures back { IfErr result (λ r. jobs_of r ≡ jobs.items) }
        ensures fault { IfErr result (CountsFault (faults self.old) (faults self.new)) }
        ensures same_count { OnErr result (job_count self.new ≡ job_count self.old) }
        ensures grows { faults self.old ≤ faults self.new }
    {
        let count = jobs.len();
        let Ok(room) = Vec::with_capacity(alloc, count) else {
            return Err(Refused::NoMemory(jobs));
        };
        if self.is_to_fail() {
            self.count_fault();
            return Err(Refused::NoWorker(jobs));
        }
        let flag = OnceLock::new();
        let (is_run, jobs) = threads::in_scope(rt, &flag, shared, jobs, room);
        if !is_run {
            self.count_fault();
            return Err(Refused::NoWorker(jobs));
        }
        self.count_jobs(count as u64);
        Ok(jobs)
    }
}
