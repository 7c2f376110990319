//! The crew of the system, and one that can be told to fail.
ghost use Rattle.std.specs.Prelude.{◌≡◌, ◌≤◌, ◌↔◌, IsTrue, Contains};
ghost use Rattle.edge_io.specs.Outside.{Rose, count_after};

use crate::crew::Crew;
use crate::outside::Failed;
use std::marker::Model;

/// A crew that fails where a thread cannot be started, and not else.
#[derive(Drop)]
pub struct ThreadCrew {
    faults: u64,
    job_count: u64,
}

impl Model for ThreadCrew {
    ghost use Rattle.edge_io.specs.CrewMemory.{CrewCounts};

    ghost Value = { CrewCounts };

    ghost view = { λ c. record { faults = c.faults; job_count = c.job_count } };
}

impl ThreadCrew {
    /// A crew that ran no job yet.
    pub fn new() -> Self
        ensures { result ≡ record { faults = 0; job_count = 0 } }
    {
        ThreadCrew {
            faults: 0,
            job_count: 0,
        }
    }
}

impl Crew for ThreadCrew {
    ghost faults = { λ c. c.faults };

    ghost job_count = { λ c. c.job_count };

    ghost refuses = { λ c. ⊥ };

    fn is_to_fail(&mut self) -> bool {
        false
    }

    fn count_fault(&mut self) {
        Failed::count_in(&mut self.faults);
    }

    fn count_jobs(&mut self, count: u64) {
        self.job_count = self.job_count.saturating_add(count);
    }
}

/// A crew that starts threads as `ThreadCrew` does where it is not told to fail.
#[derive(Drop)]
pub struct MemCrew {
    calls: u64,
    failing: Vec<u64>,
    faults: u64,
    job_count: u64,
}

impl Model for MemCrew {
    ghost use Rattle.edge_io.specs.CrewMemory.{CrewState};

    ghost Value = { CrewState };

    ghost view = { λ c. record { calls = c.calls; failing = c.failing.items; faults = c.faults; job_count = c.job_count } };
}

impl MemCrew {
    /// A crew of whose calls of `run_all` those with these numbers fail. The first has number 1.
    pub fn new(failing: Vec<u64>) -> Self
        ensures { result ≡ record { calls = 0; failing = failing.items; faults = 0; job_count = 0 } }
    {
        MemCrew {
            calls: 0,
            failing,
            faults: 0,
            job_count: 0,
        }
    }
}

impl Crew for MemCrew {
    ghost faults = { λ c. c.faults };

    ghost job_count = { λ c. c.job_count };

    ghost refuses = { λ c. Contains c.failing (count_after c.calls 1) };

    /// True exactly where this call's number is listed.
    fn is_to_fail(&mut self) -> bool
        ensures told { IsTrue result ↔ Contains self.old.failing (count_after self.old.calls 1) }
        ensures same_faults { self.new.faults ≡ self.old.faults }
        ensures same_jobs { self.new.job_count ≡ self.old.job_count }

        ensures calls { self.new.calls ≡ count_after self.old.calls 1 }
        ensures same_list { self.new.failing ≡ self.old.failing }
    {
        self.calls = self.calls.saturating_add(1);
        self.failing.contains(&self.calls)
    }

    fn count_fault(&mut self) {
        Failed::count_in(&mut self.faults);
    }

    fn count_jobs(&mut self, count: u64) {
        self.job_count = self.job_count.saturating_add(count);
    }
}
