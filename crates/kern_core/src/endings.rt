//! The endings of an event.
ghost use Rattle.std.specs.Prelude.{◌≡◌, [], ◌-◌, ◌^◌};
ghost use Rattle.proc_calls.specs.Ends.{AreRunning};
ghost use Rattle.system_model.specs.Effects.{change_all};
ghost use Rattle.system_model.specs.Endings.{endings_of};
ghost use Rattle.system_model.specs.Fit.{AreRevokedAtMost};
ghost use Rattle.system_model.specs.Tables.{view_of};
ghost use Rattle.kern_core.specs.Bounds.{RevokesNone};

use crate::system::System;
use proc_calls::work_endings;

impl System {
    /// Ends those whom an event ends, and those whom that ends; each of them runs.
    pub(crate) fn work_endings(&mut self)
        requires running { AreRunning self.old.processes self.old.ending }
        requires few { AreRevokedAtMost (2 ^ 63 - 1) self.old.pool self.old.lines }
        ensures list { self.new.ending ≡ [] }
        ensures does { view_of self.new ≡ change_all (view_of self.old) (endings_of (view_of self.old)) }
        ensures revokes { RevokesNone self.old self.new }
    {
        work_endings(
            &mut self.fds,
            &mut self.pipes,
            &mut self.procs,
            &mut self.pool,
            &mut self.lines,
            &mut self.ending,
        );
    }
}
