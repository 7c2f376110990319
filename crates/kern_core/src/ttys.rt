//! The calls on terminal lines, each by the function of its name.
ghost use Rattle.system_model.specs.Fit.{IsCaller};
ghost use Rattle.system_model.specs.TtyCalls.{setctty_row, tcgetattr_row, tcsetattr_row, tcflush_row, tcdrain_row, tcsetpgrp_row, tcgetpgrp_row, fdname_row};
ghost use Rattle.system_model.specs.Rows.{Does};
ghost use Rattle.system_model.specs.Tables.{view_of};
ghost use Rattle.kern_core.specs.Bounds.{RevokesNone, RevokesOnce};

use crate::system::System;
use call_words::{Decision, When, WhichQueue};
use termios_core::Termios;
use tty_calls::{
    do_fdname, do_setctty, do_tcdrain, do_tcflush, do_tcgetattr, do_tcgetpgrp, do_tcsetattr,
    do_tcsetpgrp,
};

impl System {
    /// tcsetsid(3).
    pub(crate) fn setctty(&mut self, slot: u8, fd: u8, decision: &mut Decision)
        requires caller { IsCaller self.old.processes slot }
        ensures does { Does (view_of self.old) (view_of self.new) decision.new (setctty_row (view_of self.old) slot fd) }
        ensures revokes { RevokesOnce self.old self.new }
    {
        *decision = do_setctty(&self.fds, &self.procs, &mut self.lines, slot, fd);
    }

    /// tcgetattr(3).
    pub(crate) fn tcgetattr(&self, slot: u8, fd: u8, decision: &mut Decision)
        requires { IsCaller self.now.processes slot }
        ensures { Does (view_of self.now) (view_of self.now) decision.new (tcgetattr_row (view_of self.now) slot fd) }
    {
        *decision = do_tcgetattr(&self.fds, &self.lines, slot, fd);
    }

    /// tcsetattr(3).
    pub(crate) fn tcsetattr(
        &mut self,
        slot: u8,
        fd: u8,
        when: When,
        termios: &Termios,
        decision: &mut Decision,
    )
        requires caller { IsCaller self.old.processes slot }
        ensures does { Does (view_of self.old) (view_of self.new) decision.new (tcsetattr_row (view_of self.old) slot fd when termios.now) }
        ensures revokes { RevokesNone self.old self.new }
    {
        *decision = do_tcsetattr(
            &self.fds,
            &mut self.procs,
            &mut self.pool,
            &mut self.lines,
            &mut self.ending,
            slot,
            fd,
            when,
            termios,
        );
    }

    /// tcflush(3).
    pub(crate) fn tcflush(&mut self, slot: u8, fd: u8, which: WhichQueue, decision: &mut Decision)
        requires caller { IsCaller self.old.processes slot }
        ensures does { Does (view_of self.old) (view_of self.new) decision.new (tcflush_row (view_of self.old) slot fd which) }
        ensures revokes { RevokesNone self.old self.new }
    {
        *decision = do_tcflush(
            &self.fds,
            &mut self.procs,
            &mut self.lines,
            &mut self.ending,
            slot,
            fd,
            which,
        );
    }

    /// tcdrain(3).
    pub(crate) fn tcdrain(&mut self, slot: u8, fd: u8, decision: &mut Decision)
        requires caller { IsCaller self.old.processes slot }
        ensures does { Does (view_of self.old) (view_of self.new) decision.new (tcdrain_row (view_of self.old) slot fd) }
        ensures revokes { RevokesNone self.old self.new }
    {
        *decision = do_tcdrain(
            &self.fds,
            &mut self.procs,
            &self.lines,
            &mut self.ending,
            slot,
            fd,
        );
    }

    /// tcsetpgrp(3).
    pub(crate) fn tcsetpgrp(&mut self, slot: u8, fd: u8, group: u32, decision: &mut Decision)
        requires caller { IsCaller self.old.processes slot }
        ensures does { Does (view_of self.old) (view_of self.new) decision.new (tcsetpgrp_row (view_of self.old) slot fd group) }
        ensures revokes { RevokesNone self.old self.new }
    {
        *decision = do_tcsetpgrp(
            &self.fds,
            &mut self.procs,
            &mut self.lines,
            &mut self.ending,
            slot,
            fd,
            group,
        );
    }

    /// tcgetpgrp(3).
    pub(crate) fn tcgetpgrp(&self, slot: u8, fd: u8, decision: &mut Decision)
        requires { IsCaller self.now.processes slot }
        ensures { Does (view_of self.now) (view_of self.now) decision.new (tcgetpgrp_row (view_of self.now) slot fd) }
    {
        *decision = do_tcgetpgrp(&self.fds, &self.procs, &self.lines, slot, fd);
    }

    /// fdevname(3).
    pub(crate) fn fdname(&self, slot: u8, fd: u8, decision: &mut Decision)
        requires { IsCaller self.now.processes slot }
        ensures { Does (view_of self.now) (view_of self.now) decision.new (fdname_row (view_of self.now) slot fd) }
    {
        *decision = do_fdname(&self.fds, &self.lines, slot, fd);
    }
}
