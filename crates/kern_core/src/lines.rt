//! What happens at a terminal line, each by the function of its name.
ghost use Rattle.std.specs.Prelude.{◌<◌, ◌≤◌};
ghost use Rattle.sys_types.specs.declared.limits.TheConstants.{LINES, PIECE_BYTES};
ghost use Rattle.system_model.specs.LineEvents.{byte_row, carrier_row, take_row, end_row};
ghost use Rattle.system_model.specs.Rows.{Does};
ghost use Rattle.system_model.specs.Tables.{view_of};
ghost use Rattle.kern_core.specs.Bounds.{RevokesNone};

use crate::system::System;
use call_words::Decision;
use tty_calls::{do_byte, do_carrier, do_end, do_take};

impl System {
    /// A byte comes in.
    pub(crate) fn byte(&mut self, line: u8, byte: u8, decision: &mut Decision)
        requires { line < LINES }
        ensures does { Does (view_of self.old) (view_of self.new) decision.new (byte_row (view_of self.old) line byte) }
        ensures revokes { RevokesNone self.old self.new }
    {
        *decision = do_byte(
            &mut self.procs,
            &mut self.pool,
            &mut self.lines,
            &mut self.ending,
            line,
            byte,
        );
    }

    /// The carrier comes, or is lost.
    pub(crate) fn carrier(&mut self, line: u8, up: bool, decision: &mut Decision)
        requires { line < LINES }
        ensures does { Does (view_of self.old) (view_of self.new) decision.new (carrier_row (view_of self.old) line up) }
        ensures revokes { RevokesNone self.old self.new }
    {
        *decision = do_carrier(
            &mut self.procs,
            &mut self.pool,
            &mut self.lines,
            &mut self.ending,
            line,
            up,
        );
    }

    /// Up to `max` bytes of the output are taken for sending, at most 512.
    pub(crate) fn take(&mut self, line: u8, max: u16, decision: &mut Decision)
        requires line { line < LINES }
        requires most { max ≤ PIECE_BYTES }
        ensures does { Does (view_of self.old) (view_of self.new) decision.new (take_row (view_of self.old) line max) }
        ensures revokes { RevokesNone self.old self.new }
    {
        *decision = do_take(&self.pool, &mut self.lines, line, max);
    }

    /// The other side is gone for good.
    pub(crate) fn end(&mut self, line: u8, decision: &mut Decision)
        requires { line < LINES }
        ensures does { Does (view_of self.old) (view_of self.new) decision.new (end_row (view_of self.old) line) }
        ensures revokes { RevokesNone self.old self.new }
    {
        *decision = do_end(
            &mut self.procs,
            &mut self.pool,
            &mut self.lines,
            &mut self.ending,
            &mut self.halted,
            line,
        );
    }
}
