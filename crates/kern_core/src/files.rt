//! The calls on descriptors and pipes, each by the function of its name.
ghost use Rattle.system_model.specs.Fit.{IsCaller};
ghost use Rattle.system_model.specs.OpenCalls.{open_row, close_row, dup_row, dup2_row};
ghost use Rattle.system_model.specs.PipeCalls.{pipe_row};
ghost use Rattle.std.specs.Prelude.{◌≡◌, ◌≤◌, true, None, OnOk, OnErr};
ghost use Rattle.system_model.specs.IoCalls.{read_row, write_row};
ghost use Rattle.system_model.specs.Looks.{file_at};
ghost use Rattle.system_model.specs.Rows.{Does, first};
ghost use Rattle.system_model.specs.Memory.{is_regular};
ghost use Rattle.system_model.specs.Tables.{view_of};
ghost use Rattle.kern_core.specs.Bounds.{RevokesNone};

use crate::system::System;
use call_words::{Access, Decision, OpenFlags, PathText};
use io_calls::{do_close, do_dup, do_dup2, do_pipe, do_read, do_write};
use open_calls::do_open;
use sys_types::Piece;
use vnode_tree::NoMemory;

impl System {
    /// open(2).
    pub(crate) fn open(
        &mut self,
        slot: u8,
        path: &PathText,
        access: Access,
        flags: OpenFlags,
        mode: u16,
        decision: &mut Decision,
    )
        requires caller { IsCaller self.old.processes slot }
        requires mode { mode ≤ 0o777 }
        ensures does { Does (view_of self.old) (view_of self.new) decision.new (open_row (view_of self.old) slot path.now access flags mode) }
        ensures revokes { RevokesNone self.old self.new }
    {
        *decision = do_open(
            &mut self.tree,
            &mut self.fds,
            &self.procs,
            &mut self.pool,
            &mut self.lines,
            slot,
            path,
            access,
            flags,
            mode,
        );
    }

    /// close(2).
    pub(crate) fn close(&mut self, slot: u8, fd: u8, decision: &mut Decision)
        requires caller { IsCaller self.old.processes slot }
        ensures does { Does (view_of self.old) (view_of self.new) decision.new (close_row (view_of self.old) slot fd) }
        ensures revokes { RevokesNone self.old self.new }
    {
        *decision = do_close(
            &mut self.fds,
            &mut self.pipes,
            &mut self.pool,
            &mut self.lines,
            slot,
            fd,
        );
    }

    /// dup(2).
    pub(crate) fn dup(&mut self, slot: u8, fd: u8, decision: &mut Decision)
        requires caller { IsCaller self.old.processes slot }
        ensures does { Does (view_of self.old) (view_of self.new) decision.new (dup_row (view_of self.old) slot fd) }
        ensures revokes { RevokesNone self.old self.new }
    {
        *decision = do_dup(&mut self.fds, slot, fd);
    }

    /// dup2(2).
    pub(crate) fn dup2(&mut self, slot: u8, fd: u8, to: u8, decision: &mut Decision)
        requires caller { IsCaller self.old.processes slot }
        ensures does { Does (view_of self.old) (view_of self.new) decision.new (dup2_row (view_of self.old) slot fd to) }
        ensures revokes { RevokesNone self.old self.new }
    {
        *decision = do_dup2(
            &mut self.fds,
            &mut self.pipes,
            &mut self.pool,
            &mut self.lines,
            slot,
            fd,
            to,
        );
    }

    /// pipe(2).
    pub(crate) fn pipe(&mut self, slot: u8, decision: &mut Decision)
        requires caller { IsCaller self.old.processes slot }
        ensures does { Does (view_of self.old) (view_of self.new) decision.new (pipe_row (view_of self.old) slot) }
        ensures revokes { RevokesNone self.old self.new }
    {
        *decision = do_pipe(
            &mut self.fds,
            &mut self.pipes,
            &self.procs,
            &mut self.pool,
            slot,
        );
    }

    /// read(2).
    pub(crate) fn read(&mut self, slot: u8, fd: u8, max: u16, decision: &mut Decision)
        requires caller { IsCaller self.old.processes slot }
        ensures does { Does (view_of self.old) (view_of self.new) decision.new (read_row (view_of self.old) slot fd max) }
        ensures revokes { RevokesNone self.old self.new }
    {
        *decision = do_read(
            &self.tree,
            &mut self.fds,
            &mut self.pipes,
            &mut self.procs,
            &self.pool,
            &mut self.lines,
            &mut self.ending,
            self.recheck,
            slot,
            fd,
            max,
        );
    }

    /// write(2). `NoMemory` comes of a regular file alone, where no check holds; then nothing has changed.
    pub(crate) fn write(
        &mut self,
        slot: u8,
        fd: u8,
        bytes: &Piece,
        decision: &mut Decision,
    ) -> Result<(), NoMemory>
        requires caller { IsCaller self.old.processes slot }
        ensures does { OnOk result (Does (view_of self.old) (view_of self.new) decision.new (write_row (view_of self.old) slot fd bytes.now)) }
        ensures revokes { RevokesNone self.old self.new }
        ensures nothing { OnErr result (self.new ≡ self.old) }
        ensures memory { OnErr result (is_regular (file_at (view_of self.old) slot fd) ≡ true) }
        ensures free { OnErr result (first (write_row (view_of self.old) slot fd bytes.now).checks ≡ None) }
    {
        *decision = do_write(
            &mut self.tree,
            &mut self.fds,
            &mut self.pipes,
            &mut self.procs,
            &mut self.pool,
            &mut self.lines,
            &mut self.ending,
            self.recheck,
            slot,
            fd,
            bytes,
        )?;
        Ok(())
    }
}
