//! The calls on processes, each by the function of its name.
ghost use Rattle.std.specs.Prelude.{◌+◌, ◌<◌, ◌^◌};
ghost use Rattle.system_model.specs.Fit.{IsCaller};
ghost use Rattle.system_model.specs.CredCalls.{ident_row, setcred_row, setproclabel_row, umask_row};
ghost use Rattle.system_model.specs.ProcCalls.{halt_row, exec_row, ps_row, begin_row, fork_row, exit_row, wait_row, setsid_row, setpgid_row};
ghost use Rattle.system_model.specs.SignalCalls.{kill_row, sigset_row, sigtake_row, pause_row};
ghost use Rattle.system_model.specs.Rows.{Does};
ghost use Rattle.std.specs.Prelude.{◌≡◌};
ghost use Rattle.proc_calls.specs.Halting.{halted_after};
ghost use Rattle.system_model.specs.Tables.{view_of};
ghost use Rattle.kern_core.specs.Bounds.{RevokesNone};

use crate::system::System;
use acl_core::Cred;
use call_words::{Action, Decision, PathText, Reply, To, WaitFlags};
use label_core::Subject;
use proc_calls::{
    do_begin, do_exec, do_exit, do_fork, do_halt, do_ident, do_kill, do_pause, do_ps, do_setcred,
    do_setpgid, do_setproclabel, do_setsid, do_sigset, do_sigtake, do_umask, do_wait,
};
use sys_types::{Piece, Sig};

impl System {
    /// getpid(2) and its like.
    pub(crate) fn ident(&self, slot: u8, decision: &mut Decision)
        requires { IsCaller self.now.processes slot }
        ensures { Does (view_of self.now) (view_of self.now) decision.new (ident_row (view_of self.now) slot) }
    {
        *decision = do_ident(&self.procs, slot);
    }

    /// setuid(2) and its like.
    pub(crate) fn set_cred(&mut self, slot: u8, cred: &Cred, decision: &mut Decision)
        requires caller { IsCaller self.old.processes slot }
        ensures does { Does (view_of self.old) (view_of self.new) decision.new (setcred_row (view_of self.old) slot cred.now) }
        ensures revokes { RevokesNone self.old self.new }
    {
        *decision = do_setcred(&mut self.procs, slot, cred);
    }

    /// mac_set_proc(3).
    pub(crate) fn set_proc_label(&mut self, slot: u8, subject: &Subject, decision: &mut Decision)
        requires caller { IsCaller self.old.processes slot }
        ensures does { Does (view_of self.old) (view_of self.new) decision.new (setproclabel_row (view_of self.old) slot subject.now) }
        ensures revokes { RevokesNone self.old self.new }
    {
        *decision = do_setproclabel(&mut self.procs, slot, subject);
    }

    /// umask(2).
    pub(crate) fn umask(&mut self, slot: u8, mode: u16, decision: &mut Decision)
        requires caller { IsCaller self.old.processes slot }
        ensures does { Does (view_of self.old) (view_of self.new) decision.new (umask_row (view_of self.old) slot mode) }
        ensures revokes { RevokesNone self.old self.new }
    {
        *decision = do_umask(&mut self.procs, slot, mode);
    }

    /// The first call of a process.
    pub(crate) fn begin(&mut self, slot: u8, decision: &mut Decision)
        requires caller { IsCaller self.old.processes slot }
        ensures does { Does (view_of self.old) (view_of self.new) decision.new (begin_row (view_of self.old) slot) }
        ensures revokes { RevokesNone self.old self.new }
    {
        *decision = do_begin(&mut self.procs, slot);
    }

    /// fork(2).
    pub(crate) fn fork(&mut self, slot: u8, note: &Piece, decision: &mut Decision)
        requires caller { IsCaller self.old.processes slot }
        requires pid { self.old.processes.next_pid + 1 < 2 ^ 32 }
        ensures does { Does (view_of self.old) (view_of self.new) decision.new (fork_row (view_of self.old) slot note.now) }
        ensures revokes { RevokesNone self.old self.new }
    {
        *decision = do_fork(&mut self.fds, &mut self.procs, slot, note);
    }

    /// _exit(2).
    pub(crate) fn exit(&mut self, slot: u8, status: u8, decision: &mut Decision)
        requires caller { IsCaller self.old.processes slot }
        ensures does { Does (view_of self.old) (view_of self.new) decision.new (exit_row (view_of self.old) slot status) }
        ensures revokes { RevokesNone self.old self.new }
    {
        *decision = do_exit(&self.procs, &mut self.ending, slot, status);
    }

    /// wait4(2).
    pub(crate) fn wait(&mut self, slot: u8, pid: u32, flags: WaitFlags, decision: &mut Decision)
        requires caller { IsCaller self.old.processes slot }
        ensures does { Does (view_of self.old) (view_of self.new) decision.new (wait_row (view_of self.old) slot pid flags) }
        ensures revokes { RevokesNone self.old self.new }
    {
        *decision = do_wait(&mut self.procs, slot, pid, flags);
    }

    /// setsid(2).
    pub(crate) fn setsid(&mut self, slot: u8, decision: &mut Decision)
        requires caller { IsCaller self.old.processes slot }
        ensures does { Does (view_of self.old) (view_of self.new) decision.new (setsid_row (view_of self.old) slot) }
        ensures revokes { RevokesNone self.old self.new }
    {
        *decision = do_setsid(&mut self.procs, slot);
    }

    /// setpgid(2).
    pub(crate) fn setpgid(&mut self, slot: u8, pid: u32, group: u32, decision: &mut Decision)
        requires caller { IsCaller self.old.processes slot }
        ensures does { Does (view_of self.old) (view_of self.new) decision.new (setpgid_row (view_of self.old) slot pid group) }
        ensures revokes { RevokesNone self.old self.new }
    {
        *decision = do_setpgid(&mut self.procs, slot, pid, group);
    }

    /// kill(2).
    pub(crate) fn kill(&mut self, slot: u8, to: To, sig: Sig, decision: &mut Decision)
        requires caller { IsCaller self.old.processes slot }
        ensures does { Does (view_of self.old) (view_of self.new) decision.new (kill_row (view_of self.old) slot to sig) }
        ensures revokes { RevokesNone self.old self.new }
    {
        *decision = do_kill(&mut self.procs, &mut self.ending, slot, to, sig);
    }

    /// sigaction(2).
    pub(crate) fn sigset(&mut self, slot: u8, sig: Sig, action: Action, decision: &mut Decision)
        requires caller { IsCaller self.old.processes slot }
        ensures does { Does (view_of self.old) (view_of self.new) decision.new (sigset_row (view_of self.old) slot sig action) }
        ensures revokes { RevokesNone self.old self.new }
    {
        *decision = do_sigset(&mut self.procs, slot, sig, action);
    }

    /// sigwait(2) without a wait.
    pub(crate) fn sigtake(&mut self, slot: u8, decision: &mut Decision)
        requires caller { IsCaller self.old.processes slot }
        ensures does { Does (view_of self.old) (view_of self.new) decision.new (sigtake_row (view_of self.old) slot) }
        ensures revokes { RevokesNone self.old self.new }
    {
        *decision = do_sigtake(&mut self.procs, slot);
    }

    /// pause(3).
    pub(crate) fn pause(&self, slot: u8, decision: &mut Decision)
        requires { IsCaller self.now.processes slot }
        ensures { Does (view_of self.now) (view_of self.now) decision.new (pause_row (view_of self.now) slot) }
    {
        *decision = do_pause(&self.procs, slot);
    }

    /// execve(2).
    pub(crate) fn exec(&mut self, slot: u8, path: &PathText, args: &Piece, decision: &mut Decision)
        requires caller { IsCaller self.old.processes slot }
        ensures does { Does (view_of self.old) (view_of self.new) decision.new (exec_row (view_of self.old) slot path.now args.now) }
        ensures revokes { RevokesNone self.old self.new }
    {
        *decision = do_exec(
            &self.tree,
            &mut self.fds,
            &mut self.pipes,
            &mut self.procs,
            &mut self.pool,
            &mut self.lines,
            slot,
            path,
            args,
        );
    }

    /// ps(1).
    pub(crate) fn ps(&self, slot: u8, decision: &mut Decision)
        requires { IsCaller self.now.processes slot }
        ensures { Does (view_of self.now) (view_of self.now) decision.new (ps_row (view_of self.now) slot) }
    {
        *decision = do_ps(&self.procs, slot);
    }

    /// reboot(2): the system takes no more events.
    pub(crate) fn halt(&mut self, slot: u8, decision: &mut Decision)
        requires caller { IsCaller self.old.processes slot }
        ensures does { Does (view_of self.old) (view_of self.new) decision.new (halt_row (view_of self.old) slot) }
        ensures revokes { RevokesNone self.old self.new }
    {
        *decision = do_halt(&self.procs, slot);
        self.halted = halted_after(self.halted, decision);
    }
}

/// Whether the system is halted after a halt was decided so.
fn halted_after(before: bool, decision: &Decision) -> bool
    ensures { result ≡ halted_after before decision.now }
{
    match decision {
        Decision::Answer(Reply::Denied(_)) => before,
        _ => true,
    }
}
