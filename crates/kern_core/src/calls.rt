//! Each call to the function of its name.
ghost use Rattle.std.specs.Prelude.{◌≡◌, true, OnOk, OnErr, None};
ghost use Rattle.call_words.specs.Calls.{HasFitMode};
ghost use Rattle.system_model.specs.Fit.{IsCaller};
ghost use Rattle.system_model.specs.Rows.{Does, first};
ghost use Rattle.system_model.specs.Step.{call_row};
ghost use Rattle.system_model.specs.Tables.{view_of};
ghost use Rattle.kern_core.specs.Bounds.{RevokesOnce, HasRoom};
ghost use Rattle.system_model.specs.Memory.{wants_memory};

use crate::system::System;
use call_words::{Call, Decision};
use vnode_tree::NoMemory;

impl System {
    /// A call of a process that is not stopped.
    #[tactic(auto, using(crate::proofs::BoundLemmas::none_once))]
    pub(crate) fn do_call(
        &mut self,
        slot: u8,
        call: &Call,
        decision: &mut Decision,
    ) -> Result<(), NoMemory>
        requires caller { IsCaller self.old.processes slot }
        requires mode { HasFitMode call.now }
        requires room { HasRoom self.old }
        ensures does { OnOk result (Does (view_of self.old) (view_of self.new) decision.new (call_row (view_of self.old) slot call.now)) }
        ensures revokes { RevokesOnce self.old self.new }
        ensures nothing { OnErr result (self.new ≡ self.old) }
        ensures memory { OnErr result (wants_memory (view_of self.old) slot call.now ≡ true) }
        ensures free { OnErr result (first (call_row (view_of self.old) slot call.now).checks ≡ None) }
    {
        match call {
            Call::Open {
                path,
                access,
                flags,
                mode,
            } => self.open(slot, path, *access, *flags, *mode, decision),
            Call::Close { fd } => self.close(slot, *fd, decision),
            Call::Dup { fd } => self.dup(slot, *fd, decision),
            Call::Dup2 { fd, to } => self.dup2(slot, *fd, *to, decision),
            Call::Read { fd, max } => self.read(slot, *fd, *max, decision),
            Call::Write { fd, bytes } => return self.write(slot, *fd, bytes, decision),
            Call::Pipe => self.pipe(slot, decision),
            Call::Chdir { path } => self.chdir(slot, path, decision),
            Call::Mkdir { path, mode } => self.mkdir(slot, path, *mode, decision),
            Call::Rmdir { path } => self.rmdir(slot, path, decision),
            Call::Unlink { path } => self.unlink(slot, path, decision),
            Call::List { path, from } => self.list(slot, path, *from, decision),
            Call::Info { path } => self.info(slot, path, decision),
            Call::Chmod { path, mode } => self.chmod(slot, path, *mode, decision),
            Call::Chown { path, uid, gid } => self.chown(slot, path, *uid, *gid, decision),
            Call::SetAcl { path, which, list } => self.set_acl(slot, path, *which, list, decision),
            Call::GetAcl { path, which } => self.get_acl(slot, path, *which, decision),
            Call::SetLabel { path, element } => self.set_label(slot, path, element, decision),
            Call::GetLabel { path } => self.get_label(slot, path, decision),
            Call::SetProcLabel { subject } => self.set_proc_label(slot, subject, decision),
            Call::Ident => self.ident(slot, decision),
            Call::SetCred { cred } => self.set_cred(slot, cred, decision),
            Call::Umask { mode } => self.umask(slot, *mode, decision),
            Call::Begin => self.begin(slot, decision),
            Call::Fork { note } => self.fork(slot, note, decision),
            Call::Exec { path, args } => self.exec(slot, path, args, decision),
            Call::Exit { status } => self.exit(slot, *status, decision),
            Call::Wait { pid, flags } => self.wait(slot, *pid, *flags, decision),
            Call::SetSid => self.setsid(slot, decision),
            Call::SetPgid { pid, group } => self.setpgid(slot, *pid, *group, decision),
            Call::Ps => self.ps(slot, decision),
            Call::Halt => self.halt(slot, decision),
            Call::Kill { to, sig } => self.kill(slot, *to, *sig, decision),
            Call::SigSet { sig, action } => self.sigset(slot, *sig, *action, decision),
            Call::SigTake => self.sigtake(slot, decision),
            Call::Pause => self.pause(slot, decision),
            Call::SetCtty { fd } => self.setctty(slot, *fd, decision),
            Call::TcGetAttr { fd } => self.tcgetattr(slot, *fd, decision),
            Call::TcSetAttr { fd, when, termios } => self.tcsetattr(
                slot, *fd, *when, termios, decision,
            ),
            Call::TcFlush { fd, which } => self.tcflush(slot, *fd, *which, decision),
            Call::TcDrain { fd } => self.tcdrain(slot, *fd, decision),
            Call::TcSetPgrp { fd, group } => self.tcsetpgrp(slot, *fd, *group, decision),
            Call::TcGetPgrp { fd } => self.tcgetpgrp(slot, *fd, decision),
            Call::FdName { fd } => self.fdname(slot, *fd, decision),
            Call::Revoke { path } => self.revoke(slot, path, decision),
        }
        Ok(())
    }
}
