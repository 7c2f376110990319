//! The calls on nodes of the file tree, each by the function of its name.
ghost use Rattle.std.specs.Prelude.{◌≤◌, ◌-◌, ◌^◌};
ghost use Rattle.system_model.specs.Fit.{IsCaller, AreRevokedAtMost};
ghost use Rattle.system_model.specs.AttrCalls.{info_row, chmod_row, chown_row, setacl_row, getacl_row, setlabel_row, getlabel_row};
ghost use Rattle.system_model.specs.DirCalls.{chdir_row, mkdir_row, rmdir_row, unlink_row, list_row};
ghost use Rattle.system_model.specs.TtyCalls.{revoke_row};
ghost use Rattle.system_model.specs.Rows.{Does};
ghost use Rattle.system_model.specs.Tables.{view_of};
ghost use Rattle.kern_core.specs.Bounds.{RevokesNone, RevokesOnce};

use crate::system::System;
use call_words::{Decision, Entries, PathText, WhichList};
use label_core::Element;
use node_calls::{
    do_chdir, do_chmod, do_chown, do_getacl, do_getlabel, do_info, do_list, do_mkdir, do_revoke,
    do_rmdir, do_setacl, do_setlabel, do_unlink,
};

impl System {
    /// chdir(2).
    pub(crate) fn chdir(&mut self, slot: u8, path: &PathText, decision: &mut Decision)
        requires caller { IsCaller self.old.processes slot }
        ensures does { Does (view_of self.old) (view_of self.new) decision.new (chdir_row (view_of self.old) slot path.now) }
        ensures revokes { RevokesNone self.old self.new }
    {
        *decision = do_chdir(&self.tree, &mut self.procs, slot, path);
    }

    /// mkdir(2).
    pub(crate) fn mkdir(&mut self, slot: u8, path: &PathText, mode: u16, decision: &mut Decision)
        requires caller { IsCaller self.old.processes slot }
        requires mode { mode ≤ 0o777 }
        ensures does { Does (view_of self.old) (view_of self.new) decision.new (mkdir_row (view_of self.old) slot path.now mode) }
        ensures revokes { RevokesNone self.old self.new }
    {
        *decision = do_mkdir(&mut self.tree, &self.procs, slot, path, mode);
    }

    /// rmdir(2).
    pub(crate) fn rmdir(&mut self, slot: u8, path: &PathText, decision: &mut Decision)
        requires caller { IsCaller self.old.processes slot }
        ensures does { Does (view_of self.old) (view_of self.new) decision.new (rmdir_row (view_of self.old) slot path.now) }
        ensures revokes { RevokesNone self.old self.new }
    {
        *decision = do_rmdir(&mut self.tree, &self.procs, slot, path);
    }

    /// unlink(2).
    pub(crate) fn unlink(&mut self, slot: u8, path: &PathText, decision: &mut Decision)
        requires caller { IsCaller self.old.processes slot }
        ensures does { Does (view_of self.old) (view_of self.new) decision.new (unlink_row (view_of self.old) slot path.now) }
        ensures revokes { RevokesNone self.old self.new }
    {
        *decision = do_unlink(&mut self.tree, &self.fds, &self.procs, slot, path);
    }

    /// readdir(3).
    pub(crate) fn list(&self, slot: u8, path: &PathText, from: u16, decision: &mut Decision)
        requires { IsCaller self.now.processes slot }
        ensures { Does (view_of self.now) (view_of self.now) decision.new (list_row (view_of self.now) slot path.now from) }
    {
        *decision = do_list(&self.tree, &self.procs, slot, path, from);
    }

    /// stat(2).
    pub(crate) fn info(&self, slot: u8, path: &PathText, decision: &mut Decision)
        requires { IsCaller self.now.processes slot }
        ensures { Does (view_of self.now) (view_of self.now) decision.new (info_row (view_of self.now) slot path.now) }
    {
        *decision = do_info(&self.tree, &self.procs, slot, path);
    }

    /// chmod(2).
    pub(crate) fn chmod(&mut self, slot: u8, path: &PathText, mode: u16, decision: &mut Decision)
        requires caller { IsCaller self.old.processes slot }
        requires mode { mode ≤ 0o777 }
        ensures does { Does (view_of self.old) (view_of self.new) decision.new (chmod_row (view_of self.old) slot path.now mode) }
        ensures revokes { RevokesNone self.old self.new }
    {
        *decision = do_chmod(&mut self.tree, &self.procs, slot, path, mode);
    }

    /// chown(2).
    pub(crate) fn chown(
        &mut self,
        slot: u8,
        path: &PathText,
        uid: u32,
        gid: u32,
        decision: &mut Decision,
    )
        requires caller { IsCaller self.old.processes slot }
        ensures does { Does (view_of self.old) (view_of self.new) decision.new (chown_row (view_of self.old) slot path.now uid gid) }
        ensures revokes { RevokesNone self.old self.new }
    {
        *decision = do_chown(&mut self.tree, &self.procs, slot, path, uid, gid);
    }

    /// acl_set_file(3).
    pub(crate) fn set_acl(
        &mut self,
        slot: u8,
        path: &PathText,
        which: WhichList,
        entries: &Entries,
        decision: &mut Decision,
    )
        requires caller { IsCaller self.old.processes slot }
        ensures does { Does (view_of self.old) (view_of self.new) decision.new (setacl_row (view_of self.old) slot path.now which entries.now) }
        ensures revokes { RevokesNone self.old self.new }
    {
        *decision = do_setacl(&mut self.tree, &self.procs, slot, path, which, entries);
    }

    /// acl_get_file(3).
    pub(crate) fn get_acl(
        &self,
        slot: u8,
        path: &PathText,
        which: WhichList,
        decision: &mut Decision,
    )
        requires { IsCaller self.now.processes slot }
        ensures { Does (view_of self.now) (view_of self.now) decision.new (getacl_row (view_of self.now) slot path.now which) }
    {
        *decision = do_getacl(&self.tree, &self.procs, slot, path, which);
    }

    /// mac_set_file(3).
    pub(crate) fn set_label(
        &mut self,
        slot: u8,
        path: &PathText,
        element: &Element,
        decision: &mut Decision,
    )
        requires caller { IsCaller self.old.processes slot }
        ensures does { Does (view_of self.old) (view_of self.new) decision.new (setlabel_row (view_of self.old) slot path.now element.now) }
        ensures revokes { RevokesNone self.old self.new }
    {
        *decision = do_setlabel(&mut self.tree, &self.procs, slot, path, element);
    }

    /// mac_get_file(3).
    pub(crate) fn get_label(&self, slot: u8, path: &PathText, decision: &mut Decision)
        requires { IsCaller self.now.processes slot }
        ensures { Does (view_of self.now) (view_of self.now) decision.new (getlabel_row (view_of self.now) slot path.now) }
    {
        *decision = do_getlabel(&self.tree, &self.procs, slot, path);
    }

    /// revoke(2).
    pub(crate) fn revoke(&mut self, slot: u8, path: &PathText, decision: &mut Decision)
        requires caller { IsCaller self.old.processes slot }
        requires few { AreRevokedAtMost (2 ^ 63 - 1) self.old.pool self.old.lines }
        ensures does { Does (view_of self.old) (view_of self.new) decision.new (revoke_row (view_of self.old) slot path.now) }
        ensures revokes { RevokesOnce self.old self.new }
    {
        *decision = do_revoke(
            &self.tree,
            &mut self.procs,
            &mut self.pool,
            &mut self.lines,
            &mut self.ending,
            slot,
            path,
        );
    }
}
