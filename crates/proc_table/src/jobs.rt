//! Members of groups, and the background of a terminal.
ghost use Rattle.std.specs.Prelude.{◌≡◌};
ghost use Rattle.proc_table.specs.Processes as spec;
ghost use Rattle.proc_table.specs.Posts.{is_catch};
ghost use Rattle.proc_table.specs.Background as background;
ghost use Rattle.proc_table.specs.Procs.{process_of};

use crate::lookup::{any_member, any_member_in};
use crate::proc::{INIT, Proc};
use crate::table::ProcTable;
use call_words::Action;
use sys_types::Sig;

impl Proc {
    /// Whether it catches a signal.
    pub fn catches(&self, sig: Sig) -> bool
        ensures { result ≡ is_catch (spec.action_of (process_of self.now).actions sig) }
    {
        self.actions.get(sig) == Action::Catch
    }

    /// Whether it is in the background of a terminal, which has this session, if it has one, and this group in its foreground: the
    /// session is its own, and the group another. (termios(4), "Terminal Access Control")
    pub fn is_background(&self, session: Option<u32>, foreground: u32) -> bool
        ensures { result ≡ background.is_background session foreground (process_of self.now) }
    {
        match session {
            None => false,
            Some(session) => session == self.session && foreground != self.group,
        }
    }

    /// Whether a write to that terminal, or a change of it, is stopped: it is in the background, does not ignore TTOU and is not pid 1.
    pub fn is_stopped_by_write(&self, session: Option<u32>, foreground: u32) -> bool
        ensures { result ≡ background.is_stopped_by_write session foreground (process_of self.now) }
    {
        self.is_background(session, foreground)
            && self.actions.get(Sig::TTOU) != Action::Ignore
            && self.pid != INIT
    }
}

impl ProcTable {
    /// Whether TTIN would not stop a process: it ignores TTIN, its group is orphaned, or it is pid 1.
    pub fn may_not_stop(&self, who: &Proc) -> bool
        ensures { result ≡ background.may_not_stop self.now (process_of who.now) }
    {
        who.actions.get(Sig::TTIN) == Action::Ignore || self.orphaned(who.group) || who.pid == INIT
    }

    /// Whether a group has a running member.
    pub fn has_member(&self, group: u32) -> bool
        ensures { result ≡ spec.has_member self.now group }
    {
        any_member(&self.places, group)
    }

    /// Whether a group has a running member in a session.
    pub fn has_member_in(&self, group: u32, session: u32) -> bool
        ensures { result ≡ spec.has_member_in self.now group session }
    {
        any_member_in(&self.places, group, session)
    }
}
