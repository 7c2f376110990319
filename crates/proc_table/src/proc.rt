//! A process.
ghost use Rattle.std.specs.Prelude.{◌≡◌, ◌<◌, ◌^◌, is_none, is_some, find};
ghost use Rattle.proc_table.specs.Processes as spec;
ghost use Rattle.proc_table.specs.Posts as posts;
ghost use Rattle.proc_table.specs.Endings as endings;
ghost use Rattle.proc_table.specs.Reaping as reaping;
ghost use Rattle.proc_table.specs.Changes as changes;
ghost use Rattle.proc_table.specs.Forks.{child_of};
ghost use Rattle.proc_table.specs.Procs.{process_of};

use crate::actions::Actions;
use acl_core::Cred;
use call_words::{Action, Call, How};
use label_core::Subject;
use sys_types::{Image, Node, Piece, Sig};

/// The pid of init(8), the first process, which adopts children and is neither ended nor stopped.
pub const INIT: u32 = 1;

/// Whether a process runs, or has ended and is not waited for yet.
#[derive(Clone, Copy, PartialEq, Eq)]
pub enum ProcState {
    Running,
    Zombie(How),
}

/// A process, in place: about 2,600 bytes.
#[derive(Drop)]
pub struct Proc {
    /// Its number, from 1 on.
    pub pid: u32,
    /// Its parent's number; 0 for pid 1.
    pub parent: u32,
    /// The number of its process group.
    pub group: u32,
    /// The number of its session.
    pub session: u32,
    /// Who it is.
    pub cred: Cred,
    /// What it may read and write (mac_mls(4)).
    pub label: Subject,
    /// Its working directory.
    pub cwd: Node,
    /// The bits that are off in the modes of new files, at most octal 777 (umask(2)).
    pub umask: u16,
    /// What it does at each signal.
    pub actions: Actions,
    /// The caught signals that are pending: bit N is set exactly where that of number N is (sigpending(2)).
    pub caught: u32,
    /// Whether it runs.
    pub state: ProcState,
    /// The signal that stopped it, if it is stopped.
    pub stopped: Option<Sig>,
    /// Whether a wait has told the stop.
    pub reported: bool,
    /// Whether it has begun its program.
    pub begun: bool,
    /// Whether it has called execve(2) since it was forked.
    pub execed: bool,
    /// Its program.
    pub image: Image,
    /// The arguments of its program, at most 512 bytes.
    pub args: Piece,
    /// Its call that sleeps, if one does.
    pub pending: Option<Call>,
}

/// An equal call, if there is one.
pub(crate) fn copy_call(call: &Option<Call>) -> Option<Call>
    ensures { result ≡ call.now }
{
    match call {
        None => None,
        Some(call) => Some(call.copy()),
    }
}

/// The first of these signals that is caught and pending.
fn first_caught(signals: &[Sig], process: &Proc) -> Option<Sig>
    ensures { result ≡ find (λ sig. spec.is_caught sig (process_of process.now)) signals.now }
{
    for sig in signals {
        if process.is_caught(*sig) {
            return Some(*sig);
        }
    }
    None
}

impl Proc {
    /// Whether it runs.
    pub fn is_running(&self) -> bool
        ensures { result ≡ spec.is_running (process_of self.now) }
    {
        matches!(self.state, ProcState::Running)
    }

    /// Whether it is stopped.
    pub fn is_stopped(&self) -> bool
        ensures { result ≡ spec.is_stopped (process_of self.now) }
    {
        self.stopped.is_some()
    }

    /// Whether a caught signal is pending.
    pub fn is_caught(&self, sig: Sig) -> bool
        ensures { result ≡ spec.is_caught sig (process_of self.now) }
    {
        (self.caught >> sig.number()) & 1 == 1
    }

    /// Makes a caught signal pending.
    pub fn add_caught(&mut self, sig: Sig)
        ensures process { process_of self.new ≡ spec.add_caught sig (process_of self.old) }
        ensures pending { self.new.pending ≡ self.old.pending }
    {
        self.caught |= 1 << sig.number();
    }

    /// Takes a caught signal away, if it is pending.
    pub fn drop_caught(&mut self, sig: Sig)
        ensures process { process_of self.new ≡ spec.drop_caught sig (process_of self.old) }
        ensures pending { self.new.pending ≡ self.old.pending }
    {
        if self.is_caught(sig) {
            self.caught ^= 1 << sig.number();
        }
    }

    /// The caught signal of the least number that is pending. `None` comes exactly where none is.
    pub fn least_caught(&self) -> Option<Sig>
        ensures { result ≡ spec.least_caught (process_of self.now) }
    {
        first_caught(&Sig::all(), self)
    }

    /// It has another program with these arguments; what it caught does again what it does by default, and nothing caught is pending.
    pub(crate) fn exec(&mut self, image: Image, args: Piece)
        ensures process { process_of self.new ≡ changes.exec_process (process_of self.old) image args }
        ensures pending { self.new.pending ≡ self.old.pending }
    {
        self.image = image;
        self.args = args;
        self.actions.reset();
        self.caught = 0;
        self.execed = true;
    }

    /// Sets what it does at a signal, and takes such a signal away, if it is pending.
    pub(crate) fn set_action(&mut self, sig: Sig, action: Action)
        ensures process { process_of self.new ≡ changes.act_on sig action (process_of self.old) }
        ensures pending { self.new.pending ≡ self.old.pending }
    {
        self.actions.set(sig, action);
        self.drop_caught(sig);
    }

    /// Ends a stop.
    pub(crate) fn continue_on(&mut self)
        ensures process { process_of self.new ≡ posts.continue (process_of self.old) }
        ensures pending { self.new.pending ≡ self.old.pending }
    {
        self.stopped = None;
    }

    /// Stops it by a signal, which no wait has told yet.
    pub(crate) fn stop(&mut self, sig: Sig)
        ensures process { process_of self.new ≡ posts.stop sig (process_of self.old) }
        ensures pending { self.new.pending ≡ self.old.pending }
    {
        self.stopped = Some(sig);
        self.reported = false;
    }

    /// Marks its stop as told.
    pub(crate) fn report(&mut self)
        ensures process { process_of self.new ≡ reaping.report (process_of self.old) }
        ensures pending { self.new.pending ≡ self.old.pending }
    {
        self.reported = true;
    }

    /// Gives it pid 1 as its parent where this is its parent.
    pub(crate) fn adopt(&mut self, parent: u32)
        ensures process { process_of self.new ≡ endings.adopt parent (process_of self.old) }
        ensures pending { self.new.pending ≡ self.old.pending }
    {
        if self.parent == parent {
            self.parent = INIT;
        }
    }

    /// Makes it a zombie.
    pub(crate) fn end(&mut self, how: How)
        ensures process { process_of self.new ≡ endings.end how (process_of self.old) }
        ensures pending { self.new.pending ≡ self.old.pending }
    {
        self.state = ProcState::Zombie(how);
    }

    /// A child of a pid, with a note as its arguments, and this call pending (fork(2)).
    pub(crate) fn child(&self, pid: u32, note: &Piece, pending: Option<Call>) -> Proc
        ensures process { process_of result ≡ child_of (process_of self.now) pid note.now }
        ensures pending { result.pending ≡ pending }
    {
        Proc {
            pid,
            parent: self.pid,
            group: self.group,
            session: self.session,
            cred: self.cred.copy(),
            label: self.label.copy(),
            cwd: self.cwd,
            umask: self.umask,
            actions: self.actions.copy(),
            caught: 0,
            state: self.state,
            stopped: self.stopped,
            reported: false,
            begun: false,
            execed: false,
            image: self.image,
            args: note.copy(),
            pending,
        }
    }

    /// An equal process.
    pub fn copy(&self) -> Self
        ensures { result ≡ self.now }
    {
        Proc {
            pid: self.pid,
            parent: self.parent,
            group: self.group,
            session: self.session,
            cred: self.cred.copy(),
            label: self.label.copy(),
            cwd: self.cwd,
            umask: self.umask,
            actions: self.actions.copy(),
            caught: self.caught,
            state: self.state,
            stopped: self.stopped,
            reported: self.reported,
            begun: self.begun,
            execed: self.execed,
            image: self.image,
            args: self.args.copy(),
            pending: copy_call(&self.pending),
        }
    }
}
