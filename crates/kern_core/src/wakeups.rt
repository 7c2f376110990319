//! Who can go on: the wakeup list of an event (wakeup(9)).
ghost use Rattle.std.specs.Prelude.{◌≡◌, ◌<◌, ℕ, None, filter};
ghost use Rattle.std.specs.List.{range_with_len};
ghost use Rattle.sys_types.specs.declared.limits.TheConstants.{SLOTS, LINES, PIECE_BYTES};
ghost use Rattle.call_words.specs.declared.event.Event.TheVariants as event;
ghost use Rattle.call_words.specs.Events.{wake_list};
ghost use Rattle.system_model.specs.Fit.{IsCaller};
ghost use Rattle.system_model.specs.IoCalls.{read_row, write_row};
ghost use Rattle.system_model.specs.Looks.{caller_of};
ghost use Rattle.system_model.specs.OpenCalls.{open_row};
ghost use Rattle.system_model.specs.Rows.{first};
ghost use Rattle.system_model.specs.Step.{call_row, run_row, again_row, reason_of_check, waits, can_go_on, answer_to, gives_a_byte, wakes};
ghost use Rattle.system_model.specs.Tables.{view_of};
ghost use Rattle.system_model.specs.Verdicts.{check_of};

use crate::system::System;
use arrayvec::ArrayVec;
use call_words::{Access, Call, OpenFlags, PathText, Reason, Wakes};
use io_calls::{read_verdict, write_verdict};
use open_calls::open_verdict;
use proc_calls::{pause_verdict, wait_verdict};
use sys_types::{LINES, Piece, SLOTS};
use system_model::{Verdict, caller};
use tty_calls::drain_verdict;
use tty_dev::table::is_takeable;

impl System {
    /// What a read of a number comes to.
    fn read_verdict(&self, slot: u8, fd: u8, max: u16) -> Verdict
        requires { IsCaller self.now.processes slot }
        ensures { check_of (caller_of (view_of self.now) slot) result ≡ first (read_row (view_of self.now) slot fd max).checks }
    {
        read_verdict(
            &self.tree,
            &self.fds,
            &self.pipes,
            &self.procs,
            &self.lines,
            self.recheck,
            slot,
            fd,
            max,
        )
    }

    /// What a write of a number comes to.
    fn write_verdict(&self, slot: u8, fd: u8, bytes: &Piece) -> Verdict
        requires { IsCaller self.now.processes slot }
        ensures { check_of (caller_of (view_of self.now) slot) result ≡ first (write_row (view_of self.now) slot fd bytes.now).checks }
    {
        write_verdict(
            &self.tree,
            &self.fds,
            &self.pipes,
            &self.procs,
            &self.lines,
            self.recheck,
            slot,
            fd,
            bytes,
        )
    }

    /// What an open of a path comes to.
    fn open_verdict(&self, slot: u8, path: &PathText, access: Access, flags: OpenFlags) -> Verdict
        requires { IsCaller self.now.processes slot }
        ensures { (mode : ℕ) → check_of (caller_of (view_of self.now) slot) result ≡ first (open_row (view_of self.now) slot path.now access flags mode).checks }
    {
        open_verdict(
            &self.tree,
            &self.fds,
            &self.procs,
            &self.pool,
            &self.lines,
            slot,
            path,
            access,
            flags,
        )
    }

    /// What a call of a process that is not stopped waits for, where another try would be idle. Only six calls can wait.
    fn call_reason(&self, slot: u8, call: &Call) -> Option<Reason>
        requires { IsCaller self.now.processes slot }
        ensures { result ≡ reason_of_check (first (call_row (view_of self.now) slot call.now).checks) }
    {
        let verdict = match call {
            Call::Open {
                path,
                access,
                flags,
                ..
            } => self.open_verdict(slot, path, *access, *flags),
            Call::Read { fd, max } => self.read_verdict(slot, *fd, *max),
            Call::Write { fd, bytes } => self.write_verdict(slot, *fd, bytes),
            Call::Wait { pid, flags } => wait_verdict(&self.procs, slot, *pid, *flags),
            Call::Pause => pause_verdict(&self.procs, slot),
            Call::TcDrain { fd } => drain_verdict(&self.fds, &self.procs, &self.lines, slot, *fd),
            _ => return None,
        };
        verdict.reason()
    }

    /// What a call of a slot with a running process waits for: to be continued, where that is stopped.
    fn running_reason(&self, slot: u8, call: &Call) -> Option<Reason>
        requires { IsCaller self.now.processes slot }
        ensures { result ≡ reason_of_check (first (run_row (view_of self.now) slot (caller_of (view_of self.now) slot) call.now).checks) }
    {
        if caller(&self.procs, slot).is_stopped() {
            return Some(Reason::Stop);
        }
        self.call_reason(slot, call)
    }

    /// What a slot without a running process waits for: a process, where it waits in `begin` and has told that its last one was ended.
    fn empty_reason(&self, slot: u8) -> Option<Reason>
        requires { slot < SLOTS }
        ensures { result ≡ reason_of_check (first (again_row (view_of self.now) slot None).checks) }
    {
        if self.waits_to_begin(slot) && !self.procs.is_left(slot) {
            return Some(Reason::Begin);
        }
        None
    }

    /// What the pending call of a slot waits for, where another try would leave it asleep and change nothing.
    pub(crate) fn waits(&self, slot: u8) -> Option<Reason>
        requires { slot < SLOTS }
        ensures { result ≡ waits (view_of self.now) slot }
    {
        let Some(call) = self.procs.pending(slot) else {
            return None;
        };
        if self.halted {
            return None;
        }
        if self.procs.running(slot).is_some() {
            return self.running_reason(slot, call);
        }
        self.empty_reason(slot)
    }

    /// Whether a slot has a pending call that another try would not leave waiting.
    fn can_go_on(&self, slot: u8) -> bool
        requires { slot < SLOTS }
        ensures { result ≡ can_go_on (view_of self.now) slot }
    {
        self.procs.pending(slot).is_some() && !self.waits(slot).is_some()
    }

    /// Whether a taking of 512 bytes of a line's output would give one.
    fn has_output(&self, line: u8) -> bool
        requires { line < LINES }
        ensures { result ≡ gives_a_byte (answer_to (view_of self.now) (event.Take line PIECE_BYTES)) }
    {
        !self.halted && is_takeable(&self.lines, line)
    }

    /// The slots that can go on, in rising order.
    fn slots_to_wake(&self) -> ArrayVec<u8, SLOTS>
        ensures { result.items ≡ filter (can_go_on (view_of self.now)) (range_with_len 0 SLOTS) }
    {
        let mut slots = ArrayVec::new();
        for slot in 0..SLOTS as u8 {
            if self.can_go_on(slot) {
                slots.push(slot);
            }
        }
        slots
    }

    /// The lines with output to take, in rising order.
    fn lines_to_take(&self) -> ArrayVec<u8, LINES>
        ensures { result.items ≡ filter (λ n. gives_a_byte (answer_to (view_of self.now) (event.Take n PIECE_BYTES))) (range_with_len 0 LINES) }
    {
        let mut lines = ArrayVec::new();
        for line in 0..LINES as u8 {
            if self.has_output(line) {
                lines.push(line);
            }
        }
        lines
    }

    /// Writes down who can go on.
    #[tactic(auto, unfolding(system_model::specs::Step::wakes))]
    pub(crate) fn list_wakes(&self, list: &mut Wakes)
        ensures { wake_list list.new ≡ wakes (view_of self.now) }
    {
        list.slots = self.slots_to_wake();
        list.lines = self.lines_to_take();
    }
}
