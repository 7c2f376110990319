//! A run of a script: from the bytes of its text to the bytes of its answers.
ghost use Rattle.std.specs.Prelude.{◌≡◌, ℕ, ◌+◌, ◌-◌, ◌*◌, ◌<◌, ◌≤◌, List, [], ◌∷◌, ◌++◌, length, take, drop, Option, Some, None, Ok, Err, IfOk, OnOk, OnErr, IsTrue};
ghost use Rattle.arrayvec.specs.ArrayVec.{array_vec_len};
ghost use Rattle.edge_io.specs.Outside.{Rose, Appended};
ghost use Rattle.call_words.specs.declared.event.Event.{Event};
ghost use Rattle.user_db.specs.Boot.{IsBoot};
ghost use Rattle.call_words.specs.Events.{MayBeUsed};
ghost use Rattle.script_model.specs.Script.{Output, text_end, full_end};
ghost use Rattle.script_text.specs.Reading.{arrivals};
ghost use Rattle.sys_types.specs.declared.limits.TheConstants.{LINES, TRAIL_EVENTS};
ghost use Rattle.tty_host.specs.Outputs.{Began, Among, behind, Goes};
ghost use Rattle.system_model.specs.State.{View};
ghost use Rattle.script_model.specs.Seen.{with_line};
ghost use Rattle.tty_host.specs.Ends.{IsScriptStatus, stop_status};
ghost use Rattle.tty_host.specs.OneLine.{is_one_line};
ghost use Rattle.tty_host.specs.declared.run.TheConstants.{OUTPUT_BYTES};

use crate::lines::cut_line;
use crate::print::bad_line;
use crate::status::Status;
use arrayvec::ArrayVec;
use call_words::{Decision, Event, SCRIPT_LINE_BYTES, Wakes, push_bytes};
use edge_io::{Failed, Sink, Source};
use kern_core::{Kernel, NoMemory, boot_trail};
use script_text::{AnswerLine, LineKind, print_answer, read_event_line_into};
use std::alloc::Global;
use trail_core::{Recorded, Refused};
use user_db::Boot;

/// Why a run ends before its text does.
#[derive(Clone, Copy)]
pub enum Stop {
    BadLine,
    Full,
    Failed,
    NoMemory,
}

impl Stop {
    /// The status with which a command then ends.
    fn status(self) -> Status
        ensures { result ≡ stop_status self }
    {
        match self {
            Stop::BadLine => Status::Input,
            Stop::Full => Status::Full,
            Stop::Failed => Status::WriteFault,
            Stop::NoMemory => Status::Memory,
        }
    }
}

/// How many bytes of the text one read takes at most.
const READ_BYTES: usize = 16_384;

/// How many bytes of answers are gathered at most before they are written.
const OUTPUT_BYTES: usize = 65_536;

/// A run: the kernel with the trail of its events, the number of the line that is being read, what
/// has come of it, the rooms in which an event is decided and its answer printed, and the answers that are not written yet.
#[derive(Drop)]
pub struct Run {
    pub trail: Recorded<Kernel>,
    pub number: u32,
    pub line: ArrayVec<u8, SCRIPT_LINE_BYTES>,
    pub decision: Decision,
    pub answer: AnswerLine,
    pub output: ArrayVec<u8, OUTPUT_BYTES>,
    ghost most: { trail.most ≡ TRAIL_EVENTS },
    ghost fits: { length trail.events ≤ TRAIL_EVENTS },
    ghost within: { number ≤ length trail.events + 1 },
    ghost one_line: { IsTrue (is_one_line line.items) },
}

/// Writes all of the bytes.
pub fn write_all<K: Sink>(out: &mut K, bytes: &[u8]) -> Result<(), Failed>
    ensures ok { OnOk result (Appended (K.written out.old) (K.written out.new) bytes.now) }
    ensures began { OnErr result (Began (K.written out.old) bytes.now (K.written out.new)) }
    ensures failed { OnErr result (Rose (K.faults out.old) (K.faults out.new)) }
    ensures no_fault { OnOk result (K.faults out.new ≡ K.faults out.old) }
    ensures grows { K.faults out.old ≤ K.faults out.new }
{
    let mut at = 0;
    while at < bytes.len() {
        let (_, rest) = bytes.split_at(at);
        at += out.write(rest)?;
    }
    Ok(())
}

impl Run {
    ghost use Rattle.tty_host.specs.Come.{come, lines_come, lines_behind, to_come, events_left, budget};
    ghost use Rattle.tty_host.specs.Outputs.{status_alone};
    ghost use Rattle.tty_host.specs.Ends.{Writes};

    /// A run from a boot, with no byte of its text read. The boot is one that some boot text gives.
    pub fn new(alloc: Global, says: Boot) -> Result<Self, NoMemory>
        requires { IsBoot says }
        ensures root { IfOk result (λ run. run.trail.root ≡ says) }
        ensures events { IfOk result (λ run. run.trail.events ≡ []) }
        ensures number { IfOk result (λ run. run.number ≡ 1) }
        ensures line { IfOk result (λ run. run.line.items ≡ []) }
        ensures output { IfOk result (λ run. run.output.items ≡ []) }
    {
        let trail = boot_trail(alloc, says)?;
        Ok(Run {
            trail,
            number: 1,
            line: ArrayVec::new(),
            decision: Decision::Noted,
            answer: AnswerLine::new(),
            output: ArrayVec::new(),
        })
    }

    /// Writes all answers that are gathered.
    fn flush<K: Sink>(&mut self, out: &mut K) -> Result<(), Stop>
        ensures goes { (more : Output) → Goes result
            (K.written out.old) (behind self.old.output.items more)
            (K.written out.new) (behind self.new.output.items more) }
        ensures none { OnOk result (self.new.output.items ≡ []) }
        ensures trail { self.new.trail ≡ self.old.trail }
        ensures number { self.new.number ≡ self.old.number }
        ensures line { self.new.line ≡ self.old.line }
        ensures answer { self.new.answer ≡ self.old.answer }
        ensures failed { OnErr result (Rose (K.faults out.old) (K.faults out.new)) }
        ensures grows { K.faults out.old ≤ K.faults out.new }
    {
        if let Err(Failed) = write_all(out, self.output.as_slice()) {
            return Err(Stop::Failed);
        }
        self.output.clear();
        Ok(())
    }

    /// Ends the run by its last line, behind all answers that are gathered.
    fn write_last<K: Sink>(&self, last: &[u8], out: &mut K) -> Result<(), Failed>
        ensures ok { OnOk result (Appended (K.written out.old) (K.written out.new) (self.now.output.items ++ last.now)) }
        ensures began { OnErr result (Began (K.written out.old) (self.now.output.items ++ last.now) (K.written out.new)) }
        ensures failed { OnErr result (Rose (K.faults out.old) (K.faults out.new)) }
        ensures grows { K.faults out.old ≤ K.faults out.new }
    {
        match write_all(out, self.output.as_slice()) {
            Ok(()) => write_all(out, last),
            Err(failed) => Err(failed),
        }
    }

    /// Ends a run in which one event more is asked than a trail has.
    fn stop_full<K: Sink>(&self, out: &mut K) -> Stop
        ensures goes { (more : Output) → Goes (Err result)
            (K.written out.old) (behind self.now.output.items full_end) (K.written out.new) more }
        ensures failed { result ≡ Stop.Failed → Rose (K.faults out.old) (K.faults out.new) }
        ensures grows { K.faults out.old ≤ K.faults out.new }
    {
        match self.write_last(b"full\n", out) {
            Ok(()) => Stop::Full,
            Err(Failed) => Stop::Failed,
        }
    }

    /// Ends a run in which memory ran out before an event, behind all answers that are gathered.
    fn stop_memory<K: Sink>(&self, out: &mut K) -> Stop
        ensures goes { (come more : Output) → Among come.stops [] → Goes (Err result)
            (K.written out.old) (behind self.now.output.items come) (K.written out.new) more }
        ensures failed { result ≡ Stop.Failed → Rose (K.faults out.old) (K.faults out.new) }
        ensures grows { K.faults out.old ≤ K.faults out.new }
    {
        match self.write_last(b"", out) {
            Ok(()) => Stop::NoMemory,
            Err(Failed) => Stop::Failed,
        }
    }

    /// Writes the answers that are gathered, where the one that is printed has no room behind them.
    fn make_room<K: Sink>(&mut self, out: &mut K) -> Result<(), Stop>
        ensures goes { (more : Output) → Goes result
            (K.written out.old) (behind self.old.output.items more)
            (K.written out.new) (behind self.new.output.items more) }
        ensures room { OnOk result (array_vec_len self.new.output + array_vec_len self.old.answer ≤ OUTPUT_BYTES) }
        ensures trail { self.new.trail ≡ self.old.trail }
        ensures number { self.new.number ≡ self.old.number }
        ensures line { self.new.line ≡ self.old.line }
        ensures answer { self.new.answer ≡ self.old.answer }
        ensures failed { OnErr result (Rose (K.faults out.old) (K.faults out.new)) }
        ensures grows { K.faults out.old ≤ K.faults out.new }
    {
        if self.output.remaining_capacity() >= self.answer.len() {
            return Ok(());
        }
        self.flush(out)
    }

    /// Adds the answer that is printed to those that are gathered.
    fn gather<K: Sink>(&mut self, out: &mut K) -> Result<(), Stop>
        ensures goes { (v : View) (e : Event) (more : Output) → Goes result
            (K.written out.old) (behind self.old.output.items (with_line v e self.old.answer.items more))
            (K.written out.new) (behind self.new.output.items more) }
        ensures trail { self.new.trail ≡ self.old.trail }
        ensures number { self.new.number ≡ self.old.number }
        ensures line { self.new.line ≡ self.old.line }
        ensures failed { OnErr result (Rose (K.faults out.old) (K.faults out.new)) }
        ensures grows { K.faults out.old ≤ K.faults out.new }
    {
        self.make_room(out)?;
        push_bytes(&mut self.output, self.answer.as_slice());
        Ok(())
    }

    /// Runs one event, and prints its answer.
    fn run_event<K: Sink>(&mut self, event: Event, out: &mut K) -> Result<(), Stop>
        requires { MayBeUsed event }
        ensures goes { (es : List Event) (bad : Option ℕ) → Goes result
            (K.written out.old) (come self.old (event ∷ es) bad)
            (K.written out.new) (come self.new es bad) }
        ensures room { OnOk result (events_left self.new + 1 ≡ events_left self.old) }
        ensures number { self.new.number ≡ self.old.number }
        ensures line { self.new.line ≡ self.old.line }
        ensures failed { result ≡ Err Stop.Failed → Rose (K.faults out.old) (K.faults out.new) }
        ensures grows { K.faults out.old ≤ K.faults out.new }
    {
        let mut wakes = Wakes::none();
        match self.trail.apply_into(event, &mut self.decision, &mut wakes) {
            Ok(()) => {}
            Err(Refused::Full(_)) => return Err(self.stop_full(out)),
            Err(Refused::NoMemory(_)) => return Err(self.stop_memory(out)),
        }
        self.answer.clear();
        let events = self.trail.events();
        print_answer(
            &events[events.len() - 1],
            &self.decision,
            &wakes,
            &mut self.answer,
        );
        self.gather(out)
    }

    /// Runs the arrival of each of the bytes at a line, of which there is at least one.
    fn run_input<K: Sink>(&mut self, line: u8, bytes: &[u8], out: &mut K) -> Result<(), Stop>
        requires line { line < LINES }
        requires some { 0 < length bytes.now }
        ensures goes { (es : List Event) (bad : Option ℕ) → Goes result
            (K.written out.old) (come self.old (arrivals line bytes.now ++ es) bad)
            (K.written out.new) (come self.new es bad) }
        ensures room { OnOk result (events_left self.new < events_left self.old) }
        ensures number { self.new.number ≡ self.old.number }
        ensures failed { result ≡ Err Stop.Failed → Rose (K.faults out.old) (K.faults out.new) }
        ensures grows { K.faults out.old ≤ K.faults out.new }
    {
        for byte in bytes {
            self.run_event(Event::Byte { line, byte: *byte }, out)?;
        }
        Ok(())
    }

    /// Runs what the line that has come to its end says.
    fn run_line<K: Sink>(&mut self, out: &mut K) -> Result<(), Stop>
        ensures goes { (ls : List (List ℕ)) → Goes result
            (K.written out.old) (lines_come self.old (self.old.line.items ∷ ls))
            (K.written out.new) (lines_behind self.new ls) }
        ensures number { self.new.number ≡ self.old.number }
        ensures room { OnOk result (events_left self.new < events_left self.old) }
        ensures failed { result ≡ Err Stop.Failed → Rose (K.faults out.old) (K.faults out.new) }
        ensures grows { K.faults out.old ≤ K.faults out.new }
    {
        let mut event = Event::Again { slot: 0 };
        match read_event_line_into(self.line.as_slice(), &mut event) {
            None => Err(self.stop_at_line(out)),
            Some(LineKind::Event) => self.run_event(event, out),
            Some(LineKind::Input { line, bytes }) => {
                let input = bytes.as_slice();
                self.run_input(line, input, out)
            }
        }
    }

    /// Ends the run at a bad line.
    fn stop_at_line<K: Sink>(&self, out: &mut K) -> Stop
        ensures goes { (more : Output) → Goes (Err result)
            (K.written out.old) (behind self.now.output.items (text_end (Some self.now.number))) (K.written out.new) more }
        ensures failed { result ≡ Stop.Failed → Rose (K.faults out.old) (K.faults out.new) }
        ensures grows { K.faults out.old ≤ K.faults out.new }
    {
        match self.write_last(bad_line(self.number).as_slice(), out) {
            Ok(()) => Stop::BadLine,
            Err(Failed) => Stop::Failed,
        }
    }

    /// Runs the line that has come to its end.
    fn end_line<K: Sink>(&mut self, out: &mut K) -> Result<(), Stop>
        ensures goes { (ls : List (List ℕ)) → Goes result
            (K.written out.old) (lines_come self.old (self.old.line.items ∷ ls))
            (K.written out.new) (lines_come self.new ls) }
        ensures line { OnOk result (self.new.line.items ≡ []) }
        ensures room { OnOk result (events_left self.new < events_left self.old) }
        ensures failed { result ≡ Err Stop.Failed → Rose (K.faults out.old) (K.faults out.new) }
        ensures grows { K.faults out.old ≤ K.faults out.new }
    {
        self.run_line(out)?;
        self.line.clear();
        self.number += 1;
        Ok(())
    }

    /// Takes the next byte of the text.
    fn feed<K: Sink>(&mut self, byte: u8, out: &mut K) -> Result<(), Stop>
        ensures goes { (text : List ℕ) → Goes result
            (K.written out.old) (to_come self.old (byte ∷ text))
            (K.written out.new) (to_come self.new text) }
        ensures nearer { OnOk result (budget self.new < budget self.old) }
        ensures failed { result ≡ Err Stop.Failed → Rose (K.faults out.old) (K.faults out.new) }
        ensures grows { K.faults out.old ≤ K.faults out.new }
    {
        if byte == b'\n' {
            return self.end_line(out);
        }
        if self.line.is_full() {
            return Err(self.stop_at_line(out));
        }
        self.line.push(byte);
        Ok(())
    }

    /// Takes bytes that begin a line, or go on with one.
    fn feed_bytes<K: Sink>(&mut self, bytes: &[u8], out: &mut K) -> Result<(), Stop>
        ensures goes { (text : List ℕ) → Goes result
            (K.written out.old) (to_come self.old (bytes.now ++ text))
            (K.written out.new) (to_come self.new text) }
        ensures nearer { OnOk result (budget self.new + length bytes.now ≤ budget self.old) }
        ensures failed { result ≡ Err Stop.Failed → Rose (K.faults out.old) (K.faults out.new) }
        ensures grows { K.faults out.old ≤ K.faults out.new }
    {
        for byte in bytes {
            self.feed(*byte, out)?;
        }
        Ok(())
    }

    /// Takes the bytes of a line up to its newline, and that.
    fn feed_line<K: Sink>(&mut self, line: &[u8], out: &mut K) -> Result<(), Stop>
        requires { IsTrue (is_one_line line.now) }
        ensures goes { (text : List ℕ) → Goes result
            (K.written out.old) (to_come self.old (line.now ++ 10 ∷ text))
            (K.written out.new) (to_come self.new text) }
        ensures nearer { OnOk result (budget self.new + length line.now + 1 ≤ budget self.old) }
        ensures failed { result ≡ Err Stop.Failed → Rose (K.faults out.old) (K.faults out.new) }
        ensures grows { K.faults out.old ≤ K.faults out.new }
    {
        if self.line.remaining_capacity() < line.len() {
            return Err(self.stop_at_line(out));
        }
        push_bytes(&mut self.line, line);
        self.feed(b'\n', out)
    }

    /// Takes the next bytes of the text, and writes all answers to them.
    fn feed_all<K: Sink>(&mut self, bytes: &[u8], out: &mut K) -> Result<(), Stop>
        ensures goes { (text : List ℕ) → Goes result
            (K.written out.old) (to_come self.old (bytes.now ++ text))
            (K.written out.new) (to_come self.new text) }
        ensures nearer { OnOk result (budget self.new + length bytes.now ≤ budget self.old) }
        ensures failed { result ≡ Err Stop.Failed → Rose (K.faults out.old) (K.faults out.new) }
        ensures grows { K.faults out.old ≤ K.faults out.new }
    {
        let mut rest = bytes;
        while let Some((line, more)) = cut_line(rest) {
            self.feed_line(line, out)?;
            rest = more;
        }
        self.feed_bytes(rest, out)?;
        self.flush(out)
    }

    /// Ends the text, of which the last line may lack the newline, and writes all answers that are gathered.
    fn finish<K: Sink>(&mut self, out: &mut K) -> Result<(), Stop>
        ensures goes { Goes result
            (K.written out.old) (to_come self.old []) (K.written out.new) (status_alone 0) }
        ensures failed { result ≡ Err Stop.Failed → Rose (K.faults out.old) (K.faults out.new) }
        ensures grows { K.faults out.old ≤ K.faults out.new }
    {
        if self.line.is_empty() {
            return self.flush(out);
        }
        self.end_line(out)?;
        self.flush(out)
    }

    /// Takes all of a source, and ends the run. All answers to what was read are written before the next read.
    pub fn run_source<S: Source, K: Sink>(mut self, src: &mut S, out: &mut K) -> Status
        ensures writes { (text : List ℕ) → S.left src.old ≡ Some text →
            Writes result (to_come self text) (K.written out.old) (K.written out.new) }
        ensures all { (text : List ℕ) → S.left src.old ≡ Some text → result ≡ Status.Done → S.left src.new ≡ Some [] }
        ensures read_fault { result ≡ Status.ReadFault → Rose (S.faults src.old) (S.faults src.new) }
        ensures write_fault { result ≡ Status.WriteFault → Rose (K.faults out.old) (K.faults out.new) }
        ensures others { IsScriptStatus result }
    {
        let mut buffer = [0; READ_BYTES];
        loop {
            let Ok(count) = src.read(&mut buffer) else {
                return Status::ReadFault;
            };
            if count == 0 {
                break;
            }
            if let Err(stop) = self.feed_all(&buffer[..count], out) {
                return stop.status();
            }
        }
        match self.finish(out) {
            Ok(()) => Status::Done,
            Err(stop) => stop.status(),
        }
    }
}
