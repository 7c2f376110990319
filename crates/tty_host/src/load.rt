//! The run of a generated load, and its summary.
ghost use Rattle.std.specs.Prelude.{◌≡◌, ◌+◌, ◌<◌, ◌≤◌, [], ◌∷◌, ◌++◌, length, codes, IfOk, OnOk};
ghost use Rattle.std.specs.Fmt.{decimal};
ghost use Rattle.arrayvec.specs.ArrayVec.{array_vec_len};
ghost use Rattle.hex.specs.Hex.{encode_lower};
ghost use Rattle.sys_types.specs.declared.limits.TheConstants.{TRAIL_EVENTS, PIECE_BYTES};
ghost use Rattle.call_words.specs.Events.{MayBeUsed};
ghost use Rattle.script_model.specs.Load.{standard_boot, is_denied, is_sleep, bytes_moved, LOAD_EVENTS, load_out, summary_line, summary};
ghost use Rattle.tty_host.specs.Loads.{AreFew, with_decision, IsSummed};

use call_words::{Decision, Event, Reply, Wakes, push_bytes, push_number};
use kern_core::{Kernel, NoMemory, boot_trail};
use script_text::{ANSWER_BYTES, AnswerLine, Load, print_answer};
use sha2::{Digest, Sha256};
use std::alloc::Global;
use sys_types::LINES;
use trail_core::Recorded;
use user_db::{Boot, Users};

/// How many bytes a digest has (FIPS 180-4).
const DIGEST_BYTES: usize = 32;

/// The boot that an empty boot text says.
fn standard_boot(alloc: Global) -> Boot
    ensures { result ≡ standard_boot }
{
    Boot {
        recheck: false,
        users: Users::new(alloc),
        on: [false; LINES],
    }
}

/// Whether an event is denied.
fn is_denied(decision: &Decision) -> bool
    ensures { result ≡ is_denied decision.now }
{
    matches!(decision, Decision::Answer(Reply::Denied(_)))
}

/// Whether an event sleeps.
fn is_sleep(decision: &Decision) -> bool
    ensures { result ≡ is_sleep decision.now }
{
    matches!(decision, Decision::Sleep(_))
}

/// How many bytes an event gives, at most 512.
fn bytes_moved(decision: &Decision) -> u32
    ensures moved { result ≡ bytes_moved decision.now }
    ensures most { result ≤ PIECE_BYTES }
{
    match decision {
        Decision::Answer(Reply::Bytes(bytes)) | Decision::Taken(bytes) => bytes.len() as u32,
        _ => 0,
    }
}

/// What is counted of events.
#[derive(Clone, Copy)]
pub struct Counts {
    /// How many events were denied.
    pub denied: u32,
    /// How many slept.
    pub slept: u32,
    /// How many bytes reads and takes gave.
    pub moved: u32,
}

impl Counts {
    /// Counts an event more.
    fn add(&mut self, decision: &Decision)
        requires { AreFew self.old }
        ensures counts { self.new ≡ with_decision self.old decision.now }
        ensures most { self.new.moved ≤ self.old.moved + PIECE_BYTES }
    {
        self.denied += u32::from(is_denied(decision));
        self.slept += u32::from(is_sleep(decision));
        self.moved += bytes_moved(decision);
    }
}

/// A load that runs: the kernel with the trail of its events, what is counted of them, the digest
/// of their answer lines, and the room in which these are printed.
#[derive(Drop)]
pub struct LoadRun {
    pub trail: Recorded<Kernel>,
    pub counts: Counts,
    pub digest: Sha256,
    pub answer: AnswerLine,
}

/// Adds a line of the summary with a number.
fn push_count(out: &mut AnswerLine, name: &[u8], number: u32)
    requires { array_vec_len out.old + length name.now + 12 ≤ ANSWER_BYTES }
    ensures bytes { out.new.items ≡ out.old.items ++ summary_line name.now (decimal number) }
    ensures len { array_vec_len out.new ≤ array_vec_len out.old + length name.now + 12 }
{
    push_bytes(out, name);
    push_bytes(out, b" ");
    push_number(out, number);
    push_bytes(out, b"\n");
}

/// Adds the line of the summary with the digest, in hex.
fn push_digest(out: &mut AnswerLine, digest: &[u8; DIGEST_BYTES])
    requires { array_vec_len out.old + 72 ≤ ANSWER_BYTES }
    ensures { out.new.items ≡ out.old.items ++ summary_line (codes "digest") (encode_lower digest.now) }
{
    let mut text = [0; 2 * DIGEST_BYTES];
    let _ = hex::encode_to_slice(digest, &mut text);
    push_bytes(out, b"digest ");
    push_bytes(out, &text);
    push_bytes(out, b"\n");
}

impl LoadRun {
    /// A run over the boot that an empty boot text says, before its first event.
    fn new(alloc: Global) -> Result<Self, NoMemory>
        ensures summed { IfOk result IsSummed }
        ensures events { IfOk result (λ run. run.trail.events ≡ []) }
    {
        let trail = boot_trail(alloc, standard_boot(alloc))?;
        Ok(LoadRun {
            trail,
            counts: Counts {
                denied: 0,
                slept: 0,
                moved: 0,
            },
            digest: Sha256::new(),
            answer: AnswerLine::new(),
        })
    }

    /// Runs an event more.
    fn run_event(&mut self, event: Event) -> Result<(), NoMemory>
        requires used { MayBeUsed event }
        requires summed { IsSummed self.old }
        requires room { length self.old.trail.events < TRAIL_EVENTS }
        ensures summed { OnOk result (IsSummed self.new) }
        ensures events { OnOk result (self.new.trail.events ≡ self.old.trail.events ++ event ∷ []) }
    {
        let mut wakes = Wakes::none();
        let Ok(decision) = self.trail.apply(event, &mut wakes) else {
            return Err(NoMemory);
        };
        self.counts.add(&decision);
        self.answer.clear();
        let events = self.trail.events();
        print_answer(
            &events[events.len() - 1],
            &decision,
            &wakes,
            &mut self.answer,
        );
        self.digest.update(self.answer.as_slice());
        Ok(())
    }

    /// The five lines of the summary.
    fn summary(self) -> AnswerLine
        requires { IsSummed self }
        ensures { result.items ≡ summary standard_boot self.trail.events }
    {
        let mut out = AnswerLine::new();
        push_count(&mut out, b"events", self.trail.len());
        push_count(&mut out, b"denied", self.counts.denied);
        push_count(&mut out, b"slept", self.counts.slept);
        push_count(&mut out, b"moved", self.counts.moved);
        push_digest(&mut out, &self.digest.finalize());
        out
    }
}

/// The summary of the load of `n` drawn events, at most 262,140, from the generator's state `start`.
/// `NoMemory`, where memory runs out, is the only error.
pub fn run_load(alloc: Global, n: u32, start: u64) -> Result<AnswerLine, NoMemory>
    requires { n ≤ LOAD_EVENTS }
    ensures { IfOk result (λ text. text.items ≡ load_out n start) }
{
    let mut run = LoadRun::new(alloc)?;
    let mut load = Load::new(n, start);
    while let Some(event) = load.next() {
        run.run_event(event)?;
    }
    Ok(run.summary())
}
