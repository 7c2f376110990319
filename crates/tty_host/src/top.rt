//! The top calls.
ghost use Rattle.std.specs.Prelude.{◌≡◌, ℕ, ◌≤◌, List, [], map, Option, Some};
ghost use Rattle.std.specs.String.{string_bytes};
ghost use Rattle.edge_io.specs.Outside.{Rose};
ghost use Rattle.user_db.specs.Boot.{IsBoot};
ghost use Rattle.script_model.specs.Reading.{reads};
ghost use Rattle.script_model.specs.Script.{run_out};
ghost use Rattle.tty_host.specs.Ends.{IsScriptStatus, Writes};
ghost use Rattle.tty_host.specs.Uses.{source_use, sink_use};
ghost use Rattle.tty_host.specs.Tops.{RanScript, WroteLoad, WroteUsage, ReadsNothing, choice_of};
ghost use Rattle.script_model.specs.Load.{LOAD_EVENTS, load_out};

use crate::boot::{NoBoot, take_boot};
use crate::choice::{Choice, choose};
use crate::load::run_load;
use crate::print::bad_boot_line;
use crate::run::{Run, write_all};
use crate::status::Status;
use edge_io::{Failed, Sink, Source};
use kern_core::NoMemory;
use std::alloc::Global;
use user_db::Boot;

/// What `revtty` prints where its words have none of the forms.
const USAGE: &[u8] =
    b"usage: revtty script [BOOT] | session [BOOT] | load N START | serve DIR BOOT\n";

/// Runs the script of a source from a boot, which is one that some boot text gives.
fn run_script<S: Source, K: Sink>(alloc: Global, says: Boot, src: &mut S, out: &mut K) -> Status
    requires { IsBoot says }
    ensures writes { (text : List ℕ) → S.left src.old ≡ Some text →
        Writes result (run_out says (reads text)) (K.written out.old) (K.written out.new) }
    ensures all { (text : List ℕ) → S.left src.old ≡ Some text → result ≡ Status.Done → S.left src.new ≡ Some [] }
    ensures read_fault { result ≡ Status.ReadFault → Rose (S.faults src.old) (S.faults src.new) }
    ensures write_fault { result ≡ Status.WriteFault → Rose (K.faults out.old) (K.faults out.new) }
    ensures others { IsScriptStatus result }
{
    match Run::new(alloc, says) {
        Ok(run) => run.run_source(src, out),
        Err(NoMemory) => Status::Memory,
    }
}

/// Runs the script of `src`, one answer line for each event, over the boot text of `boot`,
/// which is read first.
///
/// A boot text with a bad line gives one line with its number, and status `Input`; `src` is then
/// not read. `Memory` comes only with nothing written, or at a write to a regular file that nothing denies, with all answers
/// before it written.
pub fn script_top<B: Source, S: Source, K: Sink>(
    alloc: Global,
    boot: &mut B,
    src: &mut S,
    out: &mut K,
) -> Status
    ensures { RanScript result
        (source_use B.left B.faults boot.old boot.new)
        (source_use S.left S.faults src.old src.new)
        (sink_use K.written K.faults out.old out.new) }
{
    match take_boot(alloc, boot) {
        Ok(says) => run_script(alloc, says, src, out),
        Err(NoBoot::Line(number)) => match write_all(out, bad_boot_line(number).as_slice()) {
            Ok(()) => Status::Input,
            Err(Failed) => Status::WriteFault,
        },
        Err(NoBoot::Failed) => Status::ReadFault,
        Err(NoBoot::NoMemory) => Status::Memory,
    }
}

/// Runs the load of `n` drawn events, at most 262,140, from the generator's state `start`, over the boot that an empty boot text
/// says, and writes the five lines of its summary.
///
/// `Memory` comes only with nothing written, and `WriteFault` only where the sink's count of faults rose.
pub fn load_top<K: Sink>(alloc: Global, n: u32, start: u64, out: &mut K) -> Status
    requires { n ≤ LOAD_EVENTS }
    ensures { WroteLoad result (load_out n start) (sink_use K.written K.faults out.old out.new) }
{
    let Ok(summary) = run_load(alloc, n, start) else {
        return Status::Memory;
    };
    match write_all(out, summary.as_slice()) {
        Ok(()) => Status::Done,
        Err(Failed) => Status::WriteFault,
    }
}

/// Runs the command that the words after the program's name choose: every command but `serve`.
/// Words of no form give the usage line and status 1, and nothing is read. Status 1 comes exactly there, where the sink's count
/// of faults did not rise.
pub fn plain_top<B: Source, S: Source, K: Sink>(
    alloc: Global,
    words: &[String],
    boot: &mut B,
    src: &mut S,
    out: &mut K,
) -> Status
    ensures script { (named : Option ℕ) → choice_of (map string_bytes words.now) ≡ Choice.Script named → RanScript result
        (source_use B.left B.faults boot.old boot.new)
        (source_use S.left S.faults src.old src.new)
        (sink_use K.written K.faults out.old out.new) }
    ensures load { (n start : ℕ) → choice_of (map string_bytes words.now) ≡ Choice.Load n start →
        WroteLoad result (load_out n start) (sink_use K.written K.faults out.old out.new) }
    ensures usage { choice_of (map string_bytes words.now) ≡ Choice.Usage →
        WroteUsage result (sink_use K.written K.faults out.old out.new) }
    ensures usage_alone { result ≡ Status.Usage → (choice_of (map string_bytes words.now) ≡ Choice.Usage) × (K.faults out.new ≡ K.faults out.old) }
    ensures boot_unread { ReadsNothing (choice_of (map string_bytes words.now)) → boot.new ≡ boot.old }
    ensures src_unread { ReadsNothing (choice_of (map string_bytes words.now)) → src.new ≡ src.old }
{
    match choose(words) {
        Choice::Script { .. } => script_top(alloc, boot, src, out),
        Choice::Load { n, start } => load_top(alloc, n, start, out),
        Choice::Usage => match write_all(out, USAGE) {
            Ok(()) => Status::Usage,
            Err(Failed) => Status::WriteFault,
        },
    }
}
