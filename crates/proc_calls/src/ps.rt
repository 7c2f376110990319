//! ps(1).
ghost use Rattle.std.specs.Prelude.{◌≡◌, ◌+◌, ◌*◌, ◌≤◌, ◌++◌, All, [], length};
ghost use Rattle.arrayvec.specs.ArrayVec.{array_vec_len};
ghost use Rattle.proc_calls.specs.PsTexts.{text_at, texts_after, texts_of};
ghost use Rattle.proc_table.specs.Listing.{state_word, process_text};
ghost use Rattle.proc_table.specs.Procs.{process_of};
ghost use Rattle.system_model.specs.Fit.{IsCaller};
ghost use Rattle.system_model.specs.ProcCalls.{ps_row};
ghost use Rattle.system_model.specs.Rows.{Does};
ghost use Rattle.system_model.specs.Tables.{Tables, view_of};

use crate::ident::{Text, push_part};
use arrayvec::ArrayVec;
use call_words::{Decision, TEXT_BYTES, TextBuf, push_bytes, push_number};
use proc_table::{Proc, ProcTable};
use sys_types::SLOTS;
use system_model::caller;

/// How many bytes are told of a process at most: five numbers of ten, words of six and seven, and six colons.
const PROCESS_BYTES: usize = 69;

/// What a process of a slot does: `zombie`, where it has ended; `stop`, where it is stopped; `sleep`, where a call is pending; else `run`.
fn state_word(procs: &ProcTable, slot: u8, who: &Proc) -> &'static [u8]
    ensures word { result.now ≡ state_word procs.now (slot, process_of who.now) }
    ensures most { length result.now ≤ 6 }
{
    if !who.is_running() {
        return b"zombie";
    }
    if who.is_stopped() {
        return b"stop";
    }
    if procs.pending(slot).is_some() {
        return b"sleep";
    }
    b"run"
}

/// Adds what is told of a process of a slot.
fn push_process(out: &mut Text, procs: &ProcTable, slot: u8, who: &Proc)
    requires { array_vec_len out.old + PROCESS_BYTES ≤ TEXT_BYTES }
    ensures bytes { out.new.items ≡ out.old.items ++ process_text procs.now (slot, process_of who.now) }
    ensures len { array_vec_len out.new ≤ array_vec_len out.old + PROCESS_BYTES }
{
    push_number(out, who.pid);
    push_part(out, who.parent);
    push_part(out, who.group);
    push_part(out, who.session);
    push_part(out, who.cred.uid);
    push_bytes(out, b":");
    push_bytes(out, state_word(procs, slot, who));
    push_bytes(out, b":");
    push_bytes(out, who.image.name().as_bytes());
}

/// Adds what is told of the process of a slot, if it has one.
fn push_slot(out: &mut Text, procs: &ProcTable, slot: u8)
    requires { array_vec_len out.old + PROCESS_BYTES ≤ TEXT_BYTES }
    ensures bytes { out.new.items ≡ out.old.items ++ text_at procs.now slot }
    ensures len { array_vec_len out.new ≤ array_vec_len out.old + PROCESS_BYTES }
    ensures most { length (text_at procs.now slot) ≤ PROCESS_BYTES }
{
    let Some(who) = procs.get(slot) else {
        return;
    };
    push_process(out, procs, slot, who);
}

/// Adds what is told of the processes of slots, each after a slash.
fn push_others(out: &mut Text, procs: &ProcTable, slots: &[u8])
    requires { array_vec_len out.old + (PROCESS_BYTES + 1) * length slots.now ≤ TEXT_BYTES }
    ensures bytes { out.new.items ≡ out.old.items ++ texts_after procs.now slots.now }
    ensures most { All (λ slot. length (text_at procs.now slot) ≤ PROCESS_BYTES) slots.now }
{
    for slot in slots {
        push_bytes(out, b"/");
        push_slot(out, procs, *slot);
    }
}

/// What is told of the processes of at most 32 slots, with a slash between.
fn texts(procs: &ProcTable, slots: &[u8]) -> TextBuf
    requires { length slots.now ≤ SLOTS }
    ensures text { result ≡ texts_of procs.now slots.now }
    ensures most { All (λ slot. length (text_at procs.now slot) ≤ PROCESS_BYTES) slots.now }
{
    let mut out = ArrayVec::new();
    if let Some((first, others)) = slots.split_first() {
        push_slot(&mut out, procs, *first);
        push_others(&mut out, procs, others);
    }
    TextBuf::from_slice(out.as_slice()).unwrap()
}

/// The processes that the caller sees, zombies too, in rising order of their pids (ps(1)): answers a text of them with a `/` between, each as
/// `PID:PARENT:GROUP:SESSION:UID:STATE:PROGRAM`. STATE is `zombie`, `stop`, `sleep` or `run`. The caller sees those whose active element its
/// own dominates.
pub fn do_ps(procs: &ProcTable, slot: u8) -> Decision
    requires caller { IsCaller procs.now slot }
    ensures does { (t : Tables) → t.processes ≡ procs.now → Does (view_of t) (view_of t) result (ps_row (view_of t) slot) }
{
    let slots = procs.slots_seen(caller(procs, slot));
    Decision::text(texts(procs, slots.as_slice()))
}
