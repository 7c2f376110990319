//! Answers as lines.
ghost use Rattle.std.specs.Prelude.{◌≡◌, ℕ, ◌+◌, ◌-◌, ◌*◌, ◌<◌, ◌≤◌, List, [], ◌∷◌, ◌++◌, length, take, flat_map, codes};
ghost use Rattle.hex.specs.Hex.{encode_lower};
ghost use Rattle.arrayvec.specs.ArrayVec.{array_vec_len};
ghost use Rattle.sys_types.specs.declared.limits.TheConstants.{PIECE_BYTES, TEXT_BYTES};
ghost use Rattle.call_words.specs.Events.{wake_list};
ghost use Rattle.script_text.specs.Words.{hex_word};
ghost use Rattle.script_text.specs.Paths.{byte_text, text_word};
ghost use Rattle.script_text.specs.Answers.{how_text, reply_text, decision_text, asker_text, wake_text, answer_line};

use crate::push::{push_escapes, push_hex};
use arrayvec::ArrayVec;
use call_words::{Decision, Event, How, Reply, TEXT_BYTES, Wakes, push_bytes, push_number};

/// How many bytes an answer line has at most.
pub const ANSWER_BYTES: usize = 16_384;

/// How many bytes the word of a text has at most: three for each of its own.
const TEXT_ROOM: usize = 3 * TEXT_BYTES;

/// How many bytes a decision has at most in a line: the longest is `text` and a text.
const DECISION_ROOM: usize = 5 + TEXT_ROOM;

/// An answer line, in place.
pub type AnswerLine = ArrayVec<u8, ANSWER_BYTES>;

/// The bytes of a text of at most 4,096, or a dash for none.
#[tactic(auto, unfolding(crate::specs::Paths::text_word))]
fn push_text(out: &mut AnswerLine, text: &[u8])
    requires most { length text.now ≤ TEXT_BYTES }
    requires fits { array_vec_len out.old + TEXT_ROOM ≤ ANSWER_BYTES }
    ensures bytes { out.new.items ≡ out.old.items ++ text_word text.now }
    ensures len { array_vec_len out.new ≤ array_vec_len out.old + TEXT_ROOM }
{
    if text.is_empty() {
        push_bytes(out, b"-");
        return;
    }
    push_escapes(out, text);
}

/// What became of a child: its status, or the number of a signal (wait4(2)).
fn push_how(out: &mut AnswerLine, how: How)
    requires { array_vec_len out.old + 20 ≤ ANSWER_BYTES }
    ensures bytes { out.new.items ≡ out.old.items ++ how_text how }
    ensures len { array_vec_len out.new ≤ array_vec_len out.old + 20 }
{
    match how {
        How::Exit(status) => {
            push_bytes(out, b"exit ");
            push_number(out, u32::from(status));
        }
        How::Signal(sig) => {
            push_bytes(out, b"signal ");
            push_number(out, u32::from(sig.number()));
        }
        How::Stop(sig) => {
            push_bytes(out, b"stop ");
            push_number(out, u32::from(sig.number()));
        }
    }
}

fn push_reply(out: &mut AnswerLine, reply: &Reply)
    requires { array_vec_len out.old + DECISION_ROOM ≤ ANSWER_BYTES }
    ensures bytes { out.new.items ≡ out.old.items ++ reply_text reply.now }
    ensures len { array_vec_len out.new ≤ array_vec_len out.old + DECISION_ROOM }
{
    match reply {
        Reply::Num(number) => {
            push_bytes(out, b"ok ");
            push_number(out, *number);
        }
        Reply::Pair(read, write) => {
            push_bytes(out, b"pair ");
            push_number(out, u32::from(*read));
            push_bytes(out, b" ");
            push_number(out, u32::from(*write));
        }
        Reply::Child { pid, how } => {
            push_bytes(out, b"child ");
            push_number(out, *pid);
            push_bytes(out, b" ");
            push_how(out, *how);
        }
        Reply::Image { image, args } => {
            push_bytes(out, b"image ");
            push_bytes(out, image.name().as_bytes());
            push_bytes(out, b" ");
            push_hex(out, args.as_slice());
        }
        Reply::Bytes(bytes) => {
            push_bytes(out, b"bytes ");
            push_hex(out, bytes.as_slice());
        }
        Reply::Text(text) => {
            push_bytes(out, b"text ");
            push_text(out, text.as_slice());
        }
        Reply::Denied(rule) => {
            push_bytes(out, b"err ");
            push_bytes(out, rule.errno().name());
            push_bytes(out, b" ");
            push_bytes(out, rule.word());
        }
        Reply::Gone => push_bytes(out, b"gone"),
    }
}

fn push_decision(out: &mut AnswerLine, decision: &Decision)
    requires { array_vec_len out.old + DECISION_ROOM ≤ ANSWER_BYTES }
    ensures bytes { out.new.items ≡ out.old.items ++ decision_text decision.now }
    ensures len { array_vec_len out.new ≤ array_vec_len out.old + DECISION_ROOM }
{
    match decision {
        Decision::Answer(reply) => push_reply(out, reply),
        Decision::Sleep(reason) => {
            push_bytes(out, b"sleep ");
            push_bytes(out, reason.word());
        }
        Decision::Taken(bytes) => {
            push_bytes(out, b"out ");
            push_hex(out, bytes.as_slice());
        }
        Decision::Noted => push_bytes(out, b"noted"),
    }
}

fn push_asker(out: &mut AnswerLine, event: &Event)
    requires { array_vec_len out.old + 13 ≤ ANSWER_BYTES }
    ensures bytes { out.new.items ≡ out.old.items ++ asker_text event.now }
    ensures len { array_vec_len out.new ≤ array_vec_len out.old + 13 }
{
    match event {
        Event::Call { slot, .. } | Event::Again { slot } => push_number(out, u32::from(*slot)),
        Event::Byte { line, .. }
        | Event::Carrier { line, .. }
        | Event::Take { line, .. }
        | Event::Ended { line } => {
            push_bytes(out, b"tty");
            push_number(out, u32::from(*line));
        }
    }
}

/// The slots that can go on, where there are any: at most 32.
#[tactic(auto, unfolding(crate::specs::Answers::wake_text))]
fn push_wakes(out: &mut AnswerLine, slots: &[u8])
    requires most { length slots.now ≤ 32 }
    requires fits { array_vec_len out.old + 400 ≤ ANSWER_BYTES }
    ensures bytes { out.new.items ≡ out.old.items ++ wake_text slots.now }
    ensures len { array_vec_len out.new ≤ array_vec_len out.old + 400 }
{
    if slots.is_empty() {
        return;
    }
    push_bytes(out, b" wake");
    for slot in slots {
        push_bytes(out, b" ");
        push_number(out, u32::from(*slot));
    }
}

/// Writes the answer line of an event: who is answered, the decision, and who can go on.
#[tactic(auto, unfolding(crate::specs::Answers::answer_line))]
pub fn print_answer(event: &Event, decision: &Decision, wakes: &Wakes, out: &mut AnswerLine)
    requires { out.old.items ≡ [] }
    ensures { out.new.items ≡ answer_line event.now decision.now (wake_list wakes.now) }
{
    push_asker(out, event);
    push_bytes(out, b" ");
    push_decision(out, decision);
    push_wakes(out, wakes.slots.as_slice());
    push_bytes(out, b"\n");
}
