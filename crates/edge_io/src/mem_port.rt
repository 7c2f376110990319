//! A port in memory, which tells what was heard and sent, with lists of the calls that are to fail.
ghost use Rattle.std.specs.Prelude.{◌≡◌, ℕ, ◌+◌, ◌-◌, ◌<◌, ◌≤◌, ◌↔◌, ◌⊎◌, min, List, [], ◌++◌, length, take, drop};
ghost use Rattle.std.specs.Prelude.{Some, IfOk, OnOk, OnErr, IsErr, Contains};
ghost use Rattle.edge_io.specs.Outside.{Rose, Appended, count_after};
ghost use Rattle.edge_io.specs.Port.{FitsRoom, inputs, end_count_after};
ghost use Rattle.edge_io.specs.PortMemory.{inputs_of, bytes_of, heard_of, next_heard, is_through, left_after, offset_after};

use crate::outside::Failed;
use crate::port::{Heard, LinePort};
use std::alloc::{AllocError, Global};
use std::marker::Model;
use std::sync::Wait;

/// What a port in memory is to answer.
#[derive(Debug, Drop)]
pub enum Answer {
    /// The wait comes to an end, and nothing is heard.
    Quiet,
    /// The carrier comes up.
    Up,
    /// These bytes come, by one wait after another where they pass its room. Where there are none, nothing is heard.
    Bytes(Vec<u8>),
    /// The carrier goes down.
    Down,
    /// Ended is answered.
    Ended,
}

impl Answer {
    /// Its bytes.
    fn bytes(&self) -> &[u8]
        ensures { result.now ≡ bytes_of self.now }
    {
        match self {
            Answer::Bytes(bytes) => bytes.as_slice(),
            Answer::Quiet | Answer::Up | Answer::Down | Answer::Ended => &[],
        }
    }

    /// What a wait says of it, where `offset` of its bytes were handed out before. Its next bytes are put at the front
    /// of `into`.
    fn hear(&self, offset: usize, into: &mut [u8]) -> Heard
        requires room { 0 < length into.old }
        requires within { offset ≤ length (bytes_of self.now) }
        ensures heard { result ≡ heard_of self.now offset (length into.old) }
        ensures fits { FitsRoom result (length into.old) }
        ensures inputs { inputs result into.new ≡ take (length into.old) (drop offset (inputs_of self.now)) }
    {
        match self {
            Answer::Quiet => Heard::Quiet,
            Answer::Up => Heard::Up,
            Answer::Bytes(bytes) => {
                let (_, rest) = bytes.as_slice().split_at(offset);
                let count = rest.len().min(into.len());
                let (front, _) = rest.split_at(count);
                into[..count].copy_from_slice(front);
                if count == 0 {
                    return Heard::Quiet;
                }
                Heard::Bytes(count)
            }
            Answer::Down => Heard::Down,
            Answer::Ended => Heard::Ended,
        }
    }
}

/// Counts one answer more where it is Ended.
fn count_end(end_count: &mut u64, heard: Heard)
    ensures { end_count.new ≡ end_count_after heard end_count.old }
{
    if heard == Heard::Ended {
        *end_count = end_count.saturating_add(1);
    }
}

/// A port in memory.
#[derive(Drop)]
pub struct MemPort {
    answers: Vec<Answer>,
    /// How many answers are through, and how many bytes of the next one were handed out.
    at: usize,
    offset: usize,
    end_count: u64,
    waits: u64,
    failing_waits: Vec<u64>,
    sent: Vec<u8>,
    room: usize,
    sends: u64,
    failing_sends: Vec<u64>,
    faults: u64,
}

impl Model for MemPort {
    ghost use Rattle.std.specs.Prelude.{◌+◌, ◌≤◌, length, drop, vec_len, vec_capacity};
    ghost use Rattle.edge_io.specs.PortMemory.{PortState, came_in, front_bytes};

    ghost Value = { PortState };

    ghost view = { λ p. record {
      heard = came_in p.answers.items p.at p.offset;
      left = drop p.at p.answers.items;
      offset = p.offset;
      end_count = p.end_count;
      waits = p.waits;
      failing_waits = p.failing_waits.items;
      sent = p.sent.items;
      room = p.room;
      sends = p.sends;
      failing_sends = p.failing_sends.items;
      faults = p.faults;
    } };

    // The answers that are through are among all, no more bytes of the next one were handed out than it has, and what
    // may still be sent has its memory.
    ghost invariant = { λ p.
        (p.at ≤ vec_len p.answers)
        × (p.offset ≤ length (front_bytes (drop p.at p.answers.items)))
        × (vec_len p.sent + p.room ≤ vec_capacity p.sent) };
}

impl MemPort {
    /// A port whose waits give these answers, and Ended where they are through, which takes `room` bytes in all, for
    /// which it reserves the memory, and of whose calls of `wait` and of `send` those with these numbers fail. The
    /// first wait and the first send have number 1. Fails for want of memory alone.
    pub fn new(
        alloc: Global,
        answers: Vec<Answer>,
        room: usize,
        failing_waits: Vec<u64>,
        failing_sends: Vec<u64>,
    ) -> Result<Self, AllocError>
        ensures { IfOk result (λ port. port ≡ record {
          heard = [];
          left = answers.items;
          offset = 0;
          end_count = 0;
          waits = 0;
          failing_waits = failing_waits.items;
          sent = [];
          room = room;
          sends = 0;
          failing_sends = failing_sends.items;
          faults = 0;
        }) }
    {
        Ok(MemPort {
            answers,
            at: 0,
            offset: 0,
            end_count: 0,
            waits: 0,
            failing_waits,
            sent: Vec::with_capacity(alloc, room)?,
            room,
            sends: 0,
            failing_sends,
            faults: 0,
        })
    }

    /// What was sent.
    pub fn sent(&self) -> &[u8]
        ensures { result.now ≡ self.now.sent }
    {
        self.sent.as_slice()
    }

    /// How often Ended was answered.
    pub fn end_count(&self) -> u64
        ensures { result ≡ self.now.end_count }
    {
        self.end_count
    }
}

impl LinePort for MemPort {
    ghost faults = { λ p. p.faults };

    ghost heard = { λ p. Some p.heard };

    ghost sent = { λ p. Some p.sent };

    ghost end_count = { λ p. p.end_count };

    /// Gives the next answer, or as many of its bytes as fit. Fails exactly where this call's number is listed.
    fn wait<R: Wait>(&mut self, _rt: &R, into: &mut [u8]) -> Result<Heard, Failed>
        requires { 0 < length into.old }
        ensures fits { IfOk result (λ h. FitsRoom h (length into.old)) }
        ensures heard { IfOk result (λ h. Appended (Some self.old.heard) (Some self.new.heard) (inputs h into.new)) }
        ensures end { IfOk result (λ h. self.new.end_count ≡ end_count_after h self.old.end_count) }
        ensures same_sent { Some self.new.sent ≡ Some self.old.sent }
        ensures failed { OnErr result (Rose self.old.faults self.new.faults) }
        ensures kept { OnErr result (Some self.new.heard ≡ Some self.old.heard) }
        ensures same_end { OnErr result (self.new.end_count ≡ self.old.end_count) }
        ensures no_fault { OnOk result (self.new.faults ≡ self.old.faults) }
        ensures grows { self.old.faults ≤ self.new.faults }

        ensures answer { IfOk result (λ h. h ≡ next_heard self.old.left self.old.offset (length into.old)) }
        ensures left { OnOk result (self.new.left ≡ left_after self.old.left self.old.offset (length into.old)) }
        ensures offset { OnOk result (self.new.offset ≡ offset_after self.old.left self.old.offset (length into.old)) }
        ensures same_left { OnErr result ((self.new.left ≡ self.old.left) × (self.new.offset ≡ self.old.offset)) }
        ensures calls { (self.new.waits ≡ count_after self.old.waits 1) × (self.new.sends ≡ self.old.sends) }
        ensures listed { IsErr result ↔ Contains self.old.failing_waits self.new.waits }
        ensures fault { OnErr result (self.new.faults ≡ count_after self.old.faults 1) }
        ensures same_lists { (self.new.failing_waits ≡ self.old.failing_waits) × (self.new.failing_sends ≡ self.old.failing_sends) }
        ensures same_room { self.new.room ≡ self.old.room }
    {
        self.waits = self.waits.saturating_add(1);
        if self.failing_waits.contains(&self.waits) {
            return Err(Failed::count_in(&mut self.faults));
        }
        let Some(answer) = self.answers.get(self.at) else {
            count_end(&mut self.end_count, Heard::Ended);
            return Ok(Heard::Ended);
        };
        let heard = answer.hear(self.offset, into);
        count_end(&mut self.end_count, heard);
        let left = answer.bytes().len() - self.offset;
        if into.len() < left {
            self.offset += into.len();
            return Ok(heard);
        }
        self.at += 1;
        self.offset = 0;
        Ok(heard)
    }

    /// Takes what fits. Fails exactly where this call's number is listed or no room is left.
    fn send<R: Wait>(&mut self, _rt: &R, from: &[u8]) -> Result<usize, Failed>
        requires { 0 < length from.now }
        ensures some { IfOk result (λ n. 0 < n) }
        ensures within { IfOk result (λ n. n ≤ length from.now) }
        ensures took { IfOk result (λ n. Appended (Some self.old.sent) (Some self.new.sent) (take n from.now)) }
        ensures same_heard { Some self.new.heard ≡ Some self.old.heard }
        ensures same_end { self.new.end_count ≡ self.old.end_count }
        ensures failed { OnErr result (Rose self.old.faults self.new.faults) }
        ensures kept { OnErr result (Some self.new.sent ≡ Some self.old.sent) }
        ensures no_fault { OnOk result (self.new.faults ≡ self.old.faults) }
        ensures grows { self.old.faults ≤ self.new.faults }

        ensures count { IfOk result (λ n. n ≡ min (length from.now) self.old.room) }
        ensures room { IfOk result (λ n. self.new.room + n ≡ self.old.room) }
        ensures same_room { OnErr result (self.new.room ≡ self.old.room) }
        ensures same_left { (self.new.left ≡ self.old.left) × (self.new.offset ≡ self.old.offset) }
        ensures calls { (self.new.sends ≡ count_after self.old.sends 1) × (self.new.waits ≡ self.old.waits) }
        ensures refused { IsErr result ↔ (Contains self.old.failing_sends self.new.sends ⊎ (self.old.room ≡ 0)) }
        ensures fault { OnErr result (self.new.faults ≡ count_after self.old.faults 1) }
        ensures same_lists { (self.new.failing_waits ≡ self.old.failing_waits) × (self.new.failing_sends ≡ self.old.failing_sends) }
    {
        self.sends = self.sends.saturating_add(1);
        if self.room == 0 || self.failing_sends.contains(&self.sends) {
            return Err(Failed::count_in(&mut self.faults));
        }
        let count = from.len().min(self.room);
        self.sent.extend_from_slice(&from[..count]).unwrap();
        self.room -= count;
        Ok(count)
    }
}
