//! A source and a sink in memory, which tell what they hold, each with a list of the calls that
//! are to fail.
ghost use Rattle.std.specs.Prelude.{◌≡◌, ℕ, ◌+◌, ◌-◌, ◌<◌, ◌≤◌, ◌↔◌, min, List, [], ◌++◌, length, take, drop, Some, IfOk, OnOk, OnErr, IsErr, Contains, ◌⊎◌};
ghost use Rattle.edge_io.specs.Outside.{Rose, Gave, Appended, count_after};

use crate::outside::{Failed, Sink, Source};
use std::alloc::{AllocError, Global};
use std::marker::Model;

/// Bytes in memory, to be read.
#[derive(Drop)]
pub struct MemSource {
    bytes: Vec<u8>,
    at: usize,
    calls: u64,
    failing: Vec<u64>,
    faults: u64,
}

impl Model for MemSource {
    ghost use Rattle.std.specs.Prelude.{◌≤◌, drop, vec_len};
    ghost use Rattle.edge_io.specs.Memory.{SourceState};

    ghost Value = { SourceState };

    ghost view = { λ s. record { left = drop s.at s.bytes.items; calls = s.calls; failing = s.failing.items; faults = s.faults } };

    ghost invariant = { λ s. s.at ≤ vec_len s.bytes };
}

impl MemSource {
    /// A source of these bytes, of which the calls with these numbers fail. The first call has
    /// number 1.
    pub fn new(bytes: Vec<u8>, failing: Vec<u64>) -> Self
        ensures { result ≡ record { left = bytes.items; calls = 0; failing = failing.items; faults = 0 } }
    {
        MemSource {
            bytes,
            at: 0,
            calls: 0,
            failing,
            faults: 0,
        }
    }
}

impl Source for MemSource {
    ghost faults = { λ s. s.faults };

    ghost left = { λ s. Some s.left };

    /// Reads as much as there is and fits. Fails exactly where this call's number is listed.
    fn read(&mut self, into: &mut [u8]) -> Result<usize, Failed>
        requires { 0 < length into.old }
        ensures within { IfOk result (λ n. n ≤ length into.old) }
        ensures gave { IfOk result (λ n. Gave (Some self.old.left) (Some self.new.left) into.new n) }
        ensures failed { OnErr result (Rose self.old.faults self.new.faults) }
        ensures kept { OnErr result (Some self.new.left ≡ Some self.old.left) }
        ensures no_fault { OnOk result (self.new.faults ≡ self.old.faults) }
        ensures grows { self.old.faults ≤ self.new.faults }

        ensures count { IfOk result (λ n. n ≡ min (length self.old.left) (length into.old)) }
        ensures calls { self.new.calls ≡ count_after self.old.calls 1 }
        ensures listed { IsErr result ↔ Contains self.old.failing self.new.calls }
        ensures fault { OnErr result (self.new.faults ≡ count_after self.old.faults 1) }
        ensures same_list { self.new.failing ≡ self.old.failing }
    {
        self.calls = self.calls.saturating_add(1);
        if self.failing.contains(&self.calls) {
            return Err(Failed::count_in(&mut self.faults));
        }
        let (_, rest) = self.bytes.as_slice().split_at(self.at);
        let count = rest.len().min(into.len());
        let (front, _) = rest.split_at(count);
        into[..count].copy_from_slice(front);
        self.at += count;
        Ok(count)
    }
}

/// Memory to be written to.
#[derive(Drop)]
pub struct MemSink {
    bytes: Vec<u8>,
    room: usize,
    calls: u64,
    failing: Vec<u64>,
    faults: u64,
}

impl Model for MemSink {
    ghost use Rattle.std.specs.Prelude.{◌+◌, ◌≤◌, vec_len, vec_capacity};
    ghost use Rattle.edge_io.specs.Memory.{SinkState};

    ghost Value = { SinkState };

    ghost view = { λ s. record { written = s.bytes.items; room = s.room; calls = s.calls; failing = s.failing.items; faults = s.faults } };

    ghost invariant = { λ s. vec_len s.bytes + s.room ≤ vec_capacity s.bytes };
}

impl MemSink {
    /// A sink that takes `room` bytes in all, for which it reserves the memory, and of which the
    /// calls with these numbers fail. The first call has number 1.
    pub fn new(alloc: Global, room: usize, failing: Vec<u64>) -> Result<Self, AllocError>
        ensures { IfOk result (λ sink. sink ≡ record { written = []; room = room; calls = 0; failing = failing.items; faults = 0 }) }
    {
        Ok(MemSink {
            bytes: Vec::with_capacity(alloc, room)?,
            room,
            calls: 0,
            failing,
            faults: 0,
        })
    }

    /// What was written.
    pub fn written(&self) -> &[u8]
        ensures { result.now ≡ self.now.written }
    {
        self.bytes.as_slice()
    }
}

impl Sink for MemSink {
    ghost faults = { λ s. s.faults };

    ghost written = { λ s. Some s.written };

    /// Takes what fits. Fails exactly where this call's number is listed or no room is left.
    fn write(&mut self, from: &[u8]) -> Result<usize, Failed>
        requires { 0 < length from.now }
        ensures some { IfOk result (λ n. 0 < n) }
        ensures within { IfOk result (λ n. n ≤ length from.now) }
        ensures took { IfOk result (λ n. Appended (Some self.old.written) (Some self.new.written) (take n from.now)) }
        ensures failed { OnErr result (Rose self.old.faults self.new.faults) }
        ensures kept { OnErr result (Some self.new.written ≡ Some self.old.written) }
        ensures no_fault { OnOk result (self.new.faults ≡ self.old.faults) }
        ensures grows { self.old.faults ≤ self.new.faults }

        ensures count { IfOk result (λ n. n ≡ min (length from.now) self.old.room) }
        ensures room { IfOk result (λ n. self.new.room + n ≡ self.old.room) }
        ensures same_room { OnErr result (self.new.room ≡ self.old.room) }
        ensures calls { self.new.calls ≡ count_after self.old.calls 1 }
        ensures refused { IsErr result ↔ (Contains self.old.failing self.new.calls ⊎ (self.old.room ≡ 0)) }
        ensures fault { OnErr result (self.new.faults ≡ count_after self.old.faults 1) }
        ensures same_list { self.new.failing ≡ self.old.failing }
    {
        self.calls = self.calls.saturating_add(1);
        if self.room == 0 || self.failing.contains(&self.calls) {
            return Err(Failed::count_in(&mut self.faults));
        }
        let count = from.len().min(self.room);
        self.bytes.extend_from_slice(&from[..count]).unwrap();
        self.room -= count;
        Ok(count)
    }
}
