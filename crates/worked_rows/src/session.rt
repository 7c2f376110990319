//! Runs of the program over memory. This is the one place from which the top call is made.

use edge_io::{MemSink, MemSource};
use std::alloc::{AllocError, Global};
use tty_host::plain_top;

/// More bytes than any run here writes.
pub const ROOM: usize = 4_000_000;

/// The calls at which the boot source, the script and the sink fail, counted from 1, or 0 where none does.
#[derive(Clone, Copy)]
pub struct Faults {
    pub boot: u64,
    pub script: u64,
    pub sink: u64,
}

/// No call fails.
pub const NO_FAULTS: Faults = Faults {
    boot: 0,
    script: 0,
    sink: 0,
};

/// What the program is given.
#[derive(Drop)]
pub struct Session<'a> {
    /// The words of the command line after the program's name.
    pub command: &'a str,
    pub boot_text: &'a [u8],
    pub script: &'a [u8],
    pub faults: Faults,
    /// How many bytes the sink takes.
    pub room: usize,
}

/// The words of a command line, after the program's name.
fn words_of(alloc: Global, text: &str) -> Result<Vec<String>, AllocError> {
    let mut words = Vec::new(alloc);
    for word in text.split_whitespace() {
        words.push(word.to_string(alloc)?)?;
    }
    Ok(words)
}

/// A list of the call that fails, if any.
fn failing(alloc: Global, call: u64) -> Result<Vec<u64>, AllocError> {
    let mut calls = Vec::new(alloc);
    if call > 0 {
        calls.push(call)?;
    }
    Ok(calls)
}

fn source(alloc: Global, bytes: &[u8], fault: u64) -> Result<MemSource, AllocError> {
    let bytes = Vec::from_slice(alloc, bytes)?;
    Ok(MemSource::new(bytes, failing(alloc, fault)?))
}

fn sink(alloc: Global, room: usize, fault: u64) -> Result<MemSink, AllocError> {
    MemSink::new(alloc, room, failing(alloc, fault)?)
}

impl Session<'_> {
    /// Runs the program, and answers whether it writes these bytes and ends with this status.
    pub fn writes(&self, alloc: Global, answers: &[u8], status: u64) -> Result<bool, AllocError> {
        let words = words_of(alloc, self.command)?;
        let mut boot = source(alloc, self.boot_text, self.faults.boot)?;
        let mut script = source(alloc, self.script, self.faults.script)?;
        let mut out = sink(alloc, self.room, self.faults.sink)?;
        let ended = plain_top(alloc, &words, &mut boot, &mut script, &mut out);
        Ok(out.written() == answers && u64::from(ended.code()) == status)
    }
}
