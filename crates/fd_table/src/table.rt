//! The table of descriptors and open files.
ghost use Rattle.std.specs.Prelude.{◌≡◌, ℕ, ◌+◌, ◌<◌, ◌≤◌, Some, None, is_some, is_none, length, option_copied, IfOk, IsTrue};
ghost use Rattle.sys_types.specs.declared.limits.TheConstants.{SLOTS, DESCRIPTORS};
ghost use Rattle.fd_table.specs.Kept.{nothing_open};
ghost use Rattle.fd_table.specs.Opens.{at_offset, is_of};
ghost use Rattle.fd_table.specs.Shared.{file_at, descriptor_at, entry_at, free_numbers, free_entries, lowest_open, copy, fork, put, drop_number, last_file};
ghost use Rattle.fd_table.specs.Shared.{change_file, count_files, row_of, is_on_exec};
ghost use Rattle.fd_table.specs.Calls as calls;

use crate::counts::Counts;
use crate::files::Files;
use crate::open::{Descriptor, Open, Target};
use crate::rows::Rows;
pub use std::alloc::AllocError as NoMemory;
use std::alloc::Global;
use std::marker::Model;
use sys_types::{DESCRIPTORS, Rule};

/// The descriptors of 32 processes, 32 numbers each, and the at most 256 open files that they refer to.
///
/// Contracts see of it a `Shared Open`: for each slot its numbers, each with the entry to which it refers, and the open files by
/// entry. Every slot is below 32.
#[derive(Drop)]
pub struct FdTable {
    rows: Rows,
    files: Files,
    counts: Counts,
}

impl Model for FdTable {
    ghost use Rattle.fd_table.specs.declared.open.Open.{Open};
    ghost use Rattle.fd_table.specs.Shared.{Shared};
    ghost use Rattle.fd_table.specs.Kept.{IsKept, IsCounted};

    ghost Value = { Shared Open };

    ghost view = { λ t. record { table = t.rows; files = t.files } };

    ghost invariant = { λ t. IsKept {F = Open} (record { table = t.rows; files = t.files }) × IsCounted t.rows t.counts };
}

impl FdTable {
    /// A table in which nothing is open. All memory is taken here, and none later; `NoMemory`, where it runs out, is the only error.
    pub fn new(alloc: Global) -> Result<FdTable, NoMemory>
        ensures { IfOk result (λ table. table ≡ nothing_open) }
    {
        Ok(FdTable {
            rows: Rows::new(alloc)?,
            files: Files::new(alloc)?,
            counts: Counts::new(alloc)?,
        })
    }

    /// The open file of a number. `None` comes exactly where the number is not open.
    pub fn get(&self, slot: u8, fd: u8) -> Option<&Open>
        requires { slot < SLOTS }
        ensures { option_copied result ≡ file_at self.now slot fd }
    {
        let descriptor = self.rows.descriptor(slot, fd)?;
        self.files.get(descriptor.entry)
    }

    /// Whether a number of a slot is open: then it refers to an open file. A slot has 32 numbers.
    pub fn is_open(&self, slot: u8, fd: u8) -> bool
        requires { slot < SLOTS }
        ensures descriptor { result ≡ is_some (descriptor_at self.now.table slot fd) }
        ensures file { result ≡ is_some (file_at self.now slot fd) }
        ensures numbers { length (row_of self.now.table slot) ≡ DESCRIPTORS }
    {
        self.rows.descriptor(slot, fd).is_some()
    }

    /// Whether a number of a slot is open and closed at an execve(2).
    pub fn is_on_exec(&self, slot: u8, fd: u8) -> bool
        requires { slot < SLOTS }
        ensures { result ≡ is_on_exec (descriptor_at self.now.table slot fd) }
    {
        match self.rows.descriptor(slot, fd) {
            None => false,
            Some(descriptor) => descriptor.on_exec,
        }
    }

    /// How many open files there are of a target, 0 to 256.
    pub fn live(&self, target: &Target) -> u16
        ensures count { result ≡ count_files (is_of target.now) self.now }
        ensures most { result ≤ 256 }
    {
        self.files.count_of(target)
    }

    /// The first rule by which a slot may not open so many files: `FdRoom` exactly where fewer of its 32 numbers are free, else
    /// `OpenRoom` exactly where fewer of the 256 open files are.
    pub fn room_rule(&self, slot: u8, files: u8) -> Option<Rule>
        requires { slot < SLOTS }
        ensures { result ≡ calls.room_rule self.now slot files }
    {
        let files = usize::from(files);
        if self.rows.free(slot) < files {
            return Some(Rule::FdRoom);
        }
        if self.files.free() < files {
            return Some(Rule::OpenRoom);
        }
        None
    }

    /// Opens a file at the lowest free number, in the lowest free entry. There is one of each.
    fn open_lowest(&mut self, slot: u8, file: Open, on_exec: bool) -> u8
        requires slot { slot < SLOTS }
        requires number { 0 < free_numbers self.old.table slot }
        requires entry { 0 < free_entries self.old.files }
        ensures { (self.new, result) ≡ calls.open_lowest self.old slot file on_exec }
    {
        let number = self.rows.lowest_free(slot);
        let entry = self.files.lowest_free();
        self.rows
            .put(slot, number, Some(Descriptor { entry, on_exec }));
        self.files.put(entry, file);
        self.counts.raise(entry);
        number
    }

    /// Opens a file at the lowest free number, which is closed at an execve(2) where `on_exec` says so. It is refused by `FdRoom`
    /// exactly where the slot has none of its 32 numbers free, else by `OpenRoom` exactly where 256 files are open, and then
    /// nothing changes. (open(2))
    pub fn open_new(&mut self, slot: u8, file: Open, on_exec: bool) -> Result<u8, Rule>
        requires { slot < SLOTS }
        ensures { (self.new, result) ≡ calls.open_new self.old slot file on_exec }
    {
        if let Some(rule) = self.room_rule(slot, 1) {
            return Err(rule);
        }
        Ok(self.open_lowest(slot, file, on_exec))
    }

    /// Opens two files at the two lowest free numbers, in this order; neither is closed at an execve(2). It is refused by `FdRoom`
    /// exactly where fewer than two of the slot's 32 numbers are free, else by `OpenRoom` exactly where more than 254 files are
    /// open, and then nothing changes. (pipe(2))
    pub fn open_pair(&mut self, slot: u8, a: Open, b: Open) -> Result<(u8, u8), Rule>
        requires { slot < SLOTS }
        ensures { (self.new, result) ≡ calls.open_pair self.old slot a b }
    {
        if let Some(rule) = self.room_rule(slot, 2) {
            return Err(rule);
        }
        let first = self.open_lowest(slot, a, false);
        let second = self.open_lowest(slot, b, false);
        Ok((first, second))
    }

    /// Gives a free number the file of an open one, without its mark.
    fn copy(&mut self, slot: u8, from: u8, into: u8)
        requires slot { slot < SLOTS }
        requires number { into < DESCRIPTORS }
        requires closed { descriptor_at self.old.table slot into ≡ None }
        ensures { self.new ≡ copy self.old slot from into }
    {
        let Some(descriptor) = self.rows.descriptor(slot, from) else {
            return;
        };
        let copied = Descriptor {
            on_exec: false,
            ..descriptor
        };
        self.rows.put(slot, into, Some(copied));
        self.counts.raise(descriptor.entry);
    }

    /// Gives the lowest free number the open file of a number. It is refused by `BadFd` exactly where that is not open, else by
    /// `FdRoom` exactly where all of the slot's 32 numbers are open, and then nothing changes. (dup(2))
    pub fn dup(&mut self, slot: u8, fd: u8) -> Result<u8, Rule>
        requires { slot < SLOTS }
        ensures { (self.new, result) ≡ calls.dup self.old slot fd }
    {
        if self.get(slot, fd).is_none() {
            return Err(Rule::BadFd);
        }
        if self.rows.free(slot) == 0 {
            return Err(Rule::FdRoom);
        }
        let into = self.rows.lowest_free(slot);
        self.copy(slot, fd, into);
        Ok(into)
    }

    /// Closes a number, and hands out its file where no other number refers to it.
    fn drop_number(&mut self, slot: u8, fd: u8) -> Option<Open>
        requires { slot < SLOTS }
        ensures table { self.new ≡ drop_number self.old slot fd }
        ensures file { result ≡ last_file self.old slot fd }
    {
        let entry = self.rows.descriptor(slot, fd)?.entry;
        self.rows.put(slot, fd, None);
        if self.counts.lower(entry) > 0 {
            return None;
        }
        self.files.take(entry)
    }

    /// Closes a number, and hands out its file exactly where no other number of any slot refers to it. It is refused by `BadFd`
    /// exactly where the number is not open, and then nothing changes. (close(2))
    pub fn close(&mut self, slot: u8, fd: u8) -> Result<Option<Open>, Rule>
        requires { slot < SLOTS }
        ensures { (self.new, result) ≡ calls.close self.old slot fd }
    {
        if self.get(slot, fd).is_none() {
            return Err(Rule::BadFd);
        }
        Ok(self.drop_number(slot, fd))
    }

    /// Gives the number `to` the open file of a number, after closing `to` as `close` does where it is open; where both are one
    /// number nothing changes. The file that went with `to`, if any, is handed out. It is refused by `BadFd` exactly where `fd` is
    /// not open or `to` is over 31, and then nothing changes. (dup2(2))
    pub fn dup2(&mut self, slot: u8, fd: u8, to: u8) -> Result<Option<Open>, Rule>
        requires { slot < SLOTS }
        ensures { (self.new, result) ≡ calls.dup2 self.old slot fd to }
    {
        if self.get(slot, fd).is_none() {
            return Err(Rule::BadFd);
        }
        if usize::from(to) >= DESCRIPTORS {
            return Err(Rule::BadFd);
        }
        if fd == to {
            return Ok(None);
        }
        let last = self.drop_number(slot, to);
        self.copy(slot, fd, to);
        Ok(last)
    }

    /// Moves the offset of the open file of a number, for all numbers that refer to it. The number is open. (lseek(2))
    pub fn set_offset(&mut self, slot: u8, fd: u8, to: u32)
        requires slot { slot < SLOTS }
        requires is_open { IsTrue (is_some (file_at self.old slot fd)) }
        ensures { self.new ≡ change_file (at_offset to) self.old slot fd }
    {
        if let Some(descriptor) = self.rows.descriptor(slot, fd) {
            self.files.set_offset(descriptor.entry, to);
        }
    }

    /// Gives a slot that has no descriptor those of another, with their marks. (fork(2))
    pub fn copy_all(&mut self, from: u8, to: u8)
        requires from { from < SLOTS }
        requires to { to < SLOTS }
        requires closed { lowest_open self.old.table to ≡ None }
        ensures { self.new ≡ fork self.old from to }
    {
        self.counts.raise_all(self.rows.row(from));
        self.rows.copy_row(from, to);
    }

    /// Closes the lowest open number, as `close` does. `None` comes exactly where the slot has none.
    pub fn drop_first(&mut self, slot: u8) -> Option<Option<Open>>
        requires { slot < SLOTS }
        ensures { (self.new, result) ≡ calls.drop_first self.old slot }
    {
        let number = self.rows.lowest_open(slot)?;
        Some(self.drop_number(slot, number))
    }

    /// Closes the lowest number that is closed at an execve(2), as `close` does. `None` comes exactly where the slot has none.
    pub fn close_exec_first(&mut self, slot: u8) -> Option<Option<Open>>
        requires { slot < SLOTS }
        ensures { (self.new, result) ≡ calls.close_exec_first self.old slot }
    {
        let number = self.rows.lowest_on_exec(slot)?;
        Some(self.drop_number(slot, number))
    }
}
