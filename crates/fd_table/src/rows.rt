//! The numbers of all slots, each with what it refers to.
ghost use Rattle.std.specs.Prelude.{◌≡◌, ◌<◌, ◌≤◌, length, None, is_some, is_none, position, count_by, slice_set, replicate, IfOk};
ghost use Rattle.std.specs.List.{position_or_len};
ghost use Rattle.sys_types.specs.declared.limits.TheConstants.{SLOTS, DESCRIPTORS};
ghost use Rattle.fd_table.specs.Shared.{row_of, descriptor_at, put, is_on_exec, lowest_number, free_numbers, lowest_open, lowest_on_exec};

use crate::open::Descriptor;
use std::alloc::{AllocError, Global};
use std::marker::Model;
use sys_types::{DESCRIPTORS, SLOTS};

/// For each of the 32 slots its 32 numbers. Contracts see the list of them.
#[derive(Drop)]
pub(crate) struct Rows {
    rows: Vec<[Option<Descriptor>; DESCRIPTORS]>,
}

impl Model for Rows {
    ghost use Rattle.fd_table.specs.Shared.{Table};
    ghost use Rattle.fd_table.specs.Kept.{IsWhole};

    ghost Value = { Table };

    ghost view = { λ r. r.rows.items };

    ghost invariant = { λ r. IsWhole r.rows.items };
}

fn lowest_of(row: &[Option<Descriptor>]) -> Option<usize>
    ensures { result ≡ position is_none row.now }
{
    row.iter().position(|descriptor| descriptor.is_none())
}

fn lowest_open_of(row: &[Option<Descriptor>]) -> Option<usize>
    ensures { result ≡ position is_some row.now }
{
    row.iter().position(|descriptor| descriptor.is_some())
}

fn lowest_on_exec_of(row: &[Option<Descriptor>]) -> Option<usize>
    ensures { result ≡ position is_on_exec row.now }
{
    row.iter().position(|descriptor| match descriptor {
        None => false,
        Some(descriptor) => descriptor.on_exec,
    })
}

fn free_of(row: &[Option<Descriptor>]) -> usize
    ensures { result ≡ count_by is_none row.now }
{
    row.iter().filter(|descriptor| descriptor.is_none()).count()
}

impl Rows {
    /// No number of any slot is open.
    pub(crate) fn new(alloc: Global) -> Result<Rows, AllocError>
        ensures { IfOk result (λ rows. rows ≡ replicate SLOTS (replicate DESCRIPTORS None)) }
    {
        let mut rows = Vec::with_capacity(alloc, SLOTS)?;
        for _slot in 0..SLOTS {
            rows.push_reserved([None; DESCRIPTORS]);
        }
        Ok(Rows { rows })
    }

    /// The numbers of a slot.
    pub(crate) fn row(&self, slot: u8) -> &[Option<Descriptor>]
        requires { slot < SLOTS }
        ensures row { result.now ≡ row_of self.now slot }
        ensures size { length result.now ≡ DESCRIPTORS }
    {
        &self.rows[usize::from(slot)]
    }

    /// What a number refers to.
    pub(crate) fn descriptor(&self, slot: u8, number: u8) -> Option<Descriptor>
        requires { slot < SLOTS }
        ensures { result ≡ descriptor_at self.now slot number }
    {
        match self.row(slot).get(usize::from(number)) {
            None => None,
            Some(descriptor) => *descriptor,
        }
    }

    /// Sets what a number refers to.
    pub(crate) fn put(&mut self, slot: u8, number: u8, descriptor: Option<Descriptor>)
        requires slot { slot < SLOTS }
        requires number { number < DESCRIPTORS }
        ensures { self.new ≡ put self.old slot number descriptor }
    {
        self.rows[usize::from(slot)][usize::from(number)] = descriptor;
    }

    /// Gives a slot the numbers of another.
    pub(crate) fn copy_row(&mut self, from: u8, into: u8)
        requires from { from < SLOTS }
        requires into { into < SLOTS }
        ensures { self.new ≡ slice_set self.old into (row_of self.old from) }
    {
        self.rows[usize::from(into)] = self.rows[usize::from(from)];
    }

    /// How many numbers of a slot are free.
    pub(crate) fn free(&self, slot: u8) -> usize
        requires { slot < SLOTS }
        ensures { result ≡ free_numbers self.now slot }
    {
        free_of(self.row(slot))
    }

    /// The lowest free number of a slot, or 32.
    #[tactic(auto, using(crate::proofs::CountLemmas::first))]
    pub(crate) fn lowest_free(&self, slot: u8) -> u8
        requires { slot < SLOTS }
        ensures lowest { result ≡ lowest_number self.now slot }
        ensures most { result ≤ DESCRIPTORS }
    {
        match lowest_of(self.row(slot)) {
            None => DESCRIPTORS as u8,
            Some(number) => number as u8,
        }
    }

    /// The lowest number of a slot that is open.
    #[tactic(auto, using(crate::proofs::CountLemmas::first))]
    pub(crate) fn lowest_open(&self, slot: u8) -> Option<u8>
        requires { slot < SLOTS }
        ensures { result ≡ lowest_open self.now slot }
    {
        match lowest_open_of(self.row(slot)) {
            None => None,
            Some(number) => Some(number as u8),
        }
    }

    /// The lowest number of a slot that is closed at an execve(2).
    #[tactic(auto, using(crate::proofs::CountLemmas::first))]
    pub(crate) fn lowest_on_exec(&self, slot: u8) -> Option<u8>
        requires { slot < SLOTS }
        ensures { result ≡ lowest_on_exec self.now slot }
    {
        match lowest_on_exec_of(self.row(slot)) {
            None => None,
            Some(number) => Some(number as u8),
        }
    }
}
