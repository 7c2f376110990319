//! The open files, by entry.
ghost use Rattle.std.specs.Prelude.{◌≡◌, ◌<◌, ◌≤◌, None, Some, is_none, option_copied, option_map, position, count_by, slice_set, replicate, IfOk};
ghost use Rattle.sys_types.specs.declared.limits.TheConstants.{OPEN_FILES};
ghost use Rattle.fd_table.specs.Shared.{entry_at, holds, lowest_entry, free_entries};
ghost use Rattle.fd_table.specs.Opens.{at_offset, is_of};

use crate::open::{Open, Target};
use std::alloc::{AllocError, Global};
use std::marker::Model;
use sys_types::OPEN_FILES;

/// The 256 entries, each with its open file or free. Contracts see the list of them.
#[derive(Drop)]
pub(crate) struct Files {
    files: Vec<Option<Open>>,
}

impl Model for Files {
    ghost use Rattle.std.specs.Prelude.{◌≡◌, List, Option, length};
    ghost use Rattle.sys_types.specs.declared.limits.TheConstants.{OPEN_FILES};
    ghost use Rattle.fd_table.specs.declared.open.Open.{Open};

    ghost Value = { List (Option Open) };

    ghost view = { λ f. f.files.items };

    ghost invariant = { λ f. length f.files.items ≡ OPEN_FILES };
}

/// So many places with nothing in them.
fn all_none<T: Drop>(alloc: Global, places: usize) -> Result<Vec<Option<T>>, AllocError>
    ensures { IfOk result (λ all. all.items ≡ replicate places None) }
{
    let mut all = Vec::with_capacity(alloc, places)?;
    for _place in 0..places {
        all.push_reserved(None);
    }
    Ok(all)
}

fn lowest_of(files: &[Option<Open>]) -> Option<usize>
    ensures { result ≡ position is_none files.now }
{
    files.iter().position(|file| file.is_none())
}

fn free_of(files: &[Option<Open>]) -> usize
    ensures { result ≡ count_by is_none files.now }
{
    files.iter().filter(|file| file.is_none()).count()
}

fn count_in(files: &[Option<Open>], target: &Target) -> usize
    ensures { result ≡ count_by (holds (is_of target.now)) files.now }
{
    files
        .iter()
        .filter(|file| match file {
            None => false,
            Some(file) => file.target.is_same(target),
        })
        .count()
}

impl Files {
    /// Every entry is free.
    pub(crate) fn new(alloc: Global) -> Result<Files, AllocError>
        ensures { IfOk result (λ files. files ≡ replicate OPEN_FILES None) }
    {
        Ok(Files {
            files: all_none(alloc, OPEN_FILES)?,
        })
    }

    /// The file in an entry.
    pub(crate) fn get(&self, entry: u16) -> Option<&Open>
        requires { entry < OPEN_FILES }
        ensures { option_copied result ≡ entry_at self.now entry }
    {
        self.files[usize::from(entry)].as_ref()
    }

    /// Puts a file into an entry.
    pub(crate) fn put(&mut self, entry: u16, file: Open)
        requires { entry < OPEN_FILES }
        ensures { self.new ≡ slice_set self.old entry (Some file) }
    {
        self.files[usize::from(entry)] = Some(file);
    }

    /// Frees an entry.
    pub(crate) fn take(&mut self, entry: u16) -> Option<Open>
        requires { entry < OPEN_FILES }
        ensures files { self.new ≡ slice_set self.old entry None }
        ensures file { result ≡ entry_at self.old entry }
    {
        self.files[usize::from(entry)].take()
    }

    /// Moves the offset of the file in an entry.
    pub(crate) fn set_offset(&mut self, entry: u16, offset: u32)
        requires { entry < OPEN_FILES }
        ensures { self.new ≡ slice_set self.old entry (option_map (at_offset offset) (entry_at self.old entry)) }
    {
        if let Some(file) = &mut self.files[usize::from(entry)] {
            file.offset = offset;
        }
    }

    /// How many entries are free.
    pub(crate) fn free(&self) -> usize
        ensures { result ≡ free_entries self.now }
    {
        free_of(self.files.as_slice())
    }

    /// The lowest free entry, or 256.
    #[tactic(auto, using(crate::proofs::CountLemmas::first))]
    pub(crate) fn lowest_free(&self) -> u16
        ensures lowest { result ≡ lowest_entry self.now }
        ensures most { result ≤ OPEN_FILES }
    {
        match lowest_of(self.files.as_slice()) {
            None => OPEN_FILES as u16,
            Some(entry) => entry as u16,
        }
    }

    /// How many files are open of a target.
    #[tactic(auto, using(crate::proofs::CountLemmas::at_most_all))]
    pub(crate) fn count_of(&self, target: &Target) -> u16
        ensures count { result ≡ count_by (holds (is_of target.now)) self.now }
        ensures most { result ≤ OPEN_FILES }
    {
        count_in(self.files.as_slice(), target) as u16
    }
}
