//! What a file holds.
ghost use Rattle.std.specs.Prelude.{◌≡◌, ℕ, ◌+◌, ◌-◌, ◌<◌, ◌≤◌, ◌^◌, [], ◌++◌, length, take, drop, replicate, OnOk, OnErr, IfOk};
ghost use Rattle.vnode_tree.specs.Contents.{bytes_at, after_write};

use std::alloc::{AllocError, Global};
use std::marker::Model;
use sys_types::Piece;

/// The bytes that a file holds. Contracts see the list of them.
#[derive(Drop)]
pub(crate) struct Contents {
    bytes: Vec<u8>,
}

impl Model for Contents {
    ghost use Rattle.std.specs.Prelude.{ℕ, List};

    ghost Value = { List ℕ };

    ghost view = { λ c. c.bytes.items };
}

/// Adds zeros up to a length. With `Err` nothing changes.
fn fill_to(bytes: &mut Vec<u8>, len: usize) -> Result<(), AllocError>
    ensures ok { OnOk result (bytes.new.items ≡ bytes.old.items ++ replicate (len - length bytes.old.items) 0) }
    ensures err { OnErr result (bytes.new.items ≡ bytes.old.items) }
{
    if len > bytes.len() {
        bytes.resize(len, 0)?;
    }
    Ok(())
}

/// Puts bytes at a place among others, which are long enough.
fn put(bytes: &mut [u8], at: usize, new: &[u8])
    requires { at + length new.now ≤ length bytes.old }
    ensures { bytes.new ≡ take at bytes.old ++ new.now ++ drop (at + length new.now) bytes.old }
{
    bytes[at..at + new.len()].copy_from_slice(new);
}

impl Contents {
    /// No bytes.
    pub(crate) fn empty(alloc: Global) -> Self
        ensures { result ≡ [] }
    {
        Contents {
            bytes: Vec::new(alloc),
        }
    }

    /// The same with bytes at its end.
    pub(crate) fn with(mut self, bytes: &[u8]) -> Result<Self, AllocError>
        ensures { IfOk result (λ longer. longer ≡ self ++ bytes.now) }
    {
        self.bytes.extend_from_slice(bytes)?;
        Ok(self)
    }

    /// How many bytes there are.
    pub(crate) fn len(&self) -> usize
        ensures { result ≡ length self.now }
    {
        self.bytes.len()
    }

    /// At most `max` bytes from a place on. `max` is at most 512.
    pub(crate) fn read(&self, at: usize, max: usize) -> Piece
        requires { max ≤ 512 }
        ensures { result ≡ bytes_at at max self.now }
    {
        let (_, rest) = self.bytes.as_slice().split_at(at.min(self.bytes.len()));
        let (piece, _) = rest.split_at(max.min(rest.len()));
        Piece::from_slice(piece).unwrap()
    }

    /// How many bytes there are after a write.
    #[tactic(auto, using(crate::proofs::Files::length_written_none, crate::proofs::Files::length_written))]
    pub(crate) fn len_after(&self, at: u32, bytes: &[u8]) -> usize
        ensures { result ≡ length (after_write self.now at bytes.now) }
    {
        if bytes.is_empty() {
            return self.bytes.len();
        }
        self.bytes.len().max(at as usize + bytes.len())
    }

    /// Writes bytes at a place. Bytes that are missing before it become 0. With `Err` nothing changes.
    pub(crate) fn write(&mut self, at: u32, bytes: &[u8]) -> Result<(), AllocError>
        ensures ok { OnOk result (self.new ≡ after_write self.old at bytes.now) }
        ensures err { OnErr result (self.new ≡ self.old) }
    {
        if bytes.is_empty() {
            return Ok(());
        }
        let at = at as usize;
        let end = at + bytes.len();
        fill_to(&mut self.bytes, end)?;
        put(self.bytes.as_mut_slice(), at, bytes);
        Ok(())
    }

    /// Lets all bytes go, with their memory.
    pub(crate) fn clear(&mut self)
        ensures { self.new ≡ [] }
    {
        self.bytes = Vec::new(*self.bytes.allocator());
    }
}
