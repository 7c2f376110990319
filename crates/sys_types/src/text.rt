//! Bytes of a bounded number, in place.
ghost use Rattle.std.specs.Prelude.{◌≡◌, ℕ, ◌<◌, ◌≤◌, ◌↔◌, [], ◌∷◌, ◌++◌, length, IsTrue, IsSome, IfSome};

use crate::limits::{PATH_TEXT_BYTES, PIECE_BYTES, TEXT_BYTES};
use arrayvec::ArrayVec;
use std::marker::Model;

/// At most `N` bytes, in place.
#[derive(Drop)]
pub struct InPlace<const N: usize> {
    bytes: ArrayVec<u8, N>,
}

/// The bytes that one read gives or one write carries: at most 512.
pub type Piece = InPlace<PIECE_BYTES>;

/// The path that a call names: at most 1,024 bytes.
pub type PathText = InPlace<PATH_TEXT_BYTES>;

/// The text that a call answers: at most 4,096 bytes.
pub type TextBuf = InPlace<TEXT_BYTES>;

impl<const N: usize> Model for InPlace<N> {
    ghost use Rattle.std.specs.Prelude.{ℕ, ◌≤◌, List, length};

    ghost Value = { List ℕ };

    ghost view = { λ p. p.bytes.items };

    ghost invariant = { λ p. length p.bytes.items ≤ N };
}

impl<const N: usize> InPlace<N> {
    /// No bytes.
    pub fn empty() -> Self
        ensures { result ≡ [] }
    {
        InPlace {
            bytes: ArrayVec::new(),
        }
    }

    /// The bytes of a slice. `None` exactly where it has more than `N`.
    pub fn from_slice(bytes: &[u8]) -> Option<Self>
        ensures fits { IsSome result ↔ (length bytes.now ≤ N) }
        ensures same { IfSome result (λ piece. piece ≡ bytes.now) }
    {
        let mut copied = ArrayVec::new();
        match copied.try_extend_from_slice(bytes) {
            Ok(()) => Some(InPlace { bytes: copied }),
            Err(_) => None,
        }
    }

    /// How many bytes there are.
    pub fn len(&self) -> usize
        ensures len { result ≡ length self.now }
        ensures most { result ≤ N }
    {
        self.bytes.len()
    }

    /// Whether there is no byte.
    pub fn is_empty(&self) -> bool
        ensures { IsTrue result ↔ (self.now ≡ []) }
    {
        self.bytes.is_empty()
    }

    /// The bytes, as a slice.
    pub fn as_slice(&self) -> &[u8]
        ensures bytes { result.now ≡ self.now }
        ensures most { length result.now ≤ N }
    {
        self.bytes.as_slice()
    }

    /// An equal value.
    pub fn copy(&self) -> Self
        ensures same { result ≡ self.now }
        ensures most { length result ≤ N }
    {
        let mut bytes = ArrayVec::new();
        let _ = bytes.try_extend_from_slice(self.bytes.as_slice());
        InPlace { bytes }
    }
}
