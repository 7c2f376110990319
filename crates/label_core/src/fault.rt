//! Why a text is no label.
ghost use Rattle.std.specs.Prelude.{◌≡◌};
ghost use Rattle.label_core.specs.Reading.{stop_at};

/// What is wrong with the text of a label.
#[derive(Clone, Copy, Debug, PartialEq, Eq)]
pub enum LabelKind {
    /// A digit that no grade from 0 to 65535 has there.
    Grade,
    /// A digit that no compartment from 1 to 256 has there.
    Compartment,
    /// The text is whole, but its active element is not within its range.
    Range,
    /// A byte that stands in no label there, or a text that ends too early.
    Form,
}

/// The first fault of a text.
#[derive(Clone, Copy, Debug, PartialEq, Eq)]
pub struct LabelFault {
    pub kind: LabelKind,
    /// The first byte that no label has after those before it, counted from 0, or the length in bytes
    /// of a text that ends too early.
    pub at: usize,
}

impl LabelKind {
    /// An equal kind.
    pub fn copy(&self) -> Self
        ensures { result ≡ self.now }
    {
        *self
    }
}

impl LabelFault {
    /// An equal fault.
    pub fn copy(&self) -> Self
        ensures { result ≡ self.now }
    {
        *self
    }
}

/// Where reading stops: how many bytes are left from the fault on, and the fault's kind.
#[derive(Clone, Copy)]
pub(crate) struct Stop {
    pub(crate) kind: LabelKind,
    pub(crate) left: usize,
}

/// A fault at the first of these bytes, or at the end where there is none.
pub(crate) fn stop_at(kind: LabelKind, bytes: &[u8]) -> Stop
    ensures { result ≡ stop_at kind bytes.now }
{
    Stop {
        kind,
        left: bytes.len(),
    }
}
