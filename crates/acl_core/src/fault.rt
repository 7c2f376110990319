//! Why a text is no list.
ghost use Rattle.std.specs.Prelude.{◌≡◌};
ghost use Rattle.acl_core.specs.Reading.{stop_at};

/// Where a text that is no list has its fault: the place of the first byte that no list has after
/// those before it, counted from 0, or the length in bytes of a text that ends too early. More than
/// 64 entries are a fault at the comma before the next.
#[derive(Clone, Copy, Debug, PartialEq, Eq)]
pub struct ListFault {
    pub at: usize,
}

/// Where reading stops: how many bytes are left from the fault on.
#[derive(Clone, Copy)]
pub(crate) struct Stop {
    pub(crate) left: usize,
}

/// A fault at the first of these bytes, or at the end where there is none.
pub(crate) fn stop_at(bytes: &[u8]) -> Stop
    ensures { result ≡ stop_at bytes.now }
{
    Stop { left: bytes.len() }
}
