//! Why a line gives no tree.
ghost use Rattle.std.specs.Prelude.{◌≡◌};
ghost use Rattle.sh_text.specs.declared.fault.Halt.TheVariants.{OutOfMemory};
ghost use Rattle.sh_text.specs.Reading.{stop_at};

pub use std::alloc::AllocError as NoMemory;
use thiserror::Error;

/// Why a line could not be read.
#[derive(Clone, Copy, Debug, PartialEq, Eq, Error)]
pub enum ShFault {
    /// The first byte that no line has after those before it, counted from 0, or the length in bytes
    /// of a text that ends too early.
    #[error("byte {at}")]
    Text { at: usize },
    /// Memory ran out.
    #[error("out of memory")]
    NoMemory,
}

/// Where reading stops: how many bytes are left from the fault on.
#[derive(Clone, Copy)]
pub(crate) struct Stop {
    pub(crate) left: usize,
}

/// A fault at the first of these bytes, or at the end where there is none.
pub(crate) fn stop_at(bytes: &[u8]) -> Stop
    ensures { result ≡ stop_at bytes.now }
{
    Stop { left: bytes.len() }
}

/// Why a function of this crate gives nothing.
#[derive(Clone, Copy)]
pub(crate) enum Halt {
    /// A fault of the text.
    Text(Stop),
    /// Memory ran out.
    OutOfMemory,
}

impl From<NoMemory> for Halt {
    ghost from_gives = { λ _ halt. halt ≡ OutOfMemory };

    fn from(_error: NoMemory) -> Halt {
        Halt::OutOfMemory
    }
}
