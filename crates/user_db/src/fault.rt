//! Why a text gives no boot.
pub use std::alloc::AllocError as NoMemory;
use thiserror::Error;

/// Why a boot text could not be read.
#[derive(Clone, Copy, Debug, PartialEq, Eq, Error)]
pub enum BootFault {
    /// The number of the first bad line, counted from 1.
    #[error("line {0}")]
    Line(u32),
    /// Memory ran out.
    #[error("out of memory")]
    NoMemory,
}
