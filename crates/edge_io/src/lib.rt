//! The outside of the kernel: where bytes come from and where they go.
//!
//! Each trait has a count of faults, which never falls: a call fails only where the count rose
//! in that call. What an object holds is a second meaning, which the forms in memory tell and
//! the thin adapters of the system do not.
#![tactic(auto)]

mod bells;
mod crew;
mod crews;
mod gate;
mod mem_bells;
mod mem_port;
mod memory;
mod outside;
mod park_bells;
mod port;
mod sockets;
mod system;
#[cfg(test)]
mod tests;
mod threads;

pub use bells::{Bells, Ear};
pub use crew::{Crew, Job, Refused};
pub use crews::{MemCrew, ThreadCrew};
pub use gate::{Gate, OpenGate};
pub use mem_bells::MemBells;
pub use mem_port::{Answer, MemPort};
pub use memory::{MemSink, MemSource};
pub use outside::{Failed, Sink, Source};
pub use park_bells::ParkBells;
pub use port::{Heard, LineInput, LinePort};
pub use sockets::SocketPort;
pub use system::{FileSource, StdinSource, StdoutSink};
