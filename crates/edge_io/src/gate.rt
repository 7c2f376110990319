//! The gate that a worker passes before each call that it enters.
ghost use Rattle.std.specs.Prelude.{◌<◌};

use call_words::Call;
use std::sync::Wait;

/// What holds a worker back before a call. Where a gate is shared among threads it is `Sync` too.
pub trait Gate {
    /// Returns when the worker of this slot, below 32, may enter this call.
    fn pass<R: Wait>(&self, rt: &R, slot: u8, call: &Call)
        requires { slot < 32 };
}

/// A gate that holds nobody back.
#[derive(Clone, Copy, Debug)]
pub struct OpenGate;

impl Gate for OpenGate {
    fn pass<R: Wait>(&self, _rt: &R, _slot: u8, _call: &Call) {}
}
