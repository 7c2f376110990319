//! The figures of the limits, which the check proves. Each law is the contract of a function that does nothing.
ghost use Rattle.std.specs.Prelude.{◌≡◌};
ghost use Rattle.trail_core.specs.declared.machine.TheConstants.{MOST_EVENTS};

/// How many events a trail has at most, 2^31.
pub fn limits()
    ensures events { MOST_EVENTS ≡ 2147483648 }
{}
