//! What holds of each call, which the check proves. Each law is the contract of a function that does nothing.
ghost use Rattle.std.specs.Prelude.{◌≡◌};
ghost use Rattle.acl_core.specs.declared.mode.TheConstants.{MODE_MOST};
ghost use Rattle.acl_core.specs.declared.entry.TheConstants.{MOST_ENTRIES};

/// The figures up to which a call names a mode, octal 777, and entries of an access list.
pub fn limits()
    ensures mode { MODE_MOST ≡ 0o777 }
    ensures entries { MOST_ENTRIES ≡ 64 }
{}
