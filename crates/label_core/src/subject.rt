//! Subjects and what they may do to labels.
ghost use Rattle.std.specs.Prelude.{◌≡◌, if◌then◌else◌, IsTrue};
ghost use Rattle.label_core.specs.Subject.{Parts, is_subject, inside, has_equal, may_relabel, may_become};

use crate::element::{Element, dominates};
use std::marker::Model;

/// The label of a process, as mac_mls(4) has it: the active element, and the range that it may move
/// in.
///
/// The high end dominates the active element, which dominates the low end.
#[derive(PartialEq, Eq, Drop)]
pub struct Subject {
    active: Element,
    low: Element,
    high: Element,
}

impl Model for Subject {
    ghost use Rattle.std.specs.Prelude.{IsTrue};
    ghost use Rattle.label_core.specs.Subject.{Parts, is_subject};

    ghost Value = { Parts };

    ghost view = { λ s. record { active = s.active; low = s.low; high = s.high } };

    ghost inverse = { λ s. record { active = s.active; low = s.low; high = s.high } };

    ghost invariant = { λ s. IsTrue (is_subject (record { active = s.active; low = s.low; high = s.high })) };
}

impl Subject {
    /// The subject of these parts, or `None` exactly where high does not dominate active or active
    /// does not dominate low.
    pub fn new(active: Element, low: Element, high: Element) -> Option<Self>
        ensures { let parts : Parts = record { active = active; low = low; high = high } in
            result ≡ (if is_subject parts then Some parts else None) }
    {
        if dominates(&high, &active) && dominates(&active, &low) {
            Some(Subject { active, low, high })
        } else {
            None
        }
    }

    /// The active element.
    pub fn active(&self) -> &Element
        ensures part { result.now ≡ self.now.active }
        ensures subject { IsTrue (is_subject self.now) }
    {
        &self.active
    }

    /// The low end of the range.
    pub fn low(&self) -> &Element
        ensures part { result.now ≡ self.now.low }
        ensures subject { IsTrue (is_subject self.now) }
    {
        &self.low
    }

    /// The high end of the range.
    pub fn high(&self) -> &Element
        ensures part { result.now ≡ self.now.high }
        ensures subject { IsTrue (is_subject self.now) }
    {
        &self.high
    }

    /// An equal subject.
    pub fn copy(&self) -> Self
        ensures { result ≡ self.now }
    {
        Subject {
            active: self.active.copy(),
            low: self.low.copy(),
            high: self.high.copy(),
        }
    }

    /// Whether one of the three parts is equal.
    fn has_equal(&self) -> bool
        ensures { result ≡ has_equal self.now }
    {
        self.active.is_equal() || self.low.is_equal() || self.high.is_equal()
    }
}

/// Whether the element is within the subject's range (mac_mls(4)).
pub fn inside(e: &Element, s: &Subject) -> bool
    ensures { result ≡ inside e.now s.now }
{
    dominates(&s.high, e) && dominates(e, &s.low)
}

/// Whether the subject may change the element of an object from `old` to `new` (mac_mls(4)).
///
/// Both have to be within its range, and it gives equal only if it has equal itself.
pub fn may_relabel(s: &Subject, old: &Element, new: &Element) -> bool
    ensures { result ≡ may_relabel s.now old.now new.now }
{
    inside(old, s) && inside(new, s) && (!new.is_equal() || s.has_equal())
}

/// Whether a process may change its subject from `old` to `new` (mac_mls(4)).
///
/// The three parts of `new` have to be within the old range, and it has equal only if `old` does.
pub fn may_become(old: &Subject, new: &Subject) -> bool
    ensures { result ≡ may_become old.now new.now }
{
    inside(&new.active, old)
        && inside(&new.low, old)
        && inside(&new.high, old)
        && (!new.has_equal() || old.has_equal())
}
