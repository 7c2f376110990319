//! Elements and dominance.
ghost use Rattle.std.specs.Prelude.{◌≡◌};
ghost use Rattle.label_core.specs.Element.{dom, is_equal};

use crate::comp_set::CompSet;

/// The name of the policy, which the text of each label begins with.
pub(crate) const POLICY: &[u8] = b"mls/";

/// An element of a label, as mac_mls(4) has them.
#[derive(PartialEq, Eq, Drop)]
pub enum Element {
    /// Below every element.
    Low,
    /// Comparable with every element, in both directions.
    Equal,
    /// Above every element.
    High,
    /// A grade from 0 to 65535, and a set of compartments.
    Grade { grade: u16, set: CompSet },
}

impl Element {
    /// Whether this is the element that compares with every element.
    pub(crate) fn is_equal(&self) -> bool
        ensures { result ≡ is_equal self.now }
    {
        matches!(self, Element::Equal)
    }

    /// An equal element.
    pub fn copy(&self) -> Self
        ensures { result ≡ self.now }
    {
        match self {
            Element::Low => Element::Low,
            Element::Equal => Element::Equal,
            Element::High => Element::High,
            Element::Grade { grade, set } => Element::Grade {
                grade: *grade,
                set: set.copy(),
            },
        }
    }
}

/// Whether the first element dominates the second (mac_mls(4)): where one of them is equal, the first
/// is high, or the second is low; not where the first is low or the second is high; else where the
/// first has at least the grade, 0 to 65535, and all the compartments of the second.
#[tactic(auto, unfolding(crate::specs::Element::dom))]
pub fn dominates(a: &Element, b: &Element) -> bool
    ensures { result ≡ dom a.now b.now }
{
    match (a, b) {
        (Element::Equal, _) | (_, Element::Equal) => true,
        (Element::High, _) | (_, Element::Low) => true,
        (Element::Low, _) | (_, Element::High) => false,
        (
            Element::Grade { grade, set },
            Element::Grade {
                grade: below,
                set: others,
            },
        ) => grade >= below && others.is_subset(set),
    }
}
