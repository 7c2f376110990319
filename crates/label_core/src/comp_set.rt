//! Sets of compartments.
ghost use Rattle.std.specs.Prelude.{◌≡◌, ◌==◌, ◌||◌, ◌↔◌, ℕ, [], IsTrue, length};
ghost use Rattle.label_core.specs.CompSet.{IsCompartment, IsCompSet, has_number, is_subset, with_number, is_marked};

use std::marker::Model;

/// How many compartments there are, numbered from 1 (mac_mls(4)).
pub const COMPARTMENTS: u16 = 256;

/// How many bits a word of a set has, one for each compartment.
const WORD_BITS: u16 = 64;

/// How many words a set has.
const WORDS: usize = 4;

/// A finite set of compartments, the numbers 1 to 256, in place.
///
/// Contracts see the numbers that are in it, in rising order.
#[derive(Drop)]
pub struct CompSet {
    words: [u64; WORDS],
}

/// Whether the bit of the compartment `n` is set.
fn is_marked(words: &[u64], n: u16) -> bool
    requires compartment { IsCompartment n }
    requires len { length words.now ≡ WORDS }
    ensures { result ≡ is_marked words.now n }
{
    let bit = n - 1;
    (words[usize::from(bit / WORD_BITS)] >> (bit % WORD_BITS)) & 1 == 1
}

/// Sets the bit of the compartment `n`.
fn mark(words: &mut [u64], n: u16)
    requires compartment { IsCompartment n }
    requires len { length words.old ≡ WORDS }
    ensures { (m : ℕ) → IsCompartment m → is_marked words.new m ≡ ((m == n) || is_marked words.old m) }
{
    let bit = n - 1;
    words[usize::from(bit / WORD_BITS)] |= 1 << (bit % WORD_BITS);
}

/// Whether each bit that is set in the first words is set in the second.
fn is_covered(some: &[u64], all: &[u64]) -> bool
    requires some_len { length some.now ≡ WORDS }
    requires all_len { length all.now ≡ WORDS }
    ensures { IsTrue result
        ↔ ((n : ℕ) → IsCompartment n → IsTrue (is_marked some.now n) → IsTrue (is_marked all.now n)) }
{
    some.iter()
        .zip(all.iter())
        .all(|(mine, theirs)| *mine & !*theirs == 0)
}

impl Model for CompSet {
    ghost use Rattle.std.specs.Prelude.{ℕ, List};
    ghost use Rattle.label_core.specs.CompSet.{numbers_in};

    ghost Value = { List ℕ };

    ghost view = { λ s. numbers_in s.words };
}

#[tactic(auto, using(crate::proofs::MarkLemmas::numbers))]
impl CompSet {
    /// The set without a number.
    pub fn empty() -> Self
        ensures { result ≡ [] }
    {
        CompSet { words: [0; WORDS] }
    }

    /// The set with the compartment `n`, 1 to 256, too.
    pub fn with(self, n: u16) -> Self
        requires { IsCompartment n }
        ensures { result ≡ with_number n self }
    {
        let mut words = self.words;
        mark(&mut words, n);
        CompSet { words }
    }

    /// Whether `n` is in the set, which it is not unless it is 1 to 256.
    pub fn has(&self, n: u16) -> bool
        ensures member { result ≡ has_number n self.now }
        ensures set { IsCompSet self.now }
    {
        let words = &self.words;
        if n < 1 || n > COMPARTMENTS {
            return false;
        }
        is_marked(words, n)
    }

    /// Whether every number of this set is in the other.
    pub(crate) fn is_subset(&self, other: &CompSet) -> bool
        ensures subset { result ≡ is_subset self.now other.now }
        ensures sets { IsCompSet self.now × IsCompSet other.now }
    {
        is_covered(&self.words, &other.words)
    }

    /// An equal set.
    pub fn copy(&self) -> Self
        ensures { result ≡ self.now }
    {
        CompSet { words: self.words }
    }
}

impl PartialEq for CompSet {
    ghost use Rattle.std.specs.Prelude.{bytes_eq};
    ghost use Rattle.std.specs.Cmp.{nat_eq_equiv, partial_equiv_from_equiv};
    ghost use Rattle.std.specs.Cmp.Lexicographic.{lists_equiv};

    ghost eq = { bytes_eq };

    ghost laws = { partial_equiv_from_equiv (lists_equiv nat_eq_equiv) };

    #[tactic(auto, using(crate::proofs::SetLemmas::sets))]
    fn eq(&self, other: &Self) -> bool {
        self.is_subset(other) && other.is_subset(self)
    }
}

impl Eq for CompSet {
    ghost use Rattle.std.specs.Cmp.{nat_eq_equiv};
    ghost use Rattle.std.specs.Cmp.Lexicographic.{lists_equiv};

    ghost laws = { lists_equiv nat_eq_equiv };
}
