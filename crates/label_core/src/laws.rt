//! Laws of labels, which the check proves. Each is the contract of a function that does nothing.
#![tactic(auto, using(crate::proofs::Dominance::dominance, crate::proofs::TextLemmas::texts))]

ghost use Rattle.std.specs.Prelude.{◌≡◌, ◌≢◌, ◌==◌, ◌||◌, ◌↔◌, ℕ, List, length, IsTrue};
ghost use Rattle.label_core.specs.declared.comp_set.TheConstants.{COMPARTMENTS};
ghost use Rattle.label_core.specs.declared.printing.TheConstants.{TEXT_ROOM, ELEMENT_ROOM, LABEL_ROOM};
ghost use Rattle.label_core.specs.declared.element.Element.{Element};
ghost use Rattle.label_core.specs.declared.fault.LabelFault.{LabelFault};
ghost use Rattle.label_core.specs.declared.fault.LabelKind.{LabelKind};
ghost use Rattle.label_core.specs.CompSet.{IsCompSet, has_number, is_subset, with_number};
ghost use Rattle.label_core.specs.Element.{IsElement, dom};
ghost use Rattle.label_core.specs.Subject.{Parts, IsSubject, is_subject};
ghost use Rattle.label_core.specs.Text.{element_text, subject_text};
ghost use Rattle.label_core.specs.Reading.{element_of, subject_of};
ghost use Rattle.label_core.specs.Grammar.{SpellsElement, SpellsParts};
ghost use Rattle.label_core.specs.Faults.{BeginsElement, BeginsParts, IsFirstFault, SpellsNoSubject, BeforeElement, BeforePart, IsDigitOf};

/// A set of compartments is the numbers that are in it. A number is in a set that was given one
/// exactly where it is that one or was in it before, a set is a subset exactly where each number of
/// it is in the other, and two sets with the same numbers are one.
pub fn sets_are_their_numbers()
    ensures member { (n m : ℕ) (set : List ℕ) → has_number n (with_number m set) ≡ ((n == m) || has_number n set) }
    ensures subset { (some all : List ℕ) → IsTrue (is_subset some all)
        ↔ ((n : ℕ) → IsTrue (has_number n some) → IsTrue (has_number n all)) }
    ensures same { (s t : List ℕ) → IsCompSet s → IsCompSet t
        → ((n : ℕ) → has_number n s ≡ has_number n t) → s ≡ t }
{}

/// Every element dominates itself.
pub fn dominance_is_reflexive()
    ensures { (a : Element) → IsTrue (dom a a) }
{}

/// What an element dominates dominates nothing that the element does not, unless it is equal.
pub fn dominance_is_transitive()
    ensures { (a b c : Element) → b ≢ Element.Equal → IsTrue (dom a b) → IsTrue (dom b c) → IsTrue (dom a c) }
{}

/// Low is below every element, and high above every element.
pub fn low_is_below_and_high_above()
    ensures low { (a : Element) → IsTrue (dom a Element.Low) }
    ensures high { (a : Element) → IsTrue (dom Element.High a) }
{}

/// Two elements that dominate each other are one, unless one of them is equal.
pub fn dominance_is_antisymmetric()
    ensures { (a b : Element) → IsElement a → IsElement b → a ≢ Element.Equal → b ≢ Element.Equal
        → IsTrue (dom a b) → IsTrue (dom b a) → a ≡ b }
{}

/// A text is read as an element exactly where the grammar spells that element so.
pub fn elements_are_read_as_spelled()
    ensures { (text : List ℕ) (e : Element) → (element_of text ≡ Ok e) ↔ SpellsElement text e }
{}

/// A text is read as a subject exactly where the grammar spells its three parts so and they are a
/// subject.
pub fn subjects_are_read_as_spelled()
    ensures { (text : List ℕ) (s : Parts) → (subject_of text ≡ Ok s)
        ↔ (SpellsParts text s × IsTrue (is_subject s)) }
{}

/// What an element is printed as is read as that element.
pub fn elements_read_back()
    ensures { (e : Element) → IsElement e → element_of (element_text e) ≡ Ok e }
{}

/// What a subject is printed as is read as that subject.
pub fn subjects_read_back()
    ensures { (s : Parts) → IsSubject s → subject_of (subject_text s) ≡ Ok s }
{}

/// The fault of a text that is no element stands at the first byte that no element's text has after
/// those before it, or at the end. It is `Grade`, or `Compartment`, exactly where a digit stands there
/// that begins such a number, or goes on with the digits of one, and never `Range`.
pub fn element_faults_are_first()
    ensures place { (text : List ℕ) (f : LabelFault) → element_of text ≡ Err f
        → IsFirstFault BeginsElement text f.at }
    ensures kind { (text : List ℕ) (f : LabelFault) → element_of text ≡ Err f → f.kind ≢ LabelKind.Range }
    ensures grade { (text : List ℕ) (f : LabelFault) → element_of text ≡ Err f
        → (f.kind ≡ LabelKind.Grade) ↔ IsDigitOf BeforeElement LabelKind.Grade text f.at }
    ensures compartment { (text : List ℕ) (f : LabelFault) → element_of text ≡ Err f
        → (f.kind ≡ LabelKind.Compartment) ↔ IsDigitOf BeforeElement LabelKind.Compartment text f.at }
{}

/// The fault of a text that is no subject stands at the first byte that no three parts' text has
/// after those before it, or at the end. It is `Range`, at the length, exactly where the text is
/// three parts that are no subject, and `Grade`, or `Compartment`, exactly where a digit stands there
/// that begins such a number, or goes on with the digits of one.
pub fn subject_faults_are_first()
    ensures place { (text : List ℕ) (f : LabelFault) → subject_of text ≡ Err f → f.kind ≢ LabelKind.Range
        → IsFirstFault BeginsParts text f.at }
    ensures range { (text : List ℕ) (f : LabelFault) → subject_of text ≡ Err f
        → (f.kind ≡ LabelKind.Range) ↔ SpellsNoSubject text }
    ensures range_place { (text : List ℕ) (f : LabelFault) → subject_of text ≡ Err f → f.kind ≡ LabelKind.Range
        → f.at ≡ length text }
    ensures grade { (text : List ℕ) (f : LabelFault) → subject_of text ≡ Err f
        → (f.kind ≡ LabelKind.Grade) ↔ IsDigitOf BeforePart LabelKind.Grade text f.at }
    ensures compartment { (text : List ℕ) (f : LabelFault) → subject_of text ≡ Err f
        → (f.kind ≡ LabelKind.Compartment) ↔ IsDigitOf BeforePart LabelKind.Compartment text f.at }
{}

/// The figures of the limits: compartments, and bytes of texts.
pub fn limits()
    ensures compartments { COMPARTMENTS ≡ 256 }
    ensures text { TEXT_ROOM ≡ 4096 }
    ensures element { ELEMENT_ROOM ≡ 925 }
    ensures label { LABEL_ROOM ≡ 2800 }
{}
