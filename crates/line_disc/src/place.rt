//! What the places of an input queue hold, in two bits for each.
ghost use Rattle.std.specs.Prelude.{◌≡◌, ℕ, ◌+◌, ◌<◌, ◌==◌, ◌↔◌, [], ◌∷◌, ◌++◌, length, None, IsNone, IfSome, option_to_list, if◌then◌else◌};
ghost use Rattle.line_disc.specs.Places.{has_bit, kind_of, is_line_end, is_file_end, current_behind, begins_with_mark};

use std::marker::Model;
use sys_types::INPUT_PLACES;

/// What a place of the input holds.
#[derive(Clone, Copy)]
pub enum PlaceKind {
    /// A byte that does not end its line.
    Byte,
    /// The last byte of a ready line.
    LineEnd,
    /// The end of a ready line that EOF ended: no byte.
    FileEnd,
}

impl PlaceKind {
    /// Whether it is the last byte of a ready line.
    fn is_line_end(self) -> bool
        ensures { result ≡ is_line_end self }
    {
        matches!(self, PlaceKind::LineEnd)
    }

    /// How many bytes the current line has once such a place is behind it, which has `current` now.
    pub(crate) fn current_behind(self, current: u16) -> u16
        requires { current < INPUT_PLACES }
        ensures { result ≡ current_behind self current }
    {
        match self {
            PlaceKind::Byte => current + 1,
            PlaceKind::LineEnd | PlaceKind::FileEnd => 0,
        }
    }

    /// Whether it is an end of file.
    fn is_file_end(self) -> bool
        ensures { result ≡ is_file_end self }
    {
        matches!(self, PlaceKind::FileEnd)
    }
}

/// How many bits a word has.
const WORD_BITS: u16 = 64;

/// How many words there are: one bit for each place.
const WORDS: usize = 16;

/// How many places there are.
const PLACES: u16 = 1024;

/// Whether the bit of a place is set.
fn has_bit(words: &[u64], place: u16) -> bool
    requires place { place < PLACES }
    requires len { length words.now ≡ WORDS }
    ensures { result ≡ has_bit words.now place }
{
    (words[usize::from(place / WORD_BITS)] >> (place % WORD_BITS)) & 1 == 1
}

/// Sets the bit of a place, or clears it.
fn put_bit(words: &mut [u64], place: u16, on: bool)
    requires place { place < PLACES }
    requires len { length words.old ≡ WORDS }
    ensures { (other : ℕ) → other < PLACES → has_bit words.new other ≡ (if other == place then on else has_bit words.old other) }
{
    let bit = 1 << (place % WORD_BITS);
    if on {
        words[usize::from(place / WORD_BITS)] |= bit;
    } else {
        words[usize::from(place / WORD_BITS)] &= !bit;
    }
}

/// What a place holds, by its two bits.
fn kind_at(ends: &[u64], marks: &[u64], place: u16) -> PlaceKind
    requires place { place < PLACES }
    requires ends_len { length ends.now ≡ WORDS }
    requires marks_len { length marks.now ≡ WORDS }
    ensures { result ≡ kind_of (has_bit ends.now place) (has_bit marks.now place) }
{
    if has_bit(marks, place) {
        PlaceKind::FileEnd
    } else if has_bit(ends, place) {
        PlaceKind::LineEnd
    } else {
        PlaceKind::Byte
    }
}

/// What the places of an input queue hold, from the first on: at most 1,024. One bit of each place says whether it ends a
/// line, and one whether it is an end of file. The bits are used in a circle.
#[derive(Drop)]
pub(crate) struct PlaceKinds {
    ends: [u64; WORDS],
    marks: [u64; WORDS],
    first: u16,
    count: u16,
}

impl Model for PlaceKinds {
    ghost use Rattle.std.specs.Prelude.{◌<◌, ◌≤◌, List};
    ghost use Rattle.line_disc.specs.declared.place.PlaceKind.{PlaceKind};

    ghost Value = { List PlaceKind };

    ghost use Rattle.line_disc.specs.Places.{kinds_in};

    ghost view = { λ k. kinds_in k.ends k.marks k.first k.count };

    ghost invariant = { λ k. (k.first < 1024) × (k.count ≤ 1024) };
}

#[tactic(auto, using(crate::proofs::PlaceLemmas::circle))]
impl PlaceKinds {
    /// No place is taken.
    pub(crate) fn new() -> PlaceKinds
        ensures { result ≡ [] }
    {
        PlaceKinds {
            ends: [0; WORDS],
            marks: [0; WORDS],
            first: 0,
            count: 0,
        }
    }

    /// Takes one more place behind the last. One is free.
    pub(crate) fn push_back(&mut self, kind: PlaceKind)
        requires { length self.old < INPUT_PLACES }
        ensures { self.new ≡ self.old ++ kind ∷ [] }
    {
        let place = (self.first + self.count) % PLACES;
        let mut ends = self.ends;
        let mut marks = self.marks;
        put_bit(&mut ends, place, kind.is_line_end());
        put_bit(&mut marks, place, kind.is_file_end());
        self.ends = ends;
        self.marks = marks;
        self.count += 1;
    }

    /// Whether the first place is an end of file.
    pub(crate) fn begins_with_mark(&self) -> bool
        ensures { result ≡ begins_with_mark self.now }
    {
        let ends = &self.ends;
        let marks = &self.marks;
        if self.count == 0 {
            return false;
        }
        kind_at(ends, marks, self.first).is_file_end()
    }

    /// Frees the first place, and says what it held. `None` exactly where none is taken.
    pub(crate) fn pop_front(&mut self) -> Option<PlaceKind>
        ensures none { (result ≡ None) ↔ (self.old ≡ []) }
        ensures kinds { self.old ≡ option_to_list result ++ self.new }
    {
        if self.count == 0 {
            return None;
        }
        let kind = kind_at(&self.ends, &self.marks, self.first);
        self.first = (self.first + 1) % PLACES;
        self.count -= 1;
        Some(kind)
    }

    /// Frees the last place, and says what it held. `None` exactly where none is taken.
    pub(crate) fn pop_back(&mut self) -> Option<PlaceKind>
        ensures none { (result ≡ None) ↔ (self.old ≡ []) }
        ensures kinds { self.old ≡ self.new ++ option_to_list result }
    {
        if self.count == 0 {
            return None;
        }
        self.count -= 1;
        let place = (self.first + self.count) % PLACES;
        Some(kind_at(&self.ends, &self.marks, place))
    }

    /// Frees all places.
    pub(crate) fn clear(&mut self)
        ensures { self.new ≡ [] }
    {
        self.count = 0;
    }
}
