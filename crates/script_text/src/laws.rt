//! What holds of every line and every word, as contracts of functions that do nothing.
ghost use Rattle.std.specs.Prelude.{◌≡◌, ℕ, ◌↔◌, List, [], ◌∷◌, Some};
ghost use Rattle.std.specs.List.{AllByRecursion};
ghost use Rattle.call_words.specs.Events.{MayBeUsed};
ghost use Rattle.script_text.specs.Printing.{event_line, HasLine};
ghost use Rattle.call_words.specs.declared.event.Event.{Event};
ghost use Rattle.script_text.specs.Paths.{path_of};
ghost use Rattle.script_text.specs.Spelling.{WritesPath};
ghost use Rattle.script_text.specs.Reading.{events_of_line};
ghost use Rattle.script_text.specs.Grammar.{Field, Fits, Says, word_of, fields, IsLine};

/// A line is read as the events that it asks by the grammar, and a line that asks none is bad.
pub fn one_grammar()
    ensures { (line : List ℕ) (es : List Event) → (events_of_line line ≡ Some es) ↔ IsLine line es }
{}

/// A word is read as a path exactly where it writes it, escape by escape.
pub fn paths_are_read_as_spelled()
    ensures { (word path : List ℕ) → (path_of word ≡ Some path) ↔ WritesPath word path }
{}

/// The word that is printed of a field is read as its value: numbers in decimal and octal, lines, paths, accesses, flags, bytes,
/// groups, access lists, labels, signals and to whom they go, what is done at one, and settings of lines.
pub fn words_are_read_back()
    ensures { (field : Field) → Fits field → Says field (word_of field) }
{}

/// What is printed of an event is read as that event alone: of each event that may be used, whose values are those of its
/// fields, and whose line has at most 4,096 bytes.
pub fn events_are_read_back()
    ensures { (e : Event) → MayBeUsed e → AllByRecursion Fits (fields e) → HasLine e → events_of_line (event_line e) ≡ Some (e ∷ []) }
{}
