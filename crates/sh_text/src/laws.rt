//! What the definitions of this crate keep, for the proofs of others. Each law is the contract of a
//! function that does nothing.
ghost use Rattle.std.specs.Prelude.{◌≡◌, ◌↔◌, ℕ, false, List, ◌∷◌, ◌++◌, flat_map, Ok, Err};
ghost use Rattle.std.specs.List.{AllByRecursion};
ghost use Rattle.sh_text.specs.declared.jobs.TheConstants.{MOST_COMMANDS};
ghost use Rattle.sh_text.specs.declared.tree.Line.{Line};
ghost use Rattle.sh_text.specs.Grammar.{Part, IsPart, spelled_part, meant_part, SpellsWord, SpellsLine};
ghost use Rattle.sh_text.specs.Reading.{begins_word, word_at, line_of};
ghost use Rattle.sh_text.specs.Faults.{IsFirstFault};

/// Whoever writes a word part by part, each bare, between single quotes or behind a backslash, is
/// understood: it is read as the bytes that the parts mean, up to the first byte that ends a word.
/// Nothing else is read as a word.
pub fn words_are_read_as_spelled()
    ensures parts { (first : Part) (more : List Part) (rest : List ℕ) → AllByRecursion IsPart (first ∷ more)
        → begins_word rest ≡ false
        → word_at (flat_map spelled_part (first ∷ more) ++ rest) ≡ Ok (flat_map meant_part (first ∷ more), rest) }
    ensures exact { (bytes word rest : List ℕ) → (word_at bytes ≡ Ok (word, rest)) ↔ SpellsWord bytes word rest }
{}

/// A text is read as a line exactly where the grammar spells that line so.
pub fn lines_are_read_as_spelled()
    ensures { (text : List ℕ) (line : Line) → (line_of text ≡ Ok line) ↔ SpellsLine text line }
{}

/// The fault of a text that is no line stands at the first byte that no line's text has after those
/// before it, or at the end.
pub fn line_faults_are_first()
    ensures { (text : List ℕ) (at : ℕ) → line_of text ≡ Err at → IsFirstFault text at }
{}

/// The figure up to which a job has commands.
pub fn limits()
    ensures commands { MOST_COMMANDS ≡ 8 }
{}
