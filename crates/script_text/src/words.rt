//! The words of a line, and the parts of a word.
ghost use Rattle.std.specs.Prelude.{◌≡◌, ◌==◌, bytes_eq, ℕ, ◌+◌, ◌-◌, List, [], ◌∷◌, length, option_copied, option_map, position, MatchOption};
ghost use Rattle.script_text.specs.Words.{words as words_of, parts_of};
ghost use Rattle.script_text.specs.Args.{alone};
ghost use Rattle.script_text.specs.Rest.{parts_after, only_word, both_words, three_words};

use std::marker::Model;

/// The words that are left of a line, or the parts of another text that a byte parts. In contracts
/// it is the list of them.
#[derive(Drop)]
pub struct Words<'a> {
    rest: Option<&'a [u8]>,
    mark: u8,
}

impl<'a> Model for Words<'a> {
    ghost use Rattle.std.specs.Prelude.{ℕ, List, option_copied};
    ghost use Rattle.script_text.specs.Rest.{parts_after};

    ghost Value = { List (List ℕ) };

    ghost view = { λ w. parts_after w.mark (option_copied w.rest) };
}

/// Where the first mark is.
fn first_mark(text: &[u8], mark: u8) -> Option<usize>
    ensures { result ≡ position (λ b. b == mark) text.now }
{
    text.iter().position(|byte| *byte == mark)
}

/// The first part, and what follows the mark after it, if there is one.
#[tactic(auto, using(crate::proofs::Cuts::one_part))]
fn cut_part(text: &[u8], mark: u8) -> (&[u8], Option<&[u8]>)
    ensures { parts_of mark text.now ≡ result.0.now ∷ parts_after mark (option_copied result.1) }
{
    match first_mark(text, mark) {
        None => (text, None),
        Some(at) => {
            let (part, rest) = text.split_at(at);
            (part, Some(&rest[1..]))
        }
    }
}

impl<'a> Words<'a> {
    /// All words of a line.
    pub fn new(line: &'a [u8]) -> Self
        ensures { result ≡ words_of line.now }
    {
        Words::parts_of(line, b' ')
    }

    /// All parts of a text that a byte parts.
    pub fn parts_of(text: &'a [u8], mark: u8) -> Self
        ensures { result ≡ parts_of mark text.now }
    {
        Words {
            rest: Some(text),
            mark,
        }
    }

    /// Takes the next word. `None` exactly where none is left.
    pub fn next(&mut self) -> Option<&'a [u8]>
        ensures { MatchOption result ((self.old ≡ []) × (self.new ≡ [])) (λ word. self.old ≡ word.now ∷ self.new) }
    {
        let (word, rest) = cut_part(self.rest?, self.mark);
        self.rest = rest;
        Some(word)
    }
}

/// What stands where no word is left.
pub fn alone<R: Drop>(words: &mut Words, what: R) -> Option<R>
    ensures { result ≡ alone what words.old }
{
    match words.next() {
        None => Some(what),
        Some(_) => None,
    }
}

/// The one word that is left.
pub fn only<'a>(words: &mut Words<'a>) -> Option<&'a [u8]>
    ensures { option_copied result ≡ only_word words.old }
{
    let word = words.next()?;
    match words.next() {
        None => Some(word),
        Some(_) => None,
    }
}

/// The two words that are left.
pub fn both<'a>(words: &mut Words<'a>) -> Option<(&'a [u8], &'a [u8])>
    ensures { option_map (λ pair. (pair.0.now, pair.1.now)) result ≡ both_words words.old }
{
    let first = words.next()?;
    let second = only(words)?;
    Some((first, second))
}

/// The three words that are left.
pub fn all_three<'a>(words: &mut Words<'a>) -> Option<(&'a [u8], &'a [u8], &'a [u8])>
    ensures { option_map (λ three. (three.0.now, three.1.now, three.2.now)) result ≡ three_words words.old }
{
    let first = words.next()?;
    let (second, third) = both(words)?;
    Some((first, second, third))
}

/// Whether a word is this one.
pub fn is_word(word: &[u8], this: &[u8]) -> bool
    ensures { result ≡ bytes_eq word.now this.now }
{
    word == this
}
