//! The parts of a path.
ghost use Rattle.std.specs.Prelude.{◌≡◌, ℕ, ◌+◌, ◌<◌, ◌≤◌, ◌*◌, List, [], ◌∷◌, length, position, option_copied, MatchOption, IfSome, IsTrue};
ghost use Rattle.std.specs.Bool.{OnFalse};
ghost use Rattle.tree_model.specs.Tree.{is_slash, is_skipped, steps};
ghost use Rattle.vnode_tree.specs.Walks.{IsCut, steps_after, is_step};

use std::marker::Model;

/// The parts of a path that are still to walk, but for empty ones and `.`. Contracts see the list of them.
#[derive(Drop)]
pub(crate) struct Steps<'a> {
    left: Option<&'a [u8]>,
}

impl<'a> Model for Steps<'a> {
    ghost use Rattle.std.specs.Prelude.{ℕ, List, option_copied};
    ghost use Rattle.vnode_tree.specs.Walks.{steps_after};

    ghost Value = { List (List ℕ) };

    ghost view = { λ s. steps_after (option_copied s.left) };
}

/// Whether a part does nothing.
fn is_skipped(part: &[u8]) -> bool
    ensures is_skipped { result ≡ is_skipped part.now }
    ensures some { OnFalse result (0 < length part.now) }
{
    part.is_empty() || part == b".".as_slice()
}

/// Where the first slash is.
fn slash_at(path: &[u8]) -> Option<usize>
    ensures { result ≡ position is_slash path.now }
{
    path.iter().position(|byte| *byte == b'/')
}

/// The first part, and what follows the slash after it, if there is one.
fn cut_part(path: &[u8]) -> (&[u8], Option<&[u8]>)
    ensures { IsCut path.now result.0.now (option_copied result.1) }
{
    match slash_at(path) {
        None => (path, None),
        Some(at) => {
            let (part, rest) = path.split_at(at);
            (part, Some(&rest[1..]))
        }
    }
}

/// The next part that does something, and what is left after it.
#[tactic(auto, using(crate::proofs::Cuts::skipped_part, crate::proofs::Cuts::kept_part, crate::proofs::Cuts::less_left, crate::proofs::Cuts::kept_step))]
fn next_part<'a>(path: Option<&'a [u8]>) -> Option<(&'a [u8], Option<&'a [u8]>)>
    ensures next { MatchOption result (steps_after (option_copied path.entry) ≡ [])
        (λ pair. steps_after (option_copied path.entry) ≡ pair.0.now ∷ steps_after (option_copied pair.1)) }
    ensures step { IfSome result (λ pair. IsTrue (is_step pair.0.now)) }
    ensures some { IfSome result (λ pair. 0 < length pair.0.now) }
{
    let mut left = path;
    while let Some(bytes) = left {
        let (part, rest) = cut_part(bytes);
        if !is_skipped(part) {
            return Some((part, rest));
        }
        left = rest;
    }
    None
}

impl<'a> Steps<'a> {
    /// All parts of a path of at most 1,023 bytes: at most 512.
    #[tactic(auto, using(crate::proofs::Cuts::few_steps))]
    pub(crate) fn new(path: &'a [u8]) -> Self
        requires { length path.now ≤ 1023 }
        ensures steps { result ≡ steps path.now }
        ensures most { length result ≤ 512 }
    {
        Steps { left: Some(path) }
    }

    /// Takes the next part. `None` exactly where none is left.
    pub(crate) fn next(&mut self) -> Option<&'a [u8]>
        ensures next { MatchOption result ((self.old ≡ []) × (self.new ≡ [])) (λ part. self.old ≡ part.now ∷ self.new) }
        ensures step { IfSome result (λ part. IsTrue (is_step part.now)) }
        ensures some { IfSome result (λ part. 0 < length part.now) }
    {
        match next_part(self.left) {
            None => {
                self.left = None;
                None
            }
            Some((part, left)) => {
                self.left = left;
                Some(part)
            }
        }
    }
}
