//! The words of a line, one after another.
ghost use Rattle.std.specs.Prelude.{◌≡◌, [], ◌∷◌, MatchOption};
ghost use Rattle.pr_text.specs.Words.{texts_of};

use crate::{Words, words};
use std::marker::Model;

/// The words of a line that are still to come, seen by contracts as the list of their bytes.
#[derive(Drop)]
pub struct Tokens<'a> {
    line: &'a [u8],
    words: Words<'a>,
}

impl<'a> Model for Tokens<'a> {
    ghost use Rattle.std.specs.Prelude.{ℕ, List, All, map};
    ghost use Rattle.pr_text.specs.Words.{text_of};
    ghost use Rattle.pr_text.specs.Division.{StandsIn};

    ghost Value = { List (List ℕ) };

    ghost view = { λ t. map (text_of t.line.now) t.words };

    ghost invariant = { λ t. All (StandsIn t.line.now) t.words };
}

impl<'a> Tokens<'a> {
    /// The words of a line.
    #[tactic(auto, using(crate::proofs::DivisionLemmas::word_laws))]
    pub fn of(line: &'a [u8]) -> Tokens<'a>
        ensures { result ≡ texts_of line.now }
    {
        Tokens {
            line,
            words: words(line),
        }
    }

    /// The next word.
    pub fn next(&mut self) -> Option<&'a [u8]>
        ensures { MatchOption result ((self.old ≡ []) × (self.new ≡ [])) (λ word. self.old ≡ word.now ∷ self.new) }
    {
        let word = self.words.next()?;
        Some(word.text(self.line))
    }
}
