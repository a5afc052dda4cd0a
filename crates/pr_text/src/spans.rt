ghost use Rattle.std.specs.Prelude.{◌≡◌};
ghost use Rattle.pr_text.specs.Words.{words_of};

use crate::scanning::{word_end, word_start};
use std::marker::Model;

/// Where a word stands in its line: the bytes from `start` on and before `end`.
#[derive(Clone, Copy, Debug, PartialEq, Eq)]
pub struct Word {
    pub start: usize,
    pub end: usize,
}

impl Word {
    ghost use Rattle.pr_text.specs.Words.{text_of};
    ghost use Rattle.pr_text.specs.Division.{StandsIn};

    /// The bytes of the word in its line.
    pub fn text(self, line: &[u8]) -> &[u8]
        requires { StandsIn line.now self }
        ensures { result.now ≡ text_of line.now self }
    {
        &line[self.start..self.end]
    }
}

/// The words of a line that are still to come, seen by contracts as their list.
#[derive(Drop)]
pub struct Words<'a> {
    line: &'a [u8],
    at: usize,
}

impl<'a> Model for Words<'a> {
    ghost use Rattle.std.specs.Prelude.{◌≤◌, List, length, drop};
    ghost use Rattle.pr_text.specs.declared.spans.Word.{Word};
    ghost use Rattle.pr_text.specs.Words.{words_from};

    ghost Value = { List Word };

    ghost view = { λ s. words_from s.at (drop s.at s.line.now) };

    ghost invariant = { λ s. s.at ≤ length s.line.now };
}

impl<'a> Words<'a> {
    /// The words of a line, from its first byte on.
    pub(crate) fn new(line: &'a [u8]) -> Words<'a>
        ensures { result ≡ words_of line.now }
    {
        Words { line, at: 0 }
    }
}

impl<'a> Iterator for Words<'a> {
    type Item = Word;

    ghost use Rattle.std.specs.Iterator.{YieldsFirst, item_count};

    ghost next_gives = { YieldsFirst (λ s. s) };

    ghost remaining = { item_count (λ s. s) };

    #[tactic(auto, using(crate::proofs::WordSteps::word_steps))]
    fn next(&mut self) -> Option<Word> {
        let start = word_start(self.line, self.at);
        if start == self.line.len() {
            self.at = start;
            return None;
        }
        let end = word_end(self.line, start);
        self.at = end;
        Some(Word { start, end })
    }
}
