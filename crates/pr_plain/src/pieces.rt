//! Bytes in pieces, cut at each byte of one kind: lines at newlines, words at blanks.
ghost use Rattle.std.specs.Prelude.{◌≡◌, ◌==◌, ◌∷◌, IfNone};
ghost use Rattle.std.specs.List.{position, slice_split};
ghost use Rattle.std.specs.Option.{option_copied};
ghost use Rattle.pr_plain.specs.Cuts.{pieces_left};
ghost use Rattle.pr_plain.specs.WordReading.{word_at, is_done};
ghost use Rattle.pr_plain.specs.Readings.{Says};

use std::marker::Model;

/// The pieces that are still to come, seen by contracts as their list. Taking one goes over its bytes and no others.
#[derive(Drop)]
pub struct Pieces<'a> {
    /// What the pieces are cut from; none behind the last.
    rest: Option<&'a [u8]>,
    /// The byte at which they are cut.
    cut: u8,
}

impl<'a> Model for Pieces<'a> {
    ghost use Rattle.std.specs.Prelude.{ℕ, List};
    ghost use Rattle.pr_plain.specs.Cuts.{pieces_left};
    ghost use Rattle.std.specs.Option.{option_copied};

    ghost Value = { List (List ℕ) };

    ghost view = { λ s. pieces_left s.cut (option_copied s.rest) };
}

impl<'a> Pieces<'a> {
    /// The pieces of these bytes. There is at least one, since what has no such byte is one piece.
    pub fn of(bytes: &'a [u8], cut: u8) -> Pieces<'a>
        ensures { result ≡ slice_split (λ b. b == cut) bytes.now }
    {
        Pieces {
            rest: Some(bytes),
            cut,
        }
    }

    /// The next piece and those behind it.
    #[tactic(auto, unfolding(crate::specs::WordReading::word_at))]
    pub fn split_first(&self) -> Option<(&'a [u8], Pieces<'a>)>
        ensures { Says (λ x. (x.0.now, x.1)) result (word_at self.now) }
    {
        let cut = self.cut;
        let (piece, rest) = first_piece(self.rest?, cut);
        Some((piece, Pieces { rest, cut }))
    }

    /// Takes the next piece.
    pub fn next(&mut self) -> Option<&'a [u8]>
        ensures piece { Says (λ w. (w.now, self.new)) result (word_at self.old) }
        ensures ended { IfNone result (self.new ≡ self.old) }
    {
        let (piece, rest) = self.split_first()?;
        *self = rest;
        Some(piece)
    }

    /// Whether no piece is left.
    #[tactic(auto, using(crate::proofs::PieceLemmas::done))]
    pub fn is_done(&self) -> bool
        ensures { result ≡ is_done self.now }
    {
        self.rest.is_none()
    }
}

/// Where the first such byte stands.
fn place_of(bytes: &[u8], cut: u8) -> Option<usize>
    ensures { result ≡ position (λ b. b == cut) bytes.now }
{
    bytes.iter().position(|b| *b == cut)
}

/// The bytes before the first such byte, and those behind it.
fn first_piece(bytes: &[u8], cut: u8) -> (&[u8], Option<&[u8]>)
    ensures { slice_split (λ b. b == cut) bytes.now ≡ result.0.now ∷ pieces_left cut (option_copied result.1) }
{
    match place_of(bytes, cut) {
        None => (bytes, None),
        Some(end) => (&bytes[..end], Some(&bytes[end + 1..])),
    }
}
