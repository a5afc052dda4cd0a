//! The entries of a history, read off their lines one after another.
ghost use Rattle.std.specs.Prelude.{◌≡◌, ◌+◌, ◌<◌, ◌^◌, length, OnErr};
ghost use Rattle.pr_plain.specs.EntryLines.{below_heading, next_of};
ghost use Rattle.pr_plain.specs.Readings.{Answers, LineGave};

use crate::entry_readers::{entry_in, heading_in};
use crate::pieces::Pieces;
use crate::refusals::{HistRefusal, Refused};
use pr_model::Entry;
use std::alloc::Global;
use std::marker::Model;

/// The entries of a history, of which each is read off the next line as it is asked for. Contracts see the lines that
/// are left, the number of the first entry's line, how many entries there are to be, and how many were read.
#[derive(Drop)]
pub struct EntryLines<'a> {
    lines: Pieces<'a>,
    first: u32,
    count: u64,
    read: u64,
}

impl<'a> Model for EntryLines<'a> {
    ghost use Rattle.std.specs.Prelude.{◌+◌, ◌<◌, ◌^◌, length};
    ghost use Rattle.pr_plain.specs.EntryLines.{EntriesAhead};

    ghost Value = { EntriesAhead };

    ghost view = { λ a. record { first = a.first; count = a.count; read = a.read; lines = a.lines } };

    ghost invariant = { λ a. a.first + a.read + length a.lines < 2 ^ 32 };
}

/// What a line answered, with the number of the line where it is refused.
fn at_line(line: u32, answer: Result<Entry, Refused>) -> Result<Entry, HistRefusal>
    ensures { LineGave line answer result }
{
    match answer {
        Ok(entry) => Ok(entry),
        Err(Refused::Malformed) => Err(HistRefusal::Line(line)),
        Err(Refused::NoMemory(error)) => Err(HistRefusal::from(error)),
    }
}

impl<'a> EntryLines<'a> {
    /// The entries of the history that a text begins with, of which none is read yet. Or the number of its first line,
    /// from which its lines count, where that is no heading.
    #[tactic(auto, unfolding(crate::specs::EntryLines::below_heading, crate::specs::EntryReading::next_heading, crate::specs::WordReading::word_at))]
    pub fn of(text: &'a [u8], first_line: u32) -> Result<EntryLines<'a>, u32>
        requires { first_line + length text.now < 2 ^ 32 }
        ensures { result ≡ below_heading first_line text.now }
    {
        let Some((bytes, rest)) = Pieces::of(text, b'\n').split_first() else {
            return Err(first_line);
        };
        match heading_in(bytes) {
            None => Err(first_line),
            Some(count) => Ok(EntryLines {
                lines: rest,
                first: first_line + 1,
                count,
                read: 0,
            }),
        }
    }

    /// How many entries there are to be in all, as the heading says.
    pub fn count(&self) -> u64
        ensures { result ≡ self.now.count }
    {
        self.count
    }

    /// Reads the next entry. Where its line is wrong, or memory runs out, the line is the next one still.
    #[tactic(auto, unfolding(crate::specs::EntryLines::next_of, crate::specs::EntryReading::next_entry))]
    pub fn next(&mut self, alloc: Global) -> Result<Entry, HistRefusal>
        ensures read { Answers (λ e. (e, self.new)) result (next_of self.old) }
        ensures few { self.new.read < 2 ^ 32 }
        ensures err { OnErr result (self.new ≡ self.old) }
    {
        let line = self.first + self.read as u32;
        let Some((bytes, rest)) = self.lines.split_first() else {
            return Err(HistRefusal::Line(line));
        };
        let entry = at_line(line, entry_in(alloc, self.read, bytes))?;
        self.lines = rest;
        self.read += 1;
        Ok(entry)
    }
}
