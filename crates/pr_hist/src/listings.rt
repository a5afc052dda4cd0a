//! Programs as a debugger shows them: an address by program, label and line of the source.
ghost use Rattle.std.specs.Prelude.{◌≡◌, ◌++◌, option_map, OnOk};
ghost use Rattle.std.specs.Option.{option_copied};
ghost use Rattle.pr_hist.specs.Listings.{label_text, line_at, listed_at, past_text, place_text, source_or_none, source_text};

use pr_asm::Program;
use pr_num::layout::TEXT_BASE;
use pr_num::{Instruction, NoMemory};
use pr_text::Text;
use std::marker::Model;

/// A program with the lines of its source, seen by contracts as a plain record.
#[derive(Drop)]
pub struct Listing {
    pub program: Program,
    /// The number of the line on which each instruction stands, in their order.
    pub lines: Vec<u32>,
}

impl Model for Listing {
    ghost use Rattle.pr_hist.specs.Listings as plain;

    ghost Value = { plain.Listing };

    ghost view = { λ l. record { program = l.program; lines = l.lines.items } };
}

/// The place of the listing of a program of this name, counted from 0.
#[tactic(auto, unfolding(crate::specs::Listings::listed_at))]
pub fn listed_at(listings: &[Listing], name: &[u8]) -> Option<usize>
    ensures { result ≡ listed_at listings.now name.now }
{
    listings
        .iter()
        .position(|listing| listing.program.name().as_slice() == name)
}

impl Listing {
    /// The line of the instruction in which an address lies, where there is one.
    #[tactic(auto, unfolding(crate::specs::Listings::line_at))]
    fn line_at(&self, at: u64) -> Option<u32>
        ensures { result ≡ line_at self.now at }
    {
        if at < TEXT_BASE {
            return None;
        }
        let place = (at - TEXT_BASE) / Instruction::SIZE as u64;
        self.lines.get(place as usize).copied()
    }
}

/// Appends how far an address lies past its label.
#[tactic(auto, unfolding(crate::specs::Listings::past_text))]
fn write_past(text: &mut Text, n: u64) -> Result<(), NoMemory>
    ensures { OnOk result (text.new ≡ text.old ++ past_text n) }
{
    if n == 0 {
        return Ok(());
    }
    text.text(b"+")?;
    text.hex(n)
}

/// Appends a label, and how far an address lies past it.
fn write_label(text: &mut Text, symbol: Option<(&[u8], u64)>) -> Result<(), NoMemory>
    ensures { OnOk result (text.new ≡ text.old ++ label_text (option_map (λ s. (s.0.now, s.1)) symbol.entry)) }
{
    match symbol {
        None => Ok(()),
        Some((name, past)) => {
            text.text(b":")?;
            text.text(name)?;
            write_past(text, past)
        }
    }
}

/// Appends where an address on this line stands in its program.
#[tactic(auto, unfolding(crate::specs::Listings::source_text))]
fn write_source(text: &mut Text, listing: &Listing, at: u64, line: u32) -> Result<(), NoMemory>
    ensures { OnOk result (text.new ≡ text.old ++ source_text listing.now at line) }
{
    text.text(b" (")?;
    text.text(listing.program.name().as_slice())?;
    write_label(text, listing.program.symbol_at(at))?;
    text.text(b", line ")?;
    text.decimal(u64::from(line))?;
    text.text(b")")
}

/// The same, where the address stands on a line at all.
fn write_source_or_none(
    text: &mut Text,
    listing: &Listing,
    at: u64,
    line: Option<u32>,
) -> Result<(), NoMemory>
    ensures { OnOk result (text.new ≡ text.old ++ source_or_none listing.now at line) }
{
    match line {
        None => Ok(()),
        Some(line) => write_source(text, listing, at, line),
    }
}

/// Appends where an address stands in the program that its process runs, where that is known.
#[tactic(auto, unfolding(crate::specs::Listings::place_text))]
pub fn write_place(text: &mut Text, listing: Option<&Listing>, at: u64) -> Result<(), NoMemory>
    ensures { OnOk result (text.new ≡ text.old ++ place_text (option_copied listing.entry) at) }
{
    match listing {
        None => Ok(()),
        Some(listing) => {
            let line = listing.line_at(at);
            write_source_or_none(text, listing, at, line)
        }
    }
}
