ghost use Rattle.std.specs.Prelude.{◌≡◌, ◌++◌, OnOk, OnErr};
ghost use Rattle.pr_plain.specs.Buffers.{StartsWith};
ghost use Rattle.pr_text.specs.SpacedWords.{spaced};
ghost use Rattle.pr_plain.specs.HistoryText.{act_words, entry_text, heading_text, status_text};

use crate::actors::write_actor;
use crate::calls::{write_call, write_reply};
use crate::lines::{whole_or_nothing, write_pair};
use crate::turns::write_turn;
use crate::words::{append, write_digits, write_number, write_word};
use pr_model::{Act, Entry};
use pr_num::NoMemory;
use std::alloc::AllocError;

/// Writes what was done.
#[tactic(auto, using(crate::proofs::BufferLemmas::kept), unfolding(crate::specs::HistoryText::act_words))]
fn write_act(out: &mut Vec<u8>, act: &Act) -> Result<(), AllocError>
    ensures all { OnOk result (out.new.items ≡ out.old.items ++ spaced (act_words act.now)) }
    ensures kept { StartsWith out.new.items out.old.items }
{
    match act {
        Act::Call(call, reply) => {
            write_call(out, call)?;
            write_word(out, b"->")?;
            write_reply(out, reply)
        }
        Act::Turn(turned) => write_turn(out, *turned),
        Act::Tick(now) => write_number(out, *now),
    }
}

// The line of an entry, or a part of it.
#[tactic(auto, using(crate::proofs::BufferLemmas::kept), unfolding(pr_text::specs::SpacedWords::joined, crate::specs::HistoryText::entry_words, crate::specs::HistoryText::entry_line, crate::specs::HistoryText::entry_text))]
fn append_entry(out: &mut Vec<u8>, number: usize, entry: &Entry) -> Result<(), AllocError>
    ensures all { OnOk result (out.new.items ≡ out.old.items ++ entry_text number entry.now) }
    ensures kept { StartsWith out.new.items out.old.items }
{
    write_digits(out, number as u64)?;
    write_actor(out, entry.actor)?;
    write_act(out, &entry.act)?;
    append(out, b"\n")
}

/// Writes the line of an entry of a history, with the newline that ends it. `number` is the entry's place, which counts
/// from 0.
///
/// Any entry is written, also one that no machine makes. Where memory runs out the buffer is as it was.
#[tactic(auto, using(crate::proofs::BufferLemmas::cut))]
pub fn write_entry(out: &mut Vec<u8>, number: usize, entry: &Entry) -> Result<(), NoMemory>
    ensures written { OnOk result (out.new.items ≡ out.old.items ++ entry_text number entry.now) }
    ensures unchanged { OnErr result (out.new.items ≡ out.old.items) }
{
    let before = out.len();
    let written = append_entry(out, number, entry);
    whole_or_nothing(out, before, written)
}

/// Writes the line above the entries of a history, of which there are so many. Where memory runs out the buffer is as
/// it was.
#[tactic(auto, unfolding(crate::specs::HistoryText::heading_text))]
pub fn write_heading(out: &mut Vec<u8>, entries: usize) -> Result<(), NoMemory>
    ensures written { OnOk result (out.new.items ≡ out.old.items ++ heading_text entries) }
    ensures unchanged { OnErr result (out.new.items ≡ out.old.items) }
{
    write_pair(out, b"history", entries as u64)
}

/// Writes the line that tells a status. Where memory runs out the buffer is as it was.
#[tactic(auto, unfolding(crate::specs::HistoryText::status_text))]
pub fn write_status(out: &mut Vec<u8>, status: u8) -> Result<(), NoMemory>
    ensures written { OnOk result (out.new.items ≡ out.old.items ++ status_text status) }
    ensures unchanged { OnErr result (out.new.items ≡ out.old.items) }
{
    write_pair(out, b"status", status as u64)
}
