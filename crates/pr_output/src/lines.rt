//! Texts put into a sink one after another, each first written into a buffer.
ghost use Rattle.std.specs.Prelude.{◌≢◌, ◌<◌, length, Err, IfOk};
ghost use Rattle.pr_output.specs.Blocks.{IsNextBlock};
ghost use Rattle.pr_output.specs.Puts.{Puts};
ghost use Rattle.pr_plain.specs.HistoryText.{heading_text, entries_text, status_text};

use crate::Cut;
use pr_io::{Sink, write_all};
use pr_model::History;
use pr_num::NoMemory;
use pr_plain::{write_entry, write_heading, write_status};

/// Puts a text. Takes no memory.
pub(crate) fn put<K: Sink>(sink: &mut K, text: &[u8]) -> Result<(), Cut>
    ensures puts { Puts result (K.written sink.old) (K.written sink.new) (K.faults sink.old) (K.faults sink.new)
        text.now }
    ensures sure { result ≢ Err Cut.NoMemory }
{
    Ok(write_all(sink, text)?)
}

/// Puts the line above the entries. `block` is a buffer.
pub(crate) fn put_heading<K: Sink>(
    block: &mut Vec<u8>,
    sink: &mut K,
    entries: usize,
) -> Result<(), Cut>
    ensures { Puts result (K.written sink.old) (K.written sink.new) (K.faults sink.old) (K.faults sink.new)
        (heading_text entries) }
{
    block.clear();
    write_heading(block, entries)?;
    put(sink, block)
}

/// Lines are put as soon as they have so many bytes together. Contracts know the number as `block_size`.
const BLOCK: usize = 65_536;

/// Writes the lines of the entries from a place on into a buffer, until that is a block or no entry is left. Answers
/// the place of the first entry that is not in it.
fn fill_block(block: &mut Vec<u8>, history: &History, from: usize) -> Result<usize, NoMemory>
    requires { from < length history.now.entries }
    ensures { IfOk result (λ to. IsNextBlock history.now.entries from to block.new.items) }
{
    block.clear();
    for at in from..history.len() {
        let entry = history.get(at).unwrap();
        write_entry(block, at, entry)?;
        if block.len() >= BLOCK {
            return Ok(at + 1);
        }
    }
    Ok(history.len())
}

/// Puts the lines of all entries, a block at a time. `block` is a buffer.
///
/// How large a block is, `fill_block` says. Nothing says how many writes are made: of a sink its bytes and its faults
/// are known.
pub(crate) fn put_entries<K: Sink>(
    block: &mut Vec<u8>,
    sink: &mut K,
    history: &History,
) -> Result<(), Cut>
    ensures { Puts result (K.written sink.old) (K.written sink.new) (K.faults sink.old) (K.faults sink.new)
        (entries_text 0 history.now.entries) }
{
    let mut at = 0;
    while at < history.len() {
        let next = fill_block(block, history, at)?;
        put(sink, block)?;
        at = next;
    }
    Ok(())
}

/// Puts the line that tells the status. `block` is a buffer.
pub(crate) fn put_status<K: Sink>(block: &mut Vec<u8>, sink: &mut K, status: u8) -> Result<(), Cut>
    ensures { Puts result (K.written sink.old) (K.written sink.new) (K.faults sink.old) (K.faults sink.new)
        (status_text status) }
{
    block.clear();
    write_status(block, status)?;
    put(sink, block)
}
