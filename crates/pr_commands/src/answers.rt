ghost use Rattle.std.specs.Prelude.{◌≡◌, ◌≢◌, [], Err};
ghost use Rattle.pr_output.specs.Puts.{Puts};
ghost use Rattle.pr_commands.specs.Answers.{explained, generated};
ghost use Rattle.pr_commands.specs.Giving.{Responds, status_after, text_of};
ghost use Rattle.pr_commands.specs.declared.outcomes.Status.TheVariants.{OutOfMemory};

use crate::outcomes::{Ending, Status, without_history};
use itoa::Buffer;
use pr_io::{Sink, write_all};
use pr_output::Cut;
use pr_plain::generated_pieces;
use std::alloc::Global;

/// What is told of words that ask for nothing.
const USAGE: &[u8] = b"usage: proclab run [-q] [-j N] | check | plain | gen N | core TOOL\n";

/// The status where a text of this status was written, or was not.
#[tactic(auto, unfolding(crate::specs::Giving::status_after))]
pub fn status_after(written: Result<(), Cut>, status: Status) -> Status
    ensures after { result ≡ status_after written status }
    ensures had_memory { written ≢ Err Cut.NoMemory → status ≢ OutOfMemory → result ≢ OutOfMemory }
{
    match written {
        Ok(()) => status,
        Err(Cut::WriteFailed) => Status::WriteFailed,
        Err(Cut::NoMemory) => Status::OutOfMemory,
    }
}

/// Writes how the program is called. Takes no memory.
pub fn explain<K: Sink>(alloc: Global, sink: &mut K) -> Ending
    ensures responds { Responds explained ⊥ result.status result.history.entries
        (K.written sink.old) (K.written sink.new) (K.faults sink.old) (K.faults sink.new) }
    ensures had_memory { result.status ≢ OutOfMemory }
    ensures no_history { result.history.entries ≡ [] }
{
    let written = write_pieces(sink, &[USAGE]);
    without_history(alloc, status_after(written, Status::Usage))
}

/// Writes the pieces of a text, one after another. Takes no memory.
pub fn write_pieces<K: Sink>(sink: &mut K, pieces: &[&[u8]]) -> Result<(), Cut>
    ensures put { Puts result (K.written sink.old) (K.written sink.new) (K.faults sink.old) (K.faults sink.new)
        (text_of pieces.now) }
    ensures had_memory { result ≢ Err Cut.NoMemory }
{
    for piece in pieces {
        write_all(sink, piece)?;
    }
    Ok(())
}

/// Writes the scenario for so many children. Takes no memory.
pub fn generate<K: Sink>(alloc: Global, children: u32, sink: &mut K) -> Ending
    ensures responds { Responds (generated children) ⊥ result.status result.history.entries
        (K.written sink.old) (K.written sink.new) (K.faults sink.old) (K.faults sink.new) }
    ensures had_memory { result.status ≢ OutOfMemory }
    ensures no_history { result.history.entries ≡ [] }
{
    let mut buffer = Buffer::new();
    let pieces = generated_pieces(buffer.format(children).as_bytes());
    let written = write_pieces(sink, &pieces);
    without_history(alloc, status_after(written, Status::Done))
}
