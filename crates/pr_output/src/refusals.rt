ghost use Rattle.std.specs.Prelude.{◌≡◌, ◌++◌, IfOk, OnOk};
ghost use Rattle.pr_output.specs.Output.{refusal_text};
ghost use Rattle.pr_output.specs.Puts.{Puts};

use crate::Cut;
use crate::lines::put;
use pr_io::Sink;
use pr_num::{Bytes, NoMemory};
use std::alloc::Global;

// Writes the line of a refusal into a buffer.
#[tactic(auto, unfolding(crate::specs::Output::refusal_text))]
fn write_line(out: &mut Vec<u8>, line: u32, kind: &[u8]) -> Result<(), NoMemory>
    ensures { OnOk result (out.new.items ≡ out.old.items ++ refusal_text line kind.now) }
{
    out.extend_from_slice(b"line ")?;
    out.extend_from_slice(itoa::Buffer::new().format(line).as_bytes())?;
    out.extend_from_slice(b": ")?;
    out.extend_from_slice(kind)?;
    Ok(out.extend_from_slice(b"\n")?)
}

/// The line that tells why an input is refused: the first line at fault, which counts from 1, and what is wrong with it.
pub fn refusal_line(alloc: Global, line: u32, kind: &[u8]) -> Result<Bytes, NoMemory>
    ensures { IfOk result (λ text. text ≡ refusal_text line kind.now) }
{
    let mut text = Vec::new(alloc);
    write_line(&mut text, line, kind)?;
    Ok(Bytes::from_vec(text))
}

/// Writes to a sink why an input is refused.
///
/// Where a write fails, the sink has a prefix of the text that lacks some bytes; where memory runs out, a prefix of it.
pub fn write_refusal<K: Sink>(
    alloc: Global,
    sink: &mut K,
    line: u32,
    kind: &[u8],
) -> Result<(), Cut>
    ensures { Puts result (K.written sink.old) (K.written sink.new) (K.faults sink.old) (K.faults sink.new)
        (refusal_text line kind.now) }
{
    let text = refusal_line(alloc, line, kind)?;
    put(sink, text.as_slice())
}
