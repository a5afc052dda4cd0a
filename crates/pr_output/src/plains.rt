//! The text of a run as the machine without controllers makes it.
ghost use Rattle.std.specs.Prelude.{◌≡◌, ◌++◌, Err, OnOk};
ghost use Rattle.std.specs.List.{flat_map};
ghost use Rattle.pr_output.specs.Output.{plain_run_text};
ghost use Rattle.pr_output.specs.Puts.{Puts};
ghost use Rattle.pr_plain.specs.PlainText.{step_text};

use crate::Cut;
use crate::lines::put;
use pr_io::Sink;
use pr_model::Step;
use pr_num::NoMemory;
use pr_plain::{write_plain_heading, write_status, write_step, write_trace_heading};
use std::alloc::Global;

/// Writes the lines of steps into a buffer.
fn write_steps(out: &mut Vec<u8>, steps: &[Step]) -> Result<(), NoMemory>
    ensures { OnOk result (out.new.items ≡ out.old.items ++ flat_map step_text steps.now) }
{
    for step in steps {
        write_step(out, *step)?;
    }
    Ok(())
}

/// Writes the text of a run into a buffer.
#[tactic(auto, unfolding(crate::specs::Output::plain_run_text, pr_plain::specs::PlainText::plain_text))]
fn write_text(out: &mut Vec<u8>, steps: &[Step], trace: &[Step], status: u8) -> Result<(), NoMemory>
    ensures { OnOk result (out.new.items ≡ out.old.items ++ plain_run_text steps.now trace.now status) }
{
    write_plain_heading(out, steps.len())?;
    write_steps(out, steps)?;
    write_trace_heading(out, trace.len())?;
    write_steps(out, trace)?;
    write_status(out, status)
}

/// Writes to a sink the steps that the machine without controllers makes in a run, the trace of the run, and the status
/// with which the program ends.
///
/// The whole text is in memory. Where a write fails, the sink has a prefix of the text that lacks some bytes; where
/// memory runs out, nothing of it.
pub fn write_plain<K: Sink>(
    alloc: Global,
    sink: &mut K,
    steps: &[Step],
    trace: &[Step],
    status: u8,
) -> Result<(), Cut>
    ensures puts { Puts result (K.written sink.old) (K.written sink.new) (K.faults sink.old) (K.faults sink.new)
        (plain_run_text steps.now trace.now status) }
    ensures nothing { result ≡ Err Cut.NoMemory → K.written sink.new ≡ K.written sink.old }
{
    let mut text = Vec::new(alloc);
    write_text(&mut text, steps, trace, status)?;
    put(sink, &text)
}
