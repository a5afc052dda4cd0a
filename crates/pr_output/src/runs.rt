ghost use Rattle.std.specs.Prelude.{◌++◌};
ghost use Rattle.pr_output.specs.Output.{run_text, shown_history};
ghost use Rattle.pr_output.specs.Puts.{Puts};
ghost use Rattle.pr_output.specs.Reports.{reports_text};
ghost use Rattle.pr_plain.specs.HistoryText.{status_text};

use crate::lines::{put_entries, put_heading, put_status};
use crate::reports::put_reports;
use crate::{Cut, Report};
use pr_io::Sink;
use pr_model::History;
use std::alloc::Global;

/// Whether the history of a run is written.
#[derive(Clone, Copy, Debug, PartialEq, Eq)]
pub enum Showing {
    Whole,
    /// The heading and the entries are left out.
    Quiet,
}

// Puts a history, or nothing where it is left out.
fn put_history<K: Sink>(
    block: &mut Vec<u8>,
    sink: &mut K,
    showing: Showing,
    history: &History,
) -> Result<(), Cut>
    ensures { Puts result (K.written sink.old) (K.written sink.new) (K.faults sink.old) (K.faults sink.new)
        (shown_history showing history.now.entries) }
{
    match showing {
        Showing::Whole => {
            put_heading(block, sink, history.len())?;
            put_entries(block, sink, history)
        }
        Showing::Quiet => Ok(()),
    }
}

// Puts what stands below the history of a run.
fn put_end<K: Sink>(
    block: &mut Vec<u8>,
    sink: &mut K,
    reports: &[Report],
    status: u8,
) -> Result<(), Cut>
    ensures { Puts result (K.written sink.old) (K.written sink.new) (K.faults sink.old) (K.faults sink.new)
        (reports_text reports.now ++ status_text status) }
{
    put_reports(block, sink, reports)?;
    put_status(block, sink, status)
}

// Puts the text of a run.
fn put_run<K: Sink>(
    block: &mut Vec<u8>,
    sink: &mut K,
    showing: Showing,
    history: &History,
    reports: &[Report],
    status: u8,
) -> Result<(), Cut>
    ensures { Puts result (K.written sink.old) (K.written sink.new) (K.faults sink.old) (K.faults sink.new)
        (run_text showing history.now.entries reports.now status) }
{
    put_history(block, sink, showing, history)?;
    put_end(block, sink, reports, status)
}

/// Writes a run to a sink: a heading and a line for each entry, or neither; what controllers print; and the status with
/// which the program ends.
///
/// No more than a block of lines is written into memory at a time. Where a write fails, the sink has a prefix of the
/// text that lacks some bytes; where memory runs out, a prefix of it.
pub fn write_run<K: Sink>(
    alloc: Global,
    sink: &mut K,
    showing: Showing,
    history: &History,
    reports: &[Report],
    status: u8,
) -> Result<(), Cut>
    ensures { Puts result (K.written sink.old) (K.written sink.new) (K.faults sink.old) (K.faults sink.new)
        (run_text showing history.now.entries reports.now status) }
{
    put_run(
        &mut Vec::new(alloc),
        sink,
        showing,
        history,
        reports,
        status,
    )
}
