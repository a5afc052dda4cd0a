//! What controllers print at the end of a run.
ghost use Rattle.std.specs.Prelude.{◌≡◌, ◌++◌, OnOk, codes};
ghost use Rattle.pr_output.specs.Puts.{Puts};
ghost use Rattle.pr_output.specs.Reports.{printer_name, report_text, reports_text, titled};

use crate::Cut;
use crate::lines::put;
use pr_io::Sink;
use pr_model::{ToolKind, tool_name};
use pr_num::{Bytes, NoMemory};

/// A controller that prints. A script does not.
#[derive(Clone, Copy, Debug, PartialEq, Eq)]
pub enum Printer {
    Truss,
    Tool(ToolKind),
    Gcore,
    Probe,
}

impl Printer {
    /// Its name, as `"truss"` or `"pmap"`.
    #[tactic(auto, unfolding(crate::specs::Reports::printer_name))]
    fn name(self) -> &'static str
        ensures { result.now ≡ printer_name self }
    {
        match self {
            Printer::Truss => "truss",
            Printer::Tool(kind) => tool_name(kind),
            Printer::Gcore => "gcore",
            Printer::Probe => "apfiles",
        }
    }
}

/// What a controller prints.
#[derive(Drop)]
pub struct Report {
    /// The number of the controller.
    pub controller: u32,
    pub printer: Printer,
    pub text: Bytes,
}

/// Writes a line of a title, a number and a name into a buffer.
#[tactic(auto, unfolding(crate::specs::Reports::titled))]
fn write_titled(out: &mut Vec<u8>, title: &[u8], number: u32, name: &[u8]) -> Result<(), NoMemory>
    ensures { OnOk result (out.new.items ≡ out.old.items ++ titled title.now number name.now) }
{
    out.extend_from_slice(title)?;
    out.extend_from_slice(itoa::Buffer::new().format(number).as_bytes())?;
    out.extend_from_slice(b" ")?;
    out.extend_from_slice(name)?;
    Ok(out.extend_from_slice(b"\n")?)
}

/// Puts the line above what a controller prints. `block` is a buffer.
fn put_title<K: Sink>(block: &mut Vec<u8>, sink: &mut K, report: &Report) -> Result<(), Cut>
    ensures { Puts result (K.written sink.old) (K.written sink.new) (K.faults sink.old) (K.faults sink.new)
        (titled (codes "controller ") report.now.controller (printer_name report.now.printer)) }
{
    block.clear();
    let name = report.printer.name().as_bytes();
    write_titled(block, b"controller ", report.controller, name)?;
    put(sink, block)
}

/// Puts a report. `block` is a buffer, into which what the controller prints is not copied.
fn put_report<K: Sink>(block: &mut Vec<u8>, sink: &mut K, report: &Report) -> Result<(), Cut>
    ensures { Puts result (K.written sink.old) (K.written sink.new) (K.faults sink.old) (K.faults sink.new)
        (report_text report.now) }
{
    put_title(block, sink, report)?;
    put(sink, report.text.as_slice())
}

/// Puts reports, one below the other. `block` is a buffer.
#[tactic(auto, unfolding(crate::specs::Reports::reports_text))]
pub(crate) fn put_reports<K: Sink>(
    block: &mut Vec<u8>,
    sink: &mut K,
    reports: &[Report],
) -> Result<(), Cut>
    ensures { Puts result (K.written sink.old) (K.written sink.new) (K.faults sink.old) (K.faults sink.new)
        (reports_text reports.now) }
{
    for report in reports {
        put_report(block, sink, report)?;
    }
    Ok(())
}
