//! The text of what truss reports.
ghost use Rattle.std.specs.Prelude.{◌≡◌, ◌∷◌, ◌++◌, [], Some, OnOk, option_to_list};
ghost use Rattle.std.specs.List.{flat_map};
ghost use Rattle.pr_line.specs.EventLines.{event_text};
ghost use Rattle.pr_text.specs.TextLines.{newline};
ghost use Rattle.pr_truss.specs.Reports.{refusal_text, call_line, report_text, refusal_or_nothing, pending_at, all_reports, report_lines};

use crate::Truss;
use crate::reports::Report;
use crate::stages::Stage;
use crate::texts::MemoryRead;
use itoa::Buffer;
use pr_line::{Function, Options, event_line, function_line};
use pr_num::{Errno, NoMemory};
use pr_rec::LwpStatus;
use pr_text::Line;
use std::alloc::Global;

/// Adds a refusal of something.
pub(crate) fn write_refusal(
    out: &mut Vec<u8>,
    cause: &[u8],
    name: &[u8],
    errno: Errno,
) -> Result<(), NoMemory>
    ensures { OnOk result (out.new.items ≡ out.old.items ++ refusal_text cause.now name.now errno) }
{
    out.extend_from_slice(b"truss: cannot ")?;
    out.extend_from_slice(cause)?;
    out.extend_from_slice(name)?;
    out.extend_from_slice(b": ")?;
    out.extend_from_slice(errno.name().as_bytes())?;
    out.push(b'\n')?;
    Ok(())
}

/// Adds a report that is a refusal.
#[tactic(auto, unfolding(crate::specs::Reports::refusal_or_nothing))]
fn write_if_refusal(out: &mut Vec<u8>, report: &Report) -> Result<(), NoMemory>
    ensures { OnOk result (out.new.items ≡ out.old.items ++ refusal_or_nothing report.now) }
{
    match report {
        Report::CannotStart { program, errno } => {
            write_refusal(out, b"start ", program.as_slice(), *errno)
        }
        Report::CannotTrace { pid, errno } => {
            write_refusal(
                out,
                b"trace ",
                Buffer::new().format(*pid).as_bytes(),
                *errno,
            )
        }
        Report::Event { .. } | Report::Called { .. } => Ok(()),
    }
}

/// Adds all refusals.
pub(crate) fn write_refusals(out: &mut Vec<u8>, reports: &[Report]) -> Result<(), NoMemory>
    ensures { OnOk result (out.new.items ≡ out.old.items ++ flat_map refusal_or_nothing reports.now) }
{
    for report in reports {
        write_if_refusal(out, report)?;
    }
    Ok(())
}

/// Adds an event's line. `line` is a buffer.
fn write_event(
    out: &mut Vec<u8>,
    line: &mut Line,
    options: &Options,
    pid: u32,
    lwp: &LwpStatus,
    text: &Option<MemoryRead>,
) -> Result<(), NoMemory>
    ensures { OnOk result
        (out.new.items ≡ out.old.items ++ event_text options.now pid lwp.now text.now ++ newline ∷ []) }
{
    let came = match text {
        Some(text) => Some((text.as_slice(), text.is_short())),
        None => None,
    };
    line.clear();
    match event_line(line, options, pid, lwp, came) {
        Ok(()) => {}
        Err(_) => unreachable!(),
    }
    out.extend_from_slice(line.bytes())?;
    out.push(b'\n')?;
    Ok(())
}

/// Adds the line of a call of a function. `line` is a buffer.
fn write_call(
    out: &mut Vec<u8>,
    line: &mut Line,
    options: &Options,
    pid: u32,
    lwp: u32,
    function: &Function,
    arguments: &[u64; 3],
) -> Result<(), NoMemory>
    ensures { OnOk result (out.new.items
        ≡ out.old.items ++ call_line options.now pid lwp arguments.now (Some function.now)) }
{
    line.clear();
    match function_line(line, options, pid, lwp, &function.name, arguments) {
        Ok(()) => {}
        Err(_) => unreachable!(),
    }
    out.extend_from_slice(line.bytes())?;
    out.push(b'\n')?;
    Ok(())
}

/// Adds a report.
#[tactic(auto, unfolding(crate::specs::Reports::report_text, crate::specs::Reports::refusal_or_nothing))]
fn write_report(
    out: &mut Vec<u8>,
    line: &mut Line,
    options: &Options,
    report: &Report,
) -> Result<(), NoMemory>
    ensures { OnOk result (out.new.items ≡ out.old.items ++ report_text options.now report.now) }
{
    match report {
        Report::Event { pid, lwp, text } => write_event(out, line, options, *pid, lwp, text),
        Report::Called {
            pid,
            lwp,
            function,
            arguments,
        } => match options.functions.as_slice().get(*function) {
            Some(function) => write_call(out, line, options, *pid, *lwp, function, arguments),
            None => Ok(()),
        },
        _ => write_if_refusal(out, report),
    }
}

/// Adds reports.
fn write_reports(
    out: &mut Vec<u8>,
    line: &mut Line,
    options: &Options,
    reports: &[Report],
) -> Result<(), NoMemory>
    ensures { OnOk result (out.new.items ≡ out.old.items ++ flat_map (report_text options.now) reports.now) }
{
    for report in reports {
        write_report(out, line, options, report)?;
    }
    Ok(())
}

impl Truss {
    /// The event whose memory is still to be read.
    pub(crate) fn pending(&self) -> Option<Report>
        ensures { option_to_list result ≡ pending_at self.now.state self.now.state.stage }
    {
        match self.stage {
            Stage::ReadingText { place, lwp, .. } => Some(Report::Event {
                pid: self.traced_at(place).pid,
                lwp,
                text: None,
            }),
            _ => None,
        }
    }

    /// Adds a line for each report.
    #[tactic(auto, unfolding(crate::specs::Reports::report_lines, crate::specs::Reports::all_reports))]
    pub(crate) fn write_lines(&self, alloc: Global, out: &mut Vec<u8>) -> Result<(), NoMemory>
        ensures { OnOk result (out.new.items ≡ out.old.items ++ report_lines self.now.state) }
    {
        let mut line = Line::new(alloc)?;
        write_reports(out, &mut line, &self.options, &self.reports)?;
        if let Some(report) = self.pending() {
            write_report(out, &mut line, &self.options, &report)?;
        }
        Ok(())
    }
}
