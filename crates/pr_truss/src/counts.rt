//! The counts of truss with `-c`.
ghost use Rattle.std.specs.Prelude.{◌+◌, ◌≡◌, ◌<◌, ◌++◌, OnOk, codes, decimal};
ghost use Rattle.std.specs.List.{flat_map};
ghost use Rattle.pr_num.specs.Limits.{signal_count};
ghost use Rattle.pr_num.specs.Faults.{faults};
ghost use Rattle.pr_num.specs.Signals.{signals};
ghost use Rattle.pr_num.specs.Syscalls.{syscalls, syscall_number};
ghost use Rattle.pr_rec.specs.Fields.{number_or_zero};
ghost use Rattle.pr_truss.specs.Counts.{event_in, call_in, has_failed, signal_in, fault_in, number_in, total_of, IsTable, one_count_row, two_counts_row, row_of_call, call_row_in, call_row, total_row, row_of, signal_row_in, fault_row_in, signal_row, fault_row, call_counts, other_counts, counts_text};

use crate::reports::Report;
use itoa::Buffer;
use pr_line::{Event, event_of};
use pr_num::limits::SIGNAL_COUNT;
use pr_num::{Flt, NoMemory, Sig, Sysno};

/// What is counted.
#[derive(Clone, Copy)]
enum Kind {
    Calls,
    /// Calls that ended with an errno.
    Errors,
    Signals,
    Faults,
}

/// The numbers of the widest table lie below this one.
const NUMBERS: usize = SIGNAL_COUNT + 1;

/// The event of a report; a refusal is none.
fn event_in(report: &Report) -> Option<Event>
    ensures { result ≡ event_in report.now }
{
    match report {
        Report::Event { lwp, .. } => event_of(lwp),
        _ => None,
    }
}

/// The call of a report.
fn call_in(report: &Report) -> Option<Sysno>
    ensures { result ≡ call_in (event_in report.now) }
{
    match event_in(report) {
        Some(Event::Entered { call, .. } | Event::Left { call, .. }) => Some(call),
        _ => None,
    }
}

/// Whether a report is a call that ended with an errno.
fn has_failed(report: &Report) -> bool
    ensures { result ≡ has_failed (event_in report.now) }
{
    match event_in(report) {
        Some(Event::Left { result, .. }) => result.is_err(),
        _ => false,
    }
}

/// The signal of a report.
fn signal_in(report: &Report) -> Option<Sig>
    ensures { result ≡ signal_in (event_in report.now) }
{
    match event_in(report) {
        Some(Event::Received { signal, .. }) => Some(signal),
        _ => None,
    }
}

/// The fault of a report.
fn fault_in(report: &Report) -> Option<Flt>
    ensures { result ≡ fault_in (event_in report.now) }
{
    match event_in(report) {
        Some(Event::Incurred { fault, .. }) => Some(fault),
        _ => None,
    }
}

/// The number of the call of a report.
fn call_number(report: &Report) -> u64
    ensures value { result ≡ number_or_zero syscall_number (call_in (event_in report.now)) }
    ensures range { result < signal_count + 1 }
{
    match call_in(report) {
        Some(call) => call.number(),
        None => 0,
    }
}

/// The number of what a report counts as; 0 where it counts as none.
#[tactic(auto, unfolding(crate::specs::Counts::number_in))]
fn number_in(kind: Kind, report: &Report) -> u64
    ensures value { result ≡ number_in kind report.now }
    ensures range { result < signal_count + 1 }
{
    match kind {
        Kind::Calls => call_number(report),
        Kind::Errors if has_failed(report) => call_number(report),
        Kind::Errors => 0,
        Kind::Signals => match signal_in(report) {
            Some(signal) => signal.number(),
            None => 0,
        },
        Kind::Faults => match fault_in(report) {
            Some(fault) => fault.number(),
            None => 0,
        },
    }
}

/// How many reports count as the entry of each number.
fn counts_of(reports: &[Report], kind: Kind) -> [u64; NUMBERS]
    ensures { IsTable reports.now kind result }
{
    let mut table = [0; NUMBERS];
    for report in reports {
        table[number_in(kind, report) as usize] += 1;
    }
    table
}

/// How many reports count as any entry.
#[tactic(auto, unfolding(crate::specs::Counts::total_of))]
fn total_of(reports: &[Report], kind: Kind) -> usize
    ensures { result ≡ total_of reports.now kind }
{
    reports
        .iter()
        .filter(|report| number_in(kind, report) != 0)
        .count()
}

/// Adds a blank and a number.
fn write_number(out: &mut Vec<u8>, n: u64) -> Result<(), NoMemory>
    ensures { OnOk result (out.new.items ≡ out.old.items ++ (codes " " ++ decimal n)) }
{
    out.push(b' ')?;
    out.extend_from_slice(Buffer::new().format(n).as_bytes())?;
    Ok(())
}

/// Adds a row with a name and its count.
fn write_one(out: &mut Vec<u8>, name: &[u8], count: u64) -> Result<(), NoMemory>
    ensures { OnOk result (out.new.items ≡ out.old.items ++ one_count_row name.now count) }
{
    out.extend_from_slice(name)?;
    write_number(out, count)?;
    out.push(b'\n')?;
    Ok(())
}

/// Adds a row with a name and two counts.
fn write_two(out: &mut Vec<u8>, name: &[u8], count: u64, errors: u64) -> Result<(), NoMemory>
    ensures { OnOk result (out.new.items ≡ out.old.items ++ two_counts_row name.now count errors) }
{
    out.extend_from_slice(name)?;
    write_number(out, count)?;
    write_number(out, errors)?;
    out.push(b'\n')?;
    Ok(())
}

/// Adds the row of a call, if it was made.
fn write_call(out: &mut Vec<u8>, call: Sysno, count: u64, errors: u64) -> Result<(), NoMemory>
    ensures { OnOk result (out.new.items ≡ out.old.items ++ row_of_call call count errors) }
{
    if count == 0 {
        return Ok(());
    }
    write_two(out, call.name().as_bytes(), count, errors)
}

/// Adds the row of a name, if anything was counted.
fn write_row(out: &mut Vec<u8>, name: &[u8], count: u64) -> Result<(), NoMemory>
    ensures { OnOk result (out.new.items ≡ out.old.items ++ row_of name.now count) }
{
    if count == 0 {
        return Ok(());
    }
    write_one(out, name, count)
}

#[tactic(auto, unfolding(crate::specs::Counts::total_row))]
fn write_total(out: &mut Vec<u8>, reports: &[Report]) -> Result<(), NoMemory>
    ensures { OnOk result (out.new.items ≡ out.old.items ++ total_row reports.now) }
{
    let calls = total_of(reports, Kind::Calls) as u64;
    let errors = total_of(reports, Kind::Errors) as u64;
    write_two(out, b"total", calls, errors)
}

/// Adds the rows of calls.
fn write_calls(
    out: &mut Vec<u8>,
    counts: &[u64; NUMBERS],
    errors: &[u64; NUMBERS],
    calls: &[Sysno],
) -> Result<(), NoMemory>
    ensures { OnOk result (out.new.items ≡ out.old.items ++ flat_map (call_row_in counts.now errors.now) calls.now) }
{
    for call in calls {
        let number = call.number() as usize;
        write_call(out, *call, counts[number], errors[number])?;
    }
    Ok(())
}

/// Adds the rows of signals.
fn write_signals(
    out: &mut Vec<u8>,
    counts: &[u64; NUMBERS],
    signals: &[Sig],
) -> Result<(), NoMemory>
    ensures { OnOk result (out.new.items ≡ out.old.items ++ flat_map (signal_row_in counts.now) signals.now) }
{
    for signal in signals {
        let count = counts[signal.number() as usize];
        write_row(out, signal.name().as_bytes(), count)?;
    }
    Ok(())
}

/// Adds the rows of faults.
fn write_faults(out: &mut Vec<u8>, counts: &[u64; NUMBERS], faults: &[Flt]) -> Result<(), NoMemory>
    ensures { OnOk result (out.new.items ≡ out.old.items ++ flat_map (fault_row_in counts.now) faults.now) }
{
    for fault in faults {
        let count = counts[fault.number() as usize];
        write_row(out, fault.name().as_bytes(), count)?;
    }
    Ok(())
}

/// Adds the rows of all calls.
fn write_all_calls(out: &mut Vec<u8>, reports: &[Report]) -> Result<(), NoMemory>
    ensures { OnOk result (out.new.items ≡ out.old.items ++ flat_map (call_row reports.now) syscalls) }
{
    let counts = counts_of(reports, Kind::Calls);
    let errors = counts_of(reports, Kind::Errors);
    write_calls(out, &counts, &errors, &Sysno::ALL)
}

/// Adds the rows of all signals.
fn write_all_signals(out: &mut Vec<u8>, reports: &[Report]) -> Result<(), NoMemory>
    ensures { OnOk result (out.new.items ≡ out.old.items ++ flat_map (signal_row reports.now) signals) }
{
    let counts = counts_of(reports, Kind::Signals);
    write_signals(out, &counts, &Sig::ALL)
}

/// Adds the rows of all faults.
fn write_all_faults(out: &mut Vec<u8>, reports: &[Report]) -> Result<(), NoMemory>
    ensures { OnOk result (out.new.items ≡ out.old.items ++ flat_map (fault_row reports.now) faults) }
{
    let counts = counts_of(reports, Kind::Faults);
    write_faults(out, &counts, &Flt::ALL)
}

/// Adds the rows of all calls, and their total, under a heading.
#[tactic(auto, unfolding(crate::specs::Counts::call_counts))]
fn write_call_counts(out: &mut Vec<u8>, reports: &[Report]) -> Result<(), NoMemory>
    ensures { OnOk result (out.new.items ≡ out.old.items ++ call_counts reports.now) }
{
    out.extend_from_slice(b"syscall calls errors")?;
    out.push(b'\n')?;
    write_all_calls(out, reports)?;
    write_total(out, reports)
}

/// Adds the rows of all signals and faults.
#[tactic(auto, unfolding(crate::specs::Counts::other_counts))]
fn write_other_counts(out: &mut Vec<u8>, reports: &[Report]) -> Result<(), NoMemory>
    ensures { OnOk result (out.new.items ≡ out.old.items ++ other_counts reports.now) }
{
    write_all_signals(out, reports)?;
    write_all_faults(out, reports)
}

/// Adds the counts.
#[tactic(auto, unfolding(crate::specs::Counts::counts_text))]
pub(crate) fn write_counts(out: &mut Vec<u8>, reports: &[Report]) -> Result<(), NoMemory>
    ensures { OnOk result (out.new.items ≡ out.old.items ++ counts_text reports.now) }
{
    write_call_counts(out, reports)?;
    write_other_counts(out, reports)
}
