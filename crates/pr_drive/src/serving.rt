//! Sessions from a source to a sink.
ghost use Rattle.std.specs.Prelude.{◌≡◌, ◌≢◌, Err, IfOk, IsErrOf, OnErr};
ghost use Rattle.pr_drive.specs.Served.{CutsEnd, Drove, EndsWith, TellsEnd, TellsRefusal, WasCut, WasCutOff, WasDriven};
ghost use Rattle.pr_drive.specs.Served.{WasEnded, WasUnread, usage_line};
ghost use Rattle.pr_drive.specs.Sessions.{AnsweredUnread};
ghost use Rattle.pr_drive.specs.Statuses.{CountsFaults};
ghost use Rattle.pr_drive.specs.declared.ends.Status.TheVariants.{OutOfMemory, ReadFailed, Usage, WriteFailed};
ghost use Rattle.pr_ends.specs.Ends.{ends_of};
ghost use Rattle.pr_input.specs.Kinds.{kind_name};
ghost use Rattle.pr_io.specs.Known.{with_end};
ghost use Rattle.pr_io.specs.Writing.{AppendsFront};
ghost use Rattle.pr_io.specs.Faults.{Rose};
ghost use Rattle.pr_output.specs.Output.{AppendsSome, refusal_text};

use crate::answers::answer_lines;
use crate::commands::Work;
use crate::ends::{CutOff, Status, number, status_of};
use crate::readings::{Opening, read_opening};
use crate::reports::reports_of;
use crate::sessions::Session;
use pr_input::kind_name;
use pr_io::{Sink, Source, write_all};
use pr_lines::Lines;
use pr_output::{Showing, write_refusal, write_run};
use pr_scen::ScenFault;
use std::alloc::Global;

/// What is told of words that ask for nothing.
const USAGE: &[u8] = b"usage: pdrive [-q]\n";

/// Writes the history of a session, what the controllers print, and its status.
fn tell_end<K: Sink>(
    alloc: Global,
    showing: Showing,
    session: &Session,
    sink: &mut K,
) -> Result<Status, CutOff>
    ensures told { IfOk result (λ status.
        TellsEnd showing session.now.seats status (K.written sink.old) (K.written sink.new)) }
    ensures cut { OnErr result (CutsEnd showing session.now.seats (K.written sink.old) (K.written sink.new)) }
    ensures unwritten { IsErrOf result CutOff.WriteFailed → Rose (K.faults sink.old) (K.faults sink.new) }
    ensures no_write_fault { result ≢ Err CutOff.WriteFailed → K.faults sink.new ≡ K.faults sink.old }
    ensures not_read { result ≢ Err CutOff.ReadFailed }
{
    let status = session.status()?;
    let seats = &session.rounds.seats;
    let reports = reports_of(alloc, seats)?;
    write_run(
        alloc,
        sink,
        showing,
        seats.history(),
        reports.as_slice(),
        number(status),
    )?;
    Ok(status)
}

/// Answers the lines of the outside, and tells the history.
fn go_on<S: Source, K: Sink>(
    alloc: Global,
    showing: Showing,
    mut session: Session,
    above: u32,
    lines: &mut Lines,
    source: &mut S,
    sink: &mut K,
) -> Result<Status, CutOff>
    ensures told { IfOk result (λ status. WasEnded showing above
        (record { input = record { held = lines.old.held; left = S.left source.old }; rounds = session })
        (S.left source.new) (K.written sink.old) (K.written sink.new) status) }
    ensures cut { OnErr result (WasCutOff showing above
        (record { input = record { held = lines.old.held; left = S.left source.old }; rounds = session })
        (S.left source.new) (K.written sink.old) (K.written sink.new)) }
    ensures unended { IsErrOf result CutOff.ReadFailed → AnsweredUnread above
        (record { input = record { held = lines.old.held; left = S.left source.old }; rounds = session })
        (S.left source.new) (K.written sink.old) (K.written sink.new) }
    ensures faults { CountsFaults result
        (S.faults source.old) (S.faults source.new) (K.faults sink.old) (K.faults sink.new) }
{
    answer_lines(alloc, &mut session, above, lines, source, sink)?;
    tell_end(alloc, showing, &session, sink)
}

/// Tells that the scenario is refused.
fn refuse<K: Sink>(alloc: Global, fault: ScenFault, sink: &mut K) -> Result<Status, CutOff>
    ensures told { IfOk result (λ status. TellsRefusal fault status (K.written sink.old) (K.written sink.new)) }
    ensures cut { OnErr result
        (AppendsSome (K.written sink.old) (K.written sink.new) (refusal_text fault.line (kind_name fault.kind))) }
    ensures unwritten { IsErrOf result CutOff.WriteFailed → Rose (K.faults sink.old) (K.faults sink.new) }
    ensures no_write_fault { result ≢ Err CutOff.WriteFailed → K.faults sink.new ≡ K.faults sink.old }
    ensures not_read { result ≢ Err CutOff.ReadFailed }
{
    write_refusal(alloc, sink, fault.line, kind_name(fault.kind))?;
    Ok(Status::Refused)
}

/// Reads a scenario, answers the lines of the outside, and tells the history.
fn drive<S: Source, K: Sink>(
    alloc: Global,
    showing: Showing,
    source: &mut S,
    sink: &mut K,
) -> Result<Status, CutOff>
    ensures told { IfOk result (λ status. WasDriven showing
        (ends_of S.left S.faults K.written K.faults source.old sink.old)
        (ends_of S.left S.faults K.written K.faults source.new sink.new) status) }
    ensures cut { OnErr result (WasCut showing
        (ends_of S.left S.faults K.written K.faults source.old sink.old)
        (ends_of S.left S.faults K.written K.faults source.new sink.new)) }
    ensures unended { IsErrOf result CutOff.ReadFailed → WasUnread
        (ends_of S.left S.faults K.written K.faults source.old sink.old)
        (ends_of S.left S.faults K.written K.faults source.new sink.new) }
    ensures faults { CountsFaults result
        (S.faults source.old) (S.faults source.new) (K.faults sink.old) (K.faults sink.new) }
{
    let mut lines = Lines::new(alloc)?;
    let opening = read_opening(alloc, &mut lines, source)?;
    match opening {
        Opening::Session(session, above) => {
            go_on(alloc, showing, session, above, &mut lines, source, sink)
        }
        Opening::Refused(fault) => refuse(alloc, fault, sink),
    }
}

/// A session, and how it ended.
fn hold<S: Source, K: Sink>(alloc: Global, showing: Showing, source: &mut S, sink: &mut K) -> Status
    ensures { Drove showing
        (ends_of S.left S.faults K.written K.faults source.old sink.old)
        (ends_of S.left S.faults K.written K.faults source.new sink.new) result }
{
    match drive(alloc, showing, source, sink) {
        Ok(status) => status,
        Err(cut) => status_of(cut),
    }
}

/// Tells how the program is called.
fn explain<K: Sink>(sink: &mut K) -> Status
    ensures told { result ≢ WriteFailed
        → (result ≡ Usage) × (K.written sink.new ≡ with_end (K.written sink.old) usage_line) }
    ensures cut { result ≡ WriteFailed → AppendsFront (K.written sink.old) (K.written sink.new) usage_line }
    ensures write_failed { result ≡ WriteFailed → Rose (K.faults sink.old) (K.faults sink.new) }
    ensures no_write_fault { result ≢ WriteFailed → K.faults sink.new ≡ K.faults sink.old }
    ensures read { result ≢ ReadFailed }
    ensures had_memory { result ≢ OutOfMemory }
{
    match write_all(sink, USAGE) {
        Ok(()) => Status::Usage,
        Err(_) => Status::WriteFailed,
    }
}

/// Does what the words after the program's name ask for, from `source` to `sink`: a session, with or without its
/// history at the end. A scenario is read up to the line `%calls`; then each line is answered before the next one is
/// read, until `%end` or the end of the input; and then the history is written, what the controllers of the scenario
/// print, and the status.
pub fn serve<S: Source, K: Sink>(alloc: Global, work: Work, source: &mut S, sink: &mut K) -> Status
    ensures { EndsWith work
        (ends_of S.left S.faults K.written K.faults source.old sink.old)
        (ends_of S.left S.faults K.written K.faults source.new sink.new) result }
{
    match work {
        Work::Explains => explain(sink),
        Work::Drives { showing } => hold(alloc, showing, source, sink),
    }
}
