//! The scenario is read, up to the line below it.
ghost use Rattle.std.specs.Prelude.{◌≡◌, ◌≢◌, ◌<◌, ◌≤◌, ◌++◌, ◌∷◌, [], Err, IfOk, IsErrOf, OnErr, OnOk, length};
ghost use Rattle.pr_drive.specs.Served.{Begins, CutAbove, IsAbove, OpensAs, OpensText, UnreadAbove, is_mark, whole};
ghost use Rattle.pr_io.specs.Faults.{Rose};
ghost use Rattle.pr_num.specs.Limits.{controller_limit, scenario_limit};
ghost use Rattle.pr_scen.specs.Scenarios.{IsWithinLimits};
ghost use Rattle.pr_text.specs.TextLines.{newline};

use crate::ends::CutOff;
use crate::rounds::Rounds;
use crate::seats::seats_of;
use crate::sessions::Session;
use pr_io::Source;
use pr_lines::Lines;
use pr_num::NoMemory;
use pr_num::limits::{CONTROLLER_LIMIT, SCENARIO_LIMIT};
use pr_scen::{ScenFault, ScenKind, ScenRefusal, Scenario, read_scenario};
use std::alloc::Global;

/// What was read of a scenario.
#[derive(Drop)]
pub enum Opening {
    /// It is read, and the outside has its first turn; so many lines stand above its first call.
    Session(Session, u32),
    Refused(ScenFault),
}

/// What stands above the line `%calls`.
#[derive(Clone, Copy)]
pub enum Above {
    /// A text of so many lines.
    Text(u32),
    /// Too much, or the line does not come.
    Wrong(ScenKind),
}

/// A refusal of the scenario as a whole.
fn whole(kind: ScenKind) -> ScenFault
    ensures { result ≡ whole kind }
{
    ScenFault { line: 0, kind }
}

/// Adds a line and its newline.
fn append_line(text: &mut Vec<u8>, line: &[u8]) -> Result<(), NoMemory>
    ensures { OnOk result (text.new.items ≡ text.old.items ++ (line.now ++ newline ∷ [])) }
{
    text.extend_from_slice(line)?;
    Ok(text.extend_from_slice(b"\n")?)
}

/// Whether a line is the one between the scenario and the calls.
fn is_mark(line: &[u8]) -> bool
    ensures { result ≡ is_mark line.now }
{
    line == b"%calls".as_slice()
}

/// Reads the text above the line `%calls`.
fn read_above<S: Source>(
    alloc: Global,
    lines: &mut Lines,
    source: &mut S,
    text: &mut Vec<u8>,
) -> Result<Above, CutOff>
    requires { text.old.items ≡ [] }
    ensures above { IfOk result (λ above. IsAbove above text.new.items
        (record { held = lines.old.held; left = S.left source.old })
        (record { held = lines.new.held; left = S.left source.new })) }
    ensures cut { OnErr result
        (CutAbove (record { held = lines.old.held; left = S.left source.old }) (S.left source.new)) }
    ensures unended { IsErrOf result CutOff.ReadFailed
        → UnreadAbove (record { held = lines.old.held; left = S.left source.old }) (S.left source.new) }
    ensures unread { IsErrOf result CutOff.ReadFailed → Rose (S.faults source.old) (S.faults source.new) }
    ensures no_fault { result ≢ Err CutOff.ReadFailed → S.faults source.new ≡ S.faults source.old }
    ensures not_written { result ≢ Err CutOff.WriteFailed }
{
    let mut line = Vec::new(alloc);
    for number in 0..=SCENARIO_LIMIT as u32 {
        if !lines.next(source, &mut line)? {
            return Ok(Above::Wrong(ScenKind::NoEnd));
        }
        if is_mark(line.as_slice()) {
            return Ok(Above::Text(number));
        }
        if text.len().saturating_add(line.len()) >= SCENARIO_LIMIT {
            return Ok(Above::Wrong(ScenKind::TooLong));
        }
        append_line(text, &line)?;
    }
    Ok(Above::Wrong(ScenKind::TooLong))
}

/// Reads the scenario, up to the line below it, and begins its session.
pub fn read_opening<S: Source>(
    alloc: Global,
    lines: &mut Lines,
    source: &mut S,
) -> Result<Opening, CutOff>
    ensures opens { IfOk result (λ opening. OpensAs opening
        (record { held = lines.old.held; left = S.left source.old })
        (record { held = lines.new.held; left = S.left source.new })) }
    ensures cut { OnErr result
        (CutAbove (record { held = lines.old.held; left = S.left source.old }) (S.left source.new)) }
    ensures unended { IsErrOf result CutOff.ReadFailed
        → UnreadAbove (record { held = lines.old.held; left = S.left source.old }) (S.left source.new) }
    ensures unread { IsErrOf result CutOff.ReadFailed → Rose (S.faults source.old) (S.faults source.new) }
    ensures no_fault { result ≢ Err CutOff.ReadFailed → S.faults source.new ≡ S.faults source.old }
    ensures not_written { result ≢ Err CutOff.WriteFailed }
{
    let mut text = Vec::new(alloc);
    match read_above(alloc, lines, source, &mut text)? {
        Above::Text(above) => open_text(alloc, &text, above),
        Above::Wrong(kind) => Ok(Opening::Refused(whole(kind))),
    }
}

/// Reads the scenario of a text, which has so many lines, and begins its session.
fn open_text(alloc: Global, text: &[u8], above: u32) -> Result<Opening, CutOff>
    requires within { length text.now ≤ scenario_limit }
    requires few { above ≤ scenario_limit }
    ensures opens { IfOk result (λ opening. OpensText text.now above opening) }
    ensures memory { OnErr result (result ≡ Err CutOff.NoMemory) }
{
    match read_scenario(alloc, text) {
        Ok(scenario) => {
            if scenario.controllers.len() >= CONTROLLER_LIMIT {
                return Ok(Opening::Refused(whole(ScenKind::TooMany)));
            }
            Ok(Opening::Session(begin(alloc, scenario)?, above + 1))
        }
        Err(ScenRefusal::Fault(fault)) => Ok(Opening::Refused(fault)),
        Err(ScenRefusal::NoMemory) => Err(CutOff::NoMemory),
    }
}

/// The session of a scenario, of which the actors of the schedule and the first round were moved up to the outside's
/// turn.
fn begin(alloc: Global, scenario: Scenario) -> Result<Session, NoMemory>
    requires limits { IsWithinLimits scenario }
    requires few { length scenario.controllers < controller_limit }
    ensures { IfOk result (λ session. Begins scenario session) }
{
    let (seats, schedule) = seats_of(alloc, scenario)?;
    let mut rounds = Rounds::new(seats);
    rounds.follow(&schedule)?;
    rounds.finish_round(0)?;
    Ok(Session::new(alloc, rounds))
}
