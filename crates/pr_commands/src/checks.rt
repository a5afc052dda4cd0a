//! What the command `check` is given: a scenario, the line `%history`, and a history, of which each entry is judged as
//! it is read, and none is kept.
ghost use Rattle.std.specs.Prelude.{◌≡◌, ◌≤◌, ◌<◌, ◌+◌, ◌^◌, [], length, IfOk, IfSome};
ghost use Rattle.pr_judge.specs.Hearings.{HasHeard};
ghost use Rattle.pr_num.specs.Limits.{checked_limit};
ghost use Rattle.pr_plain.specs.EntryLines.{entries_left};
ghost use Rattle.pr_plain.specs.EntryReading.{history_of};
ghost use Rattle.pr_plain.specs.Readings.{Answers};
ghost use Rattle.pr_run_laws.specs.ScenarioRuns.{first_state_of};
ghost use Rattle.pr_scen.specs.Reading.{scenario_of};
ghost use Rattle.pr_scen.specs.Scenarios.{IsWithinLimits};
ghost use Rattle.pr_commands.specs.Checks.{checked_of, checked_of_input, parts_at, unmarked};
ghost use Rattle.pr_commands.specs.Findings.{finding_of, found_in};
ghost use Rattle.pr_commands.specs.Parts.{Gives, ReadsLines, refused_as};
ghost use Rattle.pr_commands.specs.declared.wrongs.Wrong.TheVariants as wrong;

use crate::inputs::TOO_LONG;
use crate::wrongs::{Misread, Wrong};
use pr_input::{Mark, lines_above};
use pr_judge::Judge;
use pr_num::limits::SCENARIO_LIMIT;
use pr_num::{Bytes, NoMemory};
use pr_plain::{EntryLines, HistRefusal};
use pr_scen::{ScenFault, ScenKind, ScenRefusal, Scenario, read_scenario};
use std::alloc::Global;

/// What is found of a history: how many entries it has, and the place of the first that is not legal.
#[derive(Clone, Copy)]
pub struct Finding {
    pub entries: usize,
    pub first: Option<usize>,
}

/// Why an input is refused in which that line is not found.
#[tactic(auto, unfolding(crate::specs::Checks::unmarked))]
fn unmarked(text: &[u8]) -> ScenKind
    ensures { result ≡ unmarked text.now }
{
    if text.len() <= SCENARIO_LIMIT {
        ScenKind::NoEnd
    } else {
        ScenKind::TooLong
    }
}

/// Reads the scenario of an input.
fn scenario_of(alloc: Global, text: &[u8]) -> Result<Scenario, Misread>
    requires { length text.now ≤ checked_limit }
    ensures read { ReadsLines (λ s. s) result (scenario_of text.now) }
    ensures limits { IfOk result (λ s. IsWithinLimits s) }
{
    match read_scenario(alloc, text) {
        Ok(scenario) => Ok(scenario),
        Err(ScenRefusal::Fault(fault)) => Err(Misread::Wrong(Wrong::Scenario(fault))),
        Err(ScenRefusal::NoMemory) => Err(Misread::NoMemory),
    }
}

/// A judge of histories with as many controllers as a scenario has, of the machine that begins as it says.
#[tactic(auto, using(pr_actors::proofs::ScenarioLemmas::scenarios))]
fn judge_of(alloc: Global, scenario: Scenario) -> Result<Judge, NoMemory>
    requires { IsWithinLimits scenario }
    ensures heard { IfOk result (λ judge. HasHeard (first_state_of scenario) [] judge) }
    ensures count { IfOk result (λ judge. judge.controllers ≡ length scenario.controllers) }
{
    let Scenario {
        turns: _,
        programs,
        files,
        spawns,
        controllers,
        schedule: _,
    } = scenario;
    let count = controllers.len() as u32;
    Judge::new(alloc, programs, files, spawns.as_slice(), count)
}

/// Reads the entries that lines have, of which none is read yet, and has each judged by a scenario. All lines are read,
/// also behind an entry that is not legal.
fn judge_lines(
    alloc: Global,
    scenario: Scenario,
    lines: EntryLines<'_>,
) -> Result<Finding, HistRefusal>
    requires limits { IsWithinLimits scenario }
    requires unread { lines.read ≡ 0 }
    ensures { Answers (λ f. f) result (found_in scenario (entries_left lines.entry)) }
{
    let mut lines = lines;
    let mut judge = judge_of(alloc, scenario)?;
    for number in 0..lines.count() {
        let entry = lines.next(alloc)?;
        judge.hear(alloc, &entry)?;
    }
    Ok(Finding {
        entries: judge.heard(),
        first: judge.first(),
    })
}

/// Reads and judges the history that a text begins with.
fn judge_text(
    alloc: Global,
    scenario: Scenario,
    text: &[u8],
    first_line: u32,
) -> Result<Finding, HistRefusal>
    requires limits { IsWithinLimits scenario }
    requires few { first_line + length text.now < 2 ^ 32 }
    ensures { Answers (λ f. f) result (found_in scenario (history_of first_line text.now)) }
{
    match EntryLines::of(text, first_line) {
        Err(line) => Err(HistRefusal::Line(line)),
        Ok(lines) => judge_lines(alloc, scenario, lines),
    }
}

/// Reads and judges the history of an input, of which the first line has this number.
fn judge_history(
    alloc: Global,
    scenario: Scenario,
    text: &[u8],
    first_line: u32,
) -> Result<Finding, Misread>
    requires limits { IsWithinLimits scenario }
    requires few { first_line + length text.now < 2 ^ 32 }
    ensures { Gives (λ f. f) result (refused_as wrong.History (found_in scenario (history_of first_line text.now))) }
{
    match judge_text(alloc, scenario, text, first_line) {
        Ok(finding) => Ok(finding),
        Err(HistRefusal::Line(line)) => Err(Misread::Wrong(Wrong::History(line))),
        Err(HistRefusal::NoMemory) => Err(Misread::NoMemory),
    }
}

/// Reads and judges an input with the line `%history` at this place.
#[tactic(auto, using(crate::proofs::FindingLemmas::parts_found), unfolding(crate::specs::Checks::parts_at))]
fn judge_parts(alloc: Global, text: &[u8], place: usize) -> Result<Finding, Misread>
    requires within { place ≤ length text.now }
    requires few { length text.now ≤ checked_limit }
    ensures { Gives (λ f. f) result (finding_of (parts_at text.now place)) }
{
    let scenario = scenario_of(alloc, &text[..place])?;
    let below = Mark::History.below(text, place);
    judge_history(alloc, scenario, below, lines_above(text, place) + 2)
}

/// Reads and judges an input: a scenario, the line `%history`, and a history, of which what stands below its last entry
/// is not looked at.
#[tactic(auto, unfolding(crate::specs::Checks::checked_of, crate::specs::Findings::finding_of))]
fn judge_marked(alloc: Global, text: &[u8]) -> Result<Finding, Misread>
    requires { length text.now ≤ checked_limit }
    ensures { Gives (λ f. f) result (finding_of (checked_of text.now)) }
{
    match Mark::History.place(SCENARIO_LIMIT, text) {
        Some(place) => judge_parts(alloc, text, place),
        None => Err(Misread::Wrong(Wrong::Scenario(ScenFault {
            line: 0,
            kind: unmarked(text),
        }))),
    }
}

/// What is found of the history of an input, which is let go; none: it had more bytes than it may have.
#[tactic(auto, unfolding(crate::specs::Checks::checked_of_input, crate::specs::Findings::finding_of))]
pub fn finding_of_input(alloc: Global, input: Option<Bytes>) -> Result<Finding, Misread>
    requires { IfSome input (λ bytes. length bytes ≤ checked_limit) }
    ensures { Gives (λ f. f) result (finding_of (checked_of_input input)) }
{
    match input {
        Some(bytes) => judge_marked(alloc, bytes.as_slice()),
        None => Err(Misread::Wrong(Wrong::Scenario(TOO_LONG))),
    }
}
