//! Calls of `serve`, and scenarios for them.
ghost use Rattle.std.specs.Prelude.{◌≡◌, length, IfOk, Ok};
ghost use Rattle.pr_model.specs.Legal.{IsLegal};
ghost use Rattle.pr_run_laws.specs.ScenarioRuns.{first_state_of};
ghost use Rattle.pr_scen.specs.Reading.{scenario_of};
ghost use Rattle.pr_scen.specs.Scenarios.{Scenario};

use pr_io::{Gate, MemSink, MemSource, OpenGate};
use pr_model::History;
use pr_num::{Bytes, NoMemory};
use pr_plain::{write_entry, write_heading};
use pr_serve::{Outcome, serve};
use std::alloc::Global;
use std::sync::Wait;
use std::thread::Threads;

/// A process that ends at once: `examples/alone.in`.
pub const ALONE: &str = "program three\nset r1, 3\nsys exit\nend\nspawn three\n";

/// The history of its run.
pub const ALONE_HISTORY: &str = "history 3\n0 1/1 ran\n1 1/1 entered exit\n2 1/1 made exit\n";

/// A process that is not run to its end: `cases/programs/turns-cut.in`.
pub const CUT: &str = "turns 3\nprogram p\nsys getpid\nset r1, 0\nsys exit\nend\nspawn p\n";

/// The history of its run.
pub const CUT_HISTORY: &str =
    "history 3\n0 1/1 entered getpid\n1 1/1 made getpid = 1\n2 1/1 returned getpid\n";

/// A process that sleeps for good, and a script that waits for it to stop: `cases/histories/plain-stuck.in`.
pub const STUCK: &str =
    "program p\nsys pause\nend\nspawn p\nscript\nopen a 1 ctl w\nwrite a wstop\nend\n";

/// Room for more than is written in a test.
pub const MUCH: usize = 65_536;

/// A source of these bytes, of which these reads fail.
pub fn source(alloc: Global, input: &[u8], fails: &[u64]) -> Result<MemSource, NoMemory>
    ensures { IfOk result (λ source. source.left ≡ input.now) }
{
    let bytes = Bytes::from_vec(input.to_vec(alloc)?);
    Ok(MemSource::new(bytes, fails.to_vec(alloc)?))
}

/// Calls `serve` with these words. The history that it leaves is a legal one of the scenario that its source has.
pub fn call<R: Threads + Wait + Sync, G: Gate + Sync>(
    rt: &R,
    alloc: Global,
    words: &[&str],
    source: &mut MemSource,
    sink: &mut MemSink,
    gate: &G,
) -> Result<Outcome, NoMemory>
    ensures { IfOk result (λ outcome. (s : Scenario) → scenario_of source.old.left ≡ Ok s
        → IsLegal (length s.controllers) (first_state_of s) outcome.history.entries) }
{
    let mut all = Vec::new(alloc);
    for word in words {
        all.push(word.to_string(alloc)?)?;
    }
    Ok(serve(rt, alloc, &all, source, sink, gate))
}

/// The text of a history, as `run` writes it; of an empty one none.
pub fn text_of(alloc: Global, history: &History) -> Result<Vec<u8>, NoMemory> {
    let mut text = Vec::new(alloc);
    if history.len() > 0 {
        write_heading(&mut text, history.len())?;
    }
    for place in 0..history.len() {
        if let Some(entry) = history.get(place) {
            write_entry(&mut text, place, entry)?;
        }
    }
    Ok(text)
}

/// Whether a text is the one of two parts.
pub fn is_made_of(text: &[u8], first: &str, second: &str) -> bool {
    match text.get(first.len()..) {
        Some(rest) => text.starts_with(first.as_bytes()) && rest == second.as_bytes(),
        None => false,
    }
}

/// Whether `check` finds a history legal from the first state of a scenario.
pub fn is_legal<R: Threads + Wait + Sync>(
    rt: &R,
    alloc: Global,
    scenario: &str,
    history: &History,
) -> Result<bool, NoMemory> {
    let mut input = scenario.as_bytes().to_vec(alloc)?;
    input.extend_from_slice(b"%history\n")?;
    input.extend_from_slice(text_of(alloc, history)?.as_slice())?;
    let mut source = source(alloc, input.as_slice(), &[])?;
    let mut sink = MemSink::new(alloc, MUCH, Vec::new(alloc))?;
    let outcome = call(rt, alloc, &["check"], &mut source, &mut sink, &OpenGate)?;
    Ok(outcome.status == 0)
}
