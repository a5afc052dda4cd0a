//! What no clause says: that the history of a run is one of which `strip_hidden` gives what programs see.
use crate::calls::{MUCH, call, source};
use pr_io::{MemSink, OpenGate};
use pr_model::{Res, Step, Steps};
use pr_num::Sysno;
use pr_num::limits::SCENARIO_LIMIT;
use pr_scen::read_scenario;
use pr_serve::strip_hidden;
use std::alloc::Global;
use std::process::Abort;
use std::sync::Wait;
use std::test::Fail;
use std::thread::Threads;

/// A program that calls a function twice, and a truss that shows it.
const CALLS: &str =
    "program fu\ncall go\ncall go\nset r1, 0\nsys exit\ngo:\nnop\nret\nend\ntruss -u fu:go fu\n";

/// What the program does in its run, behind the spawn.
const SEEN: [Step; 8] = [
    Step::Exec(1, 1),
    Step::Exec(1, 1),
    Step::Exec(1, 1),
    Step::Exec(1, 1),
    Step::Exec(1, 1),
    Step::Exec(1, 1),
    Step::Exec(1, 1),
    Step::Call(1, 1, Sysno::Exit, Res::Ended),
];

/// What programs see of the run of a scenario.
fn seen_of<R: Threads + Wait + Sync + Abort>(
    rt: &R,
    alloc: Global,
    input: &[u8],
) -> Result<Steps, Fail> {
    let mut source = source(alloc, input, &[])?;
    let mut sink = MemSink::new(alloc, MUCH, Vec::new(alloc))?;
    let outcome = call(rt, alloc, &["run", "-q"], &mut source, &mut sink, &OpenGate)?;
    assert!(rt; input.len() <= SCENARIO_LIMIT);
    assert!(rt; outcome.history.len() < MUCH);
    let Ok(scenario) = read_scenario(alloc, input) else {
        panic!(rt; "refused");
    };
    Ok(strip_hidden(alloc, scenario, &outcome.history)?)
}

// Seven instructions are run, of which none stops at a breakpoint.
#[test]
fn breakpoints_are_left_out(rt: HostRuntime) -> Result<(), Fail> {
    let steps = seen_of(&rt, rt.alloc(), CALLS.as_bytes())?;
    assert!(rt; matches!(steps.as_slice().first(), Some(Step::Spawn(_))));
    assert_eq!(rt; steps.as_slice().get(1..), Some(SEEN.as_slice()));
    Ok(())
}
