ghost use Rattle.std.specs.Prelude.{ℕ};
ghost use Rattle.pr_line.specs.declared.options.Options.{Options};
ghost use Rattle.pr_truss.specs.declared.marks.Marks.{Marks};
ghost use Rattle.pr_truss.specs.declared.processes.Traced.{Traced};
ghost use Rattle.pr_function_laws.specs.EventKinds.{AreEventKinds, LooksAtEachEvent};

/// What each event is to the breakpoints of truss in a process, a row a kind: the entry and the exit of fork(2),
/// vfork(2) and exec(2), a breakpoint, and a trace trap; every other event is nothing to them. What truss plants and
/// lifts for each, another law says.
pub fn what_each_event_is_to_breakpoints()
    ensures { (o : Options) (m : Marks) (id : ℕ) → AreEventKinds o m id }
{}

/// Where no stop of a process is left that stood before truss came, and truss has not looked at the stop yet, the event
/// at which an lwp stands is the one that it looks at.
#[tactic(auto, using(crate::proofs::NextCalls::KindLemmas::looks_each))]
pub fn truss_looks_at_each_new_event()
    ensures { (t : Traced) → LooksAtEachEvent t }
{}
