ghost use Rattle.std.specs.Prelude.{ℕ, List};
ghost use Rattle.pr_line.specs.declared.options.Options.{Options};
ghost use Rattle.pr_model.specs.State.{TracedState};
ghost use Rattle.pr_model.specs.declared.events.Entry.{Entry};
ghost use Rattle.pr_function_laws.specs.ReachedRuns.{IsReachedFunctionRun};
ghost use Rattle.pr_function_laws.specs.ToldTurns.{AreSteppable};
ghost use Rattle.pr_function_hides.specs.FunctionHiders.{ArePatchable};
ghost use Rattle.pr_function_hides.specs.ListedCalls.{FetchesBreakpoints, ListsItsTurns};
ghost use Rattle.pr_function_hides.specs.PlantedBreakpoints.{LeavesPlanted};

/// The calls of functions in a process that a truss with functions has shown are the turns that complete an instruction
/// at a function whose breakpoint is planted, or lifted for that step alone, also where truss is interrupted and leaves
/// its processes. It shows each once and in their order, and lacks the last one at most: where it has not read that
/// turn yet, in a process that lives and that it watches, or SIGKILL ended the process after that turn; and it got no
/// bytes of the status, or of the statuses of the lwps, since. Once truss has finished, the first is no reason any
/// more. So it is in each legal history from a state that the machine reaches, in which controllers write bytes,
/// whatever programs and others do, as long as an lwp that comes to a function whose breakpoint is planted can fetch
/// nothing there but the instruction of a breakpoint. That is so where the lwps of a process leave the functions alone
/// that are marked as planted there. The first is said where the functions begin with instructions that truss can step,
/// the second where they begin besides with instructions that are no breakpoint, where an instruction stands, and those
/// at one address with the same.
pub fn in_each_history_calls_are_those_turns()
    ensures fetched { (n k : ℕ) (o : Options) (s : TracedState) (h : List Entry) → IsReachedFunctionRun n k o s h
        → AreSteppable o → FetchesBreakpoints k o s h → (pid : ℕ) → ListsItsTurns k o s h pid }
    ensures spared { (n k : ℕ) (o : Options) (s : TracedState) (h : List Entry) → IsReachedFunctionRun n k o s h
        → AreSteppable o → ArePatchable o → LeavesPlanted k o s h → (pid : ℕ) → ListsItsTurns k o s h pid }
{}
