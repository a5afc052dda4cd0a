ghost use Rattle.std.specs.Prelude.{ℕ, List};
ghost use Rattle.pr_line.specs.declared.options.Options.{Options};
ghost use Rattle.pr_model.specs.State.{TracedState};
ghost use Rattle.pr_model.specs.declared.events.Entry.{Entry};
ghost use Rattle.pr_function_laws.specs.ReachedRuns.{IsReachedFunctionRun};
ghost use Rattle.pr_function_laws.specs.ToldTurns.{AreSteppable, StepsAreRead, TellsTurnsAlone};

/// In each legal history of truss with functions, each of which it can step, from a state that the machine reaches, in
/// which controllers write bytes: each call that it tells before it is interrupted is told by the read after that of a
/// breakpoint, and is the one turn that the lwp had between the two. So no call is told that is no turn of the machine.
pub fn in_each_history_only_turns_are_told()
    ensures { (n k : ℕ) (o : Options) (s : TracedState) (h : List Entry) → IsReachedFunctionRun n k o s h
        → AreSteppable o → TellsTurnsAlone k o s h }
{}

/// In each such history, until truss is interrupted: while the step over a function is under way in a process, as its
/// marks say, no other lwp of it does anything but stop; and where a turn ends with a trace trap then, the next read of
/// the process tells of the call of that step. So none is left out whose trap truss reads in its loop.
pub fn in_each_history_each_step_is_told()
    ensures { (n k : ℕ) (o : Options) (s : TracedState) (h : List Entry) → IsReachedFunctionRun n k o s h
        → AreSteppable o → StepsAreRead k o s h }
{}
