ghost use Rattle.std.specs.Prelude.{ℕ, List};
ghost use Rattle.pr_line.specs.declared.options.Options.{Options};
ghost use Rattle.pr_model.specs.State.{TracedState};
ghost use Rattle.pr_model.specs.declared.events.Entry.{Entry};
ghost use Rattle.pr_function_laws.specs.CalledTurns.{CallsAreTurns};
ghost use Rattle.pr_function_laws.specs.ReachedRuns.{IsReachedFunctionRun};

/// In each legal history of truss with functions, from a state that the machine reaches, in which controllers write
/// bytes: between the read of an lwp at a breakpoint and the next read of its process, which lives then, the lwp has
/// one turn alone, and that read tells of it, at a signal or a fault. A call that the read tells is the one of that
/// function, and that turn, which ran the first instruction of the function, with the arguments of the call in r1 to r3
/// before it. And where the turn ended with a trace trap, the read tells of the call.
pub fn in_each_history_calls_are_turns()
    ensures { (n k : ℕ) (o : Options) (s : TracedState) (h : List Entry) → IsReachedFunctionRun n k o s h
        → CallsAreTurns k o s h }
{}
