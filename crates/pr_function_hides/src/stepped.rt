ghost use Rattle.std.specs.Prelude.{ℕ, All, List};
ghost use Rattle.pr_line.specs.declared.options.Options.{Options};
ghost use Rattle.pr_model.specs.State.{TracedState};
ghost use Rattle.pr_model.specs.declared.events.Entry.{Entry};
ghost use Rattle.pr_function_laws.specs.ReachedRuns.{IsReachedFunctionRun};
ghost use Rattle.pr_function_laws.specs.PlantedByCalls.{IsNoBreakpoint};
ghost use Rattle.pr_function_laws.specs.ToldTurns.{AreSteppable};
ghost use Rattle.pr_function_hides.specs.SteppedByCalls.{StepsWhatItLifted};
ghost use Rattle.pr_function_hides.specs.ToldCalls.{TellsItsCallsByCalls};

/// The function that is being stepped in a process, which is a part of truss's own state, is told by calls and replies.
/// In each legal history of truss with functions, each of which it can step, from a state that the machine reaches, in
/// which controllers write bytes: wherever an lwp of the process has a turn, it is the one whose code truss wrote back
/// right before it ran the process with PRCFAULT and PRSTEP, and where it has written nothing since.
#[tactic(auto, using(crate::proofs::LiftedSteps::LiftedLaw::lifted_steps))]
pub fn what_truss_steps_it_has_lifted()
    ensures { (n k : ℕ) (o : Options) (s : TracedState) (h : List Entry) → IsReachedFunctionRun n k o s h
        → AreSteppable o → StepsWhatItLifted k o s h }
{}

/// Which turns are calls of functions is told by calls and replies, too. In each legal history of truss with functions,
/// each of which it can step, and none of which begins with a breakpoint, from a state that the machine reaches, in
/// which controllers write bytes: wherever an lwp of a process that truss traces has a turn, and until truss is
/// interrupted, the turn is a call just where it ends with a trace trap, the lwp was in its program, with its pc at a
/// function, and the breakpoint of that was planted and not lifted since, or lifted for a step. Where truss was told
/// that the memory is another, or that a child has it too, such a turn need not be one.
#[tactic(auto, using(crate::proofs::LiftedSteps::ToldCalls::told_calls))]
pub fn its_calls_tell_which_turns_are_calls()
    ensures { (n k : ℕ) (o : Options) (s : TracedState) (h : List Entry) → IsReachedFunctionRun n k o s h
        → AreSteppable o → All IsNoBreakpoint o.functions → TellsItsCallsByCalls k o s h }
{}
