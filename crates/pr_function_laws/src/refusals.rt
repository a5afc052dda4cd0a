ghost use Rattle.std.specs.Prelude.{ℕ, List};
ghost use Rattle.pr_line.specs.declared.options.Options.{Options};
ghost use Rattle.pr_model.specs.State.{TracedState};
ghost use Rattle.pr_model.specs.declared.events.Entry.{Entry};
ghost use Rattle.pr_function_laws.specs.Opened.{IsFunctionRun};
ghost use Rattle.pr_function_laws.specs.Refusals.{TellsNoRefusalOfHeld, TellsRefusalsAtFirst};

/// In each legal history of truss with functions: it says that it cannot trace a process only before it has polled, and
/// before a wait of it was interrupted. That is while it is to open what it was given; so it never says so in its loop,
/// nor while it leaves its processes.
#[tactic(auto, using(crate::proofs::OrdinaryTruss::RefusalLaws::refusals))]
pub fn it_tells_refusals_before_its_first_poll_alone()
    ensures { (n k : ℕ) (o : Options) (s : TracedState) (h : List Entry) → IsFunctionRun n k o s h
        → TellsRefusalsAtFirst k o h }
{}

/// In each legal history of truss with functions: of a process that it has hold of, or gets hold of in that entry, it
/// does not say that it cannot trace it, but where it is refused an open of that process.
#[tactic(auto, using(crate::proofs::OrdinaryTruss::RefusalLaws::refusals))]
pub fn it_tells_no_refusal_of_what_it_has_hold_of()
    ensures { (n k : ℕ) (o : Options) (s : TracedState) (h : List Entry) → IsFunctionRun n k o s h
        → TellsNoRefusalOfHeld k o s h }
{}
