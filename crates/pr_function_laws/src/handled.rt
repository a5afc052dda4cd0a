ghost use Rattle.std.specs.Prelude.{◌≡◌, true, ℕ, List};
ghost use Rattle.pr_line.specs.declared.options.Options.{Options};
ghost use Rattle.pr_model.specs.State.{TracedState};
ghost use Rattle.pr_model.specs.declared.events.Entry.{Entry};
ghost use Rattle.pr_truss.specs.Marks.{has_functions};
ghost use Rattle.pr_truss_laws.specs.Exchanges.{Exchange};
ghost use Rattle.pr_function_laws.specs.Handled.{HandlesItsGiven, HoldsOrRefusesItsGiven};
ghost use Rattle.pr_function_laws.specs.Opened.{IsFunctionRun};
ghost use Rattle.pr_function_laws.specs.Ordinary.{IsTrussBeside};

/// By the exchanges of a truss that those of truss with functions are like: each process that it was given was
/// attached, in their order, or its refusal is reported, unless it was interrupted before; or it is at work on one
/// still. One that has finished is at work on none.
pub fn beside_its_breakpoints_it_handles_what_it_was_given()
    ensures { (o : Options) (xs : List Exchange) → has_functions o ≡ true → (w : IsTrussBeside o xs)
        → HandlesItsGiven o xs w }
{}

/// In each legal history of truss with functions: of the processes that it was given, and of no others, it gets hold in
/// an entry or says in one that it cannot trace them, one after another in their order. Once it has polled for the
/// first time, or has finished, it has done so with each of them, unless a call of it was interrupted before. Of one
/// that it was given once it never does both.
#[tactic(auto, using(crate::proofs::Holding::HoldGiven::given_holds))]
pub fn each_given_process_is_held_or_refused()
    ensures { (n k : ℕ) (o : Options) (s : TracedState) (h : List Entry) → IsFunctionRun n k o s h
        → HoldsOrRefusesItsGiven k o h }
{}
