ghost use Rattle.std.specs.Prelude.{◌≡◌, true, false, All, List};
ghost use Rattle.pr_line.specs.declared.options.Options.{Options};
ghost use Rattle.pr_truss.specs.Marks.{has_functions};
ghost use Rattle.pr_truss.specs.Trusses.{first_truss};
ghost use Rattle.pr_truss_laws.specs.Exchanges.{Exchange};
ghost use Rattle.pr_function_laws.specs.Runs.{MakesFunctionCalls};
ghost use Rattle.pr_function_laws.specs.Soon.{IsCalm};
ghost use Rattle.pr_function_laws.specs.Treated.{TreatsItsEvents};

/// Wherever truss has read an event by which the step over a function ends, its next call plants that breakpoint again.
/// And wherever it has read a status, it plants and lifts what the kind of the event asks for, if the event is new,
/// each function once and in their order, before it runs the process; or it is told that the process has ended, and
/// closes its files. It runs the process with the run flags of that kind, and with none where the stop is not its own.
/// This is so whatever it was replied, as long as only waits are interrupted.
#[tactic(auto, using(crate::proofs::NextCalls::TreatedLaws::treats))]
pub fn what_an_event_asks_for_comes_before_the_run()
    ensures { (o : Options) (xs : List Exchange) → has_functions o ≡ true → o.follow ≡ false
        → MakesFunctionCalls (first_truss o) xs → All IsCalm xs → TreatsItsEvents o xs }
{}
