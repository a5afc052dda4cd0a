ghost use Rattle.std.specs.Prelude.{◌≡◌, true, All, List};
ghost use Rattle.pr_line.specs.declared.options.Options.{Options};
ghost use Rattle.pr_truss.specs.Marks.{has_functions};
ghost use Rattle.pr_truss.specs.Trusses.{first_truss};
ghost use Rattle.pr_truss_laws.specs.Exchanges.{Exchange};
ghost use Rattle.pr_function_laws.specs.Runs.{MakesFunctionCalls};
ghost use Rattle.pr_function_laws.specs.Soon.{IsCalm, IsSoonDone};

/// Wherever truss has come to: after a poll that named a process, at most twelve of its calls, and two more for each
/// function, come before it runs that process or closes the first of its files. This is so whatever it was replied, as
/// long as only waits are interrupted.
#[tactic(auto, using(crate::proofs::NextCalls::SoonLemmas::soon))]
pub fn what_a_poll_named_is_soon_run_or_closed()
    ensures { (o : Options) (xs : List Exchange) → has_functions o ≡ true → MakesFunctionCalls (first_truss o) xs
        → All IsCalm xs → IsSoonDone o xs }
{}
