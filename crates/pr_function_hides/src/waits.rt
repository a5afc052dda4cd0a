ghost use Rattle.std.specs.Prelude.{◌≡◌, true, List};
ghost use Rattle.pr_function_hides.specs.Waiting.{KeepsWhatWaits};
ghost use Rattle.pr_function_laws.specs.Runs.{MakesFunctionCalls};
ghost use Rattle.pr_line.specs.declared.options.Options.{Options};
ghost use Rattle.pr_truss.specs.Marks.{has_functions};
ghost use Rattle.pr_truss.specs.Trusses.{first_truss};
ghost use Rattle.pr_truss_laws.specs.Exchanges.{Exchange};

/// What waits to be planted again in a process stays so, as long as truss reads no event of the process that is before
/// or behind a call that copies or replaces the memory: none of it is forgotten, and nothing is added. This is so
/// whatever truss was replied, and also where it leaves its processes. So all that stood at the entry of a fork waits
/// until its exit is read.
#[tactic(auto, using(crate::proofs::Replies::WaitingWalk::keeps_waiting))]
pub fn what_waits_to_be_planted_again_waits()
    ensures { (o : Options) (xs : List Exchange) → has_functions o ≡ true → MakesFunctionCalls (first_truss o) xs
        → KeepsWhatWaits o xs }
{}
