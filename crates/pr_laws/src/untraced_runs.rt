ghost use Rattle.std.specs.Prelude.{◌++◌, List};
ghost use Rattle.pr_model.specs.Machines.{UntracedSystem};
ghost use Rattle.pr_model.specs.UntracedMachine.{UntracedRun};
ghost use Rattle.pr_model.specs.declared.steps.Step.{Step};

/// Runs of the untraced machine follow one another.
#[tactic(auto, using(crate::proofs::RunLemmas::untraced_runs))]
pub fn untraced_runs_follow_one_another()
    ensures { (u v w : UntracedSystem) (a b : List Step) → UntracedRun u a v → UntracedRun v b w
        → UntracedRun u (a ++ b) w }
{}
