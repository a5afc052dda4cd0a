ghost use Rattle.std.specs.Prelude.{ℕ, List};
ghost use Rattle.pr_line.specs.declared.options.Options.{Options};
ghost use Rattle.pr_model.specs.Legal.{IsLegal, state_after};
ghost use Rattle.pr_model.specs.State.{TracedState};
ghost use Rattle.pr_model.specs.declared.events.Entry.{Entry};
ghost use Rattle.pr_truss.specs.Trusses.{first_truss};
ghost use Rattle.pr_truss_laws.specs.Exchanges.{Ends, exchanges};
ghost use Rattle.pr_truss_laws.specs.Handles.{ClosesFreely, HasNothingOpen};
ghost use Rattle.pr_truss_laws.specs.Runs.{IsTrussRun};

/// In a legal history a truss has nothing open when it has finished.
#[tactic(auto, using(crate::proofs::Files::ReleaseLemmas::releases))]
pub fn nothing_stays_open()
    ensures { (n k : ℕ) (o : Options) (s : TracedState) (h : List Entry) → HasNothingOpen k s → IsLegal n s h
        → Ends (first_truss o) (exchanges k h) → HasNothingOpen k (state_after s h) }
{}

/// In a legal history, wherever truss has come to: once it has closed the control file of a process, nobody has that
/// process open for writing, and under PR_RLC without PR_KLC nothing of the tracing is left in it.
#[tactic(auto, using(crate::proofs::Files::ReleaseLemmas::releases))]
pub fn what_is_closed_is_released()
    ensures { (n k : ℕ) (o : Options) (s : TracedState) (h : List Entry) → IsTrussRun n k o s h
        → ClosesFreely k (state_after s h) }
{}
