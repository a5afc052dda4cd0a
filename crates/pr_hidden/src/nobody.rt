ghost use Rattle.std.specs.Prelude.{◌≡◌, List};
ghost use Rattle.pr_model.specs.Erasure.{erased_system};
ghost use Rattle.pr_model.specs.State.{TracedState, TracedSystem};
ghost use Rattle.pr_model.specs.UntracedSteps.{untraced_steps, untraced_trace};
ghost use Rattle.pr_model.specs.declared.events.Entry.{Entry};
ghost use Rattle.pr_hidden.specs.Covers.{seen};
ghost use Rattle.pr_hidden.specs.HiddenSteps.{hidden_steps, hidden_trace};
ghost use Rattle.pr_hidden.specs.Hiders.{covers_at, no_covers, nobody};

/// Where nobody hides anything, what is seen of a history is all of it: its steps, its trace, and the state that it
/// leads to.
#[tactic(auto, using(crate::proofs::NothingHidden::NobodyLemmas::seen_whole))]
pub fn where_nobody_hides_all_is_seen()
    ensures steps { (s : TracedState) (h : List Entry) → hidden_steps nobody s h ≡ untraced_steps h }
    ensures trace { (s : TracedState) (h : List Entry) → hidden_trace nobody s h ≡ untraced_trace h }
    ensures covers { (s : TracedState) (h : List Entry) → covers_at nobody s h ≡ no_covers }
    ensures state { (s : TracedSystem) → seen no_covers s ≡ erased_system s }
{}
