ghost use Rattle.std.specs.Prelude.{◌≡◌, ℕ, Some};
ghost use Rattle.pr_model.specs.Calls.{Answer, answer_to};
ghost use Rattle.pr_model.specs.State.{TracedState};
ghost use Rattle.pr_model.specs.declared.calls.Call as calls;
ghost use Rattle.pr_laws.specs.Refusals.{LeavesIfRefused};

/// A refused call changes nothing, but that a controller whose wait was interrupted is interrupted no longer.
#[tactic(auto, using(crate::proofs::RefusalLemmas::refusals))]
pub fn refused_call_leaves_state()
    ensures { (s : TracedState) (by : ℕ) (call : calls.Call) (a : Answer) → answer_to s by call ≡ Some a
        → LeavesIfRefused s by a }
{}
