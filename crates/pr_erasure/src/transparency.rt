ghost use Rattle.std.specs.Prelude.{ℕ, List};
ghost use Rattle.pr_num.specs.Programs.{Program};
ghost use Rattle.pr_num.specs.declared.files.StoredFile.{StoredFile};
ghost use Rattle.pr_model.specs.FirstState.{first_state};
ghost use Rattle.pr_model.specs.Legal.{IsLegal, state_after};
ghost use Rattle.pr_model.specs.Passive.{IsPassive};
ghost use Rattle.pr_model.specs.State.{TracedState};
ghost use Rattle.pr_model.specs.declared.events.Entry.{Entry};
ghost use Rattle.pr_erasure.specs.Transparency.{IsTransparent};
ghost use Rattle.pr_erasure.specs.Untouched.{IsUntouched};

/// Tracing is transparent: what a legal and passive history makes of a first state, the machine without controllers can
/// make of what programs can see of it, by the history's untraced steps and with its trace. From any state that
/// controllers left untouched the same holds, and the history leaves it untouched.
#[tactic(auto, using(crate::proofs::SeenHistories::HistoryLemmas::transparency))]
pub fn tracing_is_transparent()
    ensures first { (n : ℕ) (programs : List Program) (files : List StoredFile) (spawns : List ℕ) (h : List Entry)
        → IsLegal n (first_state programs files spawns) h → IsPassive h
        → IsTransparent (first_state programs files spawns) h }
    ensures later { (n : ℕ) (s : TracedState) (h : List Entry)
        → IsUntouched s.system → IsLegal n s h → IsPassive h → IsTransparent s h }
    ensures untouched { (n : ℕ) (s : TracedState) (h : List Entry)
        → IsUntouched s.system → IsLegal n s h → IsPassive h → IsUntouched (state_after s h).system }
{}
