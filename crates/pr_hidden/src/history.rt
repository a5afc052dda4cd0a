ghost use Rattle.std.specs.Prelude.{◌≡◌, ℕ, List};
ghost use Rattle.std.specs.List.{flat_map};
ghost use Rattle.pr_num.specs.Programs.{Program};
ghost use Rattle.pr_num.specs.declared.files.StoredFile.{StoredFile};
ghost use Rattle.pr_model.specs.FirstState.{first_state};
ghost use Rattle.pr_model.specs.Lawful.{IsLawful};
ghost use Rattle.pr_model.specs.Legal.{IsLegal};
ghost use Rattle.pr_model.specs.State.{TracedState};
ghost use Rattle.pr_model.specs.UntracedMachine.{traced_step};
ghost use Rattle.pr_model.specs.declared.events.Entry.{Entry};
ghost use Rattle.pr_lawful.specs.Starts.{IsStart};
ghost use Rattle.pr_erasure.specs.Untouched.{IsUntouched};
ghost use Rattle.pr_hidden.specs.HiddenSteps.{IsHidden, hidden_steps, hidden_trace};
ghost use Rattle.pr_hidden.specs.Hiders.{Hiders};
ghost use Rattle.pr_hidden.specs.Tidiness.{IsPassiveBut, IsSparing, IsTidy};

/// Programs see nothing of controllers that set breakpoints or run agents, over a whole history: the steps that are not
/// hidden are a run of the machine without controllers, from what programs see of a state that nobody has touched to
/// what they see of the last one without what is hidden there, and its trace is the trace of the history without what
/// is hidden. It holds where the other calls are passive, where programs leave the patches alone, and where those who
/// hide are tidy.
#[tactic(auto, using(crate::proofs::Follows::HistoryFollows::histories))]
pub fn breakpoints_and_agents_are_hidden()
    ensures first { (n : ℕ) (who : Hiders) (programs : List Program) (files : List StoredFile) (spawns : List ℕ)
        (h : List Entry)
        → IsStart programs files spawns → IsLegal n (first_state programs files spawns) h → IsPassiveBut who h
        → IsSparing who (first_state programs files spawns) h → IsTidy who (first_state programs files spawns) h
        → IsHidden who (first_state programs files spawns) h }
    ensures later { (n : ℕ) (who : Hiders) (s : TracedState) (h : List Entry)
        → IsLawful s → IsUntouched s.system → IsLegal n s h → IsPassiveBut who h → IsSparing who s h → IsTidy who s h
        → IsHidden who s h }
{}

/// The trace of a history without what is hidden stands among its steps that are not hidden: it is their calls that are
/// over, their faults and their taken signals. That is so of every history, whether those who hide are tidy or not.
#[tactic(auto, using(crate::proofs::Follows::HistoryFollows::traced))]
pub fn what_is_traced_is_among_the_steps()
    ensures { (who : Hiders) (s : TracedState) (h : List Entry)
        → hidden_trace who s h ≡ flat_map traced_step (hidden_steps who s h) }
{}
