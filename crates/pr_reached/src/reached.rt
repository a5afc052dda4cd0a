ghost use Rattle.std.specs.Prelude.{ℕ, List};
ghost use Rattle.pr_num.specs.Programs.{Program};
ghost use Rattle.pr_num.specs.declared.files.StoredFile.{StoredFile};
ghost use Rattle.pr_lawful.specs.Starts.{IsStart};
ghost use Rattle.pr_model.specs.FirstState.{first_state};
ghost use Rattle.pr_model.specs.Legal.{IsLegal, state_after};
ghost use Rattle.pr_model.specs.State.{TracedState};
ghost use Rattle.pr_model.specs.declared.events.Entry.{Entry};
ghost use Rattle.pr_reached.specs.ByteHistories.{HasBytes};
ghost use Rattle.pr_reached.specs.InRange.{IsStartInRange};
ghost use Rattle.pr_reached.specs.Reached.{IsReached};

/// The first state is reached, where its programs and its files are in range; and a legal history in which controllers
/// write bytes leads from a reached state to a reached one. So each state of a run is lawful, lends memory in order,
/// is fit and in range, and no lwp is asleep in a fork, a vfork or an exec in it.
pub fn legal_histories_reach_states()
    ensures first { (programs : List Program) (files : List StoredFile) (spawns : List ℕ)
        → IsStart programs files spawns → IsStartInRange programs files
        → IsReached (first_state programs files spawns) }
    ensures later { (n : ℕ) (s : TracedState) (h : List Entry) → IsReached s → HasBytes h → IsLegal n s h
        → IsReached (state_after s h) }
{}
