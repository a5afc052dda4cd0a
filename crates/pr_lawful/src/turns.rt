ghost use Rattle.std.specs.Prelude.{◌≡◌, ℕ, Some};
ghost use Rattle.pr_model.specs.Lawful.{IsLawfulSystem};
ghost use Rattle.pr_model.specs.LwpTurns.{LwpTurn, turn_of};
ghost use Rattle.pr_model.specs.State.{TracedSystem};

/// Whatever a turn of an lwp does, and whatever system call it makes, a lawful system stays lawful.
pub fn turns_keep_systems_lawful()
    ensures { (s : TracedSystem) (pid id : ℕ) (t : LwpTurn) → IsLawfulSystem s → turn_of s pid id ≡ Some t
        → IsLawfulSystem t.system }
{}
