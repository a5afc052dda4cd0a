ghost use Rattle.std.specs.Prelude.{◌≡◌, ℕ, true, Some};
ghost use Rattle.pr_api.specs.Shapes.{has_shape};
ghost use Rattle.pr_model.specs.Calls.{Answer, answer_to};
ghost use Rattle.pr_model.specs.Lawful.{IsLawfulSystem};
ghost use Rattle.pr_model.specs.State.{TracedState};
ghost use Rattle.pr_model.specs.declared.calls.Call.{Call};

/// What the machine answers to a call in a lawful state has the shape of a reply to it: the ids of its processes rise
/// and are few, so that a list of them is not too long. The function does nothing: its clause is what is proved.
pub fn replies_of_the_machine_have_their_shape()
    ensures { (s : TracedState) (by : ℕ) (c : Call) (a : Answer) → IsLawfulSystem s.system → answer_to s by c ≡ Some a
        → has_shape c a.reply ≡ true }
{}
