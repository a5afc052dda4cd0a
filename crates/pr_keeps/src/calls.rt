ghost use Rattle.std.specs.Prelude.{◌≡◌, ℕ, Some};
ghost use Rattle.pr_keeps.specs.CallEdits.{CallEdit, CloseEdit};
ghost use Rattle.pr_model.specs.Calls.{Answer, answer_to};
ghost use Rattle.pr_model.specs.Handles.{with_closed};
ghost use Rattle.pr_model.specs.State.{TracedState};
ghost use Rattle.pr_model.specs.declared.calls.Call.{Call};
ghost use Rattle.pr_model.specs.declared.handles.Held.{Held};

/// Whatever a call of a controller makes of a state is one of its edits.
pub fn calls_make_their_edits()
    ensures { (s : TracedState) (by : ℕ) (c : Call) (a : Answer) → answer_to s by c ≡ Some a → CallEdit s by c a.state }
{}

/// Whatever the close of a handle makes of a system is one of its edits.
pub fn closes_make_their_edits()
    ensures { (s : TracedState) (handle : ℕ) (h : Held) → CloseEdit s.system h.pid (with_closed h handle s).system }
{}
