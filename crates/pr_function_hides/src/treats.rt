ghost use Rattle.std.specs.Prelude.{◌≡◌, ◌≢◌, ◌<◌, ◌⊎◌, ℕ, Some, false, length, option_and_then, true};
ghost use Rattle.pr_line.specs.declared.events.Event.{Event as AnyEvent};
ghost use Rattle.pr_model.specs.Replies.{bytes_in};
ghost use Rattle.pr_model.specs.declared.calls.Reply.{Reply};
ghost use Rattle.pr_rec.specs.declared.lwps.LwpStatus.{LwpStatus};
ghost use Rattle.pr_truss.specs.Asides.{marks_at};
ghost use Rattle.pr_truss.specs.FunctionEvents.{fresh_event, function_event};
ghost use Rattle.pr_truss.specs.FunctionFeeding.{fed_functions};
ghost use Rattle.pr_truss.specs.Marks.{has_functions};
ghost use Rattle.pr_truss.specs.Records.{status_lwp};
ghost use Rattle.pr_truss.specs.Replies.{answer_of};
ghost use Rattle.pr_truss.specs.Trusses.{TrussState, traced_at};
ghost use Rattle.pr_truss.specs.declared.asides.Aside.TheVariants.{Nothing};
ghost use Rattle.pr_truss.specs.declared.function_events.FunctionEvent.{FunctionEvent};
ghost use Rattle.pr_truss.specs.declared.marks.Marks.{Marks};
ghost use Rattle.pr_truss.specs.declared.replies.Answer.TheVariants.{Accepted, Interrupted};
ghost use Rattle.pr_truss.specs.declared.stages.AfterClosing.TheVariants.{GoOn};
ghost use Rattle.pr_truss.specs.declared.stages.Stage.TheVariants.{Closing, ReadingStatus, Running};
ghost use Rattle.pr_function_hides.specs.Copying.{IsTreated};
ghost use Rattle.pr_function_hides.specs.Treating.{Treats};

/// What truss does at an event, it has done before it runs the process. It begins with the read of the event; each
/// reply but an interrupt goes on with it, until truss runs the process, or closes it, since it has ended; and where
/// the call of its stage comes next it is done.
pub fn what_truss_does_at_an_event_comes_before_its_run()
    ensures begins { (t : TrussState) (r : Reply) (place : ℕ) (l : LwpStatus) (e : AnyEvent)
        → has_functions t.options ≡ true → t.options.follow ≡ false → t.leaving ≡ false → place < length t.traced
        → t.aside ≡ Nothing → t.stage ≡ ReadingStatus place → answer_of r ≡ Accepted
        → option_and_then status_lwp (bytes_in r) ≡ Some l → fresh_event (traced_at t place) l ≡ Some e
        → Treats (marks_at t place) (function_event t.options (marks_at t place) l.id e) place (fed_functions t r) }
    ensures goes_on { (t : TrussState) (r : Reply) (m : Marks) (e : FunctionEvent) (place : ℕ)
        → answer_of r ≢ Interrupted → Treats m e place t → has_functions t.options ≡ true
        → (t.aside ≡ Nothing → t.stage ≢ Running place)
        → Treats m e place (fed_functions t r) ⊎ ((fed_functions t r).stage ≡ Closing place GoOn) }
    ensures done { (m : Marks) (e : FunctionEvent) (place : ℕ) (t : TrussState) → Treats m e place t
        → t.aside ≡ Nothing → IsTreated m e (marks_at t place) }
{}
