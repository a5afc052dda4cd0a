ghost use Rattle.std.specs.Prelude.{◌≡◌, ◌≢◌, ◌<◌, ◌++◌, ℕ, true, false, List, [], ◌∷◌, None, Some, length};
ghost use Rattle.pr_laws.specs.LastCloses.{IsReleased};
ghost use Rattle.pr_line.specs.declared.options.Options.{Options};
ghost use Rattle.pr_model.specs.Calls.{Answer, answer_to};
ghost use Rattle.pr_model.specs.Handles.{handle_of, is_control};
ghost use Rattle.pr_model.specs.Legal.{state_after};
ghost use Rattle.pr_model.specs.State.{TracedProcess, TracedState, live_process};
ghost use Rattle.pr_model.specs.declared.calls.Call.TheVariants.{Close};
ghost use Rattle.pr_model.specs.declared.calls.File.TheVariants.{Ctl};
ghost use Rattle.pr_model.specs.declared.events.Entry.{Entry};
ghost use Rattle.pr_model.specs.declared.handles.Held.{Held};
ghost use Rattle.pr_num.specs.Control.{has_flags, klc_mode, rlc_mode};
ghost use Rattle.pr_num.specs.declared.messages.Message.TheVariants.{Set, Unset};
ghost use Rattle.pr_report_laws.specs.Releases.{HasModes, has_set_at, modes_set, released};
ghost use Rattle.pr_truss.specs.Messages.{all_modes, message_call};
ghost use Rattle.pr_truss.specs.Replies.{answer_of};
ghost use Rattle.pr_truss.specs.Trusses.{traced_at};
ghost use Rattle.pr_truss.specs.declared.replies.Answer.TheVariants.{Accepted};
ghost use Rattle.pr_truss.specs.declared.stages.FreeingStep.TheVariants.{Close as Free};
ghost use Rattle.pr_truss.specs.declared.stages.Stage.TheVariants.{FreeingChild};
ghost use Rattle.pr_report_laws.specs.SetModes.{HasSetRelease};
ghost use Rattle.pr_model.specs.declared.calls.Reply.{Reply};
ghost use Rattle.pr_truss_laws.specs.Exchanges.{errno_in, exchange_of, truss_at};
ghost use Rattle.pr_truss_laws.specs.Runs.{IsTrussRun};

/// In a legal history of a lawful state, in which a truss with nothing open makes its calls: as long as truss has the
/// control file of a process open, the process, if it lives, has its PR_RLC and its PR_KLC as truss has set them,
/// whatever others do.
#[tactic(auto, using(crate::proofs::Releasing::ReleaseLaws::releasings))]
pub fn the_modes_stay_as_truss_has_set_them()
    ensures { (n k : ℕ) (o : Options) (s : TracedState) (h : List Entry) → IsTrussRun n k o s h
        → (number : ℕ) (held : Held) (p : TracedProcess) → handle_of (state_after s h).opens k number ≡ Some held
        → is_control held.file ≡ true → live_process (state_after s h).system held.pid ≡ Some p
        → HasModes (modes_set k o held.pid h) p }
{}

/// So a live process of which truss has the control file open does not have PR_KLC: truss kills none by closing it.
#[tactic(auto, using(crate::proofs::Releasing::ReleaseLaws::releasings))]
pub fn truss_kills_nothing_that_it_closes()
    ensures { (n k : ℕ) (o : Options) (s : TracedState) (h : List Entry) → IsTrussRun n k o s h
        → (number : ℕ) (held : Held) (p : TracedProcess) → handle_of (state_after s h).opens k number ≡ Some held
        → is_control held.file ≡ true → live_process (state_after s h).system held.pid ≡ Some p
        → has_flags p.control.modes klc_mode ≡ false }
{}

/// And each process of which truss has set PR_RLC is released when truss closes its control file: nothing of it is
/// traced or watched right then, and no lwp of it stands on an event, is directed to stop, or has a mark.
#[tactic(auto, using(crate::proofs::Releasing::ReleaseLaws::releasings))]
pub fn what_truss_has_set_is_released()
    ensures { (n k : ℕ) (o : Options) (s : TracedState) (h : List Entry) → IsTrussRun n k o s h
        → (number : ℕ) (held : Held) (p : TracedProcess) → (a : Answer)
        → handle_of (state_after s h).opens k number ≡ Some held → is_control held.file ≡ true
        → modes_set k o held.pid h ≡ released → live_process (state_after s h).system held.pid ≡ Some p
        → answer_to (state_after s h) k (Close number) ≡ Some a
        → (q : TracedProcess) × ((live_process a.state.system held.pid ≡ Some q) × IsReleased q) }
{}

/// In such a history truss has set the modes of each process that it traces: of one that is attached, until all its
/// files are closed; and of one that it opens, from the step on that sets PR_RLC.
#[tactic(auto, using(crate::proofs::Releasing::ReleaseLaws::releasings))]
pub fn truss_sets_the_modes_of_what_it_traces()
    ensures { (n k : ℕ) (o : Options) (s : TracedState) (h : List Entry) → IsTrussRun n k o s h → (place : ℕ)
        → place < length (truss_at k o h).traced → has_set_at (truss_at k o h) place ≡ true
        → modes_set k o (traced_at (truss_at k o h) place).pid h ≡ released }
{}

/// It has set those of a child that it sets free, where the child lives when its control file is closed next.
#[tactic(auto, using(crate::proofs::Releasing::ReleaseLaws::releasings))]
pub fn truss_sets_the_modes_of_what_it_sets_free()
    ensures { (n k : ℕ) (o : Options) (s : TracedState) (h : List Entry) → IsTrussRun n k o s h
        → (pid control : ℕ) (p : TracedProcess) → (truss_at k o h).stage ≡ FreeingChild pid (Free control) → pid ≢ 0
        → live_process (state_after s h).system pid ≡ Some p → modes_set k o pid h ≡ released }
{}

/// In such a history what truss has set stays so: one entry more leaves it, where truss has the control file open.
#[tactic(auto, using(crate::proofs::Releasing::ReleaseLaws::releasings))]
pub fn what_truss_has_set_stays_set()
    ensures { (n k : ℕ) (o : Options) (s : TracedState) (before : List Entry) (e : Entry)
        → IsTrussRun n k o s (before ++ e ∷ []) → (number : ℕ) (held : Held)
        → handle_of (state_after s before).opens k number ≡ Some held → is_control held.file ≡ true
        → modes_set k o held.pid before ≡ released → modes_set k o held.pid (before ++ e ∷ []) ≡ released }
{}

/// A process that truss traces and of which it has set the modes, if it lives, has PR_RLC, and has no PR_KLC; and it is
/// released when truss closes its control file.
#[tactic(auto, using(crate::proofs::Releasing::ReleaseLaws::releasings))]
pub fn what_truss_traces_is_released()
    ensures runs { (n k : ℕ) (o : Options) (s : TracedState) (h : List Entry) → IsTrussRun n k o s h → (place : ℕ)
        → place < length (truss_at k o h).traced → (p : TracedProcess) → has_set_at (truss_at k o h) place ≡ true
        → live_process (state_after s h).system (traced_at (truss_at k o h) place).pid ≡ Some p
        → has_flags p.control.modes rlc_mode ≡ true }
    ensures spares { (n k : ℕ) (o : Options) (s : TracedState) (h : List Entry) → IsTrussRun n k o s h → (place : ℕ)
        → place < length (truss_at k o h).traced → (p : TracedProcess) → has_set_at (truss_at k o h) place ≡ true
        → live_process (state_after s h).system (traced_at (truss_at k o h) place).pid ≡ Some p
        → has_flags p.control.modes klc_mode ≡ false }
    ensures closed { (n k : ℕ) (o : Options) (s : TracedState) (h : List Entry) → IsTrussRun n k o s h → (place : ℕ)
        → place < length (truss_at k o h).traced → (p : TracedProcess) (a : Answer)
        → has_set_at (truss_at k o h) place ≡ true
        → live_process (state_after s h).system (traced_at (truss_at k o h) place).pid ≡ Some p
        → answer_to (state_after s h) k (Close (traced_at (truss_at k o h) place).control) ≡ Some a
        → (q : TracedProcess) × ((live_process a.state.system (traced_at (truss_at k o h) place).pid ≡ Some q)
        × IsReleased q) }
{}

/// A live process other than process 0 refuses neither of the two messages by which truss sets its modes.
#[tactic(auto, using(crate::proofs::Releasing::ReleaseGrants::grants))]
pub fn truss_is_granted_the_modes()
    ensures cleared { (k number : ℕ) (s : TracedState) (held : Held) (p : TracedProcess) (a : Answer)
        → handle_of s.opens k number ≡ Some held → held.file ≡ Ctl → live_process s.system held.pid ≡ Some p
        → held.pid ≢ 0 → answer_to s k (message_call number (Unset all_modes)) ≡ Some a
        → answer_of a.reply ≡ Accepted }
    ensures set { (k number : ℕ) (s : TracedState) (held : Held) (p : TracedProcess) (a : Answer)
        → handle_of s.opens k number ≡ Some held → held.file ≡ Ctl → live_process s.system held.pid ≡ Some p
        → held.pid ≢ 0 → answer_to s k (message_call number (Set rlc_mode)) ≡ Some a
        → answer_of a.reply ≡ Accepted }
{}

/// What truss has set by its messages is released, told by the messages and their replies alone. A live process of
/// which truss has set PR_RLC by a control file, which it has had open since, is released when truss closes that file.
/// The message is refused for no live process but process 0.
#[tactic(auto, using(crate::proofs::Holding::SetReleases::set_releases))]
pub fn what_truss_has_set_by_its_messages_is_released()
    ensures set { (n k : ℕ) (o : Options) (s : TracedState) (h : List Entry) → IsTrussRun n k o s h → (number : ℕ)
        (held : Held) (p : TracedProcess) (a : Answer) → HasSetRelease k number held s h
        → live_process (state_after s h).system held.pid ≡ Some p
        → answer_to (state_after s h) k (Close number) ≡ Some a
        → (q : TracedProcess) × ((live_process a.state.system held.pid ≡ Some q) × IsReleased q) }
    ensures granted { (n k : ℕ) (o : Options) (s : TracedState) (before : List Entry) (e : Entry)
        → IsTrussRun n k o s (before ++ e ∷ []) → (number : ℕ) (r : Reply) (held : Held) (p : TracedProcess)
        → exchange_of k e ≡ Some (record { call = message_call number (Set rlc_mode); reply = r })
        → handle_of (state_after s before).opens k number ≡ Some held → held.file ≡ Ctl
        → live_process (state_after s before).system held.pid ≡ Some p → held.pid ≢ 0 → errno_in r ≡ None }
{}
