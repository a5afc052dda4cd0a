ghost use Rattle.std.specs.Prelude.{◌≡◌, ◌⊎◌, ◌++◌, ℕ, true, false, None, List, [], ◌∷◌};
ghost use Rattle.pr_line.specs.declared.options.Options.{Options};
ghost use Rattle.pr_model.specs.State.{TracedState};
ghost use Rattle.pr_model.specs.declared.events.Entry.{Entry};
ghost use Rattle.pr_truss.specs.NextCalls.{next_call_of};
ghost use Rattle.pr_truss_laws.specs.Exchanges.{truss_at};
ghost use Rattle.pr_truss_laws.specs.Runs.{IsTrussRun};
ghost use Rattle.pr_report_laws.specs.Attachments.{HasFollowed, HasOpened, IsLetGo};
ghost use Rattle.pr_report_laws.specs.Watching.{watches};

/// A truss that has made no call yet watches no process, and neither does one that has finished.
#[tactic(auto, using(crate::proofs::Watching::AttachmentLaws::attachments))]
pub fn no_process_is_watched_at_first_or_at_last()
    ensures first { (k : ℕ) (o : Options) (pid : ℕ) → watches (truss_at k o []) pid ≡ false }
    ensures last { (k : ℕ) (o : Options) (pid : ℕ) (h : List Entry) → next_call_of (truss_at k o h) ≡ None
        → watches (truss_at k o h) pid ≡ false }
{}

/// In a legal history of a lawful state, in which a truss with nothing open makes its calls: it watches a process once
/// it has made all the calls of its opening and none was refused; and so it does the child of a fork, where PCRUN, the
/// last of its calls, may be refused, but not because the child has ended.
#[tactic(auto, using(crate::proofs::Watching::AttachmentLaws::attachments))]
pub fn an_opened_process_is_watched()
    ensures given { (n k : ℕ) (o : Options) (pid : ℕ) (s : TracedState) (h : List Entry) → IsTrussRun n k o s h
        → HasOpened k o pid h → watches (truss_at k o h) pid ≡ true }
    ensures born { (n k : ℕ) (o : Options) (pid : ℕ) (s : TracedState) (h : List Entry) → IsTrussRun n k o s h
        → HasFollowed k pid h → watches (truss_at k o h) pid ≡ true }
{}

/// In such a history truss begins to watch a process in no other way: where the last entry makes it watch the process,
/// its last calls are those of such an opening.
#[tactic(auto, using(crate::proofs::Watching::AttachmentLaws::attachments))]
pub fn only_an_opened_process_is_watched()
    ensures { (n k : ℕ) (o : Options) (pid : ℕ) (s : TracedState) (before : List Entry) (e : Entry)
        → IsTrussRun n k o s (before ++ e ∷ []) → watches (truss_at k o before) pid ≡ false
        → watches (truss_at k o (before ++ e ∷ [])) pid ≡ true
        → HasOpened k o pid (before ++ e ∷ []) ⊎ HasFollowed k pid (before ++ e ∷ []) }
{}

/// In such a history, where truss watched a process and the last entry makes it watch it no more: the process has
/// ended; or an earlier call of truss was refused with EINTR, and in this entry it has read the statuses of the lwps of
/// the process.
#[tactic(auto, using(crate::proofs::Watching::AttachmentLaws::attachments))]
pub fn a_watched_process_is_let_go_for_a_reason()
    ensures { (n k : ℕ) (o : Options) (pid : ℕ) (s : TracedState) (before : List Entry) (e : Entry)
        → IsTrussRun n k o s (before ++ e ∷ []) → watches (truss_at k o before) pid ≡ true
        → watches (truss_at k o (before ++ e ∷ [])) pid ≡ false → IsLetGo k pid s before e }
{}
