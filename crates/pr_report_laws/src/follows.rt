ghost use Rattle.std.specs.Prelude.{◌≡◌, ◌∷◌, ◌++◌, ℕ, true, List, Option};
ghost use Rattle.pr_line.specs.declared.options.Options.{Options};
ghost use Rattle.pr_model.specs.Legal.{IsLegal};
ghost use Rattle.pr_model.specs.State.{TracedState};
ghost use Rattle.pr_model.specs.declared.calls.Call.{Call};
ghost use Rattle.pr_model.specs.declared.events.Entry.{Entry};
ghost use Rattle.pr_truss.specs.Feeding.{fed};
ghost use Rattle.pr_truss.specs.NextCalls.{next_call_of};
ghost use Rattle.pr_truss.specs.Trusses.{first_truss, traced_at};
ghost use Rattle.pr_truss.specs.declared.reports.Report.{Report};
ghost use Rattle.pr_truss_laws.specs.Exchanges.{Exchange, Makes, exchanges, truss_after};
ghost use Rattle.pr_truss_laws.specs.Handles.{handles_of};
ghost use Rattle.pr_truss_laws.specs.Runs.{IsTrussRun};
ghost use Rattle.pr_report_laws.specs.Follows.{IsHandledNext, IsLeftChild, ReadsFork};
ghost use Rattle.pr_report_laws.specs.Freed.{IsInterruptedFreeing, IsSetFree, ReadsLastFork};
ghost use Rattle.pr_report_laws.specs.ToldForks.{
  FollowsChild,
  FreesChild,
  IsLastReadAt,
  IsReadAt,
  ReadsChild,
  ReadsLastChild,
  TellsFork,
  TellsLastFork,
};

/// Where children are followed, truss opens the child of each fork that it has read: the calls of the opening come
/// next. None of them is refused before the child runs, and the parent runs then. Or the first refusal is the next
/// report, what was opened of the child is closed, file by file, and the parent runs. Or truss was interrupted. Where
/// its exchanges end before all this, the call that comes then is due; where truss has finished none is. This is so
/// whatever it was replied.
#[tactic(auto, using(crate::proofs::FollowedChildren::FollowLaws::follows))]
pub fn each_child_that_was_read_is_handled()
    ensures { (o : Options) (xs before later : List Exchange) (x : Exchange) (place child : ℕ) → o.follow ≡ true
        → Makes (first_truss o) xs → xs ≡ before ++ x ∷ later
        → ReadsFork (truss_after (first_truss o) before) x.reply place child
        → IsHandledNext child (traced_at (truss_after (first_truss o) before) place).control
        (fed (truss_after (first_truss o) before) x.reply).reports (truss_after (first_truss o) xs).reports
        (next_call_of (truss_after (first_truss o) xs)) later }
{}

/// In a legal history no call of such an opening is interrupted.
pub fn no_opening_of_a_child_is_interrupted()
    ensures { (n k child : ℕ) (s : TracedState) (h : List Entry) (before later : List Exchange) → IsLegal n s h
        → exchanges k h ≡ before ++ later → IsLeftChild child later → ⊥ }
{}

/// Where children are followed, truss sets free the child of each fork that it has read while it leaves a process: it
/// opens the child's control file, sets PR_RLC and closes it. Where the open is refused, that is the next report; an
/// interrupted one is not reported. Then the files of the process are closed. Where its exchanges end before all this,
/// the call that comes then is due. This is so whatever it was replied.
#[tactic(auto, using(crate::proofs::FollowedChildren::FreedLaws::frees))]
pub fn each_child_that_was_read_while_leaving_is_set_free()
    ensures { (o : Options) (xs before later : List Exchange) (x : Exchange) (child : ℕ) → o.follow ≡ true
        → Makes (first_truss o) xs → xs ≡ before ++ x ∷ later
        → ReadsLastFork (truss_after (first_truss o) before) x.reply child
        → IsSetFree child (handles_of (traced_at (truss_after (first_truss o) before) 0))
        (fed (truss_after (first_truss o) before) x.reply).reports (truss_after (first_truss o) xs).reports
        (next_call_of (truss_after (first_truss o) xs)) later }
{}

/// In a legal history the open of such a child is not interrupted.
pub fn no_freeing_of_a_child_is_interrupted()
    ensures { (n k child : ℕ) (s : TracedState) (h : List Entry) (before later : List Exchange) (handles : List ℕ)
        (base reports : List Report) (due : Option Call) → IsLegal n s h → exchanges k h ≡ before ++ later
        → IsInterruptedFreeing child handles base reports due later → ⊥ }
{}

/// The same by calls and replies. Where children are followed, and truss has hold of a process, it reads that an lwp of
/// it stands on the return of a fork or vfork, which made a child. Where no old stop of the process is left then, by
/// the number of reads since truss got hold of it, its next calls open the child, and then the parent runs, by the
/// control file that truss has open of it. Where truss leaves the process, they set the child free and close the four
/// files of it.
pub fn each_child_of_which_a_read_told_is_handled()
    ensures followed { (n k : ℕ) (o : Options) (parent child : ℕ) (s : TracedState) (before later : List Entry)
        (e : Entry) → o.follow ≡ true → IsTrussRun n k o s (before ++ e ∷ later)
        → ReadsChild k o parent child s before e → FollowsChild k o parent child s before e later }
    ensures freed { (n k : ℕ) (o : Options) (parent child : ℕ) (s : TracedState) (before later : List Entry)
        (e : Entry) → o.follow ≡ true → IsTrussRun n k o s (before ++ e ∷ later)
        → ReadsLastChild k o parent child s before e → FreesChild k o parent child s before e later }
{}

/// Truss acts on the child of a fork, by its own state, just where a read told it of the child so: what is said by
/// calls and replies leaves out none of the reads that are told by its state, and adds none.
pub fn truss_acts_on_a_child_just_where_a_read_told_of_it()
    ensures told { (n k : ℕ) (o : Options) (parent child : ℕ) (s : TracedState) (before later : List Entry)
        (e : Entry) → IsTrussRun n k o s (before ++ e ∷ later) → ReadsChild k o parent child s before e
        → TellsFork k o child before e }
    ensures told_last { (n k : ℕ) (o : Options) (parent child : ℕ) (s : TracedState) (before later : List Entry)
        (e : Entry) → IsTrussRun n k o s (before ++ e ∷ later) → ReadsLastChild k o parent child s before e
        → TellsLastFork k o child before e }
    ensures acts { (n k : ℕ) (o : Options) (s : TracedState) (h : List Entry) (past xs : List Exchange) (x : Exchange)
        (place child : ℕ) → IsTrussRun n k o s h → exchanges k h ≡ past ++ x ∷ xs
        → ReadsFork (truss_after (first_truss o) past) x.reply place child
        → IsReadAt k o (traced_at (truss_after (first_truss o) past) place).pid child s h past x }
    ensures acts_last { (n k : ℕ) (o : Options) (s : TracedState) (h : List Entry) (past xs : List Exchange)
        (x : Exchange) (child : ℕ) → IsTrussRun n k o s h → exchanges k h ≡ past ++ x ∷ xs
        → ReadsLastFork (truss_after (first_truss o) past) x.reply child
        → IsLastReadAt k o (traced_at (truss_after (first_truss o) past) 0).pid child s h past x }
{}
