ghost use Rattle.std.specs.Prelude.{◌≡◌, ℕ, All, List, None, false, true};
ghost use Rattle.pr_line.specs.declared.options.Options.{Options};
ghost use Rattle.pr_model.specs.Legal.{state_after};
ghost use Rattle.pr_model.specs.State.{TracedState};
ghost use Rattle.pr_model.specs.declared.events.Entry.{Entry};
ghost use Rattle.pr_report_laws.specs.OwnFiles.{CallsItsFiles, ClosesControlsLast};
ghost use Rattle.pr_truss.specs.FunctionCalls.{next_function_call_of};
ghost use Rattle.pr_truss.specs.Marks.{has_functions};
ghost use Rattle.pr_truss.specs.Trusses.{first_truss};
ghost use Rattle.pr_truss_laws.specs.Exchanges.{Exchange};
ghost use Rattle.pr_truss_laws.specs.Handles.{HasNothingOpen};
ghost use Rattle.pr_function_laws.specs.Opened.{IsFunctionRun, functions_at};
ghost use Rattle.pr_function_laws.specs.Ordinary.{IsTrussBeside};
ghost use Rattle.pr_function_laws.specs.OrdinaryRuns.{ClosesFreelyThroughout, ShowsWhatIsNewOf, ShowsWhatItReadsOf};
ghost use Rattle.pr_function_laws.specs.Runs.{MakesFunctionCalls};
ghost use Rattle.pr_function_laws.specs.Soon.{IsCalm};

/// Beside its business on breakpoints truss with calls of functions is a truss. Some messages and waits are left out:
/// the PCREAD, PCWRITE and PCCFAULT by which it sees to its breakpoints, and the wait for the stop of a process that it
/// leaves, with PCWSTOP. Some stand in place of others: it traces all signals and faults, and fork, vfork and exec
/// besides, runs a process with PRCFAULT or PRSTEP, and begins to leave one by PCSTOP. What it reads of faults of its
/// own counts as nothing. Then its exchanges are those of a truss, which has reported what this one has, but for the
/// calls. So that truss does its own business in these exchanges, and nothing else, and polls soon. All that it has
/// reported, calls too, stands in the order in which it learnt it, without -c a line for each. This is so whatever it
/// was replied, as long as only waits are interrupted.
#[tactic(auto, using(crate::proofs::OrdinaryTruss::OrdinaryExchanges::ordinaries))]
pub fn beside_its_breakpoints_it_is_a_truss()
    ensures { (o : Options) (xs : List Exchange) → has_functions o ≡ true → o.follow ≡ false
        → MakesFunctionCalls (first_truss o) xs → All IsCalm xs → IsTrussBeside o xs }
{}

/// In each legal history of truss with functions, in each entry and of each process: it shows nothing new, or one event
/// more, which it reads in this entry, the options select, and is no fault of its own.
#[tactic(auto, using(crate::proofs::OrdinaryTruss::OrdinaryShown::shown_now))]
pub fn it_shows_what_it_reads_right_then()
    ensures { (n k : ℕ) (o : Options) (s : TracedState) (h : List Entry) → IsFunctionRun n k o s h
        → ShowsWhatItReadsOf k o s h }
{}

/// In each legal history of truss with functions: where it reads in the status of a process an event that the options
/// select, and that is no fault of its own, it shows this event in that entry, once no stop is left that stood before
/// truss came. The same of the statuses of the lwps of a process that it leaves, if it has not looked at the event
/// before.
#[tactic(auto, using(crate::proofs::ShownOnce::OrdinaryNew::new_shown))]
pub fn it_shows_what_is_new()
    ensures { (n k : ℕ) (o : Options) (s : TracedState) (h : List Entry) → IsFunctionRun n k o s h
        → ShowsWhatIsNewOf k o s h }
{}

/// In each legal history of truss with functions, wherever it has come to: each call of it that names handles names
/// files that it has open, and of the right kind; of the files of a process it closes the control file last, and then
/// nobody has the process open for writing, and under PR_RLC nothing of the tracing is left in it. When it has finished
/// it has nothing open.
#[tactic(auto, using(crate::proofs::OrdinaryTruss::OrdinaryLaws::own_files))]
pub fn it_calls_closes_and_leaves_its_files_as_truss_does()
    ensures calls { (n k : ℕ) (o : Options) (s : TracedState) (h : List Entry) → IsFunctionRun n k o s h
        → CallsItsFiles k s h }
    ensures controls { (n k : ℕ) (o : Options) (s : TracedState) (h : List Entry) → IsFunctionRun n k o s h
        → ClosesControlsLast k s h }
    ensures releases { (n k : ℕ) (o : Options) (s : TracedState) (h : List Entry) → IsFunctionRun n k o s h
        → ClosesFreelyThroughout k s h }
    ensures leaves { (n k : ℕ) (o : Options) (s : TracedState) (h : List Entry) → IsFunctionRun n k o s h
        → next_function_call_of (functions_at k o h) ≡ None → HasNothingOpen k (state_after s h) }
{}
