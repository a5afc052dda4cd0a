ghost use Rattle.std.specs.Prelude.{ℕ, List};
ghost use Rattle.pr_line.specs.declared.options.Options.{Options};
ghost use Rattle.pr_model.specs.State.{TracedState};
ghost use Rattle.pr_model.specs.declared.events.Entry.{Entry};
ghost use Rattle.pr_function_laws.specs.Holds.{KeepsItsHolds, OpensQuietly, WatchesWhatItHolds};
ghost use Rattle.pr_function_laws.specs.ReachedRuns.{IsReachedFunctionRun};
ghost use Rattle.pr_function_laws.specs.Opened.{IsFunctionRun};

/// The watch of a process, which is a part of truss's own state, is told by calls and replies. In each legal history of
/// truss with functions it watches a process just while it has hold of it: from the entry that completes a whole
/// opening of the process, the PCRUN behind the breakpoints that it has planted there, to the one in which a call to a
/// handle of the process is refused with ENOENT, or in which truss, which was interrupted, has read the statuses of its
/// lwps. Once it has finished it has hold of none.
#[tactic(auto, using(crate::proofs::Holding::HoldLaws::holds))]
pub fn it_watches_a_process_while_it_has_hold_of_it()
    ensures { (n k : ℕ) (o : Options) (s : TracedState) (h : List Entry) → IsFunctionRun n k o s h
        → WatchesWhatItHolds k o s h }
{}

/// In each legal history of truss with functions: it gets hold of a process at most once; as long as it has hold of it
/// it closes no file of it; it lets none go before it has polled, or a call of it was interrupted; and where it does,
/// the process has ended, or truss was interrupted and has read the statuses of its lwps.
#[tactic(auto, using(crate::proofs::Holding::HoldOnce::holds_once))]
pub fn it_gets_hold_of_a_process_once_and_closes_nothing_meanwhile()
    ensures { (n k : ℕ) (o : Options) (s : TracedState) (h : List Entry) → IsFunctionRun n k o s h
        → KeepsItsHolds k o s h }
{}

/// In each legal history of truss with functions, from a state that the machine reaches, in which controllers write
/// bytes: each opening with which it gets hold of a process has its wait in an earlier entry, and from that answered
/// wait on no event of the process comes until truss has hold of it.
#[tactic(auto, using(crate::proofs::Holding::HoldQuiet::quiet_openings))]
pub fn from_the_wait_of_an_opening_no_event_comes()
    ensures { (n k : ℕ) (o : Options) (s : TracedState) (h : List Entry) → IsReachedFunctionRun n k o s h
        → OpensQuietly k o s h }
{}
