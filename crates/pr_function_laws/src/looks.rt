ghost use Rattle.std.specs.Prelude.{ℕ, List};
ghost use Rattle.pr_line.specs.declared.options.Options.{Options};
ghost use Rattle.pr_model.specs.State.{TracedState};
ghost use Rattle.pr_model.specs.declared.events.Entry.{Entry};
ghost use Rattle.pr_report_laws.specs.Named.{LooksAtWhatIsNamed};
ghost use Rattle.pr_function_laws.specs.Looks.{LooksInPlaceOf};
ghost use Rattle.pr_function_laws.specs.Opened.{IsFunctionRun};

/// In each legal history of truss with functions: it reads the status of a process nowhere but right after a poll has
/// named the process, of which it has hold; and the statuses of its lwps nowhere but where it has no hold of it, right
/// behind the wait of its opening, that was granted, or where truss was interrupted, has hold of the process, and its
/// last call is the wait for PCSTOP or for PCWSTOP to it, that was granted, or one of these messages or waits that was
/// refused, neither with EINTR nor because the process has ended. Each of these it reads whole.
#[tactic(auto, using(crate::proofs::Looking::LookPlaces::look_places))]
pub fn it_looks_at_a_process_in_place()
    ensures { (n k : ℕ) (o : Options) (s : TracedState) (h : List Entry) → IsFunctionRun n k o s h
        → LooksInPlaceOf k o s h }
{}

/// In each such history: right after a poll has named a process it reads the status of that process.
#[tactic(auto, using(crate::proofs::Looking::NamedLooks::named_looks))]
pub fn it_looks_at_what_a_poll_named()
    ensures { (n k : ℕ) (o : Options) (s : TracedState) (h : List Entry) → IsFunctionRun n k o s h
        → LooksAtWhatIsNamed k s h }
{}
