ghost use Rattle.std.specs.Prelude.{ℕ, List};
ghost use Rattle.pr_line.specs.declared.options.Options.{Options};
ghost use Rattle.pr_model.specs.State.{TracedState};
ghost use Rattle.pr_model.specs.declared.events.Entry.{Entry};
ghost use Rattle.pr_function_laws.specs.Opened.{IsFunctionRun};
ghost use Rattle.pr_function_laws.specs.ShownOnce.{ShowsStopsOnceOf};

/// In each legal history of truss with functions: between two entries in which it shows events of a process it sends
/// PCRUN to that process, with whatever flags. So it shows no stop twice, unless that is refused.
#[tactic(auto, using(crate::proofs::ShownOnce::OrdinaryOnce::shown_once))]
pub fn it_shows_no_stop_twice()
    ensures { (n k : ℕ) (o : Options) (s : TracedState) (h : List Entry) → IsFunctionRun n k o s h
        → ShowsStopsOnceOf k o s h }
{}
