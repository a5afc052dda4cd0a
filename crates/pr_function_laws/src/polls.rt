ghost use Rattle.std.specs.Prelude.{ℕ, List};
ghost use Rattle.pr_line.specs.declared.options.Options.{Options};
ghost use Rattle.pr_model.specs.State.{TracedState};
ghost use Rattle.pr_model.specs.declared.events.Entry.{Entry};
ghost use Rattle.pr_report_laws.specs.OwnFiles.{PollsEachOnce};
ghost use Rattle.pr_report_laws.specs.PollOrder.{PollsInOrder};
ghost use Rattle.pr_truss_laws.specs.Exchanges.{exchanges};
ghost use Rattle.pr_function_laws.specs.Opened.{IsFunctionRun};
ghost use Rattle.pr_function_laws.specs.SoonPolls.{PollsByItsFilesOf};

/// In each legal history of truss with functions: each poll of it lists the control files that it has open, all of them
/// and no others, in the order in which it opened them, as its exchanges tell; and none of them twice.
#[tactic(auto, using(crate::proofs::OrdinaryTruss::OrdinaryPolls::ordered))]
pub fn it_polls_its_processes_in_the_order_of_its_opens()
    ensures order { (n k : ℕ) (o : Options) (s : TracedState) (h : List Entry) → IsFunctionRun n k o s h
        → PollsInOrder (exchanges k h) }
    ensures once { (n k : ℕ) (o : Options) (s : TracedState) (h : List Entry) → IsFunctionRun n k o s h
        → PollsEachOnce k h }
{}

/// In each legal history of truss with functions, wherever it has come to: it polls, or has finished, after so many
/// calls at most, as its functions, the control files that it has open, and, as long as it has not polled, the words of
/// its options tell; and two more for each interrupt.
#[tactic(auto, using(crate::proofs::Looking::SoonPolls::soon_polls))]
pub fn it_polls_soon_by_its_functions_and_files()
    ensures { (n k : ℕ) (o : Options) (s : TracedState) (h : List Entry) → IsFunctionRun n k o s h
        → PollsByItsFilesOf k o s h }
{}
