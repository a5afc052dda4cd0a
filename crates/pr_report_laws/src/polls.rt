ghost use Rattle.std.specs.Prelude.{ℕ, List};
ghost use Rattle.pr_line.specs.declared.options.Options.{Options};
ghost use Rattle.pr_model.specs.State.{TracedState};
ghost use Rattle.pr_model.specs.declared.events.Entry.{Entry};
ghost use Rattle.pr_report_laws.specs.PollOrder.{PollsInOrder};
ghost use Rattle.pr_truss_laws.specs.Exchanges.{exchanges};
ghost use Rattle.pr_truss_laws.specs.Runs.{IsTrussRun};

/// In a legal history of a lawful state, in which a truss with nothing open makes its calls: each poll of it lists the
/// control files that it has open, all of them and no others, in the order in which it opened them. Which these are its
/// exchanges alone tell. So of several processes that are ready it sees to the one first that it opened first.
#[tactic(auto, using(crate::proofs::OwnFiles::OrderedPolls::ordered))]
pub fn truss_polls_its_processes_in_the_order_of_its_opens()
    ensures { (n k : ℕ) (o : Options) (s : TracedState) (h : List Entry) → IsTrussRun n k o s h
        → PollsInOrder (exchanges k h) }
{}
