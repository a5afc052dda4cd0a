ghost use Rattle.std.specs.Prelude.{ℕ, List};
ghost use Rattle.pr_line.specs.declared.options.Options.{Options};
ghost use Rattle.pr_model.specs.State.{TracedState};
ghost use Rattle.pr_model.specs.declared.events.Entry.{Entry};
ghost use Rattle.pr_function_laws.specs.Named.{IsSoonRunOrClosed, RunsBeforeItPollsOf};
ghost use Rattle.pr_function_laws.specs.Opened.{IsFunctionRun};

/// In each legal history of truss with functions, by its calls and the handles of the kernel alone: when a poll of it
/// has named a process, at most twelve of its calls, and two more for each function, come before it sends PCRUN to that
/// process, with whatever flags, or closes the first handle that it has of it. No interrupt can lengthen this.
#[tactic(auto, using(crate::proofs::NextCalls::SoonNamed::named_soon))]
pub fn what_a_poll_named_by_its_handle_is_soon_run_or_closed()
    ensures { (n k : ℕ) (o : Options) (s : TracedState) (h : List Entry) → IsFunctionRun n k o s h
        → IsSoonRunOrClosed k o s h }
{}

/// In each such history: before it polls again it sends PCRUN to the process that a poll has named, with whatever
/// flags, or closes a handle that it has of it.
#[tactic(auto, using(crate::proofs::NextCalls::SoonNamed::named_soon))]
pub fn it_runs_or_closes_what_a_poll_named_before_it_polls_again()
    ensures { (n k : ℕ) (o : Options) (s : TracedState) (h : List Entry) → IsFunctionRun n k o s h
        → RunsBeforeItPollsOf k s h }
{}
