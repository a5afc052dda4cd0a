ghost use Rattle.std.specs.Prelude.{ℕ, List};
ghost use Rattle.pr_line.specs.declared.options.Options.{Options};
ghost use Rattle.pr_model.specs.State.{TracedState};
ghost use Rattle.pr_model.specs.declared.events.Entry.{Entry};
ghost use Rattle.pr_function_laws.specs.LeftAlone.{IsLeftAlone};
ghost use Rattle.pr_function_laws.specs.ReachedRuns.{IsReachedFunctionRun};
ghost use Rattle.pr_function_laws.specs.Opened.{HoldsWhatItOpened, IsFunctionRun, LiftsForOneAlone};

/// From the end of the opening of a process, until truss closes its files, truss has its own files of that process and
/// nobody else has it open for writing; all its signals but SIGKILL and all its faults are traced, and so are fork,
/// vfork and exec. So it is also once truss was interrupted, of each process whose opening had come to its stop; and
/// nobody else has that open for writing, and it is traced so, until truss closes its control file, the last one. This
/// is so in each legal history.
#[tactic(auto, using(crate::proofs::LeavingProcesses::LeavingHolds::held_open))]
pub fn what_truss_opened_it_traces_alone()
    ensures { (n k : ℕ) (o : Options) (s : TracedState) (h : List Entry) → IsFunctionRun n k o s h
        → HoldsWhatItOpened k o s h }
{}

/// In each legal history from a state that the machine reaches, in which controllers write bytes: from each read that
/// tells truss of an lwp at a breakpoint, until truss makes a call after its next read of the process, no other lwp of
/// the process begins an instruction; and wherever truss steps that lwp, it is at the address of the function, whose
/// first instruction is what can be fetched there.
#[tactic(auto, using(crate::proofs::OpenedProcesses::OpenedLaws::opens))]
pub fn each_breakpoint_is_lifted_for_one_lwp_alone()
    ensures { (n k : ℕ) (o : Options) (s : TracedState) (h : List Entry) → IsReachedFunctionRun n k o s h
        → LiftsForOneAlone k o s h }
{}

/// In each such history: where truss is interrupted before it reads the status of that process again, it is in a poll,
/// and no other lwp of the process begins an instruction behind the interrupt either, until truss closes the control
/// file of the process.
#[tactic(auto, using(crate::proofs::LeavingProcesses::LeavingAlone::left_alone))]
pub fn an_interrupt_leaves_one_lwp_alone()
    ensures { (n k : ℕ) (o : Options) (s : TracedState) (h : List Entry) → IsReachedFunctionRun n k o s h
        → IsLeftAlone k o s h }
{}
