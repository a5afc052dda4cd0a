ghost use Rattle.std.specs.Prelude.{ℕ, List};
ghost use Rattle.pr_line.specs.declared.options.Options.{Options};
ghost use Rattle.pr_model.specs.State.{TracedState};
ghost use Rattle.pr_model.specs.declared.events.Entry.{Entry};
ghost use Rattle.pr_function_laws.specs.LineEvents.{AreOfTheirEventsIn};
ghost use Rattle.pr_function_laws.specs.LineMoments.{MemoriesStand};
ghost use Rattle.pr_function_laws.specs.LineTexts.{HaveTheirTextsIn, ReadsAtOnceOf, ReadsForItsLinesOf};
ghost use Rattle.pr_function_laws.specs.ReachedRuns.{IsReachedFunctionRun};
ghost use Rattle.pr_function_laws.specs.Opened.{IsFunctionRun, functions_at};
ghost use Rattle.pr_function_laws.specs.Ordinary.{ordinary_among};
ghost use Rattle.pr_function_laws.specs.ToldTurns.{AreSteppable};

/// In each legal history of truss with functions: the text that it has reported with an event is what stood in the
/// memory of the process, where the line of the event asks for it, in the state in which truss read it, with the
/// breakpoints that stood there then; that was after its report before and before this one. An event whose line asks
/// for none has no text, nor has one whose process had ended before truss came to read.
#[tactic(auto, using(crate::proofs::LineMemory::LineTexts::texts))]
pub fn what_stands_in_its_lines_is_what_it_read()
    ensures { (n k : ℕ) (o : Options) (s : TracedState) (h : List Entry) → IsFunctionRun n k o s h
        → HaveTheirTextsIn k o s h (ordinary_among (functions_at k o h).reports) }
{}

/// In each legal history of truss with functions: where it reads the memory file of a process, the last event that it
/// has reported is one of that process, its line asks for just this memory, and truss read the event lately: since then
/// it has only planted or lifted breakpoints in the process. The code of functions it reads by messages.
#[tactic(auto, using(crate::proofs::LineMemory::LineReads::line_reads))]
pub fn it_reads_memory_for_its_lines_alone()
    ensures { (n k : ℕ) (o : Options) (s : TracedState) (h : List Entry) → IsFunctionRun n k o s h
        → ReadsForItsLinesOf k o s h }
{}

/// In each legal history of truss with functions, from a state that the machine reaches, in which controllers write
/// bytes, also where it is interrupted and leaves its processes: where truss reads the memory file of a process, it has
/// made no call since it read the event for whose line it reads; so it has planted and lifted no breakpoint there. This
/// is said where its functions begin with an instruction that it can step.
#[tactic(auto, using(crate::proofs::LineMemory::TextsAtOnce::at_once))]
pub fn it_reads_memory_right_behind_its_event()
    ensures { (n k : ℕ) (o : Options) (s : TracedState) (h : List Entry) → IsReachedFunctionRun n k o s h
        → AreSteppable o → ReadsAtOnceOf k o s h }
{}

/// In each legal history of truss with functions, from a state that the machine reaches, in which controllers write
/// bytes: where an event comes whose line asks for memory, the process has in the state in which truss reads that event
/// the memory that it had right after the event, if it lives; and so it has in the state in which truss reads the
/// memory behind that, having called nothing between. This is said of events that come while truss has opened the
/// process whole and no stop of it is left from before truss came, and that the options select; and of what comes until
/// truss is interrupted.
#[tactic(auto, using(crate::proofs::LineMemory::LineMoments::moments))]
pub fn the_memory_of_a_line_is_that_of_its_moment()
    ensures { (n k : ℕ) (o : Options) (s : TracedState) (h : List Entry) → IsReachedFunctionRun n k o s h
        → MemoriesStand k o s h }
{}

/// In each legal history of truss with functions, from a state that the machine reaches, in which controllers write
/// bytes, also where it is interrupted and leaves its processes: the memory that stands in the line of an event is that
/// of the process in the state right after the event, which came while truss watched the process; or SIGKILL ended the
/// process between the event and the read of the memory, and then the line shows none. Truss calls nothing between the
/// read of the event and that of the memory. This is said where the functions begin with an instruction that truss can
/// step.
#[tactic(auto, using(crate::proofs::LineMemory::LineEvents::of_their_events))]
pub fn the_memory_of_a_line_is_that_of_its_event()
    ensures { (n k : ℕ) (o : Options) (s : TracedState) (h : List Entry) (pid : ℕ) → IsReachedFunctionRun n k o s h
        → AreSteppable o → AreOfTheirEventsIn k o pid s h (ordinary_among (functions_at k o h).reports) }
{}
