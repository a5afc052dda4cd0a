ghost use Rattle.std.specs.Prelude.{ℕ, List};
ghost use Rattle.pr_line.specs.declared.options.Options.{Options};
ghost use Rattle.pr_model.specs.State.{TracedState};
ghost use Rattle.pr_model.specs.declared.events.Entry.{Entry};
ghost use Rattle.pr_report_laws.specs.Births.{IsNeverFollowed, LeavesForks, NamesNoChild};
ghost use Rattle.pr_report_laws.specs.Memories.{AreOfTheirEvents, HaveTheirTexts};
ghost use Rattle.pr_truss_laws.specs.Exchanges.{truss_at};
ghost use Rattle.pr_report_laws.specs.ReachedRuns.{IsReachedTrussRun};
ghost use Rattle.pr_truss_laws.specs.Runs.{IsTrussRun};

/// The memory in a line is that of one state. In a legal history of a lawful state, in which a truss with nothing open
/// makes its calls: the text that truss has reported with an event is what stood in the memory of the process, where
/// the line of the event asks for it, in the state in which truss read it, which was after its report before and before
/// this one. An event whose line asks for none has no text.
#[tactic(auto, using(crate::proofs::Memory::MemoryReads::memories))]
pub fn the_text_of_an_event_is_what_stood_in_memory()
    ensures { (n k : ℕ) (o : Options) (s : TracedState) (h : List Entry) → IsTrussRun n k o s h
        → HaveTheirTexts k o s h (truss_at k o h).reports }
{}

/// Where truss shows the selected events of a process, that memory is the one right after the event. Each of its
/// reports whose line asks for memory is of an event that came before truss read that memory, in an entry before which
/// just those events of the process were selected that truss had reported when it read. And the text of the report is
/// what stood in memory in the state right after that entry; or SIGKILL ended the process in between. What other
/// controllers and other processes do does not matter.
#[tactic(auto, using(crate::proofs::Memory::EventMemory::moments))]
pub fn the_text_of_an_event_is_that_of_its_moment()
    ensures forks_left { (n k : ℕ) (o : Options) (pid : ℕ) (s : TracedState) (h : List Entry)
        → IsReachedTrussRun n k o s h → NamesNoChild o h → LeavesForks k o h
        → AreOfTheirEvents k o pid s h (truss_at k o h).reports }
    ensures never_followed { (n k : ℕ) (o : Options) (pid : ℕ) (s : TracedState) (h : List Entry)
        → IsReachedTrussRun n k o s h → IsNeverFollowed k o pid h
        → AreOfTheirEvents k o pid s h (truss_at k o h).reports }
{}
