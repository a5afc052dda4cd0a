ghost use Rattle.std.specs.Prelude.{◌≡◌, ℕ, false, List, Some};
ghost use Rattle.pr_num.specs.ById.{IsRising};
ghost use Rattle.pr_model.specs.Lawful.{IsLawful};
ghost use Rattle.pr_model.specs.Legal.{IsLegal};
ghost use Rattle.pr_model.specs.State.{TracedProcess, TracedState, live_process};
ghost use Rattle.pr_model.specs.declared.events.Entry.{Entry};
ghost use Rattle.pr_truss_laws.specs.Stills.{IsFrozen};
ghost use Rattle.pr_reached.specs.Fits.{IsFitSystem};
ghost use Rattle.pr_function_laws.specs.Steps.{StopsAtAll};
ghost use Rattle.pr_function_laws.specs.Stretches.{IsAtStop, IsStretch, OthersOnlyStop};

/// In a process that is stopped on an event, and has no agent, each lwp stands still.
#[tactic(auto, using(crate::proofs::Stepping::StretchLemmas::stretches))]
pub fn a_process_that_is_stopped_on_an_event_is_frozen()
    ensures { (p : TracedProcess) → IsRising p.lwps → IsAtStop p → IsFrozen p }
{}

/// A process that stops at all signals and all faults is stopped on an event. As long as the one controller that has it
/// open for writing does nothing to it but write its memory while it is stopped, and step one lwp that stands at a
/// fault, by PCRUN with PRCFAULT and PRSTEP, no other lwp of it begins an instruction, whatever others do: each of
/// their turns is only the stop to which that lwp was directed.
#[tactic(auto, using(crate::proofs::Stepping::StretchLemmas::stretches))]
pub fn no_other_lwp_begins_an_instruction()
    ensures { (n k pid id number : ℕ) (s : TracedState) (p : TracedProcess) (h : List Entry) → IsLawful s
        → IsFitSystem s.system → live_process s.system pid ≡ Some p → IsAtStop p → StopsAtAll p.control → IsLegal n s h
        → IsStretch k pid id number s h → OthersOnlyStop pid id h }
{}
