ghost use Rattle.std.specs.Prelude.{ℕ, List};
ghost use Rattle.pr_model.specs.State.{TracedState};
ghost use Rattle.pr_model.specs.declared.events.Entry.{Entry};
ghost use Rattle.pr_truss.specs.Trusses.{TrussState};
ghost use Rattle.pr_function_laws.specs.Lifted.{IsAtStopAtBreakpoint};
ghost use Rattle.pr_function_laws.specs.Stretches.{OthersOnlyStop};

/// From the read that tells truss of an lwp at a breakpoint, until truss makes a call after its next read of the
/// process, no other lwp of the process begins an instruction, whatever other controllers and other processes do: the
/// breakpoint is lifted for the step of that one lwp alone.
pub fn a_breakpoint_is_lifted_for_one_lwp_alone()
    ensures { (n k : ℕ) (t : TrussState) (place status pid id : ℕ) (s : TracedState) (e : Entry) (between : List Entry)
        → IsAtStopAtBreakpoint n k t place status pid id s e between → OthersOnlyStop pid id between }
{}
