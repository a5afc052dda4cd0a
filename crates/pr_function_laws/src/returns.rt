ghost use Rattle.std.specs.Prelude.{◌≡◌, ℕ, true, Some};
ghost use Rattle.pr_truss.specs.FunctionCalls.{next_function_call_of, plant_call};
ghost use Rattle.pr_truss.specs.FunctionFeeding.{fed_functions};
ghost use Rattle.pr_truss.specs.Marks.{has_functions};
ghost use Rattle.pr_truss.specs.Trusses.{TrussState, traced_at};
ghost use Rattle.pr_truss.specs.declared.marks.Stepped.{Stepped};
ghost use Rattle.pr_truss_laws.specs.Exchanges.{Exchange};
ghost use Rattle.pr_function_laws.specs.Returns.{ReadsStepEnd};

/// Once truss has read an event by which the step over a function ends, its next call plants the breakpoint of that
/// function again: before it runs the process, and before anything else.
pub fn a_breakpoint_is_planted_again_first()
    ensures { (t : TrussState) (x : Exchange) (place : ℕ) (step : Stepped) → has_functions t.options ≡ true
        → ReadsStepEnd t x place step → next_function_call_of (fed_functions t x.reply)
        ≡ Some (plant_call t.options (traced_at t place).control step.function) }
{}
