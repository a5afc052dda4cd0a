ghost use Rattle.std.specs.Prelude.{◌≡◌, ℕ, Some, slice_get};
ghost use Rattle.pr_line.specs.declared.functions.Function.{Function};
ghost use Rattle.pr_line.specs.declared.options.Options.{Options};
ghost use Rattle.pr_function_laws.specs.BreakpointCalls.{AreBreakpointCalls};
ghost use Rattle.pr_function_laws.specs.SentSets.{TracesItsWords};

/// The messages by which truss reads the code of a function, plants its breakpoint and lifts it, byte for byte: each is
/// of the 16 bytes at the address of that function. And each wait has the bytes of the message that it is for.
pub fn what_truss_reads_plants_and_lifts()
    ensures { (o : Options) (control function : ℕ) (f : Function) → slice_get o.functions function ≡ Some f
        → AreBreakpointCalls o control function f }
{}

/// Of the calls that its options choose truss has those traced at their entry that never return, and the others at
/// their exit; and fork, vfork and exec besides, at both.
pub fn the_calls_that_truss_traces_are_words_of_its_options()
    ensures { (o : Options) → TracesItsWords o }
{}
