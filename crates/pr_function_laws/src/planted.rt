ghost use Rattle.std.specs.Prelude.{◌≡◌, ℕ, true, false, All, List};
ghost use Rattle.pr_line.specs.declared.options.Options.{Options};
ghost use Rattle.pr_model.specs.State.{TracedState};
ghost use Rattle.pr_model.specs.declared.events.Entry.{Entry};
ghost use Rattle.pr_truss.specs.Marks.{has_functions};
ghost use Rattle.pr_truss.specs.Trusses.{first_truss};
ghost use Rattle.pr_truss_laws.specs.Exchanges.{Exchange};
ghost use Rattle.pr_function_laws.specs.Opened.{IsFunctionRun};
ghost use Rattle.pr_function_laws.specs.Planted.{PlantsWhatItRead};
ghost use Rattle.pr_function_laws.specs.PlantedByCalls.{IsNoBreakpoint, MarksWhatItPlanted};
ghost use Rattle.pr_function_laws.specs.Runs.{MakesFunctionCalls};
ghost use Rattle.pr_function_laws.specs.ToldTurns.{AreSteppable};

/// Wherever truss has opened a process as far as its traced sets, it reads the first instruction of each function, one
/// after another, and plants right away the one whose code it read, unless a function before it has its address; it
/// leaves each other one alone. Once it runs the process it has marked those as planted of which the write was granted,
/// and no other. Where one of these calls is refused it lifts all that it planted there so far, and closes the files of
/// the process; where the process has ended it closes them at once. This is so whatever it was replied, but of an
/// interrupt it says nothing.
#[tactic(auto, using(crate::proofs::NextCalls::PlantedLaws::planteds))]
pub fn what_truss_plants_it_has_read()
    ensures { (o : Options) (xs : List Exchange) → has_functions o ≡ true → o.follow ≡ false
        → MakesFunctionCalls (first_truss o) xs → PlantsWhatItRead o xs }
{}

/// Which breakpoints truss has marked as planted in a process, a part of its own state, is told by its calls and their
/// replies. In each legal history of truss with functions, of which it can step the first instruction, and none of
/// which begins with a breakpoint, wherever it traces a process: each that it has marked is that of a function that is
/// the first at its address, and was planted there by a PCWRITE that was granted, since truss opened the control file
/// of the process, and not lifted since; and each such breakpoint it has marked, unless it was told in a status of the
/// process that an lwp of it is at the exit of a vfork or an exec that was granted. Where it has hold of the process
/// these are its exchanges from the first one of the opening on.
#[tactic(auto, using(crate::proofs::PlantedCalls::PlantedHolds::marks_planted))]
pub fn it_has_marked_what_its_calls_planted()
    ensures { (n k : ℕ) (o : Options) (s : TracedState) (h : List Entry) → IsFunctionRun n k o s h → AreSteppable o
        → All IsNoBreakpoint o.functions → MarksWhatItPlanted k o s h }
{}
