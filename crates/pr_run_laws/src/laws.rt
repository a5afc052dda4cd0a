ghost use Rattle.std.specs.Prelude.{◌≡◌, ◌≤◌, ℕ, List, Ok};
ghost use Rattle.pr_run_laws.specs.Prefixes.{IsPrefix};
ghost use Rattle.pr_run_laws.specs.ScenarioRanges.{IsScenarioInRange};
ghost use Rattle.pr_run_laws.specs.ScenarioRuns.{IsKept, first_world, history_after};
ghost use Rattle.pr_scen.specs.Reading.{scenario_of};
ghost use Rattle.pr_scen.specs.Scenarios.{Scenario};
ghost use Rattle.pr_world.specs.Runs.{CameFrom};
ghost use Rattle.pr_world.specs.Worlds.{WorldState};

/// The history of a scenario's run is legal from the first state and follows the protocol of its controllers; where it
/// is passive, tracing is transparent in it; each truss has shown the selected events; what each tool shows stands so
/// in one state, and what gcore prints is the core of one; and apfiles puts back what it writes over. This holds in
/// whatever order the actors moved, and of the run on one thread after any number of moves. The scenario is in range,
/// as each one is that was read.
pub fn histories_of_runs_are_kept()
    ensures any_order { (s : Scenario) (w : WorldState) → IsScenarioInRange s → CameFrom (first_world s) w
        → IsKept s w.kernel.history }
    ensures one_thread { (s : Scenario) (n : ℕ) → IsScenarioInRange s → IsKept s (history_after n s) }
{}

/// A scenario that was read from a text is in range: its first state is one that can be started, of programs and files
/// in range, and what its scripts write is bytes. Of the options of each of its trusses, at most 16 functions are
/// named, each of which begins with the bytes of an instruction that is neither a system call nor a breakpoint, the
/// same as any other at its address; and where some are, no children are followed.
pub fn scenarios_that_were_read_are_in_range()
    ensures { (input : List ℕ) (s : Scenario) → scenario_of input ≡ Ok s → IsScenarioInRange s }
{}

/// On one thread a run grows at its end: its history after some moves is a prefix of the one after more of them.
#[tactic(auto, using(crate::proofs::KeptRuns::GrowthLemmas::growth))]
pub fn runs_grow()
    ensures { (s : Scenario) (m n : ℕ) → m ≤ n → IsPrefix (history_after m s) (history_after n s) }
{}
