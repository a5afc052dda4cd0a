ghost use Rattle.std.specs.Prelude.{◌≡◌, ℕ, IsSome, List, None, Some, false, slice_get, true};
ghost use Rattle.pr_core.specs.CoreText.{printed};
ghost use Rattle.pr_core.specs.Gcores.{GcoreState, first_gcore, has_ended};
ghost use Rattle.pr_core_laws.specs.GcoreCalls.{MakesGcoreCalls};
ghost use Rattle.pr_core_laws.specs.Refused.{TellsWhy};
ghost use Rattle.pr_model.specs.Lawful.{IsLawful};
ghost use Rattle.pr_model.specs.State.{TracedState};
ghost use Rattle.pr_model.specs.declared.events.Entry.{Entry};
ghost use Rattle.pr_num.specs.declared.errnos.Errno.{Errno};
ghost use Rattle.pr_tool_laws.specs.Leaving.{LeavesItsProcess};
ghost use Rattle.pr_tool_laws.specs.Requests.{asks_still};
ghost use Rattle.pr_reached.specs.HistoriesInRange.{StaysInRange};
ghost use Rattle.pr_tool_laws.specs.Runs.{IsRunOf};
ghost use Rattle.pr_truss_laws.specs.Exchanges.{exchanges};
ghost use Rattle.pr_world.specs.ControllerStates as cores;
ghost use Rattle.pr_world.specs.ControllerStates.{ControllerState};
ghost use Rattle.pr_world.specs.Protocol.{controllers_at};

/// In a legal history where these controllers make their own calls, from a lawful state in range, and in which
/// controllers write bytes, a gcore that has finished, and was not refused, has run its process again by PCRUN, and
/// done nothing but close since then, unless every lwp of it stood when gcore came; then it has sent that no PCRUN.
pub fn gcore_runs_its_process_again()
    ensures { (controllers : List ControllerState) (n k pid : ℕ) (s : TracedState) (h : List Entry) (g : GcoreState)
        → StaysInRange s h → IsRunOf n k (cores.Gcore (first_gcore pid)) controllers s h
        → slice_get (controllers_at controllers h) k ≡ Some (cores.Gcore g) → has_ended g ≡ true → g.refusal ≡ None
        → LeavesItsProcess k pid s h }
{}

/// In a legal history where these controllers make their own calls, from a lawful state, a gcore that has finished and
/// was refused has no request to stop left that was not refused: after PCSTOP it has sent PCRUN.
pub fn a_refused_gcore_takes_back_its_request()
    ensures { (controllers : List ControllerState) (n k pid : ℕ) (s : TracedState) (h : List Entry) (g : GcoreState)
        → IsLawful s → IsRunOf n k (cores.Gcore (first_gcore pid)) controllers s h
        → slice_get (controllers_at controllers h) k ≡ Some (cores.Gcore g) → has_ended g ≡ true → IsSome g.refusal
        → asks_still false (exchanges k h) ≡ false }
{}

/// In a legal history where these controllers make their own calls, from a lawful state in range, and in which
/// controllers write bytes, a gcore that has finished and was refused prints the line of a refusal. Its errno has its
/// reason in a call of its own: that was refused, or read the status of the process, which had lent its memory. Before
/// it no call of gcore was refused.
pub fn gcore_tells_why_it_was_refused()
    ensures { (controllers : List ControllerState) (n k pid : ℕ) (s : TracedState) (h : List Entry) (g : GcoreState)
        (e : Errno)
        → StaysInRange s h → IsRunOf n k (cores.Gcore (first_gcore pid)) controllers s h
        → slice_get (controllers_at controllers h) k ≡ Some (cores.Gcore g) → has_ended g ≡ true
        → g.refusal ≡ Some e → TellsWhy k pid e s h (printed g) }
{}

/// In a legal history where these controllers make their own calls, from a lawful state, each call of a gcore is one of
/// its table, in the state that it finds, or a close: it opens a file of its process, or goes to one that it has open.
pub fn gcore_makes_its_own_calls()
    ensures { (controllers : List ControllerState) (n k pid : ℕ) (s : TracedState) (h : List Entry) (g : GcoreState)
        → IsLawful s → IsRunOf n k (cores.Gcore (first_gcore pid)) controllers s h
        → slice_get (controllers_at controllers h) k ≡ Some (cores.Gcore g)
        → MakesGcoreCalls k pid s h }
{}
