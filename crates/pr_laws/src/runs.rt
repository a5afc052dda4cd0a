ghost use Rattle.std.specs.Prelude.{◌≡◌, ℕ, Some, true, false};
ghost use Rattle.std.specs.List.{All};
ghost use Rattle.std.specs.Option.{option_map};
ghost use Rattle.pr_num.specs.ById.{IsRising};
ghost use Rattle.pr_laws.specs.Runs.{IsFree, others_let_run, with_stop_kept};
ghost use Rattle.pr_model.specs.Running.{let_go, run_refused, with_run};
ghost use Rattle.pr_model.specs.State.{TracedProcess, TracedLwp, has_agent, lwp_of};
ghost use Rattle.pr_model.specs.Stops.{has_event_stop, representative};

/// PCRUN without flags, of a process whose representative stands on an event of interest. It is granted where there is
/// no agent. Where every other lwp shows a requested stop or a suspension, all lwps go on: none of them stands on an
/// event or is directed to stop. Else each stays where it stands, the representative now on a requested stop, and none
/// is directed to stop.
#[tactic(auto, using(crate::proofs::RunLemmas::running))]
pub fn running_a_process_stopped_on_an_event()
    ensures granted { (p : TracedProcess) (r : ℕ × TracedLwp) → has_agent p ≡ false → representative p ≡ Some r
        → has_event_stop r.1 ≡ true → run_refused p ≡ false }
    ensures all_go_on { (p : TracedProcess) (r : ℕ × TracedLwp) → IsRising p.lwps → representative p ≡ Some r
        → has_event_stop r.1 ≡ true
        → others_let_run p r.0 ≡ true → (id : ℕ) → lwp_of (with_run 0 p) id ≡ option_map let_go (lwp_of p id) }
    ensures all_are_free { (p : TracedProcess) (r : ℕ × TracedLwp) → IsRising p.lwps → representative p ≡ Some r
        → has_event_stop r.1 ≡ true
        → others_let_run p r.0 ≡ true → All IsFree (with_run 0 p).lwps }
    ensures each_stays { (p : TracedProcess) (r : ℕ × TracedLwp) → IsRising p.lwps → representative p ≡ Some r
        → has_event_stop r.1 ≡ true
        → others_let_run p r.0 ≡ false → (id : ℕ)
        → lwp_of (with_run 0 p) id ≡ option_map (with_stop_kept r.0 id) (lwp_of p id) }
{}
