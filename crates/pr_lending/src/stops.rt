ghost use Rattle.std.specs.Prelude.{◌≡◌, ℕ, true, false, Some, None};
ghost use Rattle.pr_lending.specs.Stopping.{MakesItsStop};
ghost use Rattle.pr_model.specs.State.{TracedLwp, TracedProcess, TracedSystem, live_process, lwp_of};
ghost use Rattle.pr_model.specs.Stops.{has_event_stop};

/// An lwp that is directed to stop, as by PCSTOP (proc(4)), makes that stop, unless it stands on an event, is
/// suspended, or its process is stopped by job control: it can move, and its turn is that stop. So does an lwp of a
/// process that has lent its memory (vfork(2)), which has no other turn.
pub fn directed_lwps_make_their_stop()
    ensures { (s : TracedSystem) (pid : ℕ) (p : TracedProcess) (id : ℕ) (l : TracedLwp) → live_process s pid ≡ Some p
        → lwp_of p id ≡ Some l → l.control.directed ≡ true → has_event_stop l ≡ false → l.suspended ≡ false
        → p.job_stop ≡ None → MakesItsStop s pid p id l }
{}
