//! Laws of the kernel's steps. Each function does nothing: its clauses are what is proved.
ghost use Rattle.std.specs.Prelude.{◌≡◌, ◌<◌, ◌+◌, ◌++◌, ℕ, [], ◌∷◌, Some};
ghost use Rattle.pr_num.specs.Limits.{clock_limit};
ghost use Rattle.pr_model.specs.Legal.{IsLegalEntry, after};
ghost use Rattle.pr_model.specs.declared.calls.Call.{Call};
ghost use Rattle.pr_kern.specs.Kernels.{Kernel, TurnedKernel, after_call, after_tick, after_turn};
ghost use Rattle.pr_kern.specs.Steps.{Adds};

/// Each step of the kernel adds one entry, which is legal in the state that it finds, for any number of controllers of
/// which the caller is one; and the state becomes the one after that entry.
pub fn made_entries_are_legal()
    ensures call { (n by : ℕ) (c : Call) (k new : Kernel) → by < n → after_call by c k ≡ Some new → Adds n k new }
    ensures turn { (n pid id : ℕ) (k : Kernel) (new : TurnedKernel) → after_turn pid id k ≡ Some new → Adds n k new.kernel }
    ensures tick { (n : ℕ) (k : Kernel) → k.state.system.clock < clock_limit → Adds n k (after_tick k) }
{}
