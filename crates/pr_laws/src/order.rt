ghost use Rattle.std.specs.Prelude.{◌≡◌, ℕ, None, Some, Option, false};
ghost use Rattle.std.specs.List.{All};
ghost use Rattle.pr_model.specs.Lawful.{IsLawfulSystem};
ghost use Rattle.pr_model.specs.Order.{is_after, live_lwps, next_lwp, IsNext};
ghost use Rattle.pr_model.specs.State.{TracedSystem};

/// The next lwp after another one in a lawful system is an lwp of a live process, and of all that come after that other
/// one none comes before it; where there is no next one, none comes after.
#[tactic(auto, using(crate::proofs::NextLwpLemmas::nexts))]
pub fn the_next_lwp_is_the_least()
    ensures next { (s : TracedSystem) (after : Option (ℕ × ℕ)) (x : ℕ × ℕ) → IsLawfulSystem s
        → next_lwp s after ≡ Some x → IsNext s after x }
    ensures none { (s : TracedSystem) (after : Option (ℕ × ℕ)) → next_lwp s after ≡ None
        → All (λ x. is_after after x ≡ false) (live_lwps s) }
{}
