//! Processes that have lent their memory (vfork(2)), which no message changes through them.
ghost use Rattle.std.specs.Prelude.{◌≡◌, IsSome};
ghost use Rattle.std.specs.Option.{ForSome};
ghost use Rattle.pr_model.specs.Readers.{has_lent};
ghost use Rattle.pr_model.specs.State.{live_process};

use pr_proc::{Sys, live};

/// Whether a live process has lent its memory.
pub fn has_lent(sys: &Sys, pid: u32) -> bool
    requires { IsSome (live_process sys.now pid) }
    ensures { ForSome (live_process sys.now pid) (λ p. result ≡ has_lent p) }
{
    live(sys, pid).unwrap().borrower.is_some()
}
