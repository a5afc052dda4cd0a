ghost use Rattle.std.specs.Prelude.{◌≤◌, ◌∷◌, ℕ, All, List, length};
ghost use Rattle.pr_truss.specs.Trusses.{TrussState, traced_at};
ghost use Rattle.pr_truss_laws.specs.Exchanges.{Exchange, Makes, truss_after};
ghost use Rattle.pr_truss_laws.specs.Polled.{IsNoEndOf, PollNames, calls_meanwhile};

/// Wherever truss has come to: after a poll that named a process, at most twelve of its calls come before it runs that
/// process or closes the first of its files. Where it was interrupted meanwhile, at most ten more come for each process
/// that it leaves before. This is so whatever it was replied.
#[tactic(auto, using(crate::proofs::Soon::PolledLemmas::polled))]
pub fn what_a_poll_named_is_soon_run_or_closed()
    ensures { (s : TrussState) (x : Exchange) (between : List Exchange) (place : ℕ) → Makes s (x ∷ between)
        → PollNames s x.reply place → All (IsNoEndOf (traced_at s place)) between
        → length between ≤ calls_meanwhile (truss_after s (x ∷ between)).leaving place }
{}
