//! Whether two lwps did the same in their turns.
ghost use Rattle.std.specs.Prelude.{◌≡◌, ◌≢◌, true, false};
ghost use Rattle.pr_judge.specs.Turns.{same_did, same_how, same_result, same_turn};

use pr_model::{Did, How, Res, Turned};

#[tactic(auto, unfolding(crate::specs::Turns::same_result))]
fn same_result(one: Res, other: Res) -> bool
    ensures { result ≡ same_result one other }
{
    match (one, other) {
        (Res::Value(a), Res::Value(b)) => a == b,
        (Res::Error(a), Res::Error(b)) => a.number() == b.number(),
        (Res::Ended, Res::Ended) => true,
        _ => false,
    }
}

#[tactic(auto, unfolding(crate::specs::Turns::same_how))]
fn same_how(one: How, other: How) -> bool
    ensures { result ≡ same_how one other }
{
    match (one, other) {
        (How::Caught, How::Caught)
        | (How::Ignored, How::Ignored)
        | (How::JobStop, How::JobStop)
        | (How::Died, How::Died) => true,
        _ => false,
    }
}

/// Whether what an lwp did is what another one did, with all that it says.
#[tactic(auto, unfolding(crate::specs::Turns::same_did))]
fn same_did(one: Did, other: Did) -> bool
    ensures { result ≡ same_did one other }
{
    match (one, other) {
        (Did::Stopped, Did::Stopped) | (Did::Ran, Did::Ran) => true,
        (Did::Entered(a), Did::Entered(b)) => a.number() == b.number(),
        (Did::Made(a, r), Did::Made(b, q)) => a.number() == b.number() && same_result(r, q),
        (Did::Slept(a), Did::Slept(b)) => a.number() == b.number(),
        (Did::Woke(a, r), Did::Woke(b, q)) => a.number() == b.number() && same_result(r, q),
        (Did::Returned(a), Did::Returned(b)) => a.number() == b.number(),
        (Did::Faulted(a), Did::Faulted(b)) => a.number() == b.number(),
        (Did::Posted(a), Did::Posted(b)) => a.number() == b.number(),
        (Did::Took(a), Did::Took(b)) => a.number() == b.number(),
        (Did::Acted(a, r), Did::Acted(b, q)) => a.number() == b.number() && same_how(r, q),
        _ => false,
    }
}

/// Whether two turns are one.
#[tactic(auto, using(crate::proofs::TurnLemmas::turns), unfolding(crate::specs::Turns::same_turn))]
pub(crate) fn same_turn(one: Turned, other: Turned) -> bool
    ensures is { result ≡ same_turn one other }
    ensures same { result ≡ true → one ≡ other }
    ensures differ { result ≡ false → one ≢ other }
{
    one.stop == other.stop && same_did(one.did, other.did)
}
