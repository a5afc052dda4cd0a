//! Whether two replies are one.
ghost use Rattle.std.specs.Prelude.{◌≡◌};
ghost use Rattle.pr_judge.specs.Replies.{same_reply};

use pr_model::Reply;

/// Whether a reply is another one, with all that it says.
#[tactic(auto, unfolding(crate::specs::Replies::same_reply))]
pub(crate) fn same_reply(one: &Reply, other: &Reply) -> bool
    ensures { result ≡ same_reply one.now other.now }
{
    match (one, other) {
        (Reply::Handle(a), Reply::Handle(b)) => a == b,
        (Reply::Done, Reply::Done) => true,
        (Reply::Used(a), Reply::Used(b)) => a == b,
        (Reply::Half(a), Reply::Half(b)) => a == b,
        (Reply::Bytes(a), Reply::Bytes(b)) => a.as_slice() == b.as_slice(),
        (Reply::Pid(a), Reply::Pid(b)) => a == b,
        (Reply::Ready(a), Reply::Ready(b)) => a == b,
        (Reply::Fail(a), Reply::Fail(b)) => a.number() == b.number(),
        _ => false,
    }
}
