//! What a reply says.
ghost use Rattle.std.specs.Prelude.{◌≡◌};
ghost use Rattle.pr_truss.specs.Replies.{answer_of, ready_in};

use pr_model::Reply;
use pr_num::Errno;

/// How a call of truss was answered.
#[derive(Clone, Copy)]
pub enum Answer {
    /// It was done.
    Accepted,
    /// Truss was interrupted.
    Interrupted,
    /// The process has ended.
    Gone,
    /// It was refused for another reason.
    Refused(Errno),
}

/// How a call was answered.
#[tactic(auto, unfolding(crate::specs::Replies::answer_of))]
pub(crate) fn answer_of(reply: &Reply) -> Answer
    ensures { result ≡ answer_of reply.now }
{
    match reply {
        Reply::Fail(Errno::Intr) => Answer::Interrupted,
        Reply::Fail(Errno::Noent) => Answer::Gone,
        Reply::Fail(errno) => Answer::Refused(*errno),
        _ => Answer::Accepted,
    }
}

/// The handle that a poll named.
#[tactic(auto, unfolding(crate::specs::Replies::ready_in))]
pub(crate) fn ready_in(reply: &Reply) -> Option<u32>
    ensures { result ≡ ready_in reply.now }
{
    match reply {
        Reply::Ready(handle) => Some(*handle),
        _ => None,
    }
}
