//! What a tool takes of a reply.
ghost use Rattle.std.specs.Prelude.{◌≡◌};
ghost use Rattle.pr_tools.specs.Replies.{bytes_read, is_unmapped, is_passed_over, refusal_in};

use crate::steps::Step;
use pr_model::{Reply, bytes_in};
use pr_num::Errno;

/// The bytes that were read.
pub fn bytes_read(reply: &Reply) -> &[u8]
    ensures { result.now ≡ bytes_read reply.now }
{
    match bytes_in(reply) {
        Some(bytes) => bytes,
        None => &[],
    }
}

/// A read where no memory is mapped.
#[tactic(auto, unfolding(crate::specs::Replies::is_unmapped))]
fn is_unmapped(errno: Errno) -> bool
    ensures { result ≡ is_unmapped errno }
{
    match errno {
        Errno::Io => true,
        _ => false,
    }
}

/// Whether a refusal at a step is passed over.
#[tactic(auto, unfolding(crate::specs::Replies::is_passed_over))]
fn is_passed_over(step: Step, errno: Errno) -> bool
    ensures { result ≡ is_passed_over step errno }
{
    match step {
        Step::ReadText | Step::ReadFrame => is_unmapped(errno),
        Step::Release | Step::Close => true,
        _ => false,
    }
}

/// The errno with which a reply refuses a step.
#[tactic(auto, unfolding(crate::specs::Replies::refusal_in))]
pub fn refusal_in(step: Step, reply: &Reply) -> Option<Errno>
    ensures { result ≡ refusal_in step reply.now }
{
    match reply {
        Reply::Fail(errno) => {
            if is_passed_over(step, *errno) {
                None
            } else {
                Some(*errno)
            }
        }
        _ => None,
    }
}
