//! What a reply gives to the controller whose call it answers.
ghost use Rattle.std.specs.Prelude.{◌≡◌, option_map};
ghost use Rattle.pr_model.specs.Replies.{bytes_in, handle_in, number_of, opened_in, until_in};

use crate::Reply;

/// The number that no open handle has: it stands for the handle of a file that is not open.
pub const NO_HANDLE: u32 = u32::MAX;

/// The number of the handle of a file, which may not be open.
pub fn number_of(handle: Option<u32>) -> u32
    ensures { result ≡ number_of handle }
{
    match handle {
        Some(handle) => handle,
        None => NO_HANDLE,
    }
}

/// The handle that an open gave; `None` where it was refused.
#[tactic(auto, unfolding(crate::specs::Replies::opened_in))]
pub fn opened_in(reply: &Reply) -> Option<u32>
    ensures { result ≡ opened_in reply.now }
{
    match reply {
        Reply::Handle(handle) => Some(*handle),
        _ => None,
    }
}

/// The handle that an open gave, and `NO_HANDLE` where it was refused.
pub fn handle_in(reply: &Reply) -> u32
    ensures { result ≡ handle_in reply.now }
{
    number_of(opened_in(reply))
}

/// The bytes that a read gave; `None` where it was refused.
#[tactic(auto, unfolding(crate::specs::Replies::bytes_in))]
pub fn bytes_in(reply: &Reply) -> Option<&[u8]>
    ensures { option_map (λ bytes. bytes.now) result ≡ bytes_in reply.now }
{
    match reply {
        Reply::Bytes(bytes) => Some(bytes.as_slice()),
        _ => None,
    }
}

/// The clock at which the wait of a message that waits ends in any case; 0 for no end.
#[tactic(auto, unfolding(crate::specs::Replies::until_in))]
pub fn until_in(reply: &Reply) -> u64
    ensures { result ≡ until_in reply.now }
{
    match reply {
        Reply::Half(until) => *until,
        _ => 0,
    }
}
