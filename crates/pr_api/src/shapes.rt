//! Whether a call may get a reply.
ghost use Rattle.std.specs.Prelude.{◌≡◌};
ghost use Rattle.pr_api.specs.Shapes.{answers_message, has_shape, is_at_most, is_done, is_failure, is_handle, is_pid, is_ready_among, is_used};

use pr_model::{Call, Reply};
use pr_num::limits::{LIST_LIMIT, MESSAGE_BYTES_LIMIT};

fn is_failure(reply: &Reply) -> bool
    ensures { result ≡ is_failure reply.now }
{
    matches!(reply, Reply::Fail(_))
}

fn is_handle(reply: &Reply) -> bool
    ensures { result ≡ is_handle reply.now }
{
    matches!(reply, Reply::Handle(_))
}

fn is_done(reply: &Reply) -> bool
    ensures { result ≡ is_done reply.now }
{
    matches!(reply, Reply::Done)
}

fn is_used(reply: &Reply) -> bool
    ensures { result ≡ is_used reply.now }
{
    matches!(reply, Reply::Used(_))
}

fn is_pid(reply: &Reply) -> bool
    ensures { result ≡ is_pid reply.now }
{
    matches!(reply, Reply::Pid(_))
}

fn is_at_most(most: u64, reply: &Reply) -> bool
    ensures { result ≡ is_at_most most reply.now }
{
    match reply {
        Reply::Bytes(bytes) => bytes.as_slice().len() as u64 <= most,
        _ => false,
    }
}

fn is_ready_among(handles: &[u32], reply: &Reply) -> bool
    ensures { result ≡ is_ready_among handles.now reply.now }
{
    match reply {
        Reply::Ready(handle) => handles.contains(handle),
        _ => false,
    }
}

fn answers_message(reply: &Reply) -> bool
    ensures { result ≡ answers_message reply.now }
{
    match reply {
        Reply::Used(_) | Reply::Half(_) => true,
        _ => is_at_most(MESSAGE_BYTES_LIMIT, reply),
    }
}

/// Whether a call may get a reply, a row a call. Every call but a list may be refused.
#[tactic(auto, unfolding(crate::specs::Shapes::has_shape))]
pub fn has_shape(call: &Call, reply: &Reply) -> bool
    ensures { result ≡ has_shape call.now reply.now }
{
    match call {
        Call::Open { .. } => is_handle(reply) || is_failure(reply),
        Call::Close { .. } => is_done(reply) || is_failure(reply),
        Call::Ctl { .. } => answers_message(reply) || is_failure(reply),
        Call::CtlWait { .. } => is_used(reply) || is_failure(reply),
        Call::Read { len, .. } => is_at_most(*len, reply) || is_failure(reply),
        Call::Poll { handles } => { is_ready_among(handles.as_slice(), reply) || is_failure(reply) }
        Call::Interrupt { .. } => is_done(reply) || is_failure(reply),
        Call::Spawn { .. } => is_pid(reply) || is_failure(reply),
        Call::Kill { .. } => is_done(reply) || is_failure(reply),
        Call::Until { .. } => is_done(reply) || is_failure(reply),
        Call::List => is_at_most(LIST_LIMIT as u64, reply),
    }
}
