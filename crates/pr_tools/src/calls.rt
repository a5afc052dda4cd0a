//! The calls of a controller that examines a process.
ghost use Rattle.std.specs.Prelude.{◌≡◌, [], ◌∷◌, IfOk};
ghost use Rattle.pr_num.specs.Messages.{spelling, tail_length};
ghost use Rattle.pr_model.specs.Replies.{number_of};
ghost use Rattle.pr_tools.specs.Calls.{stop_bytes};

use pr_model::{Call, number_of};
use pr_msg::{Message, encode};
use pr_num::{Handles, NoMemory};
use std::alloc::Global;

/// The call that writes a control message, which has nothing after its fixed part.
pub fn ctl(alloc: Global, handle: Option<u32>, message: &Message) -> Result<Call, NoMemory>
    requires { tail_length message.now ≡ 0 }
    ensures { IfOk result (λ call. call ≡ Call.Ctl (number_of handle) (spelling message.now [])) }
{
    let bytes = encode(alloc, message, &[])?;
    Ok(Call::Ctl {
        handle: number_of(handle),
        bytes,
    })
}

/// The call that waits for the stop of a process, until a clock (0 for no end).
#[tactic(auto, unfolding(pr_num::specs::Messages::tail_length))]
pub fn wait(alloc: Global, handle: Option<u32>, until: u64) -> Result<Call, NoMemory>
    ensures { IfOk result (λ call. call ≡ Call.CtlWait (number_of handle) until stop_bytes) }
{
    let bytes = encode(alloc, &Message::Stop, &[])?;
    Ok(Call::CtlWait {
        handle: number_of(handle),
        until,
        bytes,
    })
}

/// The call that waits until a process has ended.
pub fn poll(alloc: Global, handle: Option<u32>) -> Result<Call, NoMemory>
    ensures { IfOk result (λ call. call ≡ Call.Poll (number_of handle ∷ [])) }
{
    let mut handles = Vec::new(alloc);
    handles.push(number_of(handle))?;
    Ok(Call::Poll {
        handles: Handles::from_vec(handles),
    })
}
