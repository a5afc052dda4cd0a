//! The messages that the injector writes.
ghost use Rattle.std.specs.Prelude.{◌≡◌, IfOk};
ghost use Rattle.pr_num.specs.Messages.{tail_length};
ghost use Rattle.own_tracer.specs.Orders.{message_of, order_call};

use pr_model::Call;
use pr_msg::{Message, RunFlags, encode};
use pr_num::{Modes, NoMemory, SysSet, Sysno};
use std::alloc::Global;

/// What the injector asks of the process that it holds. There is no word here to write memory.
#[derive(Clone, Copy, Debug, PartialEq, Eq)]
pub enum Order {
    /// Stop at each entry of write.
    TraceWrites,
    /// Go on.
    Run,
    /// Go on, and let the call fail.
    Abort,
    /// Do not die when the last writer closes.
    Spare,
    /// Be released when the last writer closes.
    Release,
}

/// The control message of an order (proc(4)).
#[tactic(auto, unfolding(crate::specs::Orders::message_of, pr_num::specs::Messages::tail_length))]
fn message_of(order: Order) -> Message
    ensures value { result ≡ message_of order }
    ensures tail { tail_length result ≡ 0 }
{
    match order {
        Order::TraceWrites => Message::Sentry {
            calls: SysSet::empty().with(Sysno::Write).word(),
        },
        Order::Run => Message::Run { flags: 0 },
        Order::Abort => Message::Run {
            flags: RunFlags::SABORT.word(),
        },
        Order::Spare => Message::Unset {
            modes: Modes::KLC.word(),
        },
        Order::Release => Message::Set {
            modes: Modes::RLC.word(),
        },
    }
}

/// The write of an order to a control file.
pub fn order_call(alloc: Global, control: u32, order: Order) -> Result<Call, NoMemory>
    ensures { IfOk result (λ call. call ≡ order_call control order) }
{
    Ok(Call::Ctl {
        handle: control,
        bytes: encode(alloc, &message_of(order), &[])?,
    })
}
