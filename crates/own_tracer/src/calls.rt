//! The calls that the injector makes of the kernel.
ghost use Rattle.std.specs.Prelude.{◌≡◌, ◌<◌, ◌+◌, true, length, IfOk, OnOk};
ghost use Rattle.std.specs.Option.{option_and_then};
ghost use Rattle.pr_api.specs.Entries.{last_reply_of};
ghost use Rattle.pr_api.specs.Steps.{IsCalled};
ghost use Rattle.pr_model.specs.Replies.{opened_in};
ghost use Rattle.own_tracer.specs.Calls.{open_call, was_taken};
ghost use Rattle.own_tracer.specs.Going.{TellsState};
ghost use Rattle.own_tracer.specs.Orders.{order_call};

use crate::orders::{Order, order_call};
use pr_api::Kernel;
use pr_model::{Call, File, Mode, Reply, opened_in};
use pr_num::NoMemory;
use std::alloc::Global;

/// The number of the injector, which is the only controller.
pub const INJECTOR: u32 = 0;

/// Makes a call that is ready.
pub fn ask<Q: Kernel>(kern: &mut Q, call: Call) -> Result<(), NoMemory>
    requires ready { (Q.view kern.old).is_ready 0 call ≡ true }
    requires place { length (Q.view kern.old).history < (Q.view kern.old).places }
    ensures called { OnOk result (IsCalled 0 call (Q.view kern.old) (Q.view kern.new)) }
    ensures longer { OnOk result (length (Q.view kern.new).history ≡ length (Q.view kern.old).history + 1) }
    ensures places { OnOk result ((Q.view kern.new).places ≡ (Q.view kern.old).places) }
    ensures told { OnOk result (TellsState (Q.view kern.old) → TellsState (Q.view kern.new)) }
{
    kern.call(INJECTOR, call)
}

/// Whether the last call was a message that was taken.
fn was_taken<Q: Kernel>(kern: &Q) -> bool
    ensures { result ≡ was_taken (last_reply_of (Q.view kern.now).history) }
{
    matches!(kern.last_reply(), Some(Reply::Used(_)))
}

/// Writes an order to a control file, and says whether it was taken.
pub fn send<Q: Kernel>(
    kern: &mut Q,
    alloc: Global,
    control: u32,
    order: Order,
) -> Result<bool, NoMemory>
    requires told { TellsState (Q.view kern.old) }
    requires place { length (Q.view kern.old).history < (Q.view kern.old).places }
    ensures called { OnOk result (IsCalled 0 (order_call control order) (Q.view kern.old) (Q.view kern.new)) }
    ensures taken { IfOk result (λ taken. taken ≡ was_taken (last_reply_of (Q.view kern.new).history)) }
    ensures longer { OnOk result (length (Q.view kern.new).history ≡ length (Q.view kern.old).history + 1) }
    ensures places { OnOk result ((Q.view kern.new).places ≡ (Q.view kern.old).places) }
    ensures told { OnOk result (TellsState (Q.view kern.new)) }
{
    ask(kern, order_call(alloc, control, order)?)?;
    Ok(was_taken(kern))
}

/// The handle that the last call opened.
fn last_opened<Q: Kernel>(kern: &Q) -> Option<u32>
    ensures { result ≡ option_and_then opened_in (last_reply_of (Q.view kern.now).history) }
{
    opened_in(kern.last_reply()?)
}

/// Opens the control file of a process, for this controller alone; `None` where that is refused.
pub fn open_control<Q: Kernel>(kern: &mut Q, pid: u32) -> Result<Option<u32>, NoMemory>
    requires told { TellsState (Q.view kern.old) }
    requires place { length (Q.view kern.old).history < (Q.view kern.old).places }
    ensures called { OnOk result (IsCalled 0 (open_call pid) (Q.view kern.old) (Q.view kern.new)) }
    ensures opened { IfOk result (λ control. control
        ≡ option_and_then opened_in (last_reply_of (Q.view kern.new).history)) }
    ensures longer { OnOk result (length (Q.view kern.new).history ≡ length (Q.view kern.old).history + 1) }
    ensures places { OnOk result ((Q.view kern.new).places ≡ (Q.view kern.old).places) }
    ensures told { OnOk result (TellsState (Q.view kern.new)) }
{
    ask(
        kern,
        Call::Open {
            pid,
            lwp: 0,
            file: File::Ctl,
            mode: Mode::WriteExcl,
        },
    )?;
    Ok(last_opened(kern))
}
