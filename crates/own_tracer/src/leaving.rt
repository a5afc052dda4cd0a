//! How the injector leaves a process.
ghost use Rattle.std.specs.Prelude.{◌≤◌, ◌+◌, length, OnOk};
ghost use Rattle.own_tracer.specs.Going.{Goes, Stands};
ghost use Rattle.own_tracer.specs.Rounds.{Leaves};
ghost use Rattle.own_tracer.specs.Stances.{HasLeft, Holds};

use crate::attaching::Grip;
use crate::calls::{ask, send};
use crate::orders::Order;
use pr_api::Kernel;
use pr_model::Call;
use pr_num::NoMemory;
use std::alloc::Global;

/// Leaves a process: it is spared and released when its control file is closed, whatever its modes were. Then the
/// injector has nothing open; and of the process, if it lives, nothing is traced, and no lwp of it stands on an event
/// or is directed to stop.
pub fn leave<Q: Kernel>(kern: &mut Q, alloc: Global, grip: Grip) -> Result<(), NoMemory>
    requires stands { Stands (Holds grip) (Q.view kern.old) }
    requires room { length (Q.view kern.old).history + 3 ≤ (Q.view kern.old).places }
    ensures goes { OnOk result (Goes (HasLeft grip.pid) (Q.view kern.old) (Q.view kern.new)) }
    // by three calls, and nothing else is done
    ensures leaves { OnOk result (Leaves grip.control (Q.view kern.old).history (Q.view kern.new).history) }
{
    send(kern, alloc, grip.control, Order::Spare)?;
    send(kern, alloc, grip.control, Order::Release)?;
    ask(
        kern,
        Call::Close {
            handle: grip.control,
        },
    )
}
