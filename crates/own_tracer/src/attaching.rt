//! How the injector gets hold of a process.
ghost use Rattle.std.specs.Prelude.{◌≡◌, ◌≢◌, ◌≤◌, ◌+◌, length, IfOk, IfSome, OnOk};
ghost use Rattle.own_tracer.specs.Attaching.{Attaches};
ghost use Rattle.own_tracer.specs.Going.{Goes, Stands};
ghost use Rattle.own_tracer.specs.Stances.{HasAttached, HoldsNothing};

use crate::calls::{open_control, send};
use crate::orders::Order;
use pr_api::Kernel;
use pr_num::NoMemory;
use std::alloc::Global;

/// A process that the injector holds, and the handle of its control file.
#[derive(Clone, Copy, Debug, PartialEq, Eq)]
pub struct Grip {
    pub pid: u32,
    pub control: u32,
}

/// Opens the control file of a process for the injector alone, and lets the process stop at each entry of a write.
/// `None`, and nothing else was done: the open was refused.
pub fn attach<Q: Kernel>(kern: &mut Q, alloc: Global, pid: u32) -> Result<Option<Grip>, NoMemory>
    requires stands { Stands HoldsNothing (Q.view kern.old) }
    requires pid { pid ≢ 0 }
    requires room { length (Q.view kern.old).history + 2 ≤ (Q.view kern.old).places }
    ensures goes { IfOk result (λ grip. Goes (HasAttached grip) (Q.view kern.old) (Q.view kern.new)) }
    ensures calls { IfOk result (λ grip. Attaches grip pid (Q.view kern.old).history (Q.view kern.new).history) }
    ensures pid { IfOk result (λ grip. IfSome grip (λ g. g.pid ≡ pid)) }
    ensures few { OnOk result (length (Q.view kern.new).history ≤ length (Q.view kern.old).history + 2) }
    ensures places { OnOk result ((Q.view kern.new).places ≡ (Q.view kern.old).places) }
{
    let Some(control) = open_control(kern, pid)? else {
        return Ok(None);
    };
    send(kern, alloc, control, Order::TraceWrites)?;
    Ok(Some(Grip { pid, control }))
}
