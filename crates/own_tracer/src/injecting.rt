//! One move of the injector.
ghost use Rattle.std.specs.Prelude.{◌≡◌, ◌≤◌, ◌+◌, [], ◌∷◌, length, IfOk, OnOk};
ghost use Rattle.own_tracer.specs.Faults.{Injects};
ghost use Rattle.own_tracer.specs.Going.{Goes, Stands};
ghost use Rattle.own_tracer.specs.Stances.{Holds};

use crate::attaching::Grip;
use crate::calls::{INJECTOR, ask, send};
use crate::faults::Faults;
use pr_api::Kernel;
use pr_model::Call;
use pr_num::{Handles, NoMemory};
use std::alloc::Global;

/// The wait for a process to stop or to end.
fn poll_call(alloc: Global, control: u32) -> Result<Call, NoMemory>
    ensures { IfOk result (λ call. call ≡ Call.Poll (control ∷ [])) }
{
    Ok(Call::Poll {
        handles: Handles::from_vec(vec![in alloc; control]?),
    })
}

/// Runs the process from the entry of a write, at which it stands, or aborts that write where its turn has come. Says
/// whether it stood there, or had ended: whether a poll of its control file was ready. Else nothing is done.
pub fn inject<Q: Kernel>(
    kern: &mut Q,
    alloc: Global,
    grip: Grip,
    faults: &mut Faults,
) -> Result<bool, NoMemory>
    requires stands { Stands (Holds grip) (Q.view kern.old) }
    requires room { length (Q.view kern.old).history + 2 ≤ (Q.view kern.old).places }
    ensures goes { OnOk result (Goes (Holds grip) (Q.view kern.old) (Q.view kern.new)) }
    ensures injects { IfOk result (λ acted. Injects acted grip.control faults.old faults.new
        (Q.view kern.old).history (Q.view kern.new).history) }
    // it says so exactly where the poll was ready
    ensures ready { IfOk result (λ acted. acted
        ≡ (Q.view kern.old).is_ready 0 (Call.Poll (grip.control ∷ []))) }
    ensures few { OnOk result (length (Q.view kern.new).history ≤ length (Q.view kern.old).history + 2) }
    ensures places { OnOk result ((Q.view kern.new).places ≡ (Q.view kern.old).places) }
{
    let poll = poll_call(alloc, grip.control)?;
    if !kern.ready(INJECTOR, &poll) {
        return Ok(false);
    }
    ask(kern, poll)?;
    let taken = send(kern, alloc, grip.control, faults.order())?;
    faults.count(taken);
    Ok(true)
}
