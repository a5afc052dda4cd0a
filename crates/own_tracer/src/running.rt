//! The injector and the programs, in turn.
ghost use Rattle.std.specs.Prelude.{◌≡◌, ◌≢◌, ◌≤◌, ◌+◌, true, false, length, IfOk, OnOk};
ghost use Rattle.own_tracer.specs.Going.{Goes, Stands};
ghost use Rattle.own_tracer.specs.Rounds.{IsRound, RunsAlone, RunsBeside, is_over};
ghost use Rattle.own_tracer.specs.Running.{GotNoHold, InjectsBeside, IsInjected};
ghost use Rattle.own_tracer.specs.Stances.{HasLeft, Holds, HoldsNothing, LeftIf};

use crate::attaching::{Grip, attach};
use crate::faults::Faults;
use crate::injecting::inject;
use crate::leaving::leave;
use crate::programs::Programs;
use pr_api::Kernel;
use pr_num::NoMemory;
use std::alloc::Global;

/// Whether no round is made any more: all faults are injected, or fewer places of the history are left than a round and
/// the way out may take.
fn is_over<Q: Kernel>(kern: &Q, faults: &Faults) -> bool
    ensures value { result ≡ is_over faults.now (Q.view kern.now) }
    ensures room { result ≡ false → length (Q.view kern.now).history + 6 ≤ (Q.view kern.now).places }
{
    faults.are_done() || kern.places() - kern.entries() < 6
}

/// A turn of the programs and a move of the injector. Says whether to go on: not where all faults are injected, where
/// nobody moved, or where fewer places of the history are left than a round and the way out may take.
fn round<Q: Kernel>(
    kern: &mut Q,
    alloc: Global,
    grip: Grip,
    programs: &mut Programs,
    faults: &mut Faults,
) -> Result<bool, NoMemory>
    requires stands { Stands (Holds grip) (Q.view kern.old) }
    requires room { length (Q.view kern.old).history + 3 ≤ (Q.view kern.old).places }
    ensures goes { OnOk result (Goes (Holds grip) (Q.view kern.old) (Q.view kern.new)) }
    ensures round { IfOk result (λ again. IsRound grip again faults.old faults.new
        (record { kernel = Q.view kern.old; last = programs.old.last })
        (record { kernel = Q.view kern.new; last = programs.new.last })) }
    ensures room { OnOk result (length (Q.view kern.new).history + 3 ≤ (Q.view kern.new).places) }
{
    if is_over(kern, faults) {
        return Ok(false);
    }
    let moved = programs.advance(kern)?;
    let injected = inject(kern, alloc, grip, faults)?;
    Ok(moved || injected)
}

/// Rounds, until one says not to go on. Then the injector leaves, on whatever way it came there.
fn run_beside<Q: Kernel>(
    kern: &mut Q,
    alloc: Global,
    grip: Grip,
    programs: &mut Programs,
    mut faults: Faults,
) -> Result<(), NoMemory>
    requires stands { Stands (Holds grip) (Q.view kern.old) }
    requires room { length (Q.view kern.old).history + 3 ≤ (Q.view kern.old).places }
    ensures goes { OnOk result (Goes (HasLeft grip.pid) (Q.view kern.old) (Q.view kern.new)) }
    ensures runs { OnOk result (RunsBeside grip faults
        (record { kernel = Q.view kern.old; last = programs.old.last })
        (record { kernel = Q.view kern.new; last = programs.new.last })) }
{
    for _ in 0..kern.places() {
        if !round(kern, alloc, grip, programs, &mut faults)? {
            return leave(kern, alloc, grip);
        }
    }
    leave(kern, alloc, grip)
}

/// The programs alone, until none can move or the history is full.
fn run_alone<Q: Kernel>(kern: &mut Q, programs: &mut Programs) -> Result<(), NoMemory>
    requires stands { Stands HoldsNothing (Q.view kern.old) }
    ensures goes { OnOk result (Goes HoldsNothing (Q.view kern.old) (Q.view kern.new)) }
    ensures runs { OnOk result (RunsAlone (record { kernel = Q.view kern.old; last = programs.old.last })
        (record { kernel = Q.view kern.new; last = programs.new.last })) }
{
    for _ in 0..kern.places() {
        if kern.entries() == kern.places() {
            return Ok(());
        }
        if !programs.advance(kern)? {
            return Ok(());
        }
    }
    Ok(())
}

/// Gets hold of a process, injects the faults into it while it runs beside the others, and leaves it. Says whether it
/// got hold of it: not where the history has too few places, or where the open was refused.
fn inject_all<Q: Kernel>(
    kern: &mut Q,
    alloc: Global,
    pid: u32,
    programs: &mut Programs,
    faults: Faults,
) -> Result<bool, NoMemory>
    requires stands { Stands HoldsNothing (Q.view kern.old) }
    requires pid { pid ≢ 0 }
    ensures goes { IfOk result (λ attached. Goes (LeftIf attached pid) (Q.view kern.old) (Q.view kern.new)) }
    ensures out { IfOk result (λ attached. attached ≡ false → GotNoHold pid
        (record { kernel = Q.view kern.old; last = programs.old.last })
        (record { kernel = Q.view kern.new; last = programs.new.last })) }
    ensures beside { IfOk result (λ attached. attached ≡ true → InjectsBeside pid faults
        (record { kernel = Q.view kern.old; last = programs.old.last })
        (record { kernel = Q.view kern.new; last = programs.new.last })) }
{
    if kern.places() - kern.entries() < 5 {
        return Ok(false);
    }
    match attach(kern, alloc, pid)? {
        Some(grip) => {
            run_beside(kern, alloc, grip, programs, faults)?;
            Ok(true)
        }
        None => Ok(false),
    }
}

/// The whole run: the injector beside the programs, and then the programs alone.
pub fn run<Q: Kernel>(kern: &mut Q, alloc: Global, pid: u32, faults: Faults) -> Result<(), NoMemory>
    requires stands { Stands HoldsNothing (Q.view kern.old) }
    requires pid { pid ≢ 0 }
    ensures { OnOk result (IsInjected pid faults (Q.view kern.old) (Q.view kern.new)) }
{
    let mut programs = Programs { last: None };
    inject_all(kern, alloc, pid, &mut programs, faults)?;
    run_alone(kern, &mut programs)
}
