//! What an event of a process is to the breakpoints of truss in it (`-u`).
ghost use Rattle.std.specs.Prelude.{◌≡◌, position};
ghost use Rattle.pr_truss.specs.FunctionEvents.{begins_at, function_at, trap_event, fault_event, is_exec, copies_memory, has_errno, keeps_memory, left_event, function_event, fresh_event, step_of};

use crate::marks::{Marks, Stepped, has_function};
use crate::processes::Traced;
use pr_line::{Event, Function, Options, event_of};
use pr_num::{Errno, Flt, Sysno};
use pr_rec::LwpStatus;

/// What an event is to the breakpoints.
#[derive(Clone, Copy)]
pub enum FunctionEvent {
    /// Nothing.
    Other,
    /// The lwp stands at the breakpoint of this function.
    AtBreakpoint { function: usize },
    /// The lwp has run the first instruction of a function in this step.
    Completed { step: Stepped },
    /// Any other trace trap.
    TraceTrap,
    /// The entry of a call that copies or replaces the memory.
    BeforeCopy,
    /// Its exit, where the process goes on in its memory.
    AfterCopy,
    /// Its exit, where it does not, or a child has that memory too.
    Replaced,
}

/// The place of the first function at this address.
pub(crate) fn place_of(functions: &[Function], pc: u64) -> Option<usize>
    ensures { result ≡ position (begins_at pc) functions.now }
{
    functions.iter().position(|function| function.at == pc)
}

/// The function of the breakpoint that is planted at a pc.
#[tactic(auto, unfolding(crate::specs::FunctionEvents::function_at))]
fn function_at(options: &Options, marks: &Marks, pc: u64) -> Option<usize>
    ensures { result ≡ function_at options.now marks.now pc }
{
    let function = place_of(options.functions.as_slice(), pc)?;
    if has_function(&marks.standing(), function) {
        Some(function)
    } else {
        None
    }
}

/// A trace trap of an lwp.
fn trap_event(stepped: Option<Stepped>, lwp: u32) -> FunctionEvent
    ensures { result ≡ trap_event stepped lwp }
{
    match stepped {
        Some(step) if step.lwp == lwp => FunctionEvent::Completed { step },
        _ => FunctionEvent::TraceTrap,
    }
}

/// A fault of an lwp.
fn fault_event(options: &Options, marks: &Marks, lwp: u32, fault: Flt, pc: u64) -> FunctionEvent
    ensures { result ≡ fault_event options.now marks.now lwp fault pc }
{
    match fault {
        Flt::Bpt => match function_at(options, marks, pc) {
            Some(function) => FunctionEvent::AtBreakpoint { function },
            None => FunctionEvent::Other,
        },
        Flt::Trace => trap_event(marks.stepped, lwp),
        _ => FunctionEvent::Other,
    }
}

/// Whether a call copies or replaces the memory of a process.
#[tactic(auto, unfolding(crate::specs::FunctionEvents::copies_memory))]
fn copies_memory(call: Sysno) -> bool
    ensures { result ≡ copies_memory call }
{
    call.is_fork_call() || matches!(call, Sysno::Exec)
}

/// Whether the process goes on in the memory that it had, once such a call has ended.
#[tactic(auto, unfolding(crate::specs::FunctionEvents::keeps_memory))]
fn keeps_memory(call: Sysno, given: Result<u64, Errno>) -> bool
    ensures { result ≡ keeps_memory call given }
{
    match call {
        Sysno::Fork => true,
        _ => given.is_err(),
    }
}

/// What an event of an lwp is to the breakpoints.
#[tactic(auto, unfolding(crate::specs::FunctionEvents::function_event))]
pub(crate) fn function_event(
    options: &Options,
    marks: &Marks,
    lwp: u32,
    event: &Event,
) -> FunctionEvent
    ensures { result ≡ function_event options.now marks.now lwp event.now }
{
    match *event {
        Event::Entered { call, .. } if copies_memory(call) => FunctionEvent::BeforeCopy,
        Event::Left {
            call,
            result: given,
            ..
        } if copies_memory(call) => {
            if keeps_memory(call, given) {
                FunctionEvent::AfterCopy
            } else {
                FunctionEvent::Replaced
            }
        }
        Event::Incurred { fault, pc } => fault_event(options, marks, lwp, fault, pc),
        _ => FunctionEvent::Other,
    }
}

/// The event that an lwp stands on; `None` where it stood there before truss came or was looked at already.
#[tactic(auto, unfolding(crate::specs::FunctionEvents::fresh_event))]
pub(crate) fn fresh_event(traced: &Traced, lwp: &LwpStatus) -> Option<Event>
    ensures { result ≡ fresh_event traced.now lwp.now }
{
    if traced.old > 0 || traced.seen {
        None
    } else {
        event_of(lwp)
    }
}

/// The step of an lwp that stands at the breakpoint of a function.
#[tactic(auto, unfolding(crate::specs::FunctionEvents::step_of))]
pub(crate) fn step_of(lwp: &LwpStatus, function: usize) -> Stepped
    ensures { result ≡ step_of lwp.now function }
{
    Stepped {
        function,
        lwp: lwp.id,
        arguments: [lwp.regs[1], lwp.regs[2], lwp.regs[3]],
    }
}
