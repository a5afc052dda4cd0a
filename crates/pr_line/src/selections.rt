//! Which events are shown and counted.
ghost use Rattle.std.specs.Prelude.{◌≡◌};
ghost use Rattle.pr_line.specs.Selections.{never_returns, is_birth, has_line, is_chosen, is_selected};

use crate::{Event, Options};
use pr_num::{Errno, Sysno};

/// Whether a call ends its lwp, so that only its entry can be shown.
#[tactic(auto, unfolding(crate::specs::Selections::never_returns))]
pub fn never_returns(call: Sysno) -> bool
    ensures { result ≡ never_returns call }
{
    matches!(call, Sysno::Exit | Sysno::LwpExit)
}

/// Whether the exit of a call is the stop of a child at its birth.
#[tactic(auto, unfolding(crate::specs::Selections::is_birth))]
fn is_birth(call: Sysno, given: Result<u64, Errno>) -> bool
    ensures { result ≡ is_birth call given }
{
    call.is_fork_call() && given == Ok(0)
}

/// Whether an event has a line: a call as it ends, or as it is entered where it never returns; each signal and each
/// fault. A child's stop at its birth has none.
#[tactic(auto, unfolding(crate::specs::Selections::has_line))]
pub fn has_line(event: &Event) -> bool
    ensures { result ≡ has_line event.now }
{
    match *event {
        Event::Entered { call, .. } => never_returns(call),
        Event::Left { call, result, .. } => !never_returns(call) && !is_birth(call, result),
        Event::Received { .. } | Event::Incurred { .. } => true,
    }
}

/// Whether the options choose the call, the signal or the fault of an event.
#[tactic(auto, unfolding(crate::specs::Selections::is_chosen))]
fn is_chosen(options: &Options, event: &Event) -> bool
    ensures { result ≡ is_chosen options.now event.now }
{
    match *event {
        Event::Entered { call, .. } => options.calls.has(call),
        Event::Left { call, .. } => options.calls.has(call),
        Event::Received { signal, .. } => options.signals.has(signal),
        Event::Incurred { fault, .. } => options.faults.has(fault),
    }
}

/// Whether an event is shown, or counted with `-c`.
#[tactic(auto, unfolding(crate::specs::Selections::is_selected))]
pub fn is_selected(options: &Options, event: &Event) -> bool
    ensures { result ≡ is_selected options.now event.now }
{
    has_line(event) && is_chosen(options, event)
}
