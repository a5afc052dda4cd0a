//! Points: where an lwp may meet something that is traced.
ghost use Rattle.std.specs.Prelude.{◌≡◌};
ghost use Rattle.pr_model.specs.Points.{is_traced, meets, stop_at};

use pr_model::{Control, Point, Stop};
use pr_watch::Areas;

/// Whether a process traces what happens at a point.
#[tactic(auto, unfolding(pr_model::specs::Points::is_traced))]
pub fn is_traced(control: &Control<Areas>, point: Point) -> bool
    ensures { result ≡ is_traced control.now point }
{
    match point {
        Point::Signal(signal) => control.traced_signals.has(signal),
        Point::Fault(fault) => control.traced_faults.has(fault),
        Point::Entry(call) => control.traced_entries.has(call),
        Point::Exit(call) => control.traced_exits.has(call),
    }
}

/// The same of a turn that met a point, or none.
pub fn meets(control: &Control<Areas>, point: Option<Point>) -> bool
    ensures { result ≡ meets control.now point }
{
    match point {
        None => false,
        Some(point) => is_traced(control, point),
    }
}

/// The stop that a traced point makes.
pub fn stop_at(point: Point) -> Stop
    ensures { result ≡ stop_at point }
{
    match point {
        Point::Signal(signal) => Stop::Signalled(signal),
        Point::Fault(fault) => Stop::Faulted(fault),
        Point::Entry(call) => Stop::SysEntry(call),
        Point::Exit(call) => Stop::SysExit(call),
    }
}
