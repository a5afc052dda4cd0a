//! What the controllers of a scenario print at the end of a session.
ghost use Rattle.std.specs.Prelude.{◌≡◌, IfOk};
ghost use Rattle.pr_actors.specs.Reports.{reports_from};

use crate::seats::Seats;
use pr_actors::add_report;
use pr_num::NoMemory;
use pr_output::Report;
use std::alloc::Global;

/// What the controllers print, by their numbers.
pub fn reports_of(alloc: Global, seats: &Seats) -> Result<Vec<Report>, NoMemory>
    ensures { IfOk result (λ reports.
        reports.items ≡ reports_from seats.now.kernel.state.system.programs 0 seats.now.controllers) }
{
    let mut reports = Vec::new(alloc);
    for number in 0..seats.outside() {
        let controller = seats.controller(number);
        add_report(alloc, seats.programs(), number, controller, &mut reports)?;
    }
    Ok(reports)
}
