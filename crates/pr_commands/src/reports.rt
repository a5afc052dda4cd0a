//! What the controllers of a run print.
ghost use Rattle.std.specs.Prelude.{◌≡◌, IfOk};
ghost use Rattle.pr_world.specs.Worlds.{seen};
ghost use Rattle.pr_commands.specs.Made.{kern_view};
ghost use Rattle.pr_commands.specs.Reports.{reports_of};

use pr_actors::add_report;
use pr_kern::Kern;
use pr_num::NoMemory;
use pr_output::Report;
use pr_world::World;
use std::alloc::Global;

/// What the controllers of a world print, by their numbers.
pub fn reports_of(alloc: Global, world: &World<Kern>) -> Result<Vec<Report>, NoMemory>
    ensures { IfOk result (λ reports. reports.items ≡ reports_of (seen kern_view world.now)) }
{
    let mut reports = Vec::new(alloc);
    for number in 0..world.controllers() {
        let controller = world.controller(number);
        add_report(
            alloc,
            world.kernel().programs(),
            number,
            controller,
            &mut reports,
        )?;
    }
    Ok(reports)
}
