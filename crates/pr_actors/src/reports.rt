//! What controllers print.
ghost use Rattle.std.specs.Prelude.{◌≡◌, ◌++◌, OnOk};
ghost use Rattle.pr_actors.specs.Reports.{printer_of, report_of};
ghost use Rattle.pr_world.specs.ControllerStates.{state_of};

use pr_asm::Program;
use pr_num::NoMemory;
use pr_output::{Printer, Report};
use pr_world::Controller;
use std::alloc::Global;

/// Who prints, if it is no script.
#[tactic(auto, unfolding(crate::specs::Reports::printer_of, pr_world::specs::ControllerStates::state_of))]
fn printer_of(controller: &Controller) -> Option<Printer>
    ensures { result ≡ printer_of (state_of controller.now) }
{
    match controller {
        Controller::Script(_) => None,
        Controller::Truss(_) | Controller::FnTruss(_) => Some(Printer::Truss),
        Controller::Tool(tool) => Some(Printer::Tool(tool.kind())),
        Controller::Gcore(_) => Some(Printer::Gcore),
        Controller::Probe(_) => Some(Printer::Probe),
    }
}

/// Adds what a controller of a number prints, if it is one that prints, where the kernel has these programs.
pub fn add_report(
    alloc: Global,
    programs: &[Program],
    number: u32,
    controller: &Controller,
    reports: &mut Vec<Report>,
) -> Result<(), NoMemory>
    ensures { OnOk result
        (reports.new.items ≡ reports.old.items ++ report_of programs.now number (state_of controller.now)) }
{
    let Some(printer) = printer_of(controller) else {
        return Ok(());
    };
    let text = controller.print(alloc, programs)?;
    Ok(reports.push(Report {
        controller: number,
        printer,
        text,
    })?)
}
