//! What a control handle stands for: a process, or one lwp of it.
ghost use Rattle.std.specs.Prelude.{◌≡◌, is_some};
ghost use Rattle.std.specs.Option.{option_copied};
ghost use Rattle.pr_model.specs.ControlMessages.{aim_of, control_handle, target_of, target_stopped};
ghost use Rattle.pr_model.specs.Handles.{handle_of, is_of_lwp};
ghost use Rattle.pr_ctl.specs.Aims.{aim_at};

use crate::handles::{is_control, is_of_lwp, own};
use pr_model::Held;
use pr_open::Opens;
use pr_proc::{Proc, Sys, live};
use pr_stop::is_stopped;

/// The handle of a number, if this controller has it open and it takes control messages.
pub fn control_handle(opens: &Opens, by: u32, handle: u32) -> Option<Held>
    ensures { result ≡ control_handle (handle_of opens.now by handle) }
{
    let held = own(opens, by, handle)?;
    if is_control(held.file) {
        Some(held)
    } else {
        None
    }
}

/// The process that a control handle acts on: `None` once its process, or for a file of one lwp that lwp, has ended.
#[tactic(auto, unfolding(pr_model::specs::ControlMessages::target_of))]
pub fn target(sys: &Sys, held: Held) -> Option<&Proc>
    ensures { option_copied result ≡ target_of sys.now held }
{
    let process = live(sys, held.pid)?;
    if is_of_lwp(held.file) && !process.lwps.contains(held.lwp) {
        return None;
    }
    Some(process)
}

/// What a message through a handle acts on: the lwp of an id, or where none is named the process.
pub fn aim(held: Held) -> Option<u32>
    ensures aim { aim_at result ≡ aim_of held }
    ensures of_lwp { is_some result ≡ is_of_lwp held.file }
{
    if is_of_lwp(held.file) {
        Some(held.lwp)
    } else {
        None
    }
}

/// Whether what a control handle stands for is stopped on an event of interest.
#[tactic(auto, unfolding(pr_model::specs::ControlMessages::target_stopped))]
pub fn target_stopped(held: Held, process: &Proc) -> bool
    ensures { result ≡ target_stopped held process.now }
{
    if !is_of_lwp(held.file) {
        return is_stopped(process);
    }
    match process.lwps.get(held.lwp) {
        None => false,
        Some(lwp) => lwp.control.stop.is_some(),
    }
}
