//! What an lwp shows of standing still, and which lwp represents its process.
ghost use Rattle.std.specs.Prelude.{◌≡◌, ◌==◌};
ghost use Rattle.std.specs.Option.{option_copied};
ghost use Rattle.pr_model.specs.Stops.{class_of, first_in_class, is_stopped, representative, shown};
ghost use Rattle.pr_stop.specs.Classes.{id_found, in_classes, lwp_found};

use pr_model::{Shown, Stop};
use pr_num::{AGENT, Sig};
use pr_proc::{Lwp, Proc};

/// What an lwp shows of standing still, where its process is stopped by this job control signal.
#[tactic(auto, unfolding(pr_model::specs::Stops::shown))]
pub fn shown(job: Option<Sig>, lwp: &Lwp) -> Option<Shown>
    ensures { result ≡ shown job lwp.now }
{
    match lwp.control.stop {
        Some(stop) => Some(Shown::Event(stop)),
        None if lwp.suspended => Some(Shown::Suspended),
        None => job.map(Shown::JobControl),
    }
}

#[tactic(auto, unfolding(pr_model::specs::Stops::class_of))]
fn class_of(job: Option<Sig>, lwp: &Lwp) -> u8
    ensures { result ≡ class_of job lwp.now }
{
    match shown(job, lwp) {
        None => 1,
        Some(Shown::JobControl(_)) => 2,
        Some(Shown::Event(Stop::Requested)) => 4,
        Some(Shown::Event(_)) => 3,
        Some(Shown::Suspended) => 5,
    }
}

#[tactic(auto, unfolding(pr_model::specs::Stops::first_in_class))]
fn first_in_class(job: Option<Sig>, class: u8, lwps: &[(u32, Lwp)]) -> Option<&(u32, Lwp)>
    ensures { option_copied result ≡ first_in_class job class lwps.now }
{
    lwps.iter().find(|entry| class_of(job, &entry.1) == class)
}

/// Of the first class that has any, the lwp of least id, with its id.
#[tactic(auto, unfolding(crate::specs::Classes::in_classes))]
fn in_classes(process: &Proc) -> Option<&(u32, Lwp)>
    ensures { option_copied result ≡ in_classes process.now }
{
    let job = process.job_stop;
    let lwps = process.lwps.as_slice();
    first_in_class(job, 1, lwps)
        .or_else(|| first_in_class(job, 2, lwps))
        .or_else(|| first_in_class(job, 3, lwps))
        .or_else(|| first_in_class(job, 4, lwps))
        .or_else(|| first_in_class(job, 5, lwps))
}

/// The id of the representative lwp: the one that a process shows, and on which a message to the process acts (proc(4),
/// "pr_lwp"). `None` exactly where there are no lwps.
#[tactic(auto, using(crate::proofs::StopLemmas::representing))]
pub fn representative(process: &Proc) -> Option<u32>
    ensures { result ≡ id_found (representative process.now) }
{
    match process.lwps.get(AGENT) {
        Some(_) => Some(AGENT),
        None => match in_classes(process) {
            Some(entry) => Some(entry.0),
            None => None,
        },
    }
}

/// The representative lwp itself, which stands under its id.
#[tactic(auto, using(crate::proofs::StopLemmas::representing))]
pub fn representative_lwp(process: &Proc) -> Option<&Lwp>
    ensures { option_copied result ≡ lwp_found (representative process.now) }
{
    match process.lwps.get(AGENT) {
        Some(lwp) => Some(lwp),
        None => match in_classes(process) {
            Some(entry) => Some(&entry.1),
            None => None,
        },
    }
}

/// Whether a process is stopped on an event of interest: its representative is.
#[tactic(auto, using(crate::proofs::StopLemmas::representing), unfolding(pr_model::specs::Stops::is_stopped))]
pub fn is_stopped(process: &Proc) -> bool
    ensures { result ≡ is_stopped process.now }
{
    match process.lwps.get(AGENT) {
        Some(lwp) => lwp.control.stop.is_some(),
        None => match in_classes(process) {
            Some(entry) => entry.1.control.stop.is_some(),
            None => false,
        },
    }
}
