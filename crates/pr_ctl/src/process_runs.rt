//! PCRUN on a whole process, and on one lwp of it by its id (proc(4), "PCRUN").
ghost use Rattle.std.specs.Prelude.{◌≡◌};
ghost use Rattle.std.specs.List.{list_all};
ghost use Rattle.pr_num.specs.ById.{change_under, map_each};
ghost use Rattle.pr_model.specs.Running.{if_all_requested, is_request, lets_run, run_refused, runs_one, shows_run, was_requested, with_all_run, with_flags_on, with_request, with_run, without_directive, without_request};
ghost use Rattle.pr_ctl.specs.Runs.{one_run, ran, refuses_run, representative_run};

use crate::running::{flag_lwp, lwp_run_refused, run_under, stops_or_will};
use pr_model::{Shown, Stop};
use pr_msg::RunFlags;
use pr_num::{ById, Sig};
use pr_proc::{Lwp, Proc, has_agent};
use pr_stop::{representative, representative_lwp, shown};

/// Whether a stop was requested.
fn is_request(stop: Stop) -> bool
    ensures { result ≡ is_request stop }
{
    match stop {
        Stop::Requested => true,
        Stop::Signalled(_) | Stop::SysEntry(_) | Stop::SysExit(_) | Stop::Faulted(_) => false,
    }
}

/// Whether what is shown lets the whole process run: a requested stop, or a suspension.
fn lets_run(shown: Option<Shown>) -> bool
    ensures { result ≡ lets_run shown }
{
    match shown {
        Some(Shown::Event(stop)) => is_request(stop),
        Some(Shown::Suspended) => true,
        Some(Shown::JobControl(_)) | None => false,
    }
}

/// Whether a stop, if there is one, was requested.
fn was_requested(stop: Option<Stop>) -> bool
    ensures { result ≡ was_requested stop }
{
    match stop {
        None => false,
        Some(stop) => is_request(stop),
    }
}

#[tactic(auto, unfolding(pr_model::specs::Running::without_directive))]
fn clear_directive(lwp: &mut Lwp)
    ensures { lwp.new ≡ without_directive lwp.old }
{
    lwp.control.directed = false;
}

/// Makes the stop of an lwp on an event of interest a requested one.
#[tactic(auto, unfolding(pr_model::specs::Running::with_request))]
fn request(lwp: &mut Lwp)
    ensures { lwp.new ≡ with_request lwp.old }
{
    if lwp.control.stop.is_some() {
        lwp.control.stop = Some(Stop::Requested);
    }
}

/// Ends a requested stop.
#[tactic(auto, unfolding(pr_model::specs::Running::without_request))]
fn end_request(lwp: &mut Lwp)
    ensures { lwp.new ≡ without_request lwp.old }
{
    if was_requested(lwp.control.stop) {
        lwp.control.stop = None;
    }
}

#[tactic(auto, using(pr_num::proofs::ByIdLaws::by_id_laws))]
fn clear_directives(lwps: &mut ById<Lwp>)
    ensures { lwps.new ≡ map_each without_directive lwps.old }
{
    for place in 0..lwps.len() {
        clear_directive(lwps.at_mut(place));
    }
}

#[tactic(auto, using(pr_num::proofs::ByIdLaws::by_id_laws))]
fn end_requests(lwps: &mut ById<Lwp>)
    ensures { lwps.new ≡ map_each without_request lwps.old }
{
    for place in 0..lwps.len() {
        end_request(lwps.at_mut(place));
    }
}

fn all_show_run(job: Option<Sig>, lwps: &[(u32, Lwp)]) -> bool
    ensures { result ≡ list_all (shows_run job) lwps.now }
{
    lwps.iter().all(|entry| lets_run(shown(job, &entry.1)))
}

/// Ends all requested stops, where every lwp shows a requested stop or a suspension.
#[tactic(auto, unfolding(pr_model::specs::Running::if_all_requested))]
fn end_if_all_requested(job: Option<Sig>, lwps: &mut ById<Lwp>)
    ensures { lwps.new ≡ if_all_requested job lwps.old }
{
    if all_show_run(job, lwps.as_slice()) {
        end_requests(lwps);
    }
}

#[tactic(auto, using(pr_num::proofs::ByIdLaws::by_id_laws))]
fn flag_under(lwps: &mut ById<Lwp>, id: u32, flags: RunFlags)
    ensures { lwps.new ≡ change_under id (with_flags_on flags) lwps.old }
{
    if let Some(lwp) = lwps.find_mut(id) {
        flag_lwp(lwp, flags);
    }
}

#[tactic(auto, using(pr_num::proofs::ByIdLaws::by_id_laws))]
fn request_under(lwps: &mut ById<Lwp>, id: u32)
    ensures { lwps.new ≡ change_under id with_request lwps.old }
{
    if let Some(lwp) = lwps.find_mut(id) {
        request(lwp);
    }
}

/// Clears all directives; on the representative, if one is named, the flags act first, and its stop becomes a requested
/// one.
#[tactic(auto, unfolding(crate::specs::Runs::representative_run))]
fn run_representative(lwps: &mut ById<Lwp>, id: Option<u32>, flags: RunFlags)
    ensures { lwps.new ≡ representative_run flags id lwps.old }
{
    let Some(id) = id else {
        clear_directives(lwps);
        return;
    };
    flag_under(lwps, id, flags);
    clear_directives(lwps);
    request_under(lwps, id);
}

/// Runs a whole process without PRSTEP and PRSTOP: no directive is left, the representative's stop becomes a requested
/// one, and all requested stops end where no lwp shows anything but such a stop or a suspension.
#[tactic(auto, using(crate::proofs::RunLemmas::run_laws), unfolding(pr_model::specs::Running::with_all_run))]
fn run_all(process: &mut Proc, flags: RunFlags)
    ensures { process.new ≡ with_all_run flags process.old }
{
    let id = representative(process);
    let job = process.job_stop;
    run_representative(&mut process.lwps, id, flags);
    end_if_all_requested(job, &mut process.lwps);
}

/// Runs the lwp of an id, if one is named.
#[tactic(auto, unfolding(crate::specs::Runs::one_run, pr_model::specs::State::with_lwp))]
fn run_one(process: &mut Proc, id: Option<u32>, flags: RunFlags)
    ensures { process.new ≡ one_run flags id process.old }
{
    if let Some(id) = id {
        run_under(&mut process.lwps, id, flags);
    }
}

/// Whether flags ask for one lwp alone.
fn runs_one(flags: RunFlags) -> bool
    ensures { result ≡ runs_one flags }
{
    flags.has(RunFlags::STEP) || flags.has(RunFlags::STOP)
}

/// Runs a process: with PRSTEP or PRSTOP its representative alone.
#[tactic(auto, using(crate::proofs::RunLemmas::run_laws), unfolding(pr_model::specs::Running::with_run))]
fn run_process(process: &mut Proc, flags: RunFlags)
    ensures { process.new ≡ with_run flags process.old }
{
    if !runs_one(flags) {
        run_all(process, flags);
        return;
    }
    let id = representative(process);
    run_one(process, id, flags);
}

/// Runs the lwp of an id in a process, or where none is named the process.
#[tactic(auto, unfolding(crate::specs::Runs::ran, pr_model::specs::State::with_lwp))]
pub fn run(process: &mut Proc, lwp: Option<u32>, flags: RunFlags)
    ensures { process.new ≡ ran flags lwp process.old }
{
    match lwp {
        None => run_process(process, flags),
        Some(id) => run_under(&mut process.lwps, id, flags),
    }
}

/// Whether PCRUN is refused on a process: an agent exists, or the representative is neither stopped on an event of
/// interest nor directed to stop.
#[tactic(auto, using(crate::proofs::RunLemmas::run_laws), unfolding(pr_model::specs::Running::run_refused))]
fn process_run_refused(process: &Proc) -> bool
    ensures { result ≡ run_refused process.now }
{
    has_agent(process) || !stops_or_will(representative_lwp(process))
}

/// Whether PCRUN is refused on the lwp of an id in a process, or where none is named on the process.
#[tactic(auto, unfolding(crate::specs::Runs::refuses_run))]
pub fn run_refused(process: &Proc, lwp: Option<u32>) -> bool
    ensures { result ≡ refuses_run process.now lwp }
{
    let Some(id) = lwp else {
        return process_run_refused(process);
    };
    match process.lwps.get(id) {
        None => true,
        Some(lwp) => lwp_run_refused(process, id, lwp),
    }
}
