//! PCRUN on one lwp: what the run flags do to it, and what refuses it (proc(4), "PCRUN").
ghost use Rattle.std.specs.Prelude.{◌≡◌};
ghost use Rattle.std.specs.Option.{option_copied};
ghost use Rattle.pr_num.specs.ById.{change_under};
ghost use Rattle.pr_num.specs.Control.{single_step, stop_again};
ghost use Rattle.pr_model.specs.Running.{if_flag, is_asleep, is_entry_stop, let_go, lwp_run_refused, run_lwp, stops_or_will, with_aborted, with_cleared, with_directive, with_flags_on, with_step, without_current, without_fault};

use pr_model::{Phase, Stop};
use pr_msg::RunFlags;
use pr_num::{AGENT, ById};
use pr_proc::{Lwp, Proc, has_agent};

/// Clears the current signal of an lwp.
#[tactic(auto, unfolding(pr_model::specs::Running::without_current))]
pub fn clear_signal(lwp: &mut Lwp)
    ensures { lwp.new ≡ without_current lwp.old }
{
    lwp.current = None;
}

/// Clears the current fault of an lwp: it goes on, and no signal is posted.
#[tactic(auto, unfolding(pr_model::specs::Running::without_fault))]
pub fn clear_fault(lwp: &mut Lwp)
    ensures { lwp.new ≡ without_fault lwp.old }
{
    if let Phase::Faulted { .. } = lwp.phase {
        lwp.phase = Phase::User;
    }
}

/// An lwp stands still no more, and is not directed to stop.
#[tactic(auto, unfolding(pr_model::specs::Running::let_go))]
fn let_go(lwp: &mut Lwp)
    ensures { lwp.new ≡ let_go lwp.old }
{
    lwp.control.stop = None;
    lwp.control.directed = false;
}

/// Whether an lwp stands at the entry of a system call.
fn is_entry_stop(stop: Option<Stop>) -> bool
    ensures { result ≡ is_entry_stop stop }
{
    match stop {
        Some(Stop::SysEntry(_)) => true,
        _ => false,
    }
}

/// Whether an lwp is asleep in a system call.
pub fn is_asleep(phase: Phase) -> bool
    ensures { result ≡ is_asleep phase }
{
    match phase {
        Phase::Asleep { .. } => true,
        _ => false,
    }
}

/// Does what PRCSIG and PRCFAULT ask for.
#[tactic(auto, unfolding(pr_model::specs::Running::with_cleared))]
fn clear_by(lwp: &mut Lwp, flags: RunFlags)
    ensures { lwp.new ≡ with_cleared flags lwp.old }
{
    if flags.has(RunFlags::CSIG) {
        clear_signal(lwp);
    }
    if flags.has(RunFlags::CFAULT) {
        clear_fault(lwp);
    }
}

/// Does what PRSABORT asks for, of an lwp that stood on this event or on none: a call can be aborted at its entry, and
/// while its lwp is asleep in it.
#[tactic(auto, unfolding(pr_model::specs::Running::with_aborted, pr_model::specs::Running::with_abort))]
fn abort_by(lwp: &mut Lwp, flags: RunFlags, stop: Option<Stop>)
    ensures { lwp.new ≡ with_aborted flags stop lwp.old }
{
    if flags.has(RunFlags::SABORT) && (is_entry_stop(stop) || is_asleep(lwp.phase)) {
        lwp.control.abort = true;
    }
}

/// Does what PRSTEP asks for.
#[tactic(auto, unfolding(pr_model::specs::Running::with_step))]
fn step_by(lwp: &mut Lwp, flags: RunFlags)
    ensures { lwp.new ≡ if_flag flags single_step with_step lwp.old }
{
    if flags.has(RunFlags::STEP) {
        lwp.control.step = true;
    }
}

/// Does what PRSTOP asks for.
#[tactic(auto, unfolding(pr_model::specs::Running::with_directive))]
fn stop_by(lwp: &mut Lwp, flags: RunFlags)
    ensures { lwp.new ≡ if_flag flags stop_again with_directive lwp.old }
{
    if flags.has(RunFlags::STOP) {
        lwp.control.directed = true;
    }
}

/// Runs an lwp: its stop and its directive end, and then the flags act in the order PRCSIG, PRCFAULT, PRSTEP, PRSABORT,
/// PRSTOP.
#[tactic(auto, unfolding(pr_model::specs::Running::run_lwp))]
fn run_lwp(lwp: &mut Lwp, flags: RunFlags)
    ensures { lwp.new ≡ run_lwp flags lwp.old }
{
    let stop = lwp.control.stop;
    let_go(lwp);
    clear_by(lwp, flags);
    step_by(lwp, flags);
    abort_by(lwp, flags, stop);
    stop_by(lwp, flags);
}

/// Runs the lwp of an id, if there is one.
#[tactic(auto, using(pr_num::proofs::ByIdLaws::by_id_laws))]
pub fn run_under(lwps: &mut ById<Lwp>, id: u32, flags: RunFlags)
    ensures { lwps.new ≡ change_under id (run_lwp flags) lwps.old }
{
    if let Some(lwp) = lwps.find_mut(id) {
        run_lwp(lwp, flags);
    }
}

/// Does what PRCSIG, PRCFAULT and PRSABORT ask for, while the lwp stands where it stands.
#[tactic(auto, unfolding(pr_model::specs::Running::with_flags_on))]
pub fn flag_lwp(lwp: &mut Lwp, flags: RunFlags)
    ensures { lwp.new ≡ with_flags_on flags lwp.old }
{
    let stop = lwp.control.stop;
    clear_by(lwp, flags);
    abort_by(lwp, flags, stop);
}

/// Whether an lwp, if there is one, is stopped on an event of interest or directed to stop.
pub fn stops_or_will(lwp: Option<&Lwp>) -> bool
    ensures { result ≡ stops_or_will (option_copied lwp.entry) }
{
    match lwp {
        None => false,
        Some(lwp) => lwp.control.stop.is_some() || lwp.control.directed,
    }
}

/// Whether PCRUN is refused on an lwp, with its id: an agent that it is not exists, or it is neither stopped on an
/// event of interest nor directed to stop.
#[tactic(auto, unfolding(pr_model::specs::Running::lwp_run_refused))]
pub fn lwp_run_refused(process: &Proc, id: u32, lwp: &Lwp) -> bool
    ensures { result ≡ lwp_run_refused process.now id lwp.now }
{
    (has_agent(process) && id != AGENT) || !stops_or_will(Some(lwp))
}
