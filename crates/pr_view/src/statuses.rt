//! The status of a process and of an lwp, filled from the state (proc(4), "status" and "lwpstatus").
ghost use Rattle.std.specs.Prelude.{◌≡◌, ◌<◌, ◌^◌, length, if◌then◌else◌};
ghost use Rattle.pr_num.specs.Agents.{agent_id};
ghost use Rattle.pr_model.specs.State.{has_agent};
ghost use Rattle.pr_model.specs.Stops.{representative};
ghost use Rattle.pr_model.specs.Statuses.{call_in, disposition_in, errno_in, error_of, fault_address_in, fault_in, info_in, lwp_flags, lwpstatus_of, reason_of_stop, reason_shown, result_in, signal_in, status_of, status_of_found, value_of, what_of_stop, what_shown};
ghost use Rattle.pr_num.specs.Spaces.{heap_size, is_heap};
ghost use Rattle.pr_rec.specs.Fields.{flag_if};

use pr_mem::{Mapping, Space};
use pr_model::{Current, Phase, Res, Shown, Stop};
use pr_num::layout::HEAP_BASE;
use pr_num::limits::SIGNAL_COUNT;
use pr_num::{AGENT, Errno, Flt, Info, MappingKind, Sig, StopReason, Sysno};
use pr_proc::{Lwp, Proc, Sys, arguments_in, disposition_of, has_agent, seen};
use pr_rec::{Disposition, LwpFlags, LwpMarks, LwpStatus, Status, What, flags_of_process};
use pr_stop::{representative, representative_lwp, shown};

fn reason_of_stop(stop: Stop) -> StopReason
    ensures { result ≡ reason_of_stop stop }
{
    match stop {
        Stop::Requested => StopReason::Requested,
        Stop::Signalled(_) => StopReason::Signalled,
        Stop::SysEntry(_) => StopReason::SysEntry,
        Stop::SysExit(_) => StopReason::SysExit,
        Stop::Faulted(_) => StopReason::Faulted,
    }
}

fn what_of_stop(stop: Stop) -> What
    ensures { result ≡ what_of_stop stop }
{
    match stop {
        Stop::Requested => What::NONE,
        Stop::Signalled(signal) => What::of_signal(signal),
        Stop::SysEntry(call) | Stop::SysExit(call) => What::of_call(call),
        Stop::Faulted(fault) => What::of_fault(fault),
    }
}

/// Why an lwp stands still that shows this.
#[tactic(auto, unfolding(pr_model::specs::Statuses::reason_shown))]
fn reason_shown(shows: Option<Shown>) -> Option<StopReason>
    ensures { result ≡ reason_shown shows }
{
    match shows {
        None => None,
        Some(Shown::Event(stop)) => Some(reason_of_stop(stop)),
        Some(Shown::JobControl(_)) => Some(StopReason::JobControl),
        Some(Shown::Suspended) => Some(StopReason::Suspended),
    }
}

/// What it stands still for.
#[tactic(auto, unfolding(pr_model::specs::Statuses::what_shown))]
fn what_shown(shows: Option<Shown>) -> What
    ensures { result ≡ what_shown shows }
{
    match shows {
        Some(Shown::Event(stop)) => what_of_stop(stop),
        Some(Shown::JobControl(signal)) => What::of_signal(signal),
        Some(Shown::Suspended) | None => What::NONE,
    }
}

#[tactic(auto, unfolding(pr_model::specs::Statuses::fault_in))]
fn fault_in(phase: Phase) -> Option<Flt>
    ensures { result ≡ fault_in phase }
{
    match phase {
        Phase::Faulted { fault, .. } => Some(fault),
        _ => None,
    }
}

#[tactic(auto, unfolding(pr_model::specs::Statuses::fault_address_in))]
fn fault_address_in(phase: Phase) -> u64
    ensures { result ≡ fault_address_in phase }
{
    match phase {
        Phase::Faulted { address, .. } => address,
        _ => 0,
    }
}

#[tactic(auto, unfolding(pr_model::specs::Statuses::call_in))]
fn call_in(phase: Phase) -> Option<Sysno>
    ensures { result ≡ call_in phase }
{
    match phase {
        Phase::User | Phase::Faulted { .. } => None,
        Phase::Entered(call) | Phase::Asleep { call, .. } | Phase::Exiting { call, .. } => {
            Some(call)
        }
    }
}

fn value_of(outcome: Res) -> u64
    ensures { result ≡ value_of outcome }
{
    match outcome {
        Res::Value(value) => value,
        Res::Error(_) | Res::Ended => 0,
    }
}

fn error_of(outcome: Res) -> Option<Errno>
    ensures { result ≡ error_of outcome }
{
    match outcome {
        Res::Error(error) => Some(error),
        Res::Value(_) | Res::Ended => None,
    }
}

#[tactic(auto, unfolding(pr_model::specs::Statuses::result_in))]
fn result_in(phase: Phase) -> u64
    ensures { result ≡ result_in phase }
{
    match phase {
        Phase::Exiting { result, .. } => value_of(result),
        _ => 0,
    }
}

#[tactic(auto, unfolding(pr_model::specs::Statuses::errno_in))]
fn errno_in(phase: Phase) -> Option<Errno>
    ensures { result ≡ errno_in phase }
{
    match phase {
        Phase::Exiting { result, .. } => error_of(result),
        _ => None,
    }
}

#[tactic(auto, unfolding(pr_model::specs::Statuses::signal_in))]
fn signal_in(current: Option<Current>) -> Option<Sig>
    ensures { result ≡ signal_in current }
{
    match current {
        None => None,
        Some(current) => Some(current.signal),
    }
}

/// Where the current signal came from.
#[tactic(auto, unfolding(pr_model::specs::Statuses::info_in))]
fn info_in(current: Option<Current>) -> Info
    ensures { result ≡ info_in current }
{
    match current {
        None => Info {
            code: 0,
            pid: 0,
            value: 0,
        },
        Some(current) => current.info,
    }
}

/// What the process does with the current signal.
#[tactic(auto, unfolding(pr_model::specs::Statuses::disposition_in))]
fn disposition_in(dispositions: &[u64; SIGNAL_COUNT], current: Option<Current>) -> Disposition
    ensures { result ≡ disposition_in dispositions.now current }
{
    match current {
        None => Disposition::Default,
        Some(current) => Disposition::of(disposition_of(dispositions, current.signal)),
    }
}

/// An lwp's flags, with its id, where its process is stopped by this job control signal.
#[tactic(auto, unfolding(pr_model::specs::Statuses::lwp_flags))]
fn lwp_flags(job: Option<Sig>, id: u32, lwp: &Lwp) -> LwpFlags
    ensures { result ≡ lwp_flags job id lwp.now }
{
    LwpMarks {
        stopped: shown(job, lwp).is_some(),
        on_event: lwp.control.stop.is_some(),
        directed: lwp.control.directed,
        step: lwp.control.step,
        asleep: matches!(lwp.phase, Phase::Asleep { .. }),
        agent: id == AGENT,
    }
    .flags()
}

/// The status of an lwp of a process, with its id.
#[tactic(auto, unfolding(pr_model::specs::Statuses::lwpstatus_of))]
pub fn lwpstatus_of(process: &Proc, id: u32, lwp: &Lwp) -> LwpStatus
    ensures { result ≡ lwpstatus_of process.now id lwp.now }
{
    let job = process.job_stop;
    let shows = shown(job, lwp);
    let arguments = arguments_in(lwp);
    let regs = lwp.regs;
    LwpStatus {
        flags: lwp_flags(job, id, lwp),
        id,
        why: reason_shown(shows),
        what: what_shown(shows),
        signal: signal_in(lwp.current),
        fault: fault_in(lwp.phase),
        fault_address: fault_address_in(lwp.phase),
        call: call_in(lwp.phase),
        arguments,
        result: result_in(lwp.phase),
        errno: errno_in(lwp.phase),
        held: lwp.held,
        pending: lwp.pending.set(),
        regs,
        disposition: disposition_in(&process.dispositions, lwp.current),
        info: info_in(lwp.current),
    }
}

/// The status of the representative lwp; a process without lwps has none.
#[tactic(auto, using(crate::proofs::StatusLemmas::status_laws))]
fn representative_status(process: &Proc) -> LwpStatus
    ensures { result ≡ status_of_found process.now (representative process.now) }
{
    let Some(id) = representative(process) else {
        return LwpStatus::none();
    };
    match representative_lwp(process) {
        None => LwpStatus::none(),
        Some(lwp) => lwpstatus_of(process, id, lwp),
    }
}

/// How many bytes of a mapping belong to the heap.
fn heap_part(mapping: &Mapping) -> u64
    ensures { result ≡ (if is_heap mapping.now.kind then length mapping.now.bytes else 0) }
{
    match mapping.kind() {
        MappingKind::Heap => mapping.size(),
        _ => 0,
    }
}

/// How many mapped bytes belong to the heap.
#[tactic(auto, unfolding(pr_num::specs::Spaces::heap_size))]
fn heap_part_of_all(mappings: &[Mapping]) -> u64
    requires { heap_size mappings.now < 2 ^ 64 }
    ensures { result ≡ heap_size mappings.now }
{
    mappings.iter().map(|mapping| heap_part(mapping)).sum()
}

#[tactic(auto, using(crate::proofs::HeapLemmas::heap_laws))]
fn heap_size(space: &Space) -> u64
    ensures { result ≡ heap_size space.now }
{
    heap_part_of_all(space.mappings())
}

/// The agent's id, 0 where a process has none.
fn agent_of(process: &Proc) -> u32
    ensures { result ≡ flag_if (has_agent process.now) agent_id }
{
    if has_agent(process) { AGENT } else { 0 }
}

/// The status of a process of a system, with its id.
#[tactic(auto, unfolding(pr_model::specs::Statuses::status_of, pr_model::specs::Statuses::process_flags))]
pub fn status_of(sys: &Sys, pid: u32, process: &Proc) -> Status
    ensures { result ≡ status_of sys.now pid process.now }
{
    Status {
        flags: flags_of_process(process.control.modes, pid == 0, process.borrower.is_some()),
        id: pid,
        parent: process.parent,
        lwps: process.lwps.len() as u64,
        pending: process.pending.set(),
        traced_signals: process.control.traced_signals,
        traced_faults: process.control.traced_faults,
        traced_entries: process.control.traced_entries,
        traced_exits: process.control.traced_exits,
        heap_base: HEAP_BASE,
        heap_size: heap_size(seen(sys, process)),
        agent: agent_of(process),
        areas: process.control.areas.len() as u64,
        lwp: representative_status(process),
    }
}
