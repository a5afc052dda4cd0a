//! One turn of an lwp, as it changes the whole system.
ghost use Rattle.std.specs.Prelude.{◌≡◌, ℕ, ◌+◌, ◌-◌, ◌^◌, true, false, is_some, Some, IfOk, IsOk, OnErr};
ghost use Rattle.pr_num.specs.ById.{change_under};
ghost use Rattle.pr_model.specs.LwpTurns.{can_move, counted, may_go_on, may_turn, may_wake, turn_of, with_counted};
ghost use Rattle.pr_model.specs.Points.{after_meeting, stopped_at, with_stop_at};
ghost use Rattle.pr_model.specs.Lawful.{IsLawfulSystem};
ghost use Rattle.pr_model.specs.State.{live_process, lwp_of, with_process};
ghost use Rattle.pr_proc.specs.Counts.{AllUsedAtMost, UsedAtMost};
ghost use Rattle.pr_turn.specs.CallTurns.{may_take_memory};
ghost use Rattle.pr_turn.specs.Making.{ends};
ghost use Rattle.pr_turn.specs.Turns.{IsNext, IsTurned};

use crate::calls::perform_next;
use crate::making::{Made, make_and_ask, quiet};
use crate::next::{Next, NextTurn, has_takeable, is_held_back, next_row};
use pr_call::{Request, is_ready};
use pr_model::{Did, Phase, Point, Turned, Usage};
use pr_num::{ById, NoMemory};
use pr_proc::{Lwp, Proc, Sys, end, live};
use pr_stop::{direct_others, is_traced, stop_at};
use std::alloc::Global;

/// Counts what a turn did.
#[tactic(auto, unfolding(pr_model::specs::LwpTurns::counted))]
fn count(usage: &mut Usage, did: Did, begun: bool)
    requires { UsedAtMost (2 ^ 64 - 2) usage.old }
    ensures { usage.new ≡ counted did begun usage.old }
{
    match did {
        Did::Made(..) | Did::Woke(..) => usage.calls += 1,
        Did::Took(_) => usage.signals += 1,
        Did::Faulted(_) => usage.faults += 1,
        _ => {}
    }
    if begun {
        usage.instructions += 1;
    }
}

/// The same in a process.
#[tactic(auto, unfolding(pr_model::specs::LwpTurns::with_counted))]
pub fn count_in(process: &mut Proc, did: Did, begun: bool)
    requires { UsedAtMost (2 ^ 64 - 2) process.old.control.usage }
    ensures { process.new ≡ with_counted did begun process.old }
{
    count(&mut process.control.usage, did, begun);
}

/// An lwp stops at what it met.
#[tactic(auto, unfolding(pr_model::specs::Points::stopped_at))]
fn stop_lwp(lwp: &mut Lwp, point: Point)
    ensures { lwp.new ≡ stopped_at point lwp.old }
{
    lwp.control.stop = Some(stop_at(point));
}

#[tactic(auto, using(pr_num::proofs::ByIdLaws::by_id_laws))]
fn stop_under(lwps: &mut ById<Lwp>, id: u32, point: Point)
    ensures { lwps.new ≡ change_under id (stopped_at point) lwps.old }
{
    if let Some(lwp) = lwps.find_mut(id) {
        stop_lwp(lwp, point);
    }
}

/// An lwp of a process stops at what it met, and the others are directed to stop.
#[tactic(auto, unfolding(pr_model::specs::Points::with_stop_at, pr_model::specs::State::with_lwp))]
fn stop_in(process: &mut Proc, id: u32, point: Point)
    ensures { process.new ≡ with_stop_at point id process.old }
{
    stop_under(&mut process.lwps, id, point);
    direct_others(process);
}

/// An lwp of a process met this, or nothing: it stops where that is traced.
#[tactic(auto, unfolding(pr_model::specs::Points::after_meeting))]
fn meet(process: &mut Proc, id: u32, point: Option<Point>)
    ensures { process.new ≡ after_meeting point id process.old }
{
    if let Some(point) = point {
        if is_traced(&process.control, point) {
            stop_in(process, id, point);
        }
    }
}

/// What a turn leaves of its process, once it is made: it is counted, and the lwp stops at what it met.
pub fn settle(process: &mut Proc, id: u32, made: Made)
    requires { UsedAtMost (2 ^ 64 - 2) process.old.control.usage }
    ensures { process.new ≡ after_meeting made.point id (with_counted made.did made.begun process.old) }
{
    count_in(process, made.did, made.begun);
    meet(process, id, made.point);
}

/// Whether an lwp that is asleep in a call goes on: it is directed to stop, has a signal to act on or to take, or its
/// call was aborted or is ready.
#[tactic(auto, unfolding(pr_model::specs::LwpTurns::may_wake))]
#[inline(never)]
fn may_wake(sys: &Sys, process: &Proc, lwp: &Lwp, request: &Request) -> bool
    ensures { result
        ≡ may_wake sys.now request.now.pid process.now request.now.lwp lwp.now request.now.since request.now.call
        request.now.args }
{
    lwp.control.directed
        || lwp.current.is_some()
        || has_takeable(process, lwp)
        || lwp.control.abort
        || is_ready(sys, process, request)
}

/// Whether an lwp may go on; only one that is asleep may not.
#[inline(always)]
fn may_go_on(sys: &Sys, pid: u32, process: &Proc, id: u32, lwp: &Lwp) -> bool
    ensures { result ≡ may_go_on sys.now pid process.now id lwp.now lwp.now.phase }
{
    match lwp.phase {
        Phase::User => true,
        Phase::Entered(_) => true,
        Phase::Asleep { call, args, since } => {
            let request = Request {
                pid,
                lwp: id,
                since,
                call,
                args,
            };
            may_wake(sys, process, lwp, &request)
        }
        Phase::Exiting { .. } => true,
        Phase::Faulted { .. } => true,
    }
}

/// Whether an lwp, with its id, may have a turn: it is not held back, and it may go on.
#[tactic(auto, unfolding(pr_model::specs::LwpTurns::may_turn))]
#[inline(always)]
fn may_turn(sys: &Sys, pid: u32, process: &Proc, id: u32, lwp: &Lwp) -> bool
    ensures { result ≡ may_turn sys.now pid process.now id lwp.now }
{
    !is_held_back(process, id, lwp) && may_go_on(sys, pid, process, id, lwp)
}

/// Whether an lwp can have a turn: its process is live, and it is not held back and may go on.
#[tactic(auto, unfolding(pr_model::specs::LwpTurns::can_move))]
#[inline(always)]
pub fn movable(sys: &Sys, pid: u32, lwp: u32) -> bool
    ensures { result ≡ can_move sys.now pid lwp }
{
    let Some(process) = live(sys, pid) else {
        return false;
    };
    match process.lwps.get(lwp) {
        None => false,
        Some(found) => may_turn(sys, pid, process, lwp, found),
    }
}

/// The same of an lwp that was found in its live process.
#[tactic(auto, unfolding(pr_model::specs::LwpTurns::can_move))]
#[inline(always)]
pub fn movable_in(sys: &Sys, pid: u32, process: &Proc, id: u32, lwp: &Lwp) -> bool
    requires live { live_process sys.now pid ≡ Some process.now }
    requires there { lwp_of process.now id ≡ Some lwp.now }
    ensures { result ≡ can_move sys.now pid id }
{
    may_turn(sys, pid, process, id, lwp)
}

/// The next turn of an lwp that can have one.
#[tactic(auto, using(crate::proofs::TurnLemmas::turn_laws))]
fn next_of(sys: &Sys, pid: u32, id: u32) -> NextTurn
    requires { can_move sys.now pid id ≡ true }
    ensures { IsNext sys.now pid id result }
{
    let process = live(sys, pid).unwrap();
    let lwp = process.lwps.get(id).unwrap();
    next_row(sys.clock, process, lwp)
}

/// The turn of a row that does not end its process, which is looked up once. Where memory runs out the system stays as
/// it is.
#[tactic(auto, using(crate::proofs::TurnLemmas::next_laws))]
fn turn_in(sys: &mut Sys, pid: u32, id: u32, next: Next) -> Result<Turned, NoMemory>
    requires next { IsNext sys.old pid id (NextTurn.Row next) }
    requires lives { ends next ≡ false }
    requires room { AllUsedAtMost (2 ^ 64 - 2) sys.old }
    ensures ok { IfOk result (λ turned. IsTurned sys.old sys.new pid id turned) }
    ensures memory { OnErr result (may_take_memory sys.old pid id ≡ true) }
    ensures err { OnErr result (sys.new ≡ sys.old) }
{
    let process = sys.processes.get_mut(pid);
    let (made, stop) = make_and_ask(process, id, next)?;
    settle(process, id, made);
    Ok(Turned {
        did: made.did,
        stop,
    })
}

/// What a turn leaves of the process of an id; one that ended keeps its counts.
#[tactic(auto, using(crate::proofs::SettleLemmas::settling))]
fn settle_under(sys: &mut Sys, pid: u32, id: u32, made: Made)
    requires { AllUsedAtMost (2 ^ 64 - 2) sys.old }
    ensures { sys.new
        ≡ with_process pid (after_meeting made.point id) (with_process pid (with_counted made.did made.begun) sys.old) }
{
    if let Some(process) = sys.processes.find_mut(pid) {
        settle(process, id, made);
    }
}

/// The turn of a row that ends its process.
#[tactic(auto, using(crate::proofs::TurnLemmas::next_laws))]
fn turn_to_end(sys: &mut Sys, pid: u32, id: u32, did: Did, status: u64) -> Turned
    requires next { IsNext sys.old pid id (NextTurn.Row (Next.Ends did status)) }
    requires room { AllUsedAtMost (2 ^ 64 - 2) sys.old }
    ensures { IsTurned sys.old sys.new pid id result }
{
    end(sys, pid, status);
    settle_under(sys, pid, id, quiet(did));
    Turned { did, stop: false }
}

/// The turn of a row. Where memory runs out the system stays as it is.
fn turn_of_row(sys: &mut Sys, pid: u32, id: u32, next: Next) -> Result<Turned, NoMemory>
    requires next { IsNext sys.old pid id (NextTurn.Row next) }
    requires room { AllUsedAtMost (2 ^ 64 - 2) sys.old }
    ensures ok { IfOk result (λ turned. IsTurned sys.old sys.new pid id turned) }
    ensures memory { OnErr result (may_take_memory sys.old pid id ≡ true) }
    ensures err { OnErr result (sys.new ≡ sys.old) }
{
    match next {
        Next::Ends { did, status } => Ok(turn_to_end(sys, pid, id, did, status)),
        _ => turn_in(sys, pid, id, next),
    }
}

/// The turn of an lwp that performs a call, which it makes or in which it wakes. Where memory runs out the system stays
/// as it is.
fn turn_in_call(
    alloc: Global,
    sys: &mut Sys,
    woken: bool,
    request: &Request,
) -> Result<Turned, NoMemory>
    requires lawful { IsLawfulSystem sys.old }
    requires next { IsNext sys.old request.now.pid request.now.lwp
        (NextTurn.Performs woken request.now.call request.now.args request.now.since) }
    requires room { AllUsedAtMost (2 ^ 64 - 2) sys.old }
    ensures ok { IfOk result (λ turned. IsTurned sys.old sys.new request.now.pid request.now.lwp turned) }
    ensures memory { OnErr result (may_take_memory sys.old request.now.pid request.now.lwp ≡ true) }
    ensures err { OnErr result (sys.new ≡ sys.old) }
{
    let (made, stop) = perform_next(alloc, sys, woken, request)?;
    settle_under(sys, request.pid, request.lwp, made);
    Ok(Turned {
        did: made.did,
        stop,
    })
}

/// The next turn of an lwp, made.
fn make_turn(
    alloc: Global,
    sys: &mut Sys,
    pid: u32,
    id: u32,
    next: NextTurn,
) -> Result<Turned, NoMemory>
    requires lawful { IsLawfulSystem sys.old }
    requires next { IsNext sys.old pid id next }
    requires room { AllUsedAtMost (2 ^ 64 - 2) sys.old }
    ensures ok { IfOk result (λ turned. IsTurned sys.old sys.new pid id turned) }
    ensures memory { OnErr result (may_take_memory sys.old pid id ≡ true) }
    ensures err { OnErr result (sys.new ≡ sys.old) }
{
    match next {
        NextTurn::Row(row) => turn_of_row(sys, pid, id, row),
        NextTurn::Performs {
            woken,
            call,
            args,
            since,
        } => {
            let request = Request {
                pid,
                lwp: id,
                since,
                call,
                args,
            };
            turn_in_call(alloc, sys, woken, &request)
        }
    }
}

/// One turn of an lwp: it makes the first row of the turn table that fits. Where memory runs out, the system stays as
/// it is; only an instruction that stores bytes, and some calls that are granted, take memory.
#[tactic(auto, using(crate::proofs::SettleLemmas::turned))]
pub fn turn(alloc: Global, sys: &mut Sys, pid: u32, lwp: u32) -> Result<Turned, NoMemory>
    requires lawful { IsLawfulSystem sys.old }
    requires movable { can_move sys.old pid lwp ≡ true }
    // the counts of use do not wrap
    requires room { AllUsedAtMost (2 ^ 64 - 2) sys.old }
    ensures ok { IfOk result (λ turned. turn_of sys.old pid lwp ≡ Some (record { system = sys.new; turned = turned })) }
    // a turn adds at most 1 to each count
    ensures used { (n : ℕ) → AllUsedAtMost n sys.old → AllUsedAtMost (n + 1) sys.new }
    ensures clock { sys.new.clock ≡ sys.old.clock }
    ensures sure { may_take_memory sys.old pid lwp ≡ false → IsOk result }
    ensures err { OnErr result (sys.new ≡ sys.old) }
{
    let next = next_of(sys, pid, lwp);
    let turned = make_turn(alloc, sys, pid, lwp, next)?;
    Ok(turned)
}
