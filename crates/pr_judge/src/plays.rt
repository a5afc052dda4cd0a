//! An entry of a history, which a kernel is made to play.
ghost use Rattle.std.specs.Prelude.{◌≡◌, ◌≢◌, ◌≤◌, ◌<◌, true, false, Some, length, IfOk};
ghost use Rattle.pr_num.specs.Limits.{controller_limit};
ghost use Rattle.pr_api.specs.Entries.{call_entry, last_reply_of, tick_entry, turn_entry};
ghost use Rattle.pr_judge.specs.Judgements.{Plays};

use crate::replies::same_reply;
use crate::turns::same_turn;
use pr_api::Kernel;
use pr_model::{Act, Actor, Call, Entry, Reply, Turned};
use pr_num::NoMemory;
use pr_num::limits::CLOCK_LIMIT;
use std::alloc::Global;

/// Whether the reply to the last call is this one.
fn has_replied<Q: Kernel>(kernel: &Q, reply: &Reply) -> bool
    ensures same { result ≡ true → last_reply_of (Q.view kernel.now).history ≡ Some reply.now }
    ensures differ { result ≡ false → last_reply_of (Q.view kernel.now).history ≢ Some reply.now }
{
    match kernel.last_reply() {
        Some(last) => same_reply(last, reply),
        None => false,
    }
}

/// Makes a call of a controller, where it is one of the controllers and the call is ready.
fn play_call<Q: Kernel>(
    alloc: Global,
    kernel: &mut Q,
    controllers: u32,
    by: u32,
    call: &Call,
    reply: &Reply,
) -> Result<bool, NoMemory>
    requires controllers { controllers ≤ controller_limit }
    requires place { length (Q.view kernel.old).history < (Q.view kernel.old).places }
    ensures { IfOk result
        (λ legal. Plays controllers (call_entry by call.now reply.now) (Q.view kernel.old) (Q.view kernel.new) legal) }
{
    if by >= controllers {
        return Ok(false);
    }
    if !kernel.ready(by, call) {
        return Ok(false);
    }
    kernel.call(by, call.copy(alloc)?)?;
    Ok(has_replied(kernel, reply))
}

/// Gives an lwp its turn, where it can have one.
fn play_turn<Q: Kernel>(
    kernel: &mut Q,
    controllers: u32,
    pid: u32,
    lwp: u32,
    turned: Turned,
) -> Result<bool, NoMemory>
    requires place { length (Q.view kernel.old).history < (Q.view kernel.old).places }
    ensures { IfOk result
        (λ legal. Plays controllers (turn_entry pid lwp turned) (Q.view kernel.old) (Q.view kernel.new) legal) }
{
    if !kernel.lwp_movable(pid, lwp) {
        return Ok(false);
    }
    Ok(same_turn(kernel.lwp_turn(pid, lwp)?, turned))
}

/// Moves the clock on, where it goes on.
fn play_tick<Q: Kernel>(kernel: &mut Q, controllers: u32, clock: u64) -> bool
    requires place { length (Q.view kernel.old).history < (Q.view kernel.old).places }
    ensures { Plays controllers (tick_entry clock) (Q.view kernel.old) (Q.view kernel.new) result }
{
    if kernel.clock() >= CLOCK_LIMIT {
        return false;
    }
    kernel.tick();
    kernel.clock() == clock
}

/// Makes what a controller did, which is to be a call.
#[tactic(auto, using(crate::proofs::PlayLemmas::unfit), unfolding(crate::specs::Judgements::fits))]
fn play_controller<Q: Kernel>(
    alloc: Global,
    kernel: &mut Q,
    controllers: u32,
    by: u32,
    act: &Act,
) -> Result<bool, NoMemory>
    requires controllers { controllers ≤ controller_limit }
    requires place { length (Q.view kernel.old).history < (Q.view kernel.old).places }
    ensures { IfOk result
        (λ legal.
        Plays controllers (record { actor = Actor.Controller by; act = act.now }) (Q.view kernel.old)
        (Q.view kernel.new) legal) }
{
    match act {
        Act::Call(call, reply) => play_call(alloc, kernel, controllers, by, call, reply),
        Act::Turn(_) | Act::Tick(_) => Ok(false),
    }
}

/// Makes what an lwp did, which is to be a turn.
#[tactic(auto, using(crate::proofs::PlayLemmas::unfit), unfolding(crate::specs::Judgements::fits))]
fn play_lwp<Q: Kernel>(
    kernel: &mut Q,
    controllers: u32,
    pid: u32,
    lwp: u32,
    act: &Act,
) -> Result<bool, NoMemory>
    requires place { length (Q.view kernel.old).history < (Q.view kernel.old).places }
    ensures { IfOk result
        (λ legal.
        Plays controllers (record { actor = Actor.Lwp pid lwp; act = act.now }) (Q.view kernel.old)
        (Q.view kernel.new) legal) }
{
    match act {
        Act::Turn(turned) => play_turn(kernel, controllers, pid, lwp, *turned),
        Act::Call(_, _) | Act::Tick(_) => Ok(false),
    }
}

/// Makes what the clock did, which is to be a tick.
#[tactic(auto, using(crate::proofs::PlayLemmas::unfit), unfolding(crate::specs::Judgements::fits))]
fn play_clock<Q: Kernel>(kernel: &mut Q, controllers: u32, act: &Act) -> bool
    requires place { length (Q.view kernel.old).history < (Q.view kernel.old).places }
    ensures { Plays controllers (record { actor = Actor.Clock; act = act.now }) (Q.view kernel.old)
        (Q.view kernel.new) result }
{
    match act {
        Act::Tick(clock) => play_tick(kernel, controllers, *clock),
        Act::Call(_, _) | Act::Turn(_) => false,
    }
}

/// Makes the step of an entry, and says whether that was to be made and gave what the entry says.
pub fn play<Q: Kernel>(
    alloc: Global,
    kernel: &mut Q,
    controllers: u32,
    entry: &Entry,
) -> Result<bool, NoMemory>
    requires controllers { controllers ≤ controller_limit }
    requires place { length (Q.view kernel.old).history < (Q.view kernel.old).places }
    ensures { IfOk result (λ legal. Plays controllers entry.now (Q.view kernel.old) (Q.view kernel.new) legal) }
{
    match entry.actor {
        Actor::Controller(by) => play_controller(alloc, kernel, controllers, by, &entry.act),
        Actor::Lwp(pid, lwp) => play_lwp(kernel, controllers, pid, lwp, &entry.act),
        Actor::Clock => Ok(play_clock(kernel, controllers, &entry.act)),
    }
}
