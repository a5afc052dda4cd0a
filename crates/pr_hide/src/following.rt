//! What each entry leaves hidden.
ghost use Rattle.std.specs.Prelude.{◌≡◌, OnOk};
ghost use Rattle.pr_model.specs.Handles.{handle_of};
ghost use Rattle.pr_num.specs.Messages.{first_message};
ghost use Rattle.pr_hidden.specs.Hiders.{covers_after, covers_called, covers_closed, covers_controlled, covers_sent, covers_turned, exits, is_value, replaces, replaces_memory};
ghost use Rattle.pr_hide.specs.Bare.{bare};
ghost use Rattle.pr_hide.specs.CoverTables.{covers_of};
ghost use Rattle.pr_hide.specs.Hidings.{hiders_of};

use crate::cover_tables::CoverTable;
use crate::hiders::{Hider, hides, is_probe};
use crate::own_faults::is_ctl;
use pr_ctl::{first_message, own, tail, target};
use pr_kern::Machine;
use pr_model::{Act, Actor, Call, Did, Entry, Held, Reply, Res};
use pr_num::{Message, NoMemory, Sysno};
use pr_proc::Proc;
use std::alloc::Global;

/// What a message to a process leaves hidden of it: PCWRITE plants and lifts, and PCAGENT of a probe makes an agent of
/// its own.
#[tactic(auto, using(crate::proofs::CoverTableLemmas::covers), unfolding(pr_hidden::specs::Hiders::cover_sent))]
fn follow_message(
    alloc: Global,
    table: &mut CoverTable,
    who: &[Hider],
    by: u32,
    pid: u32,
    process: &Proc,
    bytes: &[u8],
) -> Result<(), NoMemory>
    ensures { OnOk result (covers_of table.new
        ≡ covers_sent (hiders_of who.now) by pid process.now bytes.now (first_message bytes.now)
        (covers_of table.old)) }
{
    let Ok((message, _)) = first_message(bytes) else {
        return Ok(());
    };
    match message {
        Message::Write { at, .. } => {
            table.write(
                alloc,
                who,
                by,
                pid,
                &process.space,
                at,
                tail(bytes, message),
            )
        }
        Message::Agent { .. } if is_probe(who, by) => table.add_agent(pid),
        _ => Ok(()),
    }
}

/// What a write of control messages leaves hidden.
fn follow_control(
    alloc: Global,
    table: &mut CoverTable,
    who: &[Hider],
    by: u32,
    machine: &Machine,
    handle: u32,
    bytes: &[u8],
) -> Result<(), NoMemory>
    ensures { OnOk result (covers_of table.new
        ≡ covers_controlled (hiders_of who.now) by machine.now.system (handle_of machine.now.opens by handle) bytes.now
        (covers_of table.old)) }
{
    let Some(held) = own(&machine.opens, by, handle) else {
        return Ok(());
    };
    match target(&machine.system, held) {
        None => Ok(()),
        Some(process) => follow_message(alloc, table, who, by, held.pid, process, bytes),
    }
}

/// What a close leaves hidden: of the process of a `ctl` that a hider closes, nothing but an agent
/// that stands there still.
fn follow_close(table: &mut CoverTable, who: &[Hider], by: u32, held: Option<Held>)
    ensures { covers_of table.new ≡ covers_closed (hiders_of who.now) by held (covers_of table.old) }
{
    let Some(held) = held else {
        return;
    };
    if hides(who, by) && is_ctl(held.file) {
        table.finish(held.pid);
    }
}

/// What a call of a controller leaves hidden.
#[tactic(auto, unfolding(pr_hidden::specs::Hiders::covers_called))]
fn follow_call(
    alloc: Global,
    table: &mut CoverTable,
    who: &[Hider],
    machine: &Machine,
    by: u32,
    call: &Call,
    reply: &Reply,
) -> Result<(), NoMemory>
    ensures { OnOk result (covers_of table.new
        ≡ covers_called (hiders_of who.now) (covers_of table.old) machine.now by call.now reply.now) }
{
    match (call, reply) {
        (Call::Ctl { handle, bytes }, Reply::Used(_)) => {
            follow_control(alloc, table, who, by, machine, *handle, bytes.as_slice())
        }
        (Call::Close { handle }, Reply::Done) => {
            follow_close(table, who, by, own(&machine.opens, by, *handle));
            Ok(())
        }
        _ => Ok(()),
    }
}

/// Whether a turn ends its lwp by lwp_exit(2).
fn exits(did: Did) -> bool
    ensures { result ≡ exits did }
{
    matches!(did, Did::Made(Sysno::LwpExit, Res::Ended))
}

/// Whether a call, where it is granted, leaves a process another memory, or a child the memory too.
fn replaces(call: Sysno) -> bool
    ensures { result ≡ replaces call }
{
    matches!(call, Sysno::Vfork | Sysno::Exec)
}

fn is_value(given: Res) -> bool
    ensures { result ≡ is_value given }
{
    matches!(given, Res::Value(_))
}

/// Whether a turn is a vfork(2) or an exec(2) that was granted.
fn replaces_memory(did: Did) -> bool
    ensures { result ≡ replaces_memory did }
{
    match did {
        Did::Made(call, given) => replaces(call) && is_value(given),
        _ => false,
    }
}

/// What a turn of an lwp leaves hidden: an agent of a controller's that ends is there no more, and after a vfork or an
/// exec that was granted to another lwp no patch is left, and no agent.
fn follow_turn(
    table: &mut CoverTable,
    who: &[Hider],
    machine: &Machine,
    pid: u32,
    lwp: u32,
    did: Did,
)
    ensures { covers_of table.new
        ≡ bare (covers_turned (hiders_of who.now) (covers_of table.old) machine.now pid lwp did) }
{
    if table.keeps_lwp(pid, lwp) {
        if replaces_memory(did) {
            table.forget(pid);
        }
        return;
    }
    if exits(did) {
        table.remove_agent(pid);
    }
}

/// What an entry leaves hidden that the machine makes in this state.
#[tactic(auto, using(crate::proofs::BareLemmas::entries), unfolding(pr_hidden::specs::Hiders::covers_after))]
pub(crate) fn follow(
    alloc: Global,
    table: &mut CoverTable,
    who: &[Hider],
    machine: &Machine,
    entry: &Entry,
) -> Result<(), NoMemory>
    ensures { OnOk result (covers_of table.new
        ≡ bare (covers_after (hiders_of who.now) (covers_of table.old) machine.now entry.now)) }
{
    match (entry.actor, &entry.act) {
        (Actor::Controller(by), Act::Call(call, reply)) => {
            follow_call(alloc, table, who, machine, by, call, reply)
        }
        (Actor::Lwp(pid, lwp), Act::Turn(turned)) => {
            follow_turn(table, who, machine, pid, lwp, turned.did);
            Ok(())
        }
        _ => Ok(()),
    }
}
