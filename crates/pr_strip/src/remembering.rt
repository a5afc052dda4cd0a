//! What each entry of a history leaves remembered.
ghost use Rattle.std.specs.Prelude.{◌≡◌, OnOk};
ghost use Rattle.pr_num.specs.Messages.{first_message};
ghost use Rattle.pr_strip.specs.Pasts.{past_of};
ghost use Rattle.pr_model.specs.UntracedSteps.{with_child_of, after_did, after_message, after_call, remembered};

use crate::pasts::Past;
use pr_model::{Act, Actor, Call, Did, Entry, How, Reply, Res};
use pr_msg::decode_one;
use pr_num::{AGENT, Message, NoMemory, Sysno};

/// The first lwp of a child begins on its way out of the call that made it.
fn remember_child(past: &mut Past, call: Sysno, res: Res) -> Result<(), NoMemory>
    ensures { OnOk result (past_of past.new ≡ with_child_of call res (past_of past.old)) }
{
    match res {
        Res::Value(child) if call.is_fork_call() => past.leave_call(child, 1),
        _ => Ok(()),
    }
}

/// What a turn of an lwp leaves remembered.
#[tactic(auto, unfolding(pr_model::specs::UntracedSteps::after_did))]
fn remember_turn(past: &mut Past, pid: u32, lwp: u32, did: Did) -> Result<(), NoMemory>
    ensures { OnOk result (past_of past.new ≡ after_did pid lwp did (past_of past.old)) }
{
    match did {
        Did::Made(call, res) => {
            past.leave_call(pid as u64, lwp)?;
            return remember_child(past, call, res);
        }
        Did::Woke(_, _) => return past.leave_call(pid as u64, lwp),
        Did::Stopped
        | Did::Took(_)
        | Did::Acted(_, How::Ignored)
        | Did::Acted(_, How::JobStop)
        | Did::Acted(_, How::Died) => {}
        Did::Ran
        | Did::Entered(_)
        | Did::Slept(_)
        | Did::Returned(_)
        | Did::Faulted(_)
        | Did::Posted(_)
        | Did::Acted(_, How::Caught) => past.go_on(pid, lwp),
    }
    Ok(())
}

/// A PCAGENT that was granted makes an agent anew, in its program.
fn remember_message(past: &mut Past, pid: u32, bytes: &[u8])
    ensures { past_of past.new ≡ after_message pid (first_message bytes.now) (past_of past.old) }
{
    if let Ok((Message::Agent { .. }, _)) = decode_one(bytes) {
        past.go_on(pid, AGENT);
    }
}

/// What a call of a controller leaves remembered.
#[tactic(auto, unfolding(pr_model::specs::UntracedSteps::after_call))]
fn remember_call(past: &mut Past, call: &Call, reply: &Reply) -> Result<(), NoMemory>
    ensures { OnOk result (past_of past.new ≡ after_call call.now reply.now (past_of past.old)) }
{
    match (call, reply) {
        (Call::Open { pid, .. }, Reply::Handle(handle)) => past.name(*handle, *pid),
        (Call::Ctl { handle, bytes }, Reply::Used(_)) => {
            let pid = past.process_named(*handle);
            remember_message(past, pid, bytes.as_slice());
            Ok(())
        }
        _ => Ok(()),
    }
}

/// What an entry leaves remembered.
#[tactic(auto, unfolding(pr_model::specs::UntracedSteps::remembered))]
pub fn remember(past: &mut Past, entry: &Entry) -> Result<(), NoMemory>
    ensures { OnOk result (past_of past.new ≡ remembered (past_of past.old) entry.now) }
{
    match (entry.actor, &entry.act) {
        (Actor::Controller(_), Act::Call(call, reply)) => remember_call(past, call, reply),
        (Actor::Lwp(pid, lwp), Act::Turn(turned)) => remember_turn(past, pid, lwp, turned.did),
        _ => Ok(()),
    }
}
