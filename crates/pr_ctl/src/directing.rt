//! Messages that stop and run (proc(4), "PCSTOP", "PCRUN").
ghost use Rattle.std.specs.Prelude.{◌≡◌, ◌==◌, ◌≤◌, ◌+◌, ◌^◌, ◌<◌, ℕ, List, Option, None, if◌then◌else◌};
ghost use Rattle.std.specs.Option.{ForSome, IsSome};
ghost use Rattle.pr_num.specs.Limits.{clock_limit};
ghost use Rattle.pr_num.specs.Messages.{bad_operand};
ghost use Rattle.pr_num.specs.declared.messages.Message.TheVariants as message;
ghost use Rattle.pr_model.specs.Messages.{with_aim_directed};
ghost use Rattle.pr_model.specs.State.{TracedProcess, live_process, with_process};
ghost use Rattle.pr_ctl.specs.Aims.{aim_at};
ghost use Rattle.pr_ctl.specs.Answers.{Answers};
ghost use Rattle.pr_ctl.specs.Runs.{ran, run_by_id};

use crate::process_runs;
use pr_model::Reply;
use pr_msg::RunFlags;
use pr_num::Errno;
use pr_proc::{Sys, live};
use pr_stop::direct;

/// Directs the lwp of an id in a process to stop, or where none is named every lwp of it.
#[tactic(auto, using(pr_num::proofs::ByIdLaws::by_id_laws), unfolding(pr_model::specs::Messages::with_aim_directed, pr_model::specs::State::with_process))]
fn direct_target(sys: &mut Sys, pid: u32, lwp: Option<u32>)
    ensures { (p : TracedProcess) → sys.new ≡ with_aim_directed sys.old pid p (aim_at lwp) }
{
    if let Some(process) = sys.processes.find_mut(pid) {
        direct(process, lwp);
    }
}

/// PCSTOP: directs to stop, and goes on with a wait.
#[tactic(auto, unfolding(pr_model::specs::Messages::message_answer))]
pub fn stop(sys: &mut Sys, pid: u32, lwp: Option<u32>) -> Reply
    ensures { (tail : List ℕ) (used : ℕ) → Answers sys.old pid lwp message.Stop tail used sys.new result }
{
    direct_target(sys, pid, lwp);
    Reply::Half(0)
}

/// PCDSTOP: directs to stop.
#[tactic(auto, unfolding(pr_model::specs::Messages::message_answer))]
pub fn dstop(sys: &mut Sys, pid: u32, lwp: Option<u32>, length: u64) -> Reply
    ensures { (tail : List ℕ) → Answers sys.old pid lwp message.Dstop tail length sys.new result }
{
    direct_target(sys, pid, lwp);
    Reply::Used(length)
}

/// The moment at which a wait of so many milliseconds ends; 0 sets no end.
fn wait_end(clock: u64, ms: u64) -> u64
    requires { clock + ms < 2 ^ 64 }
    ensures { result ≡ (if ms == 0 then 0 else clock + ms) }
{
    if ms == 0 { 0 } else { clock + ms }
}

/// PCTWSTOP: goes on with a wait of so many milliseconds, or without an end.
#[tactic(auto, unfolding(pr_model::specs::Messages::message_answer, pr_num::specs::Messages::bad_operand))]
pub fn twstop(sys: &Sys, pid: u32, ms: u64) -> Reply
    requires clock { sys.now.clock ≤ clock_limit }
    requires columns { bad_operand (message.Twstop ms) ≡ None }
    ensures { (lwp : Option ℕ) (tail : List ℕ) (used : ℕ)
        → Answers sys.now pid lwp (message.Twstop ms) tail used sys.now result }
{
    Reply::Half(wait_end(sys.clock, ms))
}

/// Runs the lwp of an id in the process of an id, or where none is named the process.
#[tactic(auto, using(pr_num::proofs::ByIdLaws::by_id_laws), unfolding(pr_model::specs::State::with_process))]
fn run_target(sys: &mut Sys, pid: u32, lwp: Option<u32>, flags: RunFlags)
    ensures { sys.new ≡ with_process pid (ran flags lwp) sys.old }
{
    if let Some(process) = sys.processes.find_mut(pid) {
        process_runs::run(process, lwp, flags);
    }
}

/// PCRUN on the lwp of an id in a live process, or where none is named on the process (EBUSY).
#[tactic(auto, using(crate::proofs::RunLemmas::run_laws), unfolding(crate::specs::Runs::run_by_id))]
fn run_with(sys: &mut Sys, pid: u32, lwp: Option<u32>, flags: RunFlags, length: u64) -> Reply
    requires { IsSome (live_process sys.old pid) }
    ensures { ForSome (live_process sys.old pid)
        (λ p. (record { system = sys.new; reply = result }) ≡ run_by_id sys.old pid p lwp flags length) }
{
    if process_runs::run_refused(live(sys, pid).unwrap(), lwp) {
        return Reply::Fail(Errno::Busy);
    }
    run_target(sys, pid, lwp, flags);
    Reply::Used(length)
}

/// PCRUN: runs what is stopped on an event of interest or directed to stop (EBUSY).
#[tactic(auto, using(crate::proofs::RunLemmas::run_laws), unfolding(pr_model::specs::Messages::message_answer, pr_num::specs::Messages::bad_operand))]
pub fn run(sys: &mut Sys, pid: u32, lwp: Option<u32>, flags: u64, length: u64) -> Reply
    requires live { IsSome (live_process sys.old pid) }
    requires columns { bad_operand (message.Run flags) ≡ None }
    ensures { (tail : List ℕ) → Answers sys.old pid lwp (message.Run flags) tail length sys.new result }
{
    run_with(sys, pid, lwp, RunFlags::of_word(flags), length)
}
