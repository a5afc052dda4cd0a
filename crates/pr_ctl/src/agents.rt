//! The agent lwp (proc(4), "PCAGENT").
ghost use Rattle.std.specs.Prelude.{◌≡◌, ◌≢◌, ◌↔◌, ℕ, List, Option, Some, Err, false, IsErr, IsSome, IfOk, OnOk, OnErr};
ghost use Rattle.std.specs.List.{list_all};
ghost use Rattle.std.specs.Option.{ForSome};
ghost use Rattle.pr_model.specs.declared.stops.Stop.TheVariants.{Requested};
ghost use Rattle.pr_num.specs.declared.errnos.Errno.{Errno as AnyErrno};
ghost use Rattle.pr_num.specs.declared.messages.Message.TheVariants as message;
ghost use Rattle.pr_model.specs.Machines.{no_marks};
ghost use Rattle.pr_model.specs.Messages.{agent_lwp, lets_agent, lets_agent_by, with_agent};
ghost use Rattle.pr_model.specs.State.{has_agent, live_process, with_process};
ghost use Rattle.pr_model.specs.Stops.{shown};
ghost use Rattle.pr_ctl.specs.Answers.{Answers};
ghost use Rattle.pr_ctl.specs.Agents.{Says, SaysOf, agent_refusal};

use pr_model::{Frames, LwpControl, LwpOf, Phase, Reply, Shown, Stop};
use pr_num::limits::LWP_LIMIT;
use pr_num::{AGENT, Errno, NoMemory, Sig, SigSet};
use pr_proc::{Lwp, Proc, Sys, has_agent, live};
use pr_sig::Pendings;
use pr_stop::shown;
use thiserror::Error;

/// Why no agent is made, with the errno that it stands for.
#[derive(Clone, Copy, Debug, PartialEq, Eq, Error)]
pub enum AgentNo {
    /// The process has lent its memory, there is an agent, or an lwp is not stopped (`EBUSY`).
    #[error("the process has lent its memory, there is an agent, or an lwp is not stopped")]
    Busy,
    /// As many lwps stand as there can be (`ENOMEM`).
    #[error("as many lwps stand as there can be")]
    Full,
    /// Memory ran out.
    #[error("out of memory")]
    NoMemory,
}

impl From<NoMemory> for AgentNo {
    ghost use Rattle.std.specs.Prelude.{◌≡◌};
    ghost use Rattle.pr_ctl.specs.declared.agents.AgentNo.TheVariants as variants;

    ghost from_gives = { λ _ e. e ≡ variants.NoMemory };

    fn from(_error: NoMemory) -> AgentNo {
        AgentNo::NoMemory
    }
}

/// Whether an lwp lets an agent be made: it stands on an event of interest or is suspended, or is stopped by job
/// control and directed to stop.
fn lets_agent(job: Option<Sig>, lwp: &Lwp) -> bool
    ensures { result ≡ lets_agent_by lwp.now (shown job lwp.now) }
{
    match shown(job, lwp) {
        None => false,
        Some(Shown::Event(_) | Shown::Suspended) => true,
        Some(Shown::JobControl(_)) => lwp.control.directed,
    }
}

#[tactic(auto, unfolding(pr_model::specs::Messages::lets_agent))]
fn all_let_agent(job: Option<Sig>, lwps: &[(u32, Lwp)]) -> bool
    ensures { result ≡ list_all (lets_agent job) lwps.now }
{
    lwps.iter().all(|entry| lets_agent(job, &entry.1))
}

/// What refuses an agent.
#[tactic(auto, unfolding(crate::specs::Agents::agent_refusal))]
fn refusal(process: &Proc) -> Result<(), AgentNo>
    ensures says { Says result (agent_refusal process.now) }
    ensures memory { result ≢ Err AgentNo.NoMemory }
{
    if process.borrower.is_some() {
        return Err(AgentNo::Busy);
    }
    if has_agent(process) || !all_let_agent(process.job_stop, process.lwps.as_slice()) {
        return Err(AgentNo::Busy);
    }
    if process.lwps.len() >= LWP_LIMIT {
        return Err(AgentNo::Full);
    }
    Ok(())
}

/// What a stop that was requested leaves on a new lwp.
#[tactic(auto, unfolding(pr_model::specs::Machines::no_marks))]
fn stopped() -> LwpControl
    ensures { result ≡ record (no_marks false) { stop = Some Requested } }
{
    LwpControl {
        stop: Some(Stop::Requested),
        directed: false,
        step: false,
        abort: false,
    }
}

/// An agent with these registers: in its program, stopped as requested, and holding every signal that can be held.
#[tactic(auto, unfolding(pr_model::specs::Messages::agent_lwp, pr_model::specs::Lives::new_lwp, pr_model::specs::Machines::traced, pr_num::specs::Signals::holdable_word))]
fn agent_lwp(regs: [u64; 11]) -> Lwp
    ensures { result ≡ agent_lwp regs }
{
    LwpOf {
        regs,
        held: SigSet::all().without(Sig::Kill).without(Sig::Stop),
        pending: Pendings::new(),
        current: None,
        frames: Frames::new(),
        suspended: false,
        phase: Phase::User,
        control: stopped(),
    }
}

#[tactic(auto, unfolding(pr_model::specs::Messages::with_agent))]
fn insert_agent(process: &mut Proc, regs: [u64; 11]) -> Result<(), NoMemory>
    requires { has_agent process.old ≡ false }
    ensures ok { OnOk result (process.new ≡ with_agent regs process.old) }
    ensures err { OnErr result (process.new ≡ process.old) }
{
    process.lwps.insert(AGENT, agent_lwp(regs))?;
    Ok(())
}

#[tactic(auto, using(pr_num::proofs::ByIdLaws::by_id_laws, pr_proc::proofs::LifeLemmas::life_laws), unfolding(pr_model::specs::State::with_process))]
fn insert_agent_in(sys: &mut Sys, pid: u32, regs: [u64; 11]) -> Result<(), NoMemory>
    requires live { IsSome (live_process sys.old pid) }
    requires none { ForSome (live_process sys.old pid) (λ p. has_agent p ≡ false) }
    ensures ok { OnOk result (sys.new ≡ with_process pid (with_agent regs) sys.old) }
    ensures err { OnErr result (sys.new ≡ sys.old) }
{
    insert_agent(sys.processes.get_mut(pid), regs)
}

/// Makes an agent with these registers in a live process. `Busy` comes exactly where the process has lent its memory,
/// there is an agent or an lwp is not stopped, then `Full` exactly where there are 64 lwps, and memory runs out only
/// where neither is so. After an error the system is as it was.
#[tactic(auto, using(crate::proofs::AgentLemmas::agent_laws, pr_proc::proofs::LifeLemmas::life_laws))]
pub fn add_agent(sys: &mut Sys, pid: u32, regs: [u64; 11]) -> Result<(), AgentNo>
    requires { IsSome (live_process sys.old pid) }
    ensures ok { OnOk result (sys.new ≡ with_process pid (with_agent regs) sys.old) }
    ensures refused { ForSome (live_process sys.old pid) (λ p. Says result (agent_refusal p)) }
    ensures err { OnErr result (sys.new ≡ sys.old) }
{
    refusal(live(sys, pid).unwrap())?;
    insert_agent_in(sys, pid, regs)?;
    Ok(())
}

/// The errno of a refusal; memory that ran out has none.
fn errno_of(reason: AgentNo) -> Result<Errno, NoMemory>
    ensures ok { (refusal : Option AnyErrno) → SaysOf reason refusal → IfOk result (λ error. refusal ≡ Some error) }
    ensures memory { IsErr result ↔ (reason ≡ AgentNo.NoMemory) }
{
    match reason {
        AgentNo::Busy => Ok(Errno::Busy),
        AgentNo::Full => Ok(Errno::Nomem),
        AgentNo::NoMemory => Err(NoMemory),
    }
}

/// PCAGENT: makes an agent with these registers (EBUSY where the process has lent its memory, there is an agent or an
/// lwp is not stopped, ENOMEM where there are 64 lwps). Where memory runs out, the system stays as it is.
#[tactic(auto, using(crate::proofs::AgentLemmas::agent_laws))]
pub fn agent(sys: &mut Sys, pid: u32, regs: [u64; 11], length: u64) -> Result<Reply, NoMemory>
    requires { IsSome (live_process sys.old pid) }
    ensures ok { (lwp : Option ℕ) (tail : List ℕ)
        → IfOk result (λ reply. Answers sys.old pid lwp (message.Agent regs) tail length sys.new reply) }
    ensures err { OnErr result (sys.new ≡ sys.old) }
{
    match add_agent(sys, pid, regs) {
        Ok(()) => Ok(Reply::Used(length)),
        Err(reason) => {
            let error = errno_of(reason)?;
            Ok(Reply::Fail(error))
        }
    }
}
