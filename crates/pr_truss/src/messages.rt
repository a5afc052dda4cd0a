//! The control messages that truss sends, and what it traces.
ghost use Rattle.std.specs.Prelude.{◌≡◌, IfOk};
ghost use Rattle.pr_num.specs.Messages.{tail_length};
ghost use Rattle.pr_num.specs.Control.{fork_mode, rlc_mode};
ghost use Rattle.pr_truss.specs.Messages.{message_call, all_modes, ending_calls, traced_entries, traced_exits, traced_faults, traced_signals, with_forks};

use pr_line::Options;
use pr_model::Call;
use pr_msg::encode;
use pr_num::{FltSet, Message, Modes, NoMemory, SigSet, SysSet, Sysno};
use std::alloc::Global;

/// A write of one message, which has no bytes after its operands.
pub(crate) fn message_call(alloc: Global, control: u32, message: &Message) -> Result<Call, NoMemory>
    requires { tail_length message.now ≡ 0 }
    ensures { IfOk result (λ call. call ≡ message_call control message.now) }
{
    Ok(Call::Ctl {
        handle: control,
        bytes: encode(alloc, message, &[])?,
    })
}

/// The word of all modes.
pub(crate) fn all_modes() -> u64
    ensures { result ≡ all_modes }
{
    Modes::FORK.word() + Modes::RLC.word() + Modes::KLC.word() + Modes::ASYNC.word()
}

/// The signals that are traced.
#[tactic(auto, unfolding(crate::specs::Messages::traced_signals))]
pub(crate) fn traced_signals(options: &Options) -> SigSet
    ensures { result ≡ traced_signals options.now }
{
    options.signals
}

/// The faults that are traced.
#[tactic(auto, unfolding(crate::specs::Messages::traced_faults))]
pub(crate) fn traced_faults(options: &Options) -> FltSet
    ensures { result ≡ traced_faults options.now }
{
    options.faults
}

/// The calls that end their lwp.
#[tactic(auto, unfolding(crate::specs::Messages::ending_calls))]
fn ending_calls() -> SysSet
    ensures { result ≡ ending_calls }
{
    SysSet::empty().with(Sysno::Exit).with(Sysno::LwpExit)
}

/// The calls that are traced at their entry.
#[tactic(auto, unfolding(crate::specs::Messages::traced_entries))]
pub(crate) fn traced_entries(options: &Options) -> SysSet
    ensures { result ≡ traced_entries options.now }
{
    options.calls.intersection(ending_calls())
}

/// A set of calls with those that make a child.
#[tactic(auto, unfolding(crate::specs::Messages::with_forks))]
pub(crate) fn with_forks(calls: SysSet) -> SysSet
    ensures { result ≡ with_forks calls }
{
    calls.with(Sysno::Fork).with(Sysno::Vfork)
}

/// The calls that are traced at their exit.
#[tactic(auto, unfolding(crate::specs::Messages::traced_exits))]
pub(crate) fn traced_exits(options: &Options) -> SysSet
    ensures { result ≡ traced_exits options.now }
{
    let calls = options.calls.minus(ending_calls());
    if options.follow {
        with_forks(calls)
    } else {
        calls
    }
}
