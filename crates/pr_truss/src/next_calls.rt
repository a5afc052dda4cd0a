//! The call that truss makes next.
ghost use Rattle.std.specs.Prelude.{◌≡◌, [], map, IfOk};
ghost use Rattle.pr_num.specs.Control.{fork_mode, rlc_mode};
ghost use Rattle.pr_num.specs.Messages.{spelling};
ghost use Rattle.pr_truss.specs.Messages.{message_call};
ghost use Rattle.pr_truss.specs.NextCalls.{open_control, open_file, read_record, run_call, opening_call, child_call, freeing_call, call_of, next_call_of};

use crate::Truss;
use crate::messages::{
    all_modes, message_call, traced_entries, traced_exits, traced_faults, traced_signals,
};
use crate::processes::Traced;
use crate::stages::{ChildStep, FreeingStep, OpeningStep, Stage};
use pr_line::Options;
use pr_model::{Call, File, Mode, number_of};
use pr_msg::encode;
use pr_num::limits::READ_LIMIT;
use pr_num::{Handles, Message, Modes, NoMemory};
use std::alloc::Global;

/// The control file of a process is opened for truss alone.
fn open_control(pid: u32) -> Call
    ensures { result ≡ open_control pid }
{
    Call::Open {
        pid,
        lwp: 0,
        file: File::Ctl,
        mode: Mode::WriteExcl,
    }
}

/// Another file of a process is opened for reading.
fn open_file(pid: u32, file: File) -> Call
    ensures { result ≡ open_file pid file }
{
    Call::Open {
        pid,
        lwp: 0,
        file,
        mode: Mode::Read,
    }
}

/// A record is read whole.
fn read_record(file: Option<u32>) -> Call
    ensures { result ≡ read_record file }
{
    Call::Read {
        handle: number_of(file),
        at: 0,
        len: READ_LIMIT,
    }
}

/// A process runs.
#[tactic(auto, unfolding(pr_num::specs::Messages::tail_length))]
fn run_call(alloc: Global, control: u32) -> Result<Call, NoMemory>
    ensures { IfOk result (λ call. call ≡ run_call control) }
{
    message_call(alloc, control, &Message::Run { flags: 0 })
}

/// A process is to run when its last writable file is closed.
#[tactic(auto, unfolding(pr_num::specs::Messages::tail_length))]
fn release_call(alloc: Global, control: u32) -> Result<Call, NoMemory>
    ensures { IfOk result (λ call. call ≡ message_call control (Message.Set rlc_mode)) }
{
    let modes = Modes::RLC.word();
    message_call(alloc, control, &Message::Set { modes })
}

/// The wait for a stop.
#[tactic(auto, unfolding(pr_num::specs::Messages::tail_length))]
fn await_call(alloc: Global, control: u32, until: u64) -> Result<Call, NoMemory>
    ensures { IfOk result (λ call. call ≡ Call.CtlWait control until (spelling Message.Stop [])) }
{
    Ok(Call::CtlWait {
        handle: control,
        until,
        bytes: encode(alloc, &Message::Stop, &[])?,
    })
}

/// The call of a step of an opening.
#[tactic(auto, unfolding(crate::specs::NextCalls::opening_call, pr_num::specs::Messages::tail_length))]
fn opening_call(
    alloc: Global,
    options: &Options,
    traced: &Traced,
    step: OpeningStep,
) -> Result<Call, NoMemory>
    ensures { IfOk result (λ call. call ≡ opening_call options.now traced.now step) }
{
    let control = traced.control;
    let message = match step {
        OpeningStep::OpenStatus => return Ok(open_file(traced.pid, File::Status)),
        OpeningStep::OpenLstatus => return Ok(open_file(traced.pid, File::Lstatus)),
        OpeningStep::OpenMemory => return Ok(open_file(traced.pid, File::Mem)),
        OpeningStep::AwaitStop { until } => return await_call(alloc, control, until),
        OpeningStep::ReadLwps => return Ok(read_record(traced.lstatus)),
        OpeningStep::Start => return run_call(alloc, control),
        OpeningStep::SetRelease => return release_call(alloc, control),
        OpeningStep::ClearModes => Message::Unset { modes: all_modes() },
        OpeningStep::Stop => Message::Stop,
        OpeningStep::TraceSignals => Message::Strace {
            signals: traced_signals(options).word(),
        },
        OpeningStep::TraceFaults => Message::Sfault {
            faults: traced_faults(options).word(),
        },
        OpeningStep::TraceEntries => Message::Sentry {
            calls: traced_entries(options).word(),
        },
        OpeningStep::TraceExits => Message::Sexit {
            calls: traced_exits(options).word(),
        },
        OpeningStep::Follow => Message::Set {
            modes: Modes::FORK.word(),
        },
    };
    message_call(alloc, control, &message)
}

/// The call of a step of the opening of a child.
#[tactic(auto, unfolding(crate::specs::NextCalls::child_call))]
fn child_call(alloc: Global, traced: &Traced, step: ChildStep) -> Result<Call, NoMemory>
    ensures { IfOk result (λ call. call ≡ child_call traced.now step) }
{
    match step {
        ChildStep::SetRelease => release_call(alloc, traced.control),
        ChildStep::OpenStatus => Ok(open_file(traced.pid, File::Status)),
        ChildStep::OpenLstatus => Ok(open_file(traced.pid, File::Lstatus)),
        ChildStep::OpenMemory => Ok(open_file(traced.pid, File::Mem)),
        ChildStep::Start => run_call(alloc, traced.control),
    }
}

/// The call of a step that sets a child free.
#[tactic(auto, unfolding(crate::specs::NextCalls::freeing_call))]
fn freeing_call(alloc: Global, pid: u32, step: FreeingStep) -> Result<Call, NoMemory>
    ensures { IfOk result (λ call. call ≡ freeing_call pid step) }
{
    match step {
        FreeingStep::OpenControl => Ok(open_control(pid)),
        FreeingStep::SetRelease { control } => release_call(alloc, control),
        FreeingStep::Close { control } => Ok(Call::Close { handle: control }),
    }
}

/// A process's children are no longer traced.
#[tactic(auto, unfolding(pr_num::specs::Messages::tail_length))]
fn unfollow_call(alloc: Global, control: u32) -> Result<Call, NoMemory>
    ensures { IfOk result (λ call. call ≡ message_call control (Message.Unset fork_mode)) }
{
    let modes = Modes::FORK.word();
    message_call(alloc, control, &Message::Unset { modes })
}

/// The wait for any of the processes.
fn poll_call(alloc: Global, traced: &[Traced]) -> Result<Call, NoMemory>
    ensures { IfOk result (λ call. call ≡ Call.Poll (map (λ t. t.control) traced.now)) }
{
    let mut handles = Vec::new(alloc);
    for process in traced {
        handles.push(process.control)?;
    }
    Ok(Call::Poll {
        handles: Handles::from_vec(handles),
    })
}

impl Truss {
    /// The call of the present step.
    #[tactic(auto, unfolding(crate::specs::NextCalls::call_of))]
    pub(crate) fn call_of(&self, alloc: Global, stage: Stage) -> Result<Option<Call>, NoMemory>
        ensures { IfOk result (λ call. call ≡ call_of self.now.state stage) }
    {
        let call = match stage {
            Stage::Spawning { program } => Call::Spawn {
                program,
                held: true,
            },
            Stage::OpeningControl { pid } => open_control(pid),
            Stage::Opening { place, step } => {
                opening_call(alloc, &self.options, &self.traced_at(place), step)?
            }
            Stage::Polling => poll_call(alloc, &self.traced)?,
            Stage::ReadingStatus { place } => read_record(self.traced_at(place).status),
            Stage::ReadingText { place, at, len, .. } => Call::Read {
                handle: number_of(self.traced_at(place).memory),
                at,
                len,
            },
            Stage::OpeningChildControl { child, .. } => open_control(child),
            Stage::OpeningChild { place, step, .. } => {
                child_call(alloc, &self.traced_at(place), step)?
            }
            Stage::Running { place } => run_call(alloc, self.traced_at(place).control)?,
            Stage::Closing { place, .. } => Call::Close {
                handle: self.traced_at(place).last_handle(),
            },
            Stage::Unfollowing => unfollow_call(alloc, self.traced_at(0).control)?,
            Stage::ReadingLwps => read_record(self.traced_at(0).lstatus),
            Stage::FreeingChild { child, step } => freeing_call(alloc, child, step)?,
            Stage::Finished => return Ok(None),
        };
        Ok(Some(call))
    }

    /// The call that truss makes next; `None` exactly where it has finished.
    #[tactic(auto, unfolding(crate::specs::NextCalls::next_call_of))]
    pub fn next_call(&self, alloc: Global) -> Result<Option<Call>, NoMemory>
        ensures { IfOk result (λ call. call ≡ next_call_of self.now.state) }
    {
        self.call_of(alloc, self.stage)
    }
}
