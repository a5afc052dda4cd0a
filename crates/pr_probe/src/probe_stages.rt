//! The sequence of apfiles: which call it makes at which stage.
ghost use Rattle.std.specs.Prelude.{◌≡◌, ◌<◌};
ghost use Rattle.pr_tools.specs.Handles.{most_open};
ghost use Rattle.pr_probe.specs.ProbeStages.{place_of, file_of, lwp_of, mode_of, stage_opened, trace_after, retrace_after, restore_after, stage_asked, asking_after, stage_after, way_out, is_passed_over};

use crate::traced_sets::{SetKind, kind_after};
use pr_model::{File, Mode};
use pr_num::limits::DESCRIPTOR_LIMIT;
use pr_num::{AGENT, Errno};

/// A file that apfiles opens, in the order in which it opens them.
#[derive(Clone, Copy, Debug, PartialEq, Eq)]
pub enum ProbeFile {
    /// Takes messages to the process.
    Control,
    /// The status of the process.
    Status,
    /// The status of all its lwps.
    Lstatus,
    /// Its mappings.
    Map,
    /// Takes messages to the agent.
    AgentControl,
    /// The status of the agent.
    AgentStatus,
}

/// A step of asking for a descriptor.
#[derive(Clone, Copy, Debug, PartialEq, Eq)]
pub enum AskingStep {
    /// Sets the registers of the agent: it is to ask for the descriptor.
    SetRegisters,
    /// Runs the agent.
    Run,
    /// Waits until the agent stands at the exit of its call.
    Await,
    /// Reads what the call gave.
    ReadAgent,
    /// Reads what the descriptor stands for, where it is open.
    ReadKind,
}

/// A stage of apfiles: the call that it makes.
#[derive(Clone, Copy, Debug, PartialEq, Eq)]
pub enum ProbeStage {
    /// Opens a file.
    Open(ProbeFile),
    /// Reads the status of all lwps before the process is directed to stop.
    ReadFirst,
    /// Directs the process to stop, and is to wait for it.
    Stop,
    /// Waits until the process stands.
    AwaitStop,
    /// Reads the status of the process.
    ReadStatus,
    /// Reads the mappings.
    ReadMap,
    /// Reads the bytes at which the agent's code is to stand.
    SaveCode,
    /// Reads the bytes at which fstat(2) is to answer.
    SaveStack,
    /// Sets a traced set for the agent.
    Trace(SetKind),
    /// Makes the agent.
    MakeAgent,
    /// Writes the agent's code.
    PlantCode,
    /// Asks for a descriptor.
    Asking(u32, AskingStep),
    /// Traces the exit of fstat(2) no more.
    UntraceExits,
    /// Sets the registers of the agent: it is to end.
    SetExit,
    /// Runs the agent to its end.
    RunExit,
    /// Waits until the agent has ended.
    AwaitExit,
    /// Writes back the bytes at which the agent's code stood.
    WriteCode,
    /// Writes back the bytes at which fstat(2) answered.
    WriteStack,
    /// Sets a traced set back.
    Retrace(SetKind),
    /// Runs the process.
    Run,
    /// Sets a traced set back after a refusal.
    Restore(SetKind),
    /// Runs the process after a refusal.
    Release,
    /// Closes the file that was opened last; where none is open, apfiles has finished.
    Close,
}

/// The place of a file among those that are open.
#[tactic(auto, unfolding(crate::specs::ProbeStages::place_of))]
pub(crate) fn place_of(file: ProbeFile) -> usize
    ensures value { result ≡ place_of file }
    ensures within { result < most_open }
{
    match file {
        ProbeFile::Control => 0,
        ProbeFile::Status => 1,
        ProbeFile::Lstatus => 2,
        ProbeFile::Map => 3,
        ProbeFile::AgentControl => 4,
        ProbeFile::AgentStatus => 5,
    }
}

/// Which file of the process file system it is.
#[tactic(auto, unfolding(crate::specs::ProbeStages::file_of))]
pub(crate) fn file_of(file: ProbeFile) -> File
    ensures { result ≡ file_of file }
{
    match file {
        ProbeFile::Control => File::Ctl,
        ProbeFile::Status => File::Status,
        ProbeFile::Lstatus => File::Lstatus,
        ProbeFile::Map => File::Map,
        ProbeFile::AgentControl => File::Lwpctl,
        ProbeFile::AgentStatus => File::Lwpstatus,
    }
}

/// The lwp whose file it is; 0 for a file of the process.
#[tactic(auto, unfolding(crate::specs::ProbeStages::lwp_of))]
pub(crate) fn lwp_of(file: ProbeFile) -> u32
    ensures { result ≡ lwp_of file }
{
    match file {
        ProbeFile::AgentControl | ProbeFile::AgentStatus => AGENT,
        ProbeFile::Control | ProbeFile::Status | ProbeFile::Lstatus | ProbeFile::Map => 0,
    }
}

/// How it is opened.
#[tactic(auto, unfolding(crate::specs::ProbeStages::mode_of))]
pub(crate) fn mode_of(file: ProbeFile) -> Mode
    ensures { result ≡ mode_of file }
{
    match file {
        ProbeFile::Control | ProbeFile::AgentControl => Mode::Write,
        ProbeFile::Status | ProbeFile::Lstatus | ProbeFile::Map | ProbeFile::AgentStatus => {
            Mode::Read
        }
    }
}

/// The stage after the opening of a file.
#[tactic(auto, unfolding(crate::specs::ProbeStages::stage_opened))]
fn stage_opened(file: ProbeFile) -> ProbeStage
    ensures { result ≡ stage_opened file }
{
    match file {
        ProbeFile::Control => ProbeStage::Open(ProbeFile::Status),
        ProbeFile::Status => ProbeStage::Open(ProbeFile::Lstatus),
        ProbeFile::Lstatus => ProbeStage::Open(ProbeFile::Map),
        ProbeFile::Map => ProbeStage::ReadFirst,
        ProbeFile::AgentControl => ProbeStage::Open(ProbeFile::AgentStatus),
        ProbeFile::AgentStatus => ProbeStage::PlantCode,
    }
}

/// The stage after a set was set for the agent.
fn trace_after(next: Option<SetKind>) -> ProbeStage
    ensures { result ≡ trace_after next }
{
    match next {
        None => ProbeStage::MakeAgent,
        Some(kind) => ProbeStage::Trace(kind),
    }
}

/// The stage after a set was set back.
fn retrace_after(next: Option<SetKind>) -> ProbeStage
    ensures { result ≡ retrace_after next }
{
    match next {
        None => ProbeStage::Run,
        Some(kind) => ProbeStage::Retrace(kind),
    }
}

/// The same after a refusal.
fn restore_after(next: Option<SetKind>) -> ProbeStage
    ensures { result ≡ restore_after next }
{
    match next {
        None => ProbeStage::Release,
        Some(kind) => ProbeStage::Restore(kind),
    }
}

/// The stage after a descriptor.
#[tactic(auto, unfolding(crate::specs::ProbeStages::stage_asked))]
pub(crate) fn stage_asked(descriptor: u32) -> ProbeStage
    ensures { result ≡ stage_asked descriptor }
{
    if descriptor < DESCRIPTOR_LIMIT as u32 - 1 {
        ProbeStage::Asking(descriptor + 1, AskingStep::SetRegisters)
    } else {
        ProbeStage::UntraceExits
    }
}

/// The stage after a step of asking for a descriptor.
#[tactic(auto, unfolding(crate::specs::ProbeStages::asking_after))]
fn asking_after(descriptor: u32, step: AskingStep) -> ProbeStage
    ensures { result ≡ asking_after descriptor step }
{
    match step {
        AskingStep::SetRegisters => ProbeStage::Asking(descriptor, AskingStep::Run),
        AskingStep::Run => ProbeStage::Asking(descriptor, AskingStep::Await),
        AskingStep::Await => ProbeStage::Asking(descriptor, AskingStep::ReadAgent),
        AskingStep::ReadAgent => ProbeStage::Asking(descriptor, AskingStep::ReadKind),
        AskingStep::ReadKind => stage_asked(descriptor),
    }
}

/// The stage after an answer that was no refusal.
#[tactic(auto, unfolding(crate::specs::ProbeStages::stage_after))]
pub(crate) fn stage_after(stage: ProbeStage) -> ProbeStage
    ensures { result ≡ stage_after stage }
{
    match stage {
        ProbeStage::Open(file) => stage_opened(file),
        ProbeStage::ReadFirst => ProbeStage::Stop,
        ProbeStage::Stop => ProbeStage::AwaitStop,
        ProbeStage::AwaitStop => ProbeStage::ReadStatus,
        ProbeStage::ReadStatus => ProbeStage::ReadMap,
        ProbeStage::ReadMap => ProbeStage::SaveCode,
        ProbeStage::SaveCode => ProbeStage::SaveStack,
        ProbeStage::SaveStack => ProbeStage::Trace(SetKind::Signals),
        ProbeStage::Trace(kind) => trace_after(kind_after(kind)),
        ProbeStage::MakeAgent => ProbeStage::Open(ProbeFile::AgentControl),
        ProbeStage::PlantCode => ProbeStage::Asking(0, AskingStep::SetRegisters),
        ProbeStage::Asking(descriptor, step) => asking_after(descriptor, step),
        ProbeStage::UntraceExits => ProbeStage::SetExit,
        ProbeStage::SetExit => ProbeStage::RunExit,
        ProbeStage::RunExit => ProbeStage::AwaitExit,
        ProbeStage::AwaitExit => ProbeStage::WriteCode,
        ProbeStage::WriteCode => ProbeStage::WriteStack,
        ProbeStage::WriteStack => ProbeStage::Retrace(SetKind::Signals),
        ProbeStage::Retrace(kind) => retrace_after(kind_after(kind)),
        ProbeStage::Restore(kind) => restore_after(kind_after(kind)),
        ProbeStage::Run | ProbeStage::Release | ProbeStage::Close => ProbeStage::Close,
    }
}

/// The stage after a refusal. Where a set was changed, all four are set back; where the process was directed to stop,
/// it is run. Once the agent stands, apfiles only closes.
#[tactic(auto, unfolding(crate::specs::ProbeStages::way_out, crate::specs::ProbeStages::way_out_of_trace))]
pub(crate) fn way_out(stage: ProbeStage) -> ProbeStage
    ensures { result ≡ way_out stage }
{
    match stage {
        ProbeStage::AwaitStop
        | ProbeStage::ReadStatus
        | ProbeStage::ReadMap
        | ProbeStage::SaveCode
        | ProbeStage::SaveStack
        | ProbeStage::Trace(SetKind::Signals) => ProbeStage::Release,
        ProbeStage::Trace(SetKind::Faults | SetKind::Entries | SetKind::Exits)
        | ProbeStage::MakeAgent => ProbeStage::Restore(SetKind::Signals),
        _ => ProbeStage::Close,
    }
}

/// Whether a refusal at a stage is none of apfiles: a wait for the agent that was interrupted is made again, and what
/// comes of setting back and running after a refusal, and of closing, is passed over.
#[tactic(auto, unfolding(crate::specs::ProbeStages::is_passed_over, crate::specs::ProbeStages::is_asking_passed_over, crate::specs::ProbeStages::is_interrupt))]
pub(crate) fn is_passed_over(stage: ProbeStage, errno: Errno) -> bool
    ensures { result ≡ is_passed_over stage errno }
{
    match stage {
        ProbeStage::Asking(_, AskingStep::Await) | ProbeStage::AwaitExit => {
            matches!(errno, Errno::Intr)
        }
        ProbeStage::Restore(_) | ProbeStage::Release | ProbeStage::Close => true,
        _ => false,
    }
}
