//! The sequences of the tools: which calls each makes.
ghost use Rattle.std.specs.Prelude.{◌≡◌};
ghost use Rattle.pr_tools.specs.Steps.{first_step, after_in_reader, after_in_pstop, after_in_prun, after_in_pwait, after_in_pstack, after, way_out, file_of, ctl_mode_of, record_room, frame_room};

use pr_model::{File, Mode, ToolKind};
use pr_num::limits::{LIST_LIMIT, LWP_LIMIT, READ_LIMIT};

/// A step of a tool: the call that it makes.
#[derive(Clone, Copy, Debug, PartialEq, Eq)]
pub enum Step {
    /// Opens the control file.
    OpenCtl,
    /// Opens the file whose record it reads.
    OpenFile,
    /// Opens the memory.
    OpenMemory,
    /// Reads the record before the process is directed to stop.
    ReadFirst,
    /// Directs the process to stop, and is to wait for it.
    Stop,
    /// Waits until the process stands.
    AwaitStop,
    /// Directs the process to stop.
    Direct,
    /// Waits until the process has ended.
    AwaitEnd,
    /// Reads the record.
    ReadFile,
    /// Reads the first instruction.
    ReadText,
    /// Reads a frame of a stack.
    ReadFrame,
    /// Runs the process.
    Run,
    /// Lists the processes.
    List,
    /// Runs the process after a refusal.
    Release,
    /// Closes the file that was opened last; where none is open, the tool has finished.
    Close,
}

/// The places of the files that a tool has open: it opens them in this order, those that it needs.
pub const CONTROL: usize = 0;

pub const RECORD: usize = 1;

pub const MEMORY: usize = 2;

/// The most frames of a stack that are read: its first one is the pc, and it has 64 at most.
pub const READ_FRAMES: u32 = 63;

/// The most frames that are read of a process.
const MOST_FRAMES: usize = LWP_LIMIT * READ_FRAMES as usize;

/// Where a tool begins.
#[tactic(auto, unfolding(crate::specs::Steps::first_step))]
pub fn first_step(kind: ToolKind) -> Step
    ensures { result ≡ first_step kind }
{
    match kind {
        ToolKind::Pflags | ToolKind::Psig | ToolKind::Pmap | ToolKind::Pfiles | ToolKind::Pwait =>
            Step::OpenFile,
        ToolKind::Pstack | ToolKind::Pstop | ToolKind::Prun => Step::OpenCtl,
        ToolKind::Ptree => Step::List,
    }
}

/// pflags, psig, pmap and pfiles.
#[tactic(auto, unfolding(crate::specs::Steps::after_in_reader))]
fn after_in_reader(step: Step) -> Step
    ensures { result ≡ after_in_reader step }
{
    match step {
        Step::OpenFile => Step::ReadFile,
        _ => Step::Close,
    }
}

#[tactic(auto, unfolding(crate::specs::Steps::after_in_pstop))]
fn after_in_pstop(step: Step) -> Step
    ensures { result ≡ after_in_pstop step }
{
    match step {
        Step::OpenCtl => Step::Direct,
        _ => Step::Close,
    }
}

#[tactic(auto, unfolding(crate::specs::Steps::after_in_prun))]
fn after_in_prun(step: Step) -> Step
    ensures { result ≡ after_in_prun step }
{
    match step {
        Step::OpenCtl => Step::Run,
        _ => Step::Close,
    }
}

#[tactic(auto, unfolding(crate::specs::Steps::after_in_pwait))]
fn after_in_pwait(step: Step) -> Step
    ensures { result ≡ after_in_pwait step }
{
    match step {
        Step::OpenFile => Step::AwaitEnd,
        Step::AwaitEnd => Step::ReadFile,
        _ => Step::Close,
    }
}

#[tactic(auto, unfolding(crate::specs::Steps::after_in_pstack))]
fn after_in_pstack(step: Step) -> Step
    ensures { result ≡ after_in_pstack step }
{
    match step {
        Step::OpenCtl => Step::OpenFile,
        Step::OpenFile => Step::OpenMemory,
        Step::OpenMemory => Step::ReadFirst,
        Step::ReadFirst => Step::Stop,
        Step::Stop => Step::AwaitStop,
        Step::AwaitStop => Step::ReadFile,
        Step::ReadFile => Step::ReadText,
        Step::ReadText => Step::ReadFrame,
        Step::ReadFrame => Step::Run,
        _ => Step::Close,
    }
}

/// The step after an answer that was no refusal.
#[tactic(auto, unfolding(crate::specs::Steps::after, crate::specs::Steps::after_in_ptree))]
pub fn after(kind: ToolKind, step: Step) -> Step
    ensures { result ≡ after kind step }
{
    match kind {
        ToolKind::Pflags | ToolKind::Psig | ToolKind::Pmap | ToolKind::Pfiles => {
            after_in_reader(step)
        }
        ToolKind::Pstack => after_in_pstack(step),
        ToolKind::Pstop => after_in_pstop(step),
        ToolKind::Prun => after_in_prun(step),
        ToolKind::Pwait => after_in_pwait(step),
        ToolKind::Ptree => Step::Close,
    }
}

/// The step after a refusal. Where pstack has directed its process to stop, it first runs it again.
#[tactic(auto, unfolding(crate::specs::Steps::way_out, crate::specs::Steps::way_out_of_pstack))]
pub fn way_out(kind: ToolKind, step: Step) -> Step
    ensures { result ≡ way_out kind step }
{
    match (kind, step) {
        (
            ToolKind::Pstack,
            Step::AwaitStop | Step::ReadFile | Step::ReadText | Step::ReadFrame | Step::Run,
        ) => Step::Release,
        _ => Step::Close,
    }
}

/// The file whose record a tool reads. `pstop`, `prun` and `ptree` open none.
#[tactic(auto, unfolding(crate::specs::Steps::file_of))]
pub fn file_of(kind: ToolKind) -> File
    ensures { result ≡ file_of kind }
{
    match kind {
        ToolKind::Pflags | ToolKind::Pstack => File::Lstatus,
        ToolKind::Psig => File::Sigact,
        ToolKind::Pmap => File::Map,
        ToolKind::Pfiles => File::Fds,
        ToolKind::Pwait => File::Psinfo,
        ToolKind::Pstop | ToolKind::Prun | ToolKind::Ptree => File::Status,
    }
}

/// How a tool opens the control file: pstack lets nobody else control the process meanwhile.
#[tactic(auto, unfolding(crate::specs::Steps::ctl_mode_of))]
pub fn ctl_mode_of(kind: ToolKind) -> Mode
    ensures { result ≡ ctl_mode_of kind }
{
    match kind {
        ToolKind::Pstack => Mode::WriteExcl,
        _ => Mode::Write,
    }
}

/// How many bytes of its record a tool has room for.
#[tactic(auto, unfolding(crate::specs::Steps::record_room))]
pub fn record_room(kind: ToolKind) -> usize
    ensures { result ≡ record_room kind }
{
    match kind {
        ToolKind::Pstop | ToolKind::Prun => 0,
        ToolKind::Ptree => LIST_LIMIT,
        _ => READ_LIMIT as usize,
    }
}

/// How many frames a tool has room for.
#[tactic(auto, unfolding(crate::specs::Steps::frame_room))]
pub fn frame_room(kind: ToolKind) -> usize
    ensures { result ≡ frame_room kind }
{
    match kind {
        ToolKind::Pstack => MOST_FRAMES,
        _ => 0,
    }
}
