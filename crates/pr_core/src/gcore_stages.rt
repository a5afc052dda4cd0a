//! The sequence of gcore: which call it makes at which stage.
ghost use Rattle.std.specs.Prelude.{◌≡◌, ◌<◌};
ghost use Rattle.pr_tools.specs.Handles.{most_open};
ghost use Rattle.pr_core.specs.GcoreStages.{part_after, kind_of_part, file_of_part, place_of_part, open_after, read_after, stage_after, way_out};

use crate::sections::{FDS, LSTATUS, MAP, PSINFO, SIGACT};
use pr_model::File;

/// A part of a core that is one record, in the order in which they stand there.
#[derive(Clone, Copy, Debug, PartialEq, Eq)]
pub enum GcorePart {
    /// What ps(1) shows.
    Psinfo,
    /// The status of all lwps.
    Lstatus,
    /// The dispositions of all signals.
    Sigact,
    /// The mappings.
    Map,
    /// The open descriptors.
    Fds,
}

/// A stage of gcore: the call that it makes.
#[derive(Clone, Copy, Debug, PartialEq, Eq)]
pub enum GcoreStage {
    /// Opens the control file.
    OpenCtl,
    /// Opens the status of the process.
    OpenStatus,
    /// Opens the file of a part.
    OpenPart(GcorePart),
    /// Opens the memory.
    OpenMemory,
    /// Reads the status of all lwps before the process is directed to stop.
    ReadFirst,
    /// Directs the process to stop, and is to wait for it.
    Stop,
    /// Waits until the process stands.
    AwaitStop,
    /// Reads the status of the process.
    ReadStatus,
    /// Reads a part.
    ReadPart(GcorePart),
    /// Reads a piece of the memory.
    ReadMemory,
    /// Runs the process.
    Run,
    /// Runs the process after a refusal.
    Release,
    /// Closes the file that was opened last; where none is open, gcore has finished.
    Close,
}

/// The places of the files: they are opened in this order, with those of the parts between the status and the memory.
pub(crate) const CONTROL: usize = 0;

pub(crate) const STATUS: usize = 1;

pub(crate) const MEMORY_FILE: usize = 7;

/// The part after a part.
#[tactic(auto, unfolding(crate::specs::GcoreStages::part_after))]
fn part_after(part: GcorePart) -> Option<GcorePart>
    ensures { result ≡ part_after part }
{
    match part {
        GcorePart::Psinfo => Some(GcorePart::Lstatus),
        GcorePart::Lstatus => Some(GcorePart::Sigact),
        GcorePart::Sigact => Some(GcorePart::Map),
        GcorePart::Map => Some(GcorePart::Fds),
        GcorePart::Fds => None,
    }
}

/// The kind of the section of a part.
#[tactic(auto, unfolding(crate::specs::GcoreStages::kind_of_part))]
pub(crate) fn kind_of_part(part: GcorePart) -> u64
    ensures { result ≡ kind_of_part part }
{
    match part {
        GcorePart::Psinfo => PSINFO,
        GcorePart::Lstatus => LSTATUS,
        GcorePart::Sigact => SIGACT,
        GcorePart::Map => MAP,
        GcorePart::Fds => FDS,
    }
}

/// The file that shows a part.
#[tactic(auto, unfolding(crate::specs::GcoreStages::file_of_part))]
pub(crate) fn file_of_part(part: GcorePart) -> File
    ensures { result ≡ file_of_part part }
{
    match part {
        GcorePart::Psinfo => File::Psinfo,
        GcorePart::Lstatus => File::Lstatus,
        GcorePart::Sigact => File::Sigact,
        GcorePart::Map => File::Map,
        GcorePart::Fds => File::Fds,
    }
}

/// The place of the file of a part.
#[tactic(auto, unfolding(crate::specs::GcoreStages::place_of_part, crate::specs::GcoreStages::kind_of_part))]
pub(crate) fn place_of_part(part: GcorePart) -> usize
    ensures value { result ≡ place_of_part part }
    ensures within { result < most_open }
{
    match part {
        GcorePart::Psinfo => 2,
        GcorePart::Lstatus => 3,
        GcorePart::Sigact => 4,
        GcorePart::Map => 5,
        GcorePart::Fds => 6,
    }
}

fn open_after(part: Option<GcorePart>) -> GcoreStage
    ensures { result ≡ open_after part }
{
    match part {
        None => GcoreStage::OpenMemory,
        Some(part) => GcoreStage::OpenPart(part),
    }
}

fn read_after(part: Option<GcorePart>) -> GcoreStage
    ensures { result ≡ read_after part }
{
    match part {
        None => GcoreStage::ReadMemory,
        Some(part) => GcoreStage::ReadPart(part),
    }
}

/// The stage after an answer that was no refusal.
#[tactic(auto, unfolding(crate::specs::GcoreStages::stage_after))]
pub(crate) fn stage_after(stage: GcoreStage) -> GcoreStage
    ensures { result ≡ stage_after stage }
{
    match stage {
        GcoreStage::OpenCtl => GcoreStage::OpenStatus,
        GcoreStage::OpenStatus => GcoreStage::OpenPart(GcorePart::Psinfo),
        GcoreStage::OpenPart(part) => open_after(part_after(part)),
        GcoreStage::OpenMemory => GcoreStage::ReadFirst,
        GcoreStage::ReadFirst => GcoreStage::Stop,
        GcoreStage::Stop => GcoreStage::AwaitStop,
        GcoreStage::AwaitStop => GcoreStage::ReadStatus,
        GcoreStage::ReadStatus => GcoreStage::ReadPart(GcorePart::Psinfo),
        GcoreStage::ReadPart(part) => read_after(part_after(part)),
        GcoreStage::ReadMemory => GcoreStage::Run,
        GcoreStage::Run | GcoreStage::Release | GcoreStage::Close => GcoreStage::Close,
    }
}

/// The stage after a refusal: where gcore has directed the process to stop, it first runs it again.
#[tactic(auto, unfolding(crate::specs::GcoreStages::way_out))]
pub(crate) fn way_out(stage: GcoreStage) -> GcoreStage
    ensures { result ≡ way_out stage }
{
    match stage {
        GcoreStage::AwaitStop
        | GcoreStage::ReadStatus
        | GcoreStage::ReadPart(_)
        | GcoreStage::ReadMemory
        | GcoreStage::Run => GcoreStage::Release,
        GcoreStage::OpenCtl
        | GcoreStage::OpenStatus
        | GcoreStage::OpenPart(_)
        | GcoreStage::OpenMemory
        | GcoreStage::ReadFirst
        | GcoreStage::Stop
        | GcoreStage::Release
        | GcoreStage::Close => GcoreStage::Close,
    }
}
