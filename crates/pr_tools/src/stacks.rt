//! The stacks of the lwps of a stopped process, as pstack reads them.
ghost use Rattle.std.specs.Prelude.{◌≡◌, ◌==◌, ◌≤◌, ◌+◌, length};
ghost use Rattle.pr_codec.specs.Words.{word_at};
ghost use Rattle.pr_num.specs.Records.{lwpstatus_ranges, lwpstatus_size};
ghost use Rattle.pr_num.specs.StopReasons.{reason_number};
ghost use Rattle.pr_rec.specs.Fields.{number_or_zero};
ghost use Rattle.pr_rec.specs.Reading.{record_read};
ghost use Rattle.pr_rec.specs.RecordWords.{lwpstatus_words_of};
ghost use Rattle.pr_tools.specs.Stacks.{stands, stands_in, all_stand, process_stands, walk_from, walk_in, is_frame, frame_in, goes_on, walk_after};

use crate::entries::{counts_lwps, lwp_places};
use crate::steps::READ_FRAMES;
use pr_codec::{WORD, word};
use pr_num::StopReason;
use pr_rec::{LwpFlags, LwpStatus};
use pr_text::behind;

/// Where a reader of stacks is: in the stack of an lwp whose status begins at a byte of the record of all.
#[derive(Clone, Copy, Debug, PartialEq, Eq)]
pub struct Walk {
    /// The byte at which the lwp's status begins.
    pub at: usize,
    /// The lwp's id.
    pub lwp: u64,
    /// How many frames of its stack may still be read.
    pub left: u32,
    /// The address of the frame that is read next.
    pub frame: u64,
}

/// A frame of a stack.
#[derive(Clone, Copy, Debug, PartialEq, Eq)]
pub struct CallFrame {
    /// The id of the lwp whose stack it is in.
    pub lwp: u64,
    /// The address to which its function returns.
    pub pc: u64,
}

/// Where in the status of an lwp its id stands, and its frame pointer.
const ID: usize = WORD;

const FRAME_POINTER: usize = 27 * WORD;

/// How many bytes a frame has that is read.
const FRAME: usize = 2 * WORD;

/// Whether an lwp is suspended, by why it is stopped.
#[tactic(auto, unfolding(pr_num::specs::StopReasons::reason_number))]
fn is_suspended(why: Option<StopReason>) -> bool
    ensures { result ≡ (number_or_zero reason_number why == reason_number StopReason.Suspended) }
{
    match why {
        Some(StopReason::Suspended) => true,
        Some(
            StopReason::Requested
            | StopReason::Signalled
            | StopReason::SysEntry
            | StopReason::SysExit
            | StopReason::JobControl
            | StopReason::Faulted,
        )
        | None => false,
    }
}

/// Whether an lwp stands on an event of interest or is suspended.
#[tactic(auto, unfolding(crate::specs::Stacks::stands))]
fn stands(lwp: &LwpStatus) -> bool
    ensures { result ≡ stands (lwpstatus_words_of lwp.now) }
{
    lwp.flags.has(LwpFlags::ISTOP) || is_suspended(lwp.why)
}

/// Whether bytes begin with the status of an lwp that stands.
#[tactic(auto, unfolding(crate::specs::Stacks::stands_in))]
fn stands_in(bytes: &[u8]) -> bool
    ensures { result ≡ stands_in (record_read lwpstatus_ranges bytes.now) }
{
    match LwpStatus::decode(bytes) {
        Ok(lwp) => stands(&lwp),
        Err(_) => false,
    }
}

/// Whether the first so many lwps in bytes stand; one that is malformed does not.
fn all_stand(count: usize, bytes: &[u8]) -> bool
    ensures { result ≡ all_stand count bytes.now }
{
    let mut rest = bytes;
    let mut left = count;
    while left > 0 {
        if !stands_in(rest) {
            return false;
        }
        rest = behind(rest, LwpStatus::SIZE);
        left -= 1;
    }
    true
}

/// Whether every lwp of a process stands, by the status of all its lwps.
#[tactic(auto, unfolding(crate::specs::Stacks::process_stands))]
pub fn process_stands(bytes: &[u8]) -> bool
    ensures { result ≡ process_stands bytes.now }
{
    counts_lwps(bytes) && all_stand(lwp_places(bytes), behind(bytes, WORD))
}

/// The word at a place where one stands.
fn word_at(bytes: &[u8], at: usize) -> u64
    requires { at + 8 ≤ length bytes.now }
    ensures { result ≡ word_at bytes.now at }
{
    word(bytes, at).unwrap()
}

/// Before the first frame of an lwp's stack that is read.
fn walk_from(bytes: &[u8], at: usize) -> Walk
    requires { at + lwpstatus_size ≤ length bytes.now }
    ensures { result ≡ walk_from bytes.now at }
{
    Walk {
        at,
        lwp: word_at(bytes, at + ID),
        left: READ_FRAMES,
        frame: word_at(bytes, at + FRAME_POINTER),
    }
}

/// Before the first frame of the first stack that has one, of the lwps whose status begins at a byte or later.
#[tactic(auto, using(crate::proofs::StackLemmas::walks))]
pub fn walk_in(bytes: &[u8], at: usize) -> Option<Walk>
    ensures { result ≡ walk_in bytes.now at }
{
    let mut at = at;
    while bytes.len().saturating_sub(at) >= LwpStatus::SIZE {
        let walk = walk_from(bytes, at);
        if walk.frame != 0 {
            return Some(walk);
        }
        at += LwpStatus::SIZE;
    }
    None
}

/// The first frame of a stack after that of the lwp whose status begins at a byte.
#[tactic(auto, using(crate::proofs::StackLemmas::walks))]
fn walk_behind(bytes: &[u8], at: usize) -> Option<Walk>
    ensures { result ≡ walk_in bytes.now (at + lwpstatus_size) }
{
    if bytes.len().saturating_sub(at) < LwpStatus::SIZE {
        return None;
    }
    walk_in(bytes, at + LwpStatus::SIZE)
}

/// Whether a stack goes on after the frame of an answer.
#[tactic(auto, unfolding(crate::specs::Stacks::goes_on))]
fn goes_on(walk: &Walk, answer: &[u8]) -> bool
    ensures { result ≡ goes_on walk.now answer.now }
{
    answer.len() >= FRAME && walk.left > 1 && word_at(answer, 0) > 0
}

/// The next frame of the same stack, else the first of a later one.
#[tactic(auto, unfolding(crate::specs::Stacks::walk_after, crate::specs::Stacks::goes_on))]
pub fn walk_after(bytes: &[u8], walk: &Walk, answer: &[u8]) -> Option<Walk>
    ensures { result ≡ walk_after bytes.now walk.now answer.now }
{
    if !goes_on(walk, answer) {
        return walk_behind(bytes, walk.at);
    }
    Some(Walk {
        at: walk.at,
        lwp: walk.lwp,
        left: walk.left - 1,
        frame: word_at(answer, 0),
    })
}

/// The frame of an answer.
pub fn frame_in(walk: &Walk, answer: &[u8]) -> CallFrame
    requires { 16 ≤ length answer.now }
    ensures { result ≡ frame_in walk.now answer.now }
{
    CallFrame {
        lwp: walk.lwp,
        pc: word_at(answer, WORD),
    }
}

/// Whether an answer is a frame.
pub fn is_frame(answer: &[u8]) -> bool
    ensures { result ≡ is_frame answer.now }
{
    answer.len() >= FRAME
}
