//! When the clock has to look at those that sleep in sleep.
ghost use Rattle.std.specs.Prelude.{◌≡◌, ◌<◌, ◌≤◌, ℕ, true, slice_index};
ghost use Rattle.std.specs.List.{list_any};
ghost use Rattle.std.specs.Option.{option_copied};
ghost use Rattle.pr_num.specs.Limits.{process_limit};
ghost use Rattle.pr_ready.specs.Moments.{coming_moment, next_moment, next_moment_of};
ghost use Rattle.pr_ready.specs.Ready.{IsDue, StaysDue, is_woken};

use pr_model::Phase;
use pr_num::Sysno;
use pr_num::limits::PROCESS_LIMIT;
use pr_proc::{Lwp, Proc};

/// Before which moments of the clock nobody wakes: those who sleep in sleep until a moment that is still to come sleep
/// until one that is no earlier than that of their block, nor than that of all. Of some who woke otherwise the moments
/// may still stand here. They stand in place, and take no memory.
#[derive(Drop)]
pub struct Moments {
    /// For each block of 64 process ids.
    pub blocks: [u64; 64],
    /// For all.
    pub all: u64,
}

impl Moments {
    /// At the next moment all are looked at.
    pub fn at_once() -> Moments
        ensures { (pid moment : ℕ) → IsDue result pid moment }
    {
        Moments {
            blocks: [0; 64],
            all: 0,
        }
    }

    /// A process is to be looked at at a moment. No process has an id from 4,096 on.
    pub fn note(&mut self, pid: u32, moment: u64)
        ensures due { pid < process_limit → (later : ℕ) → moment ≤ later → IsDue self.new pid later }
        ensures others { StaysDue self.old self.new }
    {
        if (pid as usize) < PROCESS_LIMIT {
            let block = (pid / 64) as usize;
            self.blocks[block] = self.blocks[block].min(moment);
            self.all = self.all.min(moment);
        }
    }
}

/// Until when a phase is asleep in sleep, if that is still to come; else the last moment of a word.
fn coming_moment(clock: u64, phase: Phase) -> u64
    ensures { result ≡ coming_moment clock phase }
{
    match phase {
        Phase::Asleep {
            call: Sysno::Sleep,
            args,
            since,
        } => {
            let moment = since.saturating_add(args[0]);
            if clock < moment { moment } else { u64::MAX }
        }
        _ => u64::MAX,
    }
}

/// The least such moment of some lwps.
pub fn next_moment(clock: u64, lwps: &[(u32, Lwp)]) -> u64
    ensures { result ≡ next_moment clock lwps.now }
{
    let mut least = u64::MAX;
    for entry in lwps {
        least = least.min(coming_moment(clock, entry.1.phase));
    }
    least
}

/// A process with these lwps is to be looked at when the next one of them wakes.
pub fn note_next(moments: &mut Moments, clock: u64, pid: u32, lwps: &[(u32, Lwp)])
    ensures due { pid < process_limit → (moment : ℕ) → list_any (is_woken clock moment) lwps.now ≡ true
        → IsDue moments.new pid moment }
    ensures others { StaysDue moments.old moments.new }
{
    moments.note(pid, next_moment(clock, lwps));
}

/// The least coming moment of the lwps of a live process, if it is one.
pub fn next_moment_of(clock: u64, process: Option<&Proc>) -> u64
    ensures { result ≡ next_moment_of clock (option_copied process.entry) }
{
    match process {
        None => u64::MAX,
        Some(process) => next_moment(clock, process.lwps.as_slice()),
    }
}

/// The least moment of all blocks.
pub fn least_of(blocks: &[u64; 64]) -> u64
    ensures { (block : ℕ) → block < 64 → result ≤ slice_index blocks.now block }
{
    let mut least = u64::MAX;
    for block in 0..64 {
        least = least.min(blocks[block]);
    }
    least
}
