ghost use Rattle.std.specs.Prelude.{◌≡◌, ◌<◌, ℕ, true};
ghost use Rattle.pr_num.specs.Limits.{process_limit};
ghost use Rattle.pr_pids.specs.Members.{has_pid};
ghost use Rattle.pr_ready.specs.Ready.{HasAll, HasAllBut, IsDue};

use crate::moments::Moments;
use pr_num::limits::PROCESS_LIMIT;
use pr_pids::ProcessSet;

/// Which processes are looked at: none that is in no set has an lwp for which it would have to be; and when those that
/// sleep in sleep are. They stand in place, and take no memory.
#[derive(Drop)]
pub struct Ready {
    /// Those that may have an lwp that can have a turn.
    pub movable: ProcessSet,
    /// Those that may have an lwp asleep in read or write, at a pipe.
    pub at_pipes: ProcessSet,
    /// Those that may have an lwp asleep in sleep, until a moment of the clock.
    pub dozing: ProcessSet,
    /// Before which moments of the clock none of them wakes.
    pub moments: Moments,
}

/// Puts an id into a set, where that is wanted. No process has an id from 4,096 on.
pub fn put_if(set: &mut ProcessSet, pid: u32, wanted: bool)
    ensures member { wanted ≡ true → pid < process_limit → has_pid set.new pid ≡ true }
    ensures grows { HasAll set.old set.new }
{
    if wanted && (pid as usize) < PROCESS_LIMIT {
        set.insert(pid);
    }
}

/// Takes an id out of a set.
pub fn take_out(set: &mut ProcessSet, pid: u32)
    ensures { HasAllBut pid set.old set.new }
{
    if (pid as usize) < PROCESS_LIMIT {
        set.remove(pid);
    }
}

/// The set of all ids below one.
fn below(made: u32) -> ProcessSet
    ensures { (pid : ℕ) → pid < made → pid < process_limit → has_pid result pid ≡ true }
{
    let mut set = ProcessSet::empty();
    for pid in 0..made {
        put_if(&mut set, pid, true);
    }
    set
}

impl Ready {
    /// All processes that were made, whatever they do.
    pub fn all(made: u32) -> Ready
        ensures movable { (pid : ℕ) → pid < made → pid < process_limit → has_pid result.movable pid ≡ true }
        ensures at_pipes { (pid : ℕ) → pid < made → pid < process_limit → has_pid result.at_pipes pid ≡ true }
        ensures dozing { (pid : ℕ) → pid < made → pid < process_limit → has_pid result.dozing pid ≡ true }
        ensures moments { (pid moment : ℕ) → IsDue result.moments pid moment }
    {
        Ready {
            movable: below(made),
            at_pipes: below(made),
            dozing: below(made),
            moments: Moments::at_once(),
        }
    }
}
