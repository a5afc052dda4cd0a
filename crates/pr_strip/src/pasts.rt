ghost use Rattle.std.specs.Prelude.{◌≡◌, true, false, OnOk};
ghost use Rattle.pr_model.specs.UntracedSteps.{nothing_yet, with_returning, with_named};
ghost use Rattle.pr_strip.specs.Pasts.{past_of};

use pr_num::NoMemory;
use std::alloc::Global;
use std::collections::{BTreeMap, BTreeSet};

/// What is remembered of the entries of a history that were read: which lwps are on their way out of a system call,
/// and which process each handle names. Each is found in logarithmic time.
#[derive(Drop)]
pub struct Past {
    // Each lwp with its process before it, whose id is any number: it may be what fork gave.
    returning: BTreeSet<(u64, u32)>,
    named: BTreeMap<u32, u32>,
}

impl Past {
    /// Before the first entry. Takes no memory.
    #[tactic(auto, using(crate::proofs::PastLemmas::pasts))]
    pub fn new(alloc: Global) -> Past
        ensures { past_of result ≡ nothing_yet }
    {
        Past {
            returning: BTreeSet::new(alloc),
            named: BTreeMap::new(alloc),
        }
    }

    /// Whether an lwp is on its way out of a system call.
    #[tactic(auto, unfolding(crate::specs::Pasts::memory_of))]
    pub fn is_returning(&self, pid: u32, lwp: u32) -> bool
        ensures { result ≡ (past_of self.now).returning pid lwp }
    {
        self.returning.contains(&(pid as u64, lwp))
    }

    /// The process that a handle names; 0 where no handle of that number was ever opened.
    #[tactic(auto, unfolding(crate::specs::Pasts::memory_of))]
    pub fn process_named(&self, handle: u32) -> u32
        ensures { result ≡ (past_of self.now).named handle }
    {
        self.named.get(&handle).copied().unwrap_or(0)
    }

    /// An lwp is on its way out of a system call.
    #[tactic(auto, using(crate::proofs::PastLemmas::pasts))]
    pub fn leave_call(&mut self, pid: u64, lwp: u32) -> Result<(), NoMemory>
        ensures { OnOk result (past_of self.new ≡ with_returning pid lwp true (past_of self.old)) }
    {
        self.returning.insert((pid, lwp))?;
        Ok(())
    }

    /// An lwp is elsewhere. Takes no memory.
    #[tactic(auto, using(crate::proofs::PastLemmas::pasts))]
    pub fn go_on(&mut self, pid: u32, lwp: u32)
        ensures { past_of self.new ≡ with_returning pid lwp false (past_of self.old) }
    {
        self.returning.remove(&(pid as u64, lwp));
    }

    /// A handle names a process.
    #[tactic(auto, using(crate::proofs::PastLemmas::pasts))]
    pub fn name(&mut self, handle: u32, pid: u32) -> Result<(), NoMemory>
        ensures { OnOk result (past_of self.new ≡ with_named handle pid (past_of self.old)) }
    {
        self.named.insert(handle, pid)?;
        Ok(())
    }
}
