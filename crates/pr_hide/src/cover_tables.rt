//! What is hidden of each process.
ghost use Rattle.std.specs.Prelude.{◌≡◌, [], true, false, OnOk, unwrap_or};
ghost use Rattle.pr_hidden.specs.Covers.{keeps_lwp, no_cover, with_cover};
ghost use Rattle.pr_hidden.specs.Hiders.{finished, no_covers, patches_written};
ghost use Rattle.pr_hidden.specs.Hiding.{with_own_agent, with_patches};
ghost use Rattle.pr_hide.specs.CoverTables.{covers_of};
ghost use Rattle.pr_hide.specs.Hidings.{hiders_of};

use crate::hiders::Hider;
use crate::patches::Patch;
use crate::writes::write_patches;
use pr_mem::Space;
use pr_num::{AGENT, NoMemory, Table};
use std::alloc::Global;
use std::collections::{BTreeMap, BTreeSet};

/// What is hidden of each process, but for the lwps that stand at a fault of a controller's, on which no step depends.
/// Each process is found in logarithmic time.
#[derive(Drop)]
pub(crate) struct CoverTable {
    // The processes in which the agent is a controller's.
    agents: BTreeSet<u32>,
    // The patches of the processes that have some.
    patches: BTreeMap<u32, Table<Patch>>,
}

/// The patches of a process, if it has some.
fn vec_of(alloc: Global, patches: Option<Table<Patch>>) -> Vec<Patch>
    ensures { result.items ≡ unwrap_or patches [] }
{
    match patches {
        Some(patches) => patches.into_vec(),
        None => Vec::new(alloc),
    }
}

impl CoverTable {
    /// Nothing is hidden of any process. Takes no memory.
    #[tactic(auto, using(crate::proofs::CoverTableLemmas::covers))]
    pub(crate) fn new(alloc: Global) -> CoverTable
        ensures { covers_of result ≡ no_covers }
    {
        CoverTable {
            agents: BTreeSet::new(alloc),
            patches: BTreeMap::new(alloc),
        }
    }

    /// Whether an lwp is no agent of a controller's.
    #[tactic(auto, unfolding(crate::specs::CoverTables::covers_in))]
    pub(crate) fn keeps_lwp(&self, pid: u32, lwp: u32) -> bool
        ensures { result ≡ keeps_lwp (covers_of self.now pid) lwp }
    {
        !(self.agents.contains(&pid) && lwp == AGENT)
    }

    /// The patches of a process.
    #[tactic(auto, unfolding(crate::specs::CoverTables::covers_in))]
    pub(crate) fn patches(&self, pid: u32) -> &[Patch]
        ensures { result.now ≡ (covers_of self.now pid).patches }
    {
        match self.patches.get(&pid) {
            Some(patches) => patches.as_slice(),
            None => &[],
        }
    }

    /// The agent of a process is a controller's.
    #[tactic(auto, using(crate::proofs::CoverTableLemmas::covers))]
    pub(crate) fn add_agent(&mut self, pid: u32) -> Result<(), NoMemory>
        ensures { OnOk result
            (covers_of self.new ≡ with_cover pid (with_own_agent true (covers_of self.old pid)) (covers_of self.old)) }
    {
        self.agents.insert(pid)?;
        Ok(())
    }

    /// The agent of a process is nobody's, if there is one. Takes no memory.
    #[tactic(auto, using(crate::proofs::CoverTableLemmas::covers))]
    pub(crate) fn remove_agent(&mut self, pid: u32)
        ensures { covers_of self.new
            ≡ with_cover pid (with_own_agent false (covers_of self.old pid)) (covers_of self.old) }
    {
        self.agents.remove(&pid);
    }

    /// Nothing is hidden of a process but an agent that stands there still. Takes no memory.
    #[tactic(auto, using(crate::proofs::CoverTableLemmas::covers))]
    pub(crate) fn finish(&mut self, pid: u32)
        ensures { covers_of self.new ≡ with_cover pid (finished (covers_of self.old pid)) (covers_of self.old) }
    {
        self.patches.remove(&pid);
    }

    /// Nothing is hidden of a process. Takes no memory.
    #[tactic(auto, using(crate::proofs::CoverTableLemmas::covers))]
    pub(crate) fn forget(&mut self, pid: u32)
        ensures { covers_of self.new ≡ with_cover pid no_cover (covers_of self.old) }
    {
        self.agents.remove(&pid);
        self.patches.remove(&pid);
    }

    /// PCWRITE of the controller of a number to a process with this space.
    #[tactic(auto, using(crate::proofs::CoverTableLemmas::covers), unfolding(crate::specs::CoverTables::covers_in))]
    pub(crate) fn write(
        &mut self,
        alloc: Global,
        who: &[Hider],
        by: u32,
        pid: u32,
        space: &Space,
        at: u64,
        bytes: &[u8],
    ) -> Result<(), NoMemory>
        ensures { OnOk result (covers_of self.new ≡ with_cover pid
            (with_patches (patches_written (hiders_of who.now) by space.now at bytes.now (covers_of self.old pid).patches) (covers_of self.old pid))
            (covers_of self.old)) }
    {
        let mut patches = vec_of(alloc, self.patches.remove(&pid));
        write_patches(alloc, who, by, space, at, bytes, &mut patches)?;
        self.patches.insert(pid, Table::from_vec(patches))?;
        Ok(())
    }
}
