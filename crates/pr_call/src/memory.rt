//! The system calls on memory.
ghost use Rattle.std.specs.Prelude.{◌≡◌, ◌<◌, ℕ, IfNone, IfSome, IsSome, OnErr};
ghost use Rattle.std.specs.List.{list_any};
ghost use Rattle.std.specs.Option.{ForSome};
ghost use Rattle.pr_call.specs.Effects.{after_effect, outcome_of};
ghost use Rattle.pr_call.specs.Memories.{memory_effect};
ghost use Rattle.pr_model.specs.MemoryCalls.{is_mapped_kind, is_mapped_range, mprotect_effect, munmap_effect};
ghost use Rattle.pr_model.specs.State.{TracedLwp, TracedProcess, TracedSystem, live_process};
ghost use Rattle.pr_num.specs.ById.{under};
ghost use Rattle.pr_num.specs.Programs.{rounded};
ghost use Rattle.pr_num.specs.Spaces.{mapping_limit, Space as AnySpace};

use crate::maps::PROT_LIMIT;
use crate::requests::Performed;
use pr_mem::{Mapping, Space};
use pr_model::Res;
use pr_num::layout::rounded;
use pr_num::{Errno, MappingKind};
use pr_proc::Sys;

/// A length rounded up to whole pages; `None` where no mapping is that long.
fn mapped_length(len: u64) -> Option<u64>
    ensures size { IfSome result (λ size. size ≡ rounded len) }
    ensures too_long { IfNone result (mapping_limit < rounded len) }
{
    if len > Space::LIMIT {
        return None;
    }
    Some(rounded(len))
}

/// Whether a mapping was made by mmap.
fn is_mapped_kind(kind: MappingKind) -> bool
    ensures { result ≡ is_mapped_kind kind }
{
    match kind {
        MappingKind::Mapped => true,
        _ => false,
    }
}

/// Whether a mapping is just this range, and was made by mmap.
fn is_mapped_range(mapping: &Mapping, at: u64, size: u64) -> bool
    ensures { result ≡ is_mapped_range at size mapping.now }
{
    mapping.at() == at && mapping.size() == size && is_mapped_kind(mapping.kind())
}

fn has_mapped_range(mappings: &[Mapping], at: u64, size: u64) -> bool
    ensures { result ≡ list_any (is_mapped_range at size) mappings.now }
{
    mappings
        .iter()
        .any(|mapping| is_mapped_range(mapping, at, size))
}

/// munmap(2) of a range, which, rounded up, is one whole mapping that mmap made.
#[tactic(auto, using(crate::proofs::MemoryLemmas::munmap_laws))]
pub fn munmap(space: &mut Space, at: u64, len: u64) -> Result<u64, Errno>
    ensures effect { (s : TracedSystem) (p : TracedProcess) → p.space ≡ space.old
        → memory_effect result space.new ≡ munmap_effect s p at len }
    ensures err { OnErr result (space.new ≡ space.old) }
{
    let mappings = space.mappings();
    let Some(size) = mapped_length(len) else {
        return Err(Errno::Inval);
    };
    if !has_mapped_range(mappings, at, size) {
        return Err(Errno::Inval);
    }
    match space.unmap(at, size) {
        Ok(()) => Ok(0),
        Err(_) => unreachable!(),
    }
}

/// mprotect(2) of a range, which, rounded up, is one whole mapping.
#[tactic(auto, using(crate::proofs::MemoryLemmas::mprotect_laws))]
pub fn mprotect(space: &mut Space, at: u64, len: u64, prot: u64) -> Result<u64, Errno>
    ensures effect { (s : TracedSystem) (p : TracedProcess) → p.space ≡ space.old
        → memory_effect result space.new ≡ mprotect_effect s p at len prot }
    ensures err { OnErr result (space.new ≡ space.old) }
{
    // Read for its contract: what every address space keeps, also where no mapping is looked at.
    let _mappings = space.mappings();
    if prot > PROT_LIMIT {
        return Err(Errno::Inval);
    }
    let Some(size) = mapped_length(len) else {
        return Err(Errno::Inval);
    };
    match space.protect(at, size, prot as u8) {
        Ok(()) => Ok(0),
        Err(_) => Err(Errno::Inval),
    }
}

/// What comes of a call that gives a value or is refused.
pub fn done(answer: Result<u64, Errno>) -> Performed
    ensures { (space : AnySpace) → result ≡ outcome_of (memory_effect answer space) }
{
    match answer {
        Ok(value) => Performed::Done(Res::Value(value)),
        Err(error) => Performed::Done(Res::Error(error)),
    }
}

/// munmap(2) by the process of an id. Takes no memory.
#[tactic(auto, using(pr_proc::proofs::LifeLemmas::life_laws))]
pub fn unmap(sys: &mut Sys, pid: u32, at: u64, len: u64) -> Performed
    requires { IsSome (live_process sys.old pid) }
    ensures system { ForSome (live_process sys.old pid)
        (λ p. (id : ℕ) (l : TracedLwp) → sys.new ≡ after_effect pid p id l (munmap_effect sys.old p at len) sys.old) }
    ensures outcome { ForSome (live_process sys.old pid) (λ p. result ≡ outcome_of (munmap_effect sys.old p at len)) }
{
    let answer = munmap(&mut sys.processes.get_mut(pid).space, at, len);
    done(answer)
}

/// mprotect(2) by the process of an id. Takes no memory.
#[tactic(auto, using(pr_proc::proofs::LifeLemmas::life_laws))]
pub fn protect(sys: &mut Sys, pid: u32, at: u64, len: u64, prot: u64) -> Performed
    requires { IsSome (live_process sys.old pid) }
    ensures system { ForSome (live_process sys.old pid)
        (λ p. (id : ℕ) (l : TracedLwp)
        → sys.new ≡ after_effect pid p id l (mprotect_effect sys.old p at len prot) sys.old) }
    ensures outcome { ForSome (live_process sys.old pid) (λ p. result ≡ outcome_of (mprotect_effect sys.old p at len prot)) }
{
    let answer = mprotect(&mut sys.processes.get_mut(pid).space, at, len, prot);
    done(answer)
}
