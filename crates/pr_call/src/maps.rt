//! mmap(2).
ghost use Rattle.std.specs.Prelude.{◌≡◌, ◌<◌, ◌≤◌, ◌+◌, ◌^◌, true, ℕ, None, IfOk, IsSome, OnErr, OnOk};
ghost use Rattle.std.specs.Option.{ForSome};
ghost use Rattle.pr_num.specs.Limits.{mapping_limit};
ghost use Rattle.pr_call.specs.Effects.{after_effect, is_granted, outcome_of};
ghost use Rattle.pr_call.specs.Maps.{CanMap, are_bad, can_grow, place_meant};
ghost use Rattle.pr_mem.specs.Answers.{map_refusal};
ghost use Rattle.pr_model.specs.MemoryCalls.{mmap_effect};
ghost use Rattle.pr_model.specs.State.{TracedLwp, live_process};
ghost use Rattle.pr_num.specs.Programs.{rounded};
ghost use Rattle.pr_num.specs.declared.mappings.MappingKind.TheVariants.{Mapped as OfMmap};
ghost use Rattle.pr_parts.specs.AddressSpaces.{with_mapping, zeros_at};

use crate::requests::Performed;
use pr_mem::Space;
use pr_model::Res;
use pr_num::layout::rounded;
use pr_num::{Errno, MappingKind, NoMemory, Prot};
use pr_proc::{Proc, Sys, live, size_of, total_has_room};
use std::alloc::Global;

/// The greatest protection: all three.
pub const PROT_LIMIT: u64 = 7;

/// Whether a length is 0 or above 1 MiB, or a word is no protection.
fn are_bad(len: u64, prot: u64) -> bool
    ensures value { result ≡ are_bad len prot }
{
    len == 0 || (len > Space::LIMIT || prot > PROT_LIMIT)
}

/// Whether a process can map so many bytes more: neither it nor all processes pass their limits.
fn can_grow(sys: &Sys, process: &Proc, size: u64) -> bool
    requires { size ≤ mapping_limit }
    ensures { result ≡ can_grow sys.now process.now size }
{
    let mapped = size_of(process);
    let room = total_has_room(sys, mapped + size, mapped);
    mapped + size <= Space::LIMIT && room
}

/// Where mmap(2) of so many bytes maps. EINVAL: a length of 0 or above 1 MiB, no protection; ENOMEM: no gap is wide
/// enough, or too much would be mapped.
#[tactic(auto, using(crate::proofs::MapLemmas::mmap_laws))]
fn place_for(sys: &Sys, process: &Proc, len: u64, prot: u64) -> Result<u64, Errno>
    ensures effect { place_meant process.now.space len prot result ≡ mmap_effect sys.now process.now len prot }
    ensures fits { IfOk result (λ at. CanMap process.now.space len prot at) }
{
    if are_bad(len, prot) {
        return Err(Errno::Inval);
    }
    let size = rounded(len);
    let Some(at) = process.space.gap(size) else {
        return Err(Errno::Nomem);
    };
    if can_grow(sys, process, size) {
        return Ok(at);
    }
    Err(Errno::Nomem)
}

/// Maps so many zero bytes, rounded up to whole pages, where they can be.
fn map(alloc: Global, space: &mut Space, at: u64, len: u64, prot: u64) -> Result<(), NoMemory>
    requires { CanMap space.old len prot at }
    ensures ok { OnOk result (space.new ≡ with_mapping (zeros_at at (rounded len) prot OfMmap) space.old) }
    ensures err { OnErr result (space.new ≡ space.old) }
{
    let prot = Prot::from_word(prot).unwrap();
    let size = rounded(len);
    match space.map_as(alloc, at, size, prot, MappingKind::Mapped) {
        Ok(()) => Ok(()),
        Err(_) => Err(NoMemory),
    }
}

/// mmap(2) by a live process gives the address of a new mapping. EINVAL, ENOMEM. Memory runs out only where neither
/// comes, and the system then stays as it is.
#[tactic(auto, using(pr_proc::proofs::LifeLemmas::life_laws, pr_num::proofs::ByIdLaws::by_id_laws))]
pub fn mmap(
    alloc: Global,
    sys: &mut Sys,
    pid: u32,
    len: u64,
    prot: u64,
) -> Result<Performed, NoMemory>
    requires { IsSome (live_process sys.old pid) }
    ensures system { IfOk result
        (λ outcome.
        ForSome (live_process sys.old pid)
        (λ p. (id : ℕ) (l : TracedLwp) → sys.new ≡ after_effect pid p id l (mmap_effect sys.old p len prot) sys.old)) }
    ensures outcome { IfOk result
        (λ outcome. ForSome (live_process sys.old pid) (λ p. outcome ≡ outcome_of (mmap_effect sys.old p len prot))) }
    ensures memory { OnErr result (ForSome (live_process sys.old pid) (λ p. is_granted (mmap_effect sys.old p len prot) ≡ true)) }
    ensures err { OnErr result (sys.new ≡ sys.old) }
{
    match place_for(sys, live(sys, pid).unwrap(), len, prot) {
        Err(error) => Ok(Performed::Done(Res::Error(error))),
        Ok(at) => {
            map(alloc, &mut sys.processes.get_mut(pid).space, at, len, prot)?;
            Ok(Performed::Done(Res::Value(at)))
        }
    }
}
