//! Paths that programs name by addresses.
ghost use Rattle.std.specs.Prelude.{◌≡◌, ◌≤◌, IfOk};
ghost use Rattle.pr_num.specs.Limits.{path_limit};
ghost use Rattle.pr_call.specs.Paths.{path_meant};
ghost use Rattle.pr_model.specs.MemoryCalls.{path_at};

use pr_mem::Space;
use pr_num::limits::PATH_LIMIT;
use pr_num::{Errno, Name};

/// Reads the path at an address into the front of the buffer, and answers how long it is. EFAULT: a byte before its end
/// cannot be read; EINVAL: it has no end among 32 bytes, or is empty.
#[tactic(auto, using(crate::proofs::PathLemmas::paths))]
pub fn path_at(space: &Space, at: u64, out: &mut [u8; PATH_LIMIT]) -> Result<usize, Errno>
    ensures path { path_meant result out.new ≡ path_at space.now at }
    ensures within { IfOk result (λ len. len ≤ path_limit) }
{
    match space.string_at(at, PATH_LIMIT, out) {
        Err(_) => Err(Errno::Fault),
        Ok(None) => Err(Errno::Inval),
        Ok(Some(0)) => Err(Errno::Inval),
        Ok(Some(len)) => Ok(len),
    }
}

/// The path at an address as a name. It is refused as `path_at` refuses it.
#[tactic(auto, using(crate::proofs::PathLemmas::path_sizes))]
pub fn name_at(space: &Space, at: u64) -> Result<Name, Errno>
    ensures { result ≡ path_at space.now at }
{
    let mut path = [0; PATH_LIMIT];
    let len = path_at(space, at, &mut path)?;
    Ok(Name::from_slice(&path[..len]).unwrap())
}
