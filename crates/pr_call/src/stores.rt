//! What calls store in memory: words, one after another.
ghost use Rattle.std.specs.Prelude.{◌≡◌, ◌<◌, ◌*◌, ◌++◌, true, length, IfOk, OnOk, OnErr};
ghost use Rattle.pr_model.specs.FileCallRows.{word_size};
ghost use Rattle.pr_model.specs.MemoryCalls.{can_write};
ghost use Rattle.pr_num.specs.Words.{word_bytes};
ghost use Rattle.pr_parts.specs.AddressSpaces.{with_bytes};

use pr_codec::put_words;
use pr_mem::Space;
use pr_num::{NoMemory, PROT_WRITE};
use std::alloc::Global;

/// Whether all of so many bytes can be written.
pub fn can_write(space: &Space, at: u64, size: usize) -> bool
    ensures { result ≡ can_write space.now at size }
{
    space.can_access(at, size, PROT_WRITE)
}

/// Stores bytes, all of which can be written, so that only memory can run out; the space then stays as it is. No bytes
/// take no memory: their address may be in a page that another process shares, which would be copied.
#[tactic(auto, using(crate::proofs::StoreLemmas::storing))]
pub fn store(space: &mut Space, at: u64, bytes: &[u8]) -> Result<(), NoMemory>
    requires { can_write space.old at (length bytes.now) ≡ true }
    ensures ok { OnOk result (space.new ≡ with_bytes at bytes.now space.old) }
    ensures some { OnErr result (0 < length bytes.now) }
    ensures err { OnErr result (space.new ≡ space.old) }
{
    if bytes.is_empty() {
        return Ok(());
    }
    match space.write(at, bytes, PROT_WRITE) {
        Ok(()) => Ok(()),
        Err(_) => Err(NoMemory),
    }
}

/// Stores two words, all of whose bytes can be written. Where memory runs out the space stays as it is.
#[tactic(auto, using(crate::proofs::StoreLemmas::words))]
fn store_two(space: &mut Space, at: u64, first: u64, second: u64) -> Result<(), NoMemory>
    requires { can_write space.old at (2 * word_size) ≡ true }
    ensures ok { OnOk result (space.new ≡ with_bytes at (word_bytes first ++ word_bytes second) space.old) }
    ensures err { OnErr result (space.new ≡ space.old) }
{
    let mut bytes = [0; 16];
    put_words(&mut bytes, &[first, second]);
    store(space, at, &bytes)
}

/// A copy of a space in which two words are stored, all of whose bytes can be written.
pub fn with_two(
    alloc: Global,
    space: &Space,
    at: u64,
    first: u64,
    second: u64,
) -> Result<Space, NoMemory>
    requires { can_write space.now at (2 * word_size) ≡ true }
    ensures { IfOk result (λ stored. stored ≡ with_bytes at (word_bytes first ++ word_bytes second) space.now) }
{
    let mut stored = space.copy(alloc)?;
    store_two(&mut stored, at, first, second)?;
    Ok(stored)
}

/// Stores three words, all of whose bytes can be written. Where memory runs out the space stays as it is.
#[tactic(auto, using(crate::proofs::StoreLemmas::words))]
pub fn store_three(
    space: &mut Space,
    at: u64,
    first: u64,
    second: u64,
    third: u64,
) -> Result<(), NoMemory>
    requires { can_write space.old at (3 * word_size) ≡ true }
    ensures ok { OnOk result
        (space.new ≡ with_bytes at (word_bytes first ++ word_bytes second ++ word_bytes third) space.old) }
    ensures err { OnErr result (space.new ≡ space.old) }
{
    let mut bytes = [0; 24];
    put_words(&mut bytes, &[first, second, third]);
    store(space, at, &bytes)
}
