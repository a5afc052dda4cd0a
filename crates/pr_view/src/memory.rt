//! Reading the address space of a process (proc(4), "as").
ghost use Rattle.std.specs.Prelude.{◌≡◌, ◌+◌, ◌%◌, ◌^◌, IfOk, IfSome};
ghost use Rattle.pr_model.specs.Reads.{mapped_from, unless_none};
ghost use Rattle.pr_view.specs.Memory.{fault_address};

use pr_mem::{MemFault, Space};
use pr_model::Reply;
use pr_num::{Bytes, Errno, NoMemory};
use std::alloc::Global;

/// How many bytes from an address on come before the one at which an access to them failed. Addresses wrap.
fn bytes_before(fault: MemFault, at: u64) -> u64
    ensures { IfSome (fault_address fault) (λ address. (at + result) % 2 ^ 64 ≡ address) }
{
    match fault {
        MemFault::Hole { at: address } => address.wrapping_sub(at),
        MemFault::NotAllowed { at: address } => address.wrapping_sub(at),
        MemFault::Overlap | MemFault::TooBig | MemFault::NoMemory => 0,
    }
}

/// The bytes from an address on, at most so many, up to the first that is not mapped, whatever their protection.
/// Addresses wrap. All are read at once; where one is not mapped, those before it are read again, into a buffer that is
/// as long as they are. Where the first is not mapped, no memory is taken.
#[tactic(auto, using(crate::proofs::MemoryLemmas::mapped_laws))]
fn mapped_from(alloc: Global, space: &Space, at: u64, len: u64) -> Result<Vec<u8>, NoMemory>
    ensures { IfOk result (λ bytes. bytes.items ≡ mapped_from space.now at len) }
{
    if !space.can_access(at, 1, 0) {
        return Ok(Vec::new(alloc));
    }
    let mut bytes = vec![in alloc; 0; len as usize]?;
    let Err(fault) = space.read(at, &mut bytes, 0) else {
        return Ok(bytes);
    };
    let mut before = vec![in alloc; 0; bytes_before(fault, at) as usize]?;
    let _ = space.read(at, &mut before, 0);
    Ok(before)
}

/// What a read of the address space gives (EIO where the first byte is not mapped).
#[tactic(auto, using(crate::proofs::MemoryLemmas::space_laws))]
pub(crate) fn read_space(alloc: Global, space: &Space, at: u64, len: u64) -> Result<Reply, NoMemory>
    ensures { IfOk result (λ reply. reply ≡ unless_none (mapped_from space.now at len)) }
{
    let bytes = mapped_from(alloc, space, at, len)?;
    if bytes.is_empty() {
        return Ok(Reply::Fail(Errno::Io));
    }
    Ok(Reply::Bytes(Bytes::from_vec(bytes)))
}
