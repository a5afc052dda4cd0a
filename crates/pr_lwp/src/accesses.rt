//! How an instruction accesses memory.
ghost use Rattle.std.specs.Prelude.{◌≡◌, ◌≤◌, IsOk, OnOk, OnErr, length};
ghost use Rattle.std.specs.Result.{result_err};
ghost use Rattle.pr_num.specs.Control.{prot_exec, prot_read, prot_write};
ghost use Rattle.pr_num.specs.Spaces.{bytes_for};
ghost use Rattle.pr_num.specs.Words.{word_bytes};
ghost use Rattle.pr_parts.specs.AddressSpaces.{with_bytes};
ghost use Rattle.pr_lwp.specs.BadBytes.{bad_byte_of};
ghost use Rattle.pr_lwp.specs.Plain.{stored_bytes};

use crate::decoding::{Store, Stored};
use pr_codec::put_words;
use pr_mem::{MemFault, Space};
use pr_num::{BadByte, NoMemory, PROT_EXEC, PROT_READ, PROT_WRITE};

/// The byte at which an access failed; `None` for a fault that no access has.
fn bad_byte(fault: MemFault) -> Option<BadByte>
    ensures { result ≡ bad_byte_of fault }
{
    match fault {
        MemFault::Hole { at } => Some(BadByte::Hole(at)),
        MemFault::NotAllowed { at } => Some(BadByte::NotAllowed(at)),
        MemFault::Overlap | MemFault::TooBig | MemFault::NoMemory => None,
    }
}

/// The bytes from an address on, which need these protections, or the first of them at which the access fails.
/// Addresses wrap at 2^64.
#[tactic(auto, using(crate::proofs::AccessLemmas::access_laws))]
fn bytes_at<const N: usize>(space: &Space, at: u64, need: u8) -> Result<[u8; N], BadByte>
    ensures { result ≡ bytes_for need space.now at N }
{
    let mut bytes = [0; N];
    match space.read(at, &mut bytes, need) {
        Ok(()) => Ok(bytes),
        Err(fault) => Err(bad_byte(fault).unwrap()),
    }
}

/// The 16 bytes of an instruction, which have to be executable.
pub fn fetch(space: &Space, at: u64) -> Result<[u8; 16], BadByte>
    ensures { result ≡ bytes_for prot_exec space.now at 16 }
{
    bytes_at(space, at, PROT_EXEC)
}

/// Bytes that an instruction reads.
pub fn load<const N: usize>(space: &Space, at: u64) -> Result<[u8; N], BadByte>
    ensures { result ≡ bytes_for prot_read space.now at N }
{
    bytes_at(space, at, PROT_READ)
}

/// The first byte that cannot be written, where a store cannot be made.
#[tactic(auto, using(crate::proofs::AccessLemmas::size_laws))]
pub fn bad_store(space: &Space, store: Store) -> Option<BadByte>
    ensures { result ≡ result_err (bytes_for prot_write space.now store.at (length (stored_bytes store.bytes))) }
{
    match store.bytes {
        Stored::Byte(_) => bytes_at::<1>(space, store.at, PROT_WRITE).err(),
        Stored::Word(_) => bytes_at::<8>(space, store.at, PROT_WRITE).err(),
        Stored::Frame { .. } => bytes_at::<16>(space, store.at, PROT_WRITE).err(),
    }
}

/// A word's bytes, the least first.
#[tactic(auto, unfolding(pr_num::specs::Words::word_bytes))]
fn word_bytes(word: u64) -> [u8; 8]
    ensures { result ≡ word_bytes word }
{
    word.to_le_bytes()
}

/// The two words that a call stores.
#[tactic(auto, using(crate::proofs::AccessLemmas::frame_laws))]
fn frame_bytes(fp: u64, pc: u64) -> [u8; 16]
    ensures { result ≡ stored_bytes (Stored.Frame fp pc) }
{
    let mut bytes = [0; 16];
    put_words(&mut bytes, &[fp, pc]);
    bytes
}

/// Writes bytes that can be written, so that only memory can run out; the space then stays as it is.
fn write(space: &mut Space, at: u64, bytes: &[u8]) -> Result<(), NoMemory>
    requires { IsOk (bytes_for prot_write space.old at (length bytes.now)) }
    ensures ok { OnOk result (space.new ≡ with_bytes at bytes.now space.old) }
    ensures err { OnErr result (space.new ≡ space.old) }
{
    match space.write(at, bytes, PROT_WRITE) {
        Ok(()) => Ok(()),
        Err(_) => Err(NoMemory),
    }
}

/// Makes a store that can be made. Where memory runs out the space stays as it is.
#[tactic(auto, using(crate::proofs::AccessLemmas::size_laws))]
pub fn make_store(space: &mut Space, store: Store) -> Result<(), NoMemory>
    requires { IsOk (bytes_for prot_write space.old store.at (length (stored_bytes store.bytes))) }
    ensures ok { OnOk result (space.new ≡ with_bytes store.at (stored_bytes store.bytes) space.old) }
    ensures err { OnErr result (space.new ≡ space.old) }
{
    match store.bytes {
        Stored::Byte(byte) => write(space, store.at, &[byte]),
        Stored::Word(word) => write(space, store.at, &word_bytes(word)),
        Stored::Frame { fp, pc } => write(space, store.at, &frame_bytes(fp, pc)),
    }
}
