//! read(2) and write(2).
ghost use Rattle.std.specs.Prelude.{◌≡◌, ◌≤◌, [], ◌∷◌, true, false, is_some, length, IfNone, IfOk, IfSome, IsSome, OnErr};
ghost use Rattle.std.specs.Option.{ForSome};
ghost use Rattle.pr_num.specs.Limits.{transfer_limit};
ghost use Rattle.pr_call.specs.Effects.{after_effect, gives_bytes, is_granted, outcome_of};
ghost use Rattle.pr_call.specs.FileAnswers.{answer_meant, lacks_memory};
ghost use Rattle.pr_model.specs.Changes.{fails, files_are, is_over, space_is};
ghost use Rattle.pr_model.specs.FileCallRows.{file_effect, read_effect, write_effect};
ghost use Rattle.pr_model.specs.MemoryCalls.{can_read, can_write};
ghost use Rattle.pr_model.specs.State.{TracedLwp, live_process};
ghost use Rattle.pr_parts.specs.FileCalls.{open_for_reading, open_for_writing};
ghost use Rattle.pr_parts.specs.FileTransfers.{write_fd};

use crate::answers::{Refusal, settle, unless_no_memory};
use crate::requests::Performed;
use crate::stores::store;
use pr_file::{Fds, Files};
use pr_mem::Space;
use pr_num::limits::TRANSFER_LIMIT;
use pr_num::{Errno, NoMemory, PROT_READ, PROT_WRITE};
use pr_proc::Sys;
use std::alloc::Global;

/// The most bytes of one call.
const MOST: usize = TRANSFER_LIMIT as usize;

/// As many bytes as most calls move: a buffer for so few is filled in no time.
const FEW: usize = 64;

/// Why a read is refused before the files are asked: EBADF, EINVAL, EFAULT, in this order. `None`: it is not.
#[tactic(auto, using(crate::proofs::TransferLemmas::reading))]
fn read_refusal(
    files: &Files,
    fds: &Fds,
    space: &Space,
    fd: u64,
    at: u64,
    size: u64,
) -> Option<Errno>
    ensures refused { IfSome result (λ error. fails error ≡ read_effect files.now fds.now space.now fd at size) }
    ensures readable { IfNone result (is_some (open_for_reading files.now fds.now fd) ≡ true) }
    ensures within { IfNone result (size ≤ transfer_limit) }
    ensures can { IfNone result (can_write space.now at size ≡ true) }
{
    if !files.can_read(fds, fd) {
        return Some(Errno::Badf);
    }
    if size > TRANSFER_LIMIT {
        return Some(Errno::Inval);
    }
    if !space.can_access(at, size as usize, PROT_WRITE) {
        return Some(Errno::Fault);
    }
    None
}

/// Why a write is refused before the files are asked: EBADF, EINVAL, EFAULT, in this order. `None`: it is not.
#[tactic(auto, using(crate::proofs::TransferLemmas::writing))]
fn write_refusal(
    files: &Files,
    fds: &Fds,
    space: &Space,
    fd: u64,
    at: u64,
    size: u64,
) -> Option<Errno>
    ensures refused { IfSome result (λ error. fails error ≡ write_effect files.now fds.now space.now fd at size) }
    ensures writable { IfNone result (is_some (open_for_writing files.now fds.now fd) ≡ true) }
    ensures within { IfNone result (size ≤ transfer_limit) }
    ensures can { IfNone result (can_read space.now at size ≡ true) }
{
    if !files.can_write(fds, fd) {
        return Some(Errno::Badf);
    }
    if size > TRANSFER_LIMIT {
        return Some(Errno::Inval);
    }
    if !space.can_access(at, size as usize, PROT_READ) {
        return Some(Errno::Fault);
    }
    None
}

/// Whether a read would not sleep.
#[tactic(auto, using(crate::proofs::TransferLemmas::reads_over))]
pub fn is_read(files: &Files, fds: &Fds, space: &Space, fd: u64, at: u64, size: u64) -> bool
    ensures { result ≡ is_over (read_effect files.now fds.now space.now fd at size) }
{
    match read_refusal(files, fds, space, fd, at, size) {
        Some(_) => true,
        None => !files.read_waits(fds, fd),
    }
}

/// Whether a write would not sleep.
#[tactic(auto, using(crate::proofs::TransferLemmas::writes_over))]
pub fn is_written(files: &Files, fds: &Fds, space: &Space, fd: u64, at: u64, size: u64) -> bool
    ensures { result ≡ is_over (write_effect files.now fds.now space.now fd at size) }
{
    match write_refusal(files, fds, space, fd, at, size) {
        Some(_) => true,
        None => !files.write_waits(fds, fd, size as usize),
    }
}

/// Reads through a descriptor that is open for reading, at most so many bytes as the buffer has, and stores them;
/// memory can take as many. They are looked at and stored first, since memory can run out then: nothing is read in that
/// case. No bytes take no memory.
#[tactic(auto, using(crate::proofs::TransferLemmas::filling))]
fn fill(
    files: &mut Files,
    fds: &Fds,
    space: &mut Space,
    fd: u64,
    at: u64,
    buffer: &mut [u8],
) -> Result<u64, Refusal>
    requires readable { is_some (open_for_reading files.old fds.now fd) ≡ true }
    requires within { length buffer.old ≤ transfer_limit }
    requires can { can_write space.old at (length buffer.old) ≡ true }
    ensures effect { lacks_memory result ≡ false
        → answer_meant result (files_are files.new fds.now ∷ space_is space.new ∷ [])
        ≡ read_effect files.old fds.now space.old fd at (length buffer.old) }
    ensures memory { lacks_memory result ≡ true
        → gives_bytes (read_effect files.old fds.now space.old fd at (length buffer.old)) ≡ true }
    ensures files { OnErr result (files.new ≡ files.old) }
    ensures space { OnErr result (space.new ≡ space.old) }
{
    let count = match files.look(fds, fd, buffer) {
        Ok(count) => count,
        Err(why) => return Err(Refusal::Files(why)),
    };
    store(space, at, &buffer[..count])?;
    match files.read(fds, fd, buffer) {
        Ok(count) => Ok(count as u64),
        Err(_) => unreachable!(),
    }
}

/// read(2) gives how many bytes were read. EBADF, EINVAL, EFAULT.
fn read_into(
    files: &mut Files,
    fds: &Fds,
    space: &mut Space,
    fd: u64,
    at: u64,
    size: u64,
) -> Result<u64, Refusal>
    ensures effect { lacks_memory result ≡ false
        → answer_meant result (files_are files.new fds.now ∷ space_is space.new ∷ [])
        ≡ read_effect files.old fds.now space.old fd at size }
    ensures memory { lacks_memory result ≡ true → gives_bytes (read_effect files.old fds.now space.old fd at size) ≡ true }
    ensures files { OnErr result (files.new ≡ files.old) }
    ensures space { OnErr result (space.new ≡ space.old) }
{
    if let Some(error) = read_refusal(files, fds, space, fd, at, size) {
        return Err(Refusal::Fails(error));
    }
    if size <= FEW as u64 {
        let mut buffer = [0; FEW];
        return fill(files, fds, space, fd, at, &mut buffer[..size as usize]);
    }
    let mut buffer = [0; MOST];
    fill(files, fds, space, fd, at, &mut buffer[..size as usize])
}

/// Writes bytes through a descriptor.
fn put(alloc: Global, files: &mut Files, fds: &Fds, fd: u64, bytes: &[u8]) -> Result<u64, Refusal>
    requires { length bytes.now ≤ transfer_limit }
    ensures effect { lacks_memory result ≡ false
        → answer_meant result (files_are files.new fds.now ∷ [])
        ≡ file_effect (write_fd files.old fds.now fd bytes.now) }
    ensures memory { lacks_memory result ≡ true → is_granted (file_effect (write_fd files.old fds.now fd bytes.now)) ≡ true }
    ensures files { OnErr result (files.new ≡ files.old) }
{
    match files.write(alloc, fds, fd, bytes) {
        Ok(count) => Ok(count as u64),
        Err(why) => Err(Refusal::Files(why)),
    }
}

/// Writes through a descriptor that is open for writing, as many bytes as the buffer has, out of memory.
fn drain(
    alloc: Global,
    files: &mut Files,
    fds: &Fds,
    space: &Space,
    fd: u64,
    at: u64,
    buffer: &mut [u8],
) -> Result<u64, Refusal>
    requires writable { is_some (open_for_writing files.old fds.now fd) ≡ true }
    requires within { length buffer.old ≤ transfer_limit }
    ensures effect { lacks_memory result ≡ false
        → answer_meant result (files_are files.new fds.now ∷ [])
        ≡ write_effect files.old fds.now space.now fd at (length buffer.old) }
    ensures memory { lacks_memory result ≡ true
        → is_granted (write_effect files.old fds.now space.now fd at (length buffer.old)) ≡ true }
    ensures files { OnErr result (files.new ≡ files.old) }
{
    match space.read(at, buffer, PROT_READ) {
        Ok(()) => put(alloc, files, fds, fd, buffer),
        Err(_) => Err(Refusal::Fails(Errno::Fault)),
    }
}

/// write(2) gives how many bytes were written. EBADF, EINVAL, EFAULT; then what the file or the pipe refuses.
fn write_from(
    alloc: Global,
    files: &mut Files,
    fds: &Fds,
    space: &Space,
    fd: u64,
    at: u64,
    size: u64,
) -> Result<u64, Refusal>
    ensures effect { lacks_memory result ≡ false
        → answer_meant result (files_are files.new fds.now ∷ []) ≡ write_effect files.old fds.now space.now fd at size }
    ensures memory { lacks_memory result ≡ true → is_granted (write_effect files.old fds.now space.now fd at size) ≡ true }
    ensures files { OnErr result (files.new ≡ files.old) }
{
    if let Some(error) = write_refusal(files, fds, space, fd, at, size) {
        return Err(Refusal::Fails(error));
    }
    if size <= FEW as u64 {
        let mut buffer = [0; FEW];
        return drain(
            alloc,
            files,
            fds,
            space,
            fd,
            at,
            &mut buffer[..size as usize],
        );
    }
    let mut buffer = [0; MOST];
    drain(
        alloc,
        files,
        fds,
        space,
        fd,
        at,
        &mut buffer[..size as usize],
    )
}

/// read(2) by an lwp of the process of an id, with these arguments: a descriptor, the address of the buffer, and its
/// length. EBADF, EINVAL, EFAULT; it sleeps where a pipe is empty that can still be written. Memory runs out only where
/// bytes are read, and the system then stays as it is.
#[tactic(auto, using(pr_proc::proofs::LifeLemmas::life_laws))]
pub fn read(
    sys: &mut Sys,
    pid: u32,
    id: u32,
    fd: u64,
    at: u64,
    size: u64,
) -> Result<Performed, NoMemory>
    requires { IsSome (live_process sys.old pid) }
    ensures system { IfOk result
        (λ outcome.
        ForSome (live_process sys.old pid)
        (λ p. (l : TracedLwp)
        → sys.new ≡ after_effect pid p id l (read_effect sys.old.files p.fds p.space fd at size) sys.old)) }
    ensures outcome { IfOk result
        (λ outcome.
        ForSome (live_process sys.old pid)
        (λ p. outcome ≡ outcome_of (read_effect sys.old.files p.fds p.space fd at size))) }
    ensures memory { OnErr result
        (ForSome (live_process sys.old pid)
        (λ p. gives_bytes (read_effect sys.old.files p.fds p.space fd at size) ≡ true)) }
    ensures err { OnErr result (sys.new ≡ sys.old) }
{
    let process = sys.processes.get_mut(pid);
    let answer = read_into(
        &mut sys.files,
        &process.fds,
        &mut process.space,
        fd,
        at,
        size,
    );
    let answer = unless_no_memory(answer)?;
    Ok(settle(sys, pid, id, answer))
}

/// write(2) by an lwp of the process of an id, with the same arguments. EBADF, EINVAL, EFAULT, ENOSPC; EPIPE, and
/// SIGPIPE, where nothing can read a pipe any more; it sleeps where a pipe has no room for all bytes. Memory
/// runs out only where none of these comes, and the system then stays as it is.
#[tactic(auto, using(pr_proc::proofs::LifeLemmas::life_laws))]
pub fn write(
    alloc: Global,
    sys: &mut Sys,
    pid: u32,
    id: u32,
    fd: u64,
    at: u64,
    size: u64,
) -> Result<Performed, NoMemory>
    requires { IsSome (live_process sys.old pid) }
    ensures system { IfOk result
        (λ outcome.
        ForSome (live_process sys.old pid)
        (λ p. (l : TracedLwp)
        → sys.new ≡ after_effect pid p id l (write_effect sys.old.files p.fds p.space fd at size) sys.old)) }
    ensures outcome { IfOk result
        (λ outcome.
        ForSome (live_process sys.old pid)
        (λ p. outcome ≡ outcome_of (write_effect sys.old.files p.fds p.space fd at size))) }
    ensures memory { OnErr result
        (ForSome (live_process sys.old pid)
        (λ p. is_granted (write_effect sys.old.files p.fds p.space fd at size) ≡ true)) }
    ensures err { OnErr result (sys.new ≡ sys.old) }
{
    let process = sys.processes.get_mut(pid);
    let answer = write_from(
        alloc,
        &mut sys.files,
        &process.fds,
        &process.space,
        fd,
        at,
        size,
    );
    let answer = unless_no_memory(answer)?;
    Ok(settle(sys, pid, id, answer))
}
