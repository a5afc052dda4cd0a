//! What a read of each file of a process gives (proc(4)).
ghost use Rattle.std.specs.Prelude.{◌≡◌, IfOk};
ghost use Rattle.std.specs.Option.{option_copied};
ghost use Rattle.pr_num.specs.Records.{lwpstatus_ranges, status_ranges};
ghost use Rattle.pr_model.specs.Handles.{outlives};
ghost use Rattle.pr_model.specs.Reads.{file_reply, of_lwp, of_process, part, read_process};
ghost use Rattle.pr_model.specs.State.{lwp_of};
ghost use Rattle.pr_model.specs.Statuses.{lwpstatus_of, status_of};
ghost use Rattle.pr_rec.specs.InRange.{IsInfo};
ghost use Rattle.pr_rec.specs.Reading.{BeginsWith};
ghost use Rattle.pr_rec.specs.RecordBytes.{lwpstatus_bytes, status_bytes};
ghost use Rattle.pr_rec.specs.RecordWords.{lwpstatus_words_of, status_words_of};

use crate::descriptors::fds_bytes;
use crate::lists::{lstatus_bytes, map_bytes, watch_bytes};
use crate::memory::read_space;
use crate::processes::{psinfo_bytes, usage_bytes};
use crate::statuses::{lwpstatus_of, status_of};
use pr_model::{File, Reply};
use pr_num::{Bytes, Errno, NoMemory};
use pr_proc::{Lwp, Proc, Sys, live, seen};
use pr_rec::{LwpStatus, encode_sigact};
use std::alloc::Global;

/// The part of a record that a read from byte `at` on gets, at most `len` bytes.
#[tactic(auto, unfolding(pr_model::specs::Reads::part_read))]
fn part_of(alloc: Global, bytes: &[u8], at: u64, len: u64) -> Result<Reply, NoMemory>
    ensures { IfOk result (λ reply. reply ≡ part at len bytes.now) }
{
    let from = (at as usize).min(bytes.len());
    let rest = &bytes[from..];
    let read = &rest[..(len as usize).min(rest.len())];
    Ok(Reply::Bytes(Bytes::from_vec(Vec::from_slice(alloc, read)?)))
}

/// The bytes of the status of a process of a system, with its id. They decode to that status, where the information of
/// the representative's current signal is one that a record can hold.
pub fn status_bytes(sys: &Sys, pid: u32, process: &Proc) -> [u8; 368]
    ensures bytes { result ≡ status_bytes (status_of sys.now pid process.now) }
    ensures decodes { IsInfo (status_of sys.now pid process.now).lwp.info
        → BeginsWith status_ranges result (status_words_of (status_of sys.now pid process.now)) }
{
    status_of(sys, pid, process).encode()
}

/// The bytes of the status of an lwp of a process, with its id. They decode to that status, where the information of
/// its current signal is one that a record can hold.
pub fn lwpstatus_bytes(process: &Proc, id: u32, lwp: &Lwp) -> [u8; LwpStatus::SIZE]
    ensures bytes { result ≡ lwpstatus_bytes (lwpstatus_of process.now id lwp.now) }
    ensures decodes { IsInfo (lwpstatus_of process.now id lwp.now).info
        → BeginsWith lwpstatus_ranges result (lwpstatus_words_of (lwpstatus_of process.now id lwp.now)) }
{
    lwpstatus_of(process, id, lwp).encode()
}

/// What a read of the status of the lwp of an id gives (ENOENT where it has ended).
fn read_lwp(alloc: Global, process: &Proc, id: u32, at: u64, len: u64) -> Result<Reply, NoMemory>
    ensures { IfOk result (λ reply. reply ≡ of_lwp process.now id at len (lwp_of process.now id)) }
{
    match process.lwps.get(id) {
        None => Ok(Reply::Fail(Errno::Noent)),
        Some(lwp) => part_of(alloc, &lwpstatus_bytes(process, id, lwp), at, len),
    }
}

/// What a read of a file of a process gives, a row a file; control files are not read (EBADF).
#[tactic(auto, unfolding(pr_model::specs::Reads::file_reply, pr_model::specs::Records::fds_of))]
fn read_file(
    alloc: Global,
    sys: &Sys,
    pid: u32,
    process: &Proc,
    id: u32,
    file: File,
    at: u64,
    len: u64,
) -> Result<Reply, NoMemory>
    ensures { IfOk result (λ reply. reply ≡ file_reply sys.now pid process.now id at len file) }
{
    match file {
        File::Ctl | File::Lwpctl => Ok(Reply::Fail(Errno::Badf)),
        File::Status => part_of(alloc, &status_bytes(sys, pid, process), at, len),
        File::Lstatus => part_of(alloc, lstatus_bytes(alloc, process)?.as_slice(), at, len),
        File::Psinfo => part_of(alloc, &psinfo_bytes(sys, pid, process), at, len),
        File::Map => part_of(alloc, map_bytes(alloc, sys, process)?.as_slice(), at, len),
        File::Usage => part_of(alloc, &usage_bytes(pid, process), at, len),
        File::Mem => read_space(alloc, seen(sys, process), at, len),
        File::Sigact => part_of(alloc, &encode_sigact(&process.dispositions), at, len),
        File::Watch => part_of(alloc, watch_bytes(alloc, process)?.as_slice(), at, len),
        File::Fds => part_of(
            alloc,
            fds_bytes(alloc, &sys.files, &process.fds)?.as_slice(),
            at,
            len,
        ),
        File::Lwpstatus => read_lwp(alloc, process, id, at, len),
    }
}

/// Whether a file outlives its process, until that is reaped.
pub fn outlives(file: File) -> bool
    ensures { result ≡ outlives file }
{
    match file {
        File::Psinfo | File::Usage => true,
        _ => false,
    }
}

/// The process of a file that is read: most files end with it, and some stand until it is reaped.
#[tactic(auto, unfolding(pr_model::specs::Reads::read_process))]
fn read_process(sys: &Sys, pid: u32, file: File) -> Option<&Proc>
    ensures { option_copied result ≡ read_process sys.now pid file }
{
    if outlives(file) {
        sys.processes.get(pid)
    } else {
        live(sys, pid)
    }
}

/// What a read of a file of a process gives, at most `len` bytes from byte `at` on; of a file of one lwp with its id
/// (ENOENT where the process or the lwp has ended).
pub fn view_record(
    alloc: Global,
    sys: &Sys,
    pid: u32,
    lwp: u32,
    file: File,
    at: u64,
    len: u64,
) -> Result<Reply, NoMemory>
    ensures { IfOk result (λ reply. reply ≡ of_process sys.now pid lwp at len file (read_process sys.now pid file)) }
{
    let Some(process) = read_process(sys, pid, file) else {
        return Ok(Reply::Fail(Errno::Noent));
    };
    read_file(alloc, sys, pid, process, lwp, file, at, len)
}
