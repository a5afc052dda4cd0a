//! The system calls on files and pipes, of the files, of the descriptors and of the space of a process.
ghost use Rattle.std.specs.Prelude.{◌≡◌, [], ◌∷◌, true, false, OnErr};
ghost use Rattle.pr_call.specs.Effects.{is_granted, stores_bytes};
ghost use Rattle.pr_call.specs.FileAnswers.{answer_meant, lacks_memory};
ghost use Rattle.pr_model.specs.Changes.{files_are, space_is};
ghost use Rattle.pr_model.specs.FileCallRows.{close_effect, dup_effect, fstat_effect, lseek_effect, open_effect, pipe_effect};
ghost use Rattle.pr_num.specs.Spaces.{Space as AnySpace};
ghost use Rattle.pr_parts.specs.FileCalls.{are_open_flags};
ghost use Rattle.pr_parts.specs.FileTables.{HasRoom};

use crate::answers::Refusal;
use crate::paths::name_at;
use crate::stores::{can_write, store_three, with_two};
use pr_file::{Fds, Files};
use pr_mem::Space;
use pr_num::Errno;
use std::alloc::Global;

/// close(2). EBADF.
#[tactic(auto, using(crate::proofs::FileCallLemmas::closing))]
pub fn close(files: &mut Files, fds: &mut Fds, fd: u64) -> Result<u64, Refusal>
    ensures effect { (space : AnySpace)
        → answer_meant result (files_are files.new fds.new ∷ []) ≡ close_effect files.old fds.old space fd }
    ensures files { OnErr result (files.new ≡ files.old) }
    ensures fds { OnErr result (fds.new ≡ fds.old) }
{
    match files.close(fds, fd) {
        Ok(()) => Ok(0),
        Err(why) => Err(Refusal::Files(why)),
    }
}

/// dup(2) gives the least free descriptor. EBADF, EMFILE.
#[tactic(auto, using(crate::proofs::FileCallLemmas::duplicating))]
pub fn dup(files: &mut Files, fds: &mut Fds, fd: u64) -> Result<u64, Refusal>
    requires { HasRoom files.old 1 }
    ensures effect { (space : AnySpace)
        → answer_meant result (files_are files.new fds.new ∷ []) ≡ dup_effect files.old fds.old space fd }
    ensures files { OnErr result (files.new ≡ files.old) }
    ensures fds { OnErr result (fds.new ≡ fds.old) }
{
    match files.dup(fds, fd) {
        Ok(free) => Ok(free),
        Err(why) => Err(Refusal::Files(why)),
    }
}

/// lseek(2) gives the new offset. EBADF, ESPIPE, EINVAL.
#[tactic(auto, using(crate::proofs::FileCallLemmas::seeking))]
pub fn lseek(files: &mut Files, fds: &Fds, fd: u64, offset: u64) -> Result<u64, Refusal>
    ensures effect { (space : AnySpace)
        → answer_meant result (files_are files.new fds.now ∷ []) ≡ lseek_effect files.old fds.now space fd offset }
    ensures files { OnErr result (files.new ≡ files.old) }
{
    match files.seek(fds, fd, offset) {
        Ok(offset) => Ok(offset),
        Err(why) => Err(Refusal::Files(why)),
    }
}

/// Whether flags are those of an open: 0 to read, 1 to write, 2 for both, and 256 beside them to make the file.
fn are_open_flags(flags: u64) -> bool
    ensures { result ≡ are_open_flags flags }
{
    flags <= 2 || (256 <= flags && flags <= 258)
}

/// open(2) gives the least free descriptor. EFAULT, EINVAL: the path; EINVAL: the flags; ENOENT, EMFILE, ENFILE.
#[tactic(auto, using(crate::proofs::OpenLemmas::opening))]
pub fn open(
    alloc: Global,
    files: &mut Files,
    fds: &mut Fds,
    space: &Space,
    at: u64,
    flags: u64,
) -> Result<u64, Refusal>
    ensures effect { lacks_memory result ≡ false
        → answer_meant result (files_are files.new fds.new ∷ []) ≡ open_effect files.old fds.old space.now at flags }
    ensures memory { lacks_memory result ≡ true → is_granted (open_effect files.old fds.old space.now at flags) ≡ true }
    ensures files { OnErr result (files.new ≡ files.old) }
    ensures fds { OnErr result (fds.new ≡ fds.old) }
{
    let name = match name_at(space, at) {
        Ok(name) => name,
        Err(error) => return Err(Refusal::Fails(error)),
    };
    if !are_open_flags(flags) {
        return Err(Refusal::Fails(Errno::Inval));
    }
    match files.open(alloc, fds, name, flags) {
        Ok(fd) => Ok(fd),
        Err(why) => Err(Refusal::Files(why)),
    }
}

/// pipe(2) stores the descriptors of its read end and its write end as two words. EFAULT, EMFILE, ENFILE. They are
/// stored in a copy of the space, which takes its place once the pipe stands: both can find no memory.
#[tactic(auto, using(crate::proofs::OpenLemmas::piping))]
pub fn pipe(
    alloc: Global,
    files: &mut Files,
    fds: &mut Fds,
    space: &mut Space,
    at: u64,
) -> Result<u64, Refusal>
    ensures effect { lacks_memory result ≡ false
        → answer_meant result (files_are files.new fds.new ∷ space_is space.new ∷ [])
        ≡ pipe_effect files.old fds.old space.old at }
    ensures memory { lacks_memory result ≡ true → is_granted (pipe_effect files.old fds.old space.old at) ≡ true }
    ensures files { OnErr result (files.new ≡ files.old) }
    ensures fds { OnErr result (fds.new ≡ fds.old) }
    ensures space { OnErr result (space.new ≡ space.old) }
{
    if !can_write(space, at, 16) {
        return Err(Refusal::Fails(Errno::Fault));
    }
    let (reader, writer) = match files.pipe_ends(fds) {
        Ok(ends) => ends,
        Err(why) => return Err(Refusal::Files(why)),
    };
    let stored = with_two(alloc, space, at, reader, writer)?;
    match files.pipe(alloc, fds) {
        Ok(_) => {
            *space = stored;
            Ok(0)
        }
        Err(why) => Err(Refusal::Files(why)),
    }
}

/// fstat(2) stores kind, size and offset as three words. EBADF, EFAULT. Memory runs out only where none of these comes.
#[tactic(auto, using(crate::proofs::StatLemmas::describing))]
pub fn fstat(files: &Files, fds: &Fds, space: &mut Space, fd: u64, at: u64) -> Result<u64, Refusal>
    ensures effect { lacks_memory result ≡ false
        → answer_meant result (space_is space.new ∷ []) ≡ fstat_effect files.now fds.now space.old fd at }
    ensures memory { lacks_memory result ≡ true → stores_bytes (fstat_effect files.now fds.now space.old fd at) ≡ true }
    ensures space { OnErr result (space.new ≡ space.old) }
{
    let stat = match files.stat(fds, fd) {
        Ok(stat) => stat,
        Err(why) => return Err(Refusal::Files(why)),
    };
    if !can_write(space, at, 24) {
        return Err(Refusal::Fails(Errno::Fault));
    }
    store_three(space, at, stat.kind, stat.size, stat.offset)?;
    Ok(0)
}
