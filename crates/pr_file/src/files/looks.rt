ghost use Rattle.std.specs.Prelude.{◌≡◌, ◌<◌, ◌≤◌, ℕ, true, Ok, length, is_some};
ghost use Rattle.pr_num.specs.Limits.{transfer_limit};
ghost use Rattle.pr_parts.specs.FileTables.{IsOpenFile, at_place};
ghost use Rattle.pr_parts.specs.FileCalls.{piped};
ghost use Rattle.pr_parts.specs.FileTransfers.{read_file, read_pipe, read_fd, count_of, filled};

use super::Files;
use crate::buffers::copy_front;
use crate::fds::Fds;
use pr_num::limits::PIPE_LIMIT;
use pr_num::{OpenFile, Target};
use pr_parts::FileNo;

// What a read or a pipe would give. A caller that can fail in between looks first, and changes the files last.

impl Files {
    /// What a read of at most so many bytes as the buffer has would put at its front, and how many bytes: `read` gives
    /// the same, and moves on past them. `BadFd` and `Sleep` come where they come from `read`.
    #[tactic(auto, unfolding(pr_parts::specs::FileTransfers::read_fd))]
    pub fn look(&self, fds: &Fds, fd: u64, out: &mut [u8]) -> Result<usize, FileNo>
        requires { length out.old ≤ transfer_limit }
        ensures answer { result ≡ count_of (read_fd self.now fds.now fd (length out.old)).bytes }
        ensures bytes { out.new ≡ filled out.old (read_fd self.now fds.now fd (length out.old)).bytes }
    {
        let Some((_, file)) = self.open_for_reading(fds, fd) else {
            return Err(FileNo::BadFd);
        };
        match file.target {
            Target::File(_) => Ok(self.look_file(file, out)),
            Target::PipeReader(pipe) | Target::PipeWriter(pipe) => self.look_pipe(pipe, out),
        }
    }

    /// The same of a file, from its offset on.
    #[tactic(auto, unfolding(pr_parts::specs::FileTransfers::read_file))]
    fn look_file(&self, file: OpenFile, out: &mut [u8]) -> usize
        requires { length out.old ≤ transfer_limit }
        ensures answer { (place : ℕ) → Ok result ≡ count_of (read_file self.now place file (length out.old)).bytes }
        ensures bytes { (place : ℕ) → out.new ≡ filled out.old (read_file self.now place file (length out.old)).bytes }
    {
        let bytes = self.tables.contents(file.target);
        let start = bytes.len().min(file.offset as usize);
        copy_front(out, &bytes[start..])
    }

    /// The same of a pipe.
    #[tactic(auto, unfolding(pr_parts::specs::FileTransfers::read_pipe))]
    fn look_pipe(&self, pipe: u32, out: &mut [u8]) -> Result<usize, FileNo>
        requires { is_some (at_place self.now.pipes pipe) ≡ true }
        ensures answer { result ≡ count_of (read_pipe self.now pipe (length out.old)).bytes }
        ensures bytes { out.new ≡ filled out.old (read_pipe self.now pipe (length out.old)).bytes }
    {
        let held = self.tables.pipe_bytes(pipe);
        if held.is_empty() && self.tables.has_writer(pipe) {
            return Err(FileNo::Sleep);
        }
        Ok(copy_front(out, held))
    }

    /// The descriptors that the read end and the write end of a new pipe would get. `NoPlace` and `TableFull` come
    /// where they come from `pipe`, which makes it.
    #[tactic(auto, unfolding(pr_parts::specs::FileCalls::piped, pr_parts::specs::FileCalls::made_pipe))]
    pub fn pipe_ends(&self, fds: &Fds) -> Result<(u64, u64), FileNo>
        ensures { result ≡ (piped self.now fds.now).answer }
    {
        let Some(reader) = fds.free() else {
            return Err(FileNo::NoPlace);
        };
        let Some(writer) = fds.free_behind(reader) else {
            return Err(FileNo::NoPlace);
        };
        if self.tables.pipe_count() >= PIPE_LIMIT {
            return Err(FileNo::TableFull);
        }
        Ok((reader as u64, writer as u64))
    }
}
