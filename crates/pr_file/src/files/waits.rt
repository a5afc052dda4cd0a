//! Whether a read or a write would wait, before anything changes.
ghost use Rattle.std.specs.Prelude.{◌≡◌, ◌≤◌, ℕ, List, length};
ghost use Rattle.pr_num.specs.Limits.{transfer_limit};
ghost use Rattle.pr_file.specs.Waits.{waits};
ghost use Rattle.pr_num.specs.Files.{Descriptors};
ghost use Rattle.pr_parts.specs.FileTransfers.{read_fd, read_pipe, write_fd, write_pipe};

use super::Files;
use crate::fds::Fds;
use pr_num::Target;
use pr_num::limits::PIPE_SIZE_LIMIT;

impl Files {
    /// Whether a read through a descriptor would wait, of however many bytes: it is open for reading, and stands for an
    /// empty pipe that can still be written.
    #[tactic(auto, using(crate::proofs::WaitLemmas::reading_files))]
    pub fn read_waits(&self, fds: &Fds, fd: u64) -> bool
        ensures { (most : ℕ) → result ≡ waits (read_fd self.now fds.now fd most).bytes }
    {
        let Some((_, file)) = self.open_for_reading(fds, fd) else {
            return false;
        };
        match file.target {
            Target::File(_) => false,
            Target::PipeReader(pipe) | Target::PipeWriter(pipe) => self.read_pipe_waits(pipe),
        }
    }

    /// Whether a read of a pipe would.
    #[tactic(auto, using(crate::proofs::WaitLemmas::reading_pipes))]
    fn read_pipe_waits(&self, pipe: u32) -> bool
        ensures { (most : ℕ) → result ≡ waits (read_pipe self.now pipe most).bytes }
    {
        if !self.tables.pipe_bytes(pipe).is_empty() {
            return false;
        }
        self.tables.has_writer(pipe)
    }

    /// Whether a write of so many bytes through a descriptor would wait, whichever bytes these are: it is open for
    /// writing, and stands for a pipe that can still be read and has no room for all of them.
    #[tactic(auto, using(crate::proofs::WaitLemmas::writing_files))]
    pub fn write_waits(&self, fds: &Fds, fd: u64, len: usize) -> bool
        requires { len ≤ transfer_limit }
        ensures { (bytes : List ℕ) → length bytes ≡ len → result ≡ waits (write_fd self.now fds.now fd bytes).answer }
    {
        let Some((_, file)) = self.open_for_writing(fds, fd) else {
            return false;
        };
        match file.target {
            Target::File(_) => false,
            Target::PipeReader(pipe) | Target::PipeWriter(pipe) => self.write_pipe_waits(pipe, len),
        }
    }

    /// Whether a write of so many bytes to a pipe would.
    #[tactic(auto, using(crate::proofs::WaitLemmas::writing_pipes))]
    fn write_pipe_waits(&self, pipe: u32, len: usize) -> bool
        requires { len ≤ transfer_limit }
        ensures { (fds : Descriptors) (bytes : List ℕ) → length bytes ≡ len
            → result ≡ waits (write_pipe self.now fds pipe bytes).answer }
    {
        if !self.tables.has_reader(pipe) {
            return false;
        }
        self.tables.pipe_bytes(pipe).len() + len > PIPE_SIZE_LIMIT
    }
}
