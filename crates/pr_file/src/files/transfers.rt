ghost use Rattle.std.specs.Prelude.{◌≡◌, ◌<◌, ◌≤◌, true, Ok, length, is_some};
ghost use Rattle.pr_num.specs.Limits.{transfer_limit};
ghost use Rattle.pr_parts.specs.FileTables.{IsOpenFile, at_place};
ghost use Rattle.pr_parts.specs.FileCalls.{unless_no_memory};
ghost use Rattle.pr_parts.specs.FileTransfers.{read_file, read_pipe, read_fd, count_of, filled, write_file, write_pipe, write_fd};

use super::Files;
use crate::buffers::copy_front;
use crate::fds::Fds;
use pr_num::limits::{FILE_SIZE_LIMIT, PIPE_SIZE_LIMIT};
use pr_num::{OpenFile, Target};
use pr_parts::FileNo;
use std::alloc::Global;

impl Files {
    /// Reads at most so many bytes as the buffer has (read(2)), puts them at its front, and answers how many came.
    /// `BadFd` comes exactly where the descriptor is not open for reading, and then `Sleep` exactly where it stands for
    /// an empty pipe that can still be written. Nothing is changed by a refusal. Takes no memory.
    #[tactic(auto, unfolding(pr_parts::specs::FileTransfers::read_fd))]
    pub fn read(&mut self, fds: &Fds, fd: u64, out: &mut [u8]) -> Result<usize, FileNo>
        requires { length out.old ≤ transfer_limit }
        ensures files { self.new ≡ (read_fd self.old fds.now fd (length out.old)).files }
        ensures answer { result ≡ count_of (read_fd self.old fds.now fd (length out.old)).bytes }
        ensures bytes { out.new ≡ filled out.old (read_fd self.old fds.now fd (length out.old)).bytes }
    {
        let Some((place, file)) = self.open_for_reading(fds, fd) else {
            return Err(FileNo::BadFd);
        };
        match file.target {
            Target::File(_) => Ok(self.read_file(place, file, out)),
            Target::PipeReader(pipe) | Target::PipeWriter(pipe) => self.read_pipe(pipe, out),
        }
    }

    /// Reads a file from its offset on, which moves on by what was read.
    #[tactic(auto, unfolding(pr_parts::specs::FileTransfers::read_file))]
    fn read_file(&mut self, place: usize, file: OpenFile, out: &mut [u8]) -> usize
        requires short { length out.old ≤ transfer_limit }
        requires place { place < length self.old.opens }
        requires in_order { IsOpenFile self.old.files self.old.pipes file }
        ensures files { self.new ≡ (read_file self.old place file (length out.old)).files }
        ensures answer { Ok result ≡ count_of (read_file self.old place file (length out.old)).bytes }
        ensures bytes { out.new ≡ filled out.old (read_file self.old place file (length out.old)).bytes }
    {
        let bytes = self.tables.contents(file.target);
        let start = bytes.len().min(file.offset as usize);
        let count = copy_front(out, &bytes[start..]);
        let offset = file.offset + count as u64;
        self.tables.set_open(place, OpenFile { offset, ..file });
        count
    }

    /// Takes bytes out of the front of a pipe.
    #[tactic(auto, unfolding(pr_parts::specs::FileTransfers::read_pipe))]
    fn read_pipe(&mut self, pipe: u32, out: &mut [u8]) -> Result<usize, FileNo>
        requires { is_some (at_place self.old.pipes pipe) ≡ true }
        ensures files { self.new ≡ (read_pipe self.old pipe (length out.old)).files }
        ensures answer { result ≡ count_of (read_pipe self.old pipe (length out.old)).bytes }
        ensures bytes { out.new ≡ filled out.old (read_pipe self.old pipe (length out.old)).bytes }
    {
        let held = self.tables.pipe_bytes(pipe);
        if held.is_empty() {
            return if self.tables.has_writer(pipe) {
                Err(FileNo::Sleep)
            } else {
                Ok(0)
            };
        }
        let count = copy_front(out, held);
        self.tables.take_front(pipe, count);
        Ok(count)
    }

    /// Writes bytes (write(2)), and answers how many there were: all of them are written, or none. `BadFd` comes
    /// exactly where the descriptor is not open for writing. A file gives `NoSpace` exactly where it would be longer
    /// than 65,536 bytes. A pipe gives `NoReader` exactly where nothing can read it any more, and then `Sleep` exactly
    /// where it has no room for all bytes, of 4,096. Nothing is changed by a refusal.
    #[tactic(auto, unfolding(pr_parts::specs::FileTransfers::write_fd))]
    pub fn write(
        &mut self,
        alloc: Global,
        fds: &Fds,
        fd: u64,
        bytes: &[u8],
    ) -> Result<usize, FileNo>
        requires { length bytes.now ≤ transfer_limit }
        ensures { (record { files = self.new; fds = fds.now; answer = result })
            ≡ unless_no_memory self.old fds.now result (write_fd self.old fds.now fd bytes.now) }
    {
        let Some((place, file)) = self.open_for_writing(fds, fd) else {
            return Err(FileNo::BadFd);
        };
        match file.target {
            Target::File(target) => self.write_file(alloc, fds, place, file, target, bytes),
            Target::PipeReader(pipe) | Target::PipeWriter(pipe) => self.write_pipe(
                fds, pipe, bytes,
            ),
        }
    }

    /// Writes a file from its offset on, which moves on by what was written.
    #[tactic(auto, unfolding(pr_parts::specs::FileTransfers::write_file))]
    fn write_file(
        &mut self,
        alloc: Global,
        fds: &Fds,
        place: usize,
        file: OpenFile,
        target: u32,
        bytes: &[u8],
    ) -> Result<usize, FileNo>
        requires short { length bytes.now ≤ transfer_limit }
        requires place { place < length self.old.opens }
        requires target { file.target ≡ Target.File target }
        requires in_order { IsOpenFile self.old.files self.old.pipes file }
        ensures { (record { files = self.new; fds = fds.now; answer = result })
            ≡ unless_no_memory self.old fds.now result (write_file self.old fds.now place file target bytes.now) }
    {
        let offset = file.offset + bytes.len() as u64;
        if offset > FILE_SIZE_LIMIT {
            return Err(FileNo::NoSpace);
        }
        self.tables
            .write_over(alloc, target, file.offset as usize, bytes)?;
        self.tables.set_open(place, OpenFile { offset, ..file });
        Ok(bytes.len())
    }

    /// Puts bytes after those of a pipe.
    #[tactic(auto, unfolding(pr_parts::specs::FileTransfers::write_pipe))]
    fn write_pipe(&mut self, fds: &Fds, pipe: u32, bytes: &[u8]) -> Result<usize, FileNo>
        requires short { length bytes.now ≤ transfer_limit }
        requires stands { is_some (at_place self.old.pipes pipe) ≡ true }
        ensures { (record { files = self.new; fds = fds.now; answer = result })
            ≡ unless_no_memory self.old fds.now result (write_pipe self.old fds.now pipe bytes.now) }
    {
        if !self.tables.has_reader(pipe) {
            return Err(FileNo::NoReader);
        }
        let held = self.tables.pipe_bytes(pipe).len();
        if held + bytes.len() > PIPE_SIZE_LIMIT {
            return Err(FileNo::Sleep);
        }
        self.tables.extend_pipe(pipe, bytes)?;
        Ok(bytes.len())
    }
}
