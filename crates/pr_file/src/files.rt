ghost use Rattle.std.specs.Prelude.{◌≡◌, ◌<◌, ◌≤◌, ◌↔◌, IsTrue, true, None, Some, is_some, IfSome, OnOk, OnErr, length, option_map};
ghost use Rattle.pr_num.specs.Limits.{descriptor_limit, file_limit, file_size_limit};
ghost use Rattle.pr_num.specs.Files.{with_all_closed, no_descriptors};
ghost use Rattle.pr_parts.specs.FileTables.{open_of, at_place, file_named, HasRoom, IsOpenFile};
ghost use Rattle.pr_parts.specs.FileCalls.{name_of, unless_no_memory, no_files, with_file, closed, duplicated, with_all_shared, are_open_flags, access_of, opened_file, created_file, opened, piped, sought, described, reads, writes, open_for_reading, open_for_writing};

mod looks;
mod transfers;
mod waits;

use crate::fds::Fds;
use crate::tables::{Tables, pipe_of};
use pr_num::limits::{FILE_LIMIT, FILE_SIZE_LIMIT, PIPE_LIMIT};
use pr_num::{Access, Bytes, Name, NoMemory, OpenFile, Target};
use pr_parts::{FileNo, Stat};
use std::alloc::Global;
use std::marker::Model;

/// The flag of an opening that makes the file where there is none.
const CREATE: u64 = 256;

/// The files of a system, its pipes, and the open files for which descriptors of processes stand.
#[derive(Drop)]
pub struct Files {
    tables: Tables,
}

impl Model for Files {
    ghost use Rattle.pr_num.specs.Files.{FileTable};

    ghost Value = { FileTable };

    ghost view = { λ files. files.tables };

    ghost use Rattle.pr_parts.specs.FileTables.{IsFileTable};

    ghost invariant = { λ files. IsFileTable files.tables };
}

impl Files {
    /// No files. Takes no memory.
    pub fn new(alloc: Global) -> Files
        ensures { result ≡ no_files }
    {
        Files {
            tables: Tables::new(alloc),
        }
    }

    /// The open file that a descriptor stands for, with its place.
    #[tactic(auto, unfolding(pr_parts::specs::FileTables::open_of), using(pr_file_laws::proofs::TableLemmas::opens_in_order))]
    fn open_of(&self, fds: &Fds, fd: u64) -> Option<(usize, OpenFile)>
        ensures open { result ≡ open_of self.now fds.now fd }
        ensures within { IfSome result (λ _. fd < descriptor_limit) }
        ensures place { IfSome result (λ found. found.0 < length self.now.opens) }
        ensures there { IfSome result (λ found. at_place self.now.opens found.0 ≡ Some found.1) }
        ensures in_order { IfSome result (λ found. IsOpenFile self.now.files self.now.pipes found.1) }
    {
        let place = fds.place(fd)?;
        let open = self.tables.open_at(place)?;
        Some((place, open))
    }

    /// The open file that a descriptor stands for, if it is open.
    pub fn opened(&self, fds: &Fds, fd: u64) -> Option<OpenFile>
        ensures { result ≡ option_map (λ found. found.1) (open_of self.now fds.now fd) }
    {
        let (_, open) = self.open_of(fds, fd)?;
        Some(open)
    }

    /// The name of what an open file reads and writes; a pipe has none.
    pub fn name(&self, target: Target) -> Option<Name>
        ensures { result ≡ name_of self.now target }
    {
        self.tables.name(target)
    }

    /// How many files there are, at most 256.
    pub fn file_count(&self) -> usize
        ensures count { result ≡ length self.now.files }
        ensures limit { result ≤ file_limit }
    {
        self.tables.file_count()
    }

    /// Whether a file has this name.
    pub fn has_file(&self, name: &Name) -> bool
        ensures { result ≡ is_some (file_named self.now name.now) }
    {
        self.tables.file_named(name).is_some()
    }

    /// Whether each open file's count of descriptors has room for so many more.
    pub fn has_room(&self, more: u32) -> bool
        ensures { IsTrue result ↔ HasRoom self.now more }
    {
        self.tables.has_room(more)
    }

    /// Adds a file, whose name no file has yet. As every call that takes memory it is passed an allocator, though the
    /// list of files has its own.
    pub fn add(&mut self, _alloc: Global, name: Name, bytes: Bytes) -> Result<(), NoMemory>
        requires few { length self.old.files < file_limit }
        requires short { length bytes ≤ file_size_limit }
        requires new_name { file_named self.old name ≡ None }
        ensures ok { OnOk result (self.new ≡ with_file self.old name bytes) }
        ensures err { OnErr result (self.new ≡ self.old) }
    {
        self.tables.add_file(name, bytes)?;
        Ok(())
    }

    /// Closes a descriptor (close(2)): `BadFd` exactly where it is not open.
    #[tactic(auto, unfolding(pr_parts::specs::FileCalls::closed))]
    pub fn close(&mut self, fds: &mut Fds, fd: u64) -> Result<(), FileNo>
        ensures { (record { files = self.new; fds = fds.new; answer = result }) ≡ closed self.old fds.old fd }
    {
        let Some((place, _)) = self.open_of(fds, fd) else {
            return Err(FileNo::BadFd);
        };
        self.tables.remove_user(place);
        fds.set(fd as usize, None);
        Ok(())
    }

    /// Closes every open descriptor.
    pub fn close_all(&mut self, fds: &mut Fds)
        ensures files { self.new ≡ with_all_closed self.old fds.old }
        ensures fds { fds.new ≡ no_descriptors }
    {
        self.tables.remove_users(fds.places());
        *fds = Fds::new();
    }

    /// Lets the least free descriptor stand for the open file of another one (dup(2)): `BadFd` exactly where that is
    /// not open, and then `NoPlace` exactly where no descriptor is free.
    #[tactic(auto, unfolding(pr_parts::specs::FileCalls::duplicated))]
    pub fn dup(&mut self, fds: &mut Fds, fd: u64) -> Result<u64, FileNo>
        requires { HasRoom self.old 1 }
        ensures { (record { files = self.new; fds = fds.new; answer = result }) ≡ duplicated self.old fds.old fd }
    {
        let Some((place, _)) = self.open_of(fds, fd) else {
            return Err(FileNo::BadFd);
        };
        let Some(free) = fds.free() else {
            return Err(FileNo::NoPlace);
        };
        self.tables.add_user(place);
        fds.set(free, Some(place));
        Ok(free as u64)
    }

    /// The descriptors of a process that is forked: its parent's, for the same open files (fork(2)). Takes no memory.
    pub fn share(&mut self, fds: &Fds) -> Fds
        requires { HasRoom self.old descriptor_limit }
        ensures files { self.new ≡ with_all_shared self.old fds.now }
        ensures fds { result ≡ fds.now }
    {
        self.tables.add_users(fds.places());
        fds.same()
    }

    /// Opens the file at a place for a free descriptor.
    #[tactic(auto, unfolding(pr_parts::specs::FileCalls::opened_file))]
    fn open_file(
        &mut self,
        fds: &mut Fds,
        fd: usize,
        file: usize,
        flags: u64,
    ) -> Result<u64, FileNo>
        requires flags { are_open_flags flags ≡ true }
        requires fd { fd < descriptor_limit }
        requires file { file < length self.old.files }
        ensures { (record { files = self.new; fds = fds.new; answer = result })
            ≡ unless_no_memory self.old fds.old result (opened_file self.old fds.old fd file flags) }
    {
        let place = self.tables.open_file(file as u32, access_of(flags))?;
        fds.set(fd, Some(place));
        Ok(fd as u64)
    }

    /// Makes a file and opens it for a free descriptor.
    #[tactic(auto, unfolding(pr_parts::specs::FileCalls::created_file, pr_parts::specs::FileCalls::opened_file, pr_parts::specs::FileCalls::with_file))]
    fn create_file(
        &mut self,
        alloc: Global,
        fds: &mut Fds,
        fd: usize,
        name: Name,
        flags: u64,
    ) -> Result<u64, FileNo>
        requires flags { are_open_flags flags ≡ true }
        requires fd { fd < descriptor_limit }
        requires new_name { file_named self.old name ≡ None }
        ensures { (record { files = self.new; fds = fds.new; answer = result })
            ≡ unless_no_memory self.old fds.old result (created_file self.old fds.old fd name flags) }
    {
        if self.tables.file_count() >= FILE_LIMIT {
            return Err(FileNo::TableFull);
        }
        let place = self.tables.create_file(alloc, name, access_of(flags))?;
        fds.set(fd, Some(place));
        Ok(fd as u64)
    }

    /// Opens the file of a name for the least free descriptor (open(2)). The flags are 0 for reading, 1 for writing, 2
    /// for both, and 256 beside them to make the file where there is none. `NoFile` comes exactly where there is none
    /// and none is to be made, then `NoPlace` exactly where no descriptor is free, then `TableFull` exactly where the
    /// file is to be made and 256 stand. Nothing is changed by a refusal.
    #[tactic(auto, unfolding(pr_parts::specs::FileCalls::opened))]
    pub fn open(
        &mut self,
        alloc: Global,
        fds: &mut Fds,
        name: Name,
        flags: u64,
    ) -> Result<u64, FileNo>
        requires { are_open_flags flags ≡ true }
        ensures { (record { files = self.new; fds = fds.new; answer = result })
            ≡ unless_no_memory self.old fds.old result (opened self.old fds.old name flags) }
    {
        let file = self.tables.file_named(&name);
        if file.is_none() && flags < CREATE {
            return Err(FileNo::NoFile);
        }
        let Some(fd) = fds.free() else {
            return Err(FileNo::NoPlace);
        };
        match file {
            Some(file) => self.open_file(fds, fd, file, flags),
            None => self.create_file(alloc, fds, fd, name, flags),
        }
    }

    /// Makes a pipe (pipe(2)), and answers the descriptors of its read end and its write end, which are the two least
    /// free ones. `NoPlace` comes exactly where fewer than two are free, and then `TableFull` exactly where 256 pipes
    /// stand.
    #[tactic(auto, unfolding(pr_parts::specs::FileCalls::piped, pr_parts::specs::FileCalls::made_pipe))]
    pub fn pipe(&mut self, alloc: Global, fds: &mut Fds) -> Result<(u64, u64), FileNo>
        ensures { (record { files = self.new; fds = fds.new; answer = result })
            ≡ unless_no_memory self.old fds.old result (piped self.old fds.old) }
    {
        let Some(reader) = fds.free() else {
            return Err(FileNo::NoPlace);
        };
        let Some(writer) = fds.free_behind(reader) else {
            return Err(FileNo::NoPlace);
        };
        if self.tables.pipe_count() >= PIPE_LIMIT {
            return Err(FileNo::TableFull);
        }
        let (read_end, write_end) = self.tables.open_pipe(alloc)?;
        fds.set(reader, Some(read_end));
        fds.set(writer, Some(write_end));
        Ok((reader as u64, writer as u64))
    }

    /// Moves the offset of an open file (lseek(2)), and answers it: `BadFd` exactly where the descriptor is not open,
    /// then `NotSeekable` exactly where it stands for an end of a pipe, then `BadOffset` exactly where the offset is
    /// above 65,536.
    #[tactic(auto, unfolding(pr_parts::specs::FileCalls::sought))]
    pub fn seek(&mut self, fds: &Fds, fd: u64, offset: u64) -> Result<u64, FileNo>
        ensures { (record { files = self.new; fds = fds.now; answer = result }) ≡ sought self.old fds.now fd offset }
    {
        let Some((place, file)) = self.open_of(fds, fd) else {
            return Err(FileNo::BadFd);
        };
        if pipe_of(file.target).is_some() {
            return Err(FileNo::NotSeekable);
        }
        if offset > FILE_SIZE_LIMIT {
            return Err(FileNo::BadOffset);
        }
        self.tables.set_open(place, OpenFile { offset, ..file });
        Ok(offset)
    }

    /// What a descriptor stands for (fstat(2)): `BadFd` exactly where it is not open.
    #[tactic(auto, unfolding(pr_parts::specs::FileCalls::described))]
    pub fn stat(&self, fds: &Fds, fd: u64) -> Result<Stat, FileNo>
        ensures { result ≡ described self.now fds.now fd }
    {
        let Some((_, file)) = self.open_of(fds, fd) else {
            return Err(FileNo::BadFd);
        };
        Ok(self.tables.stat(file))
    }

    /// The open file that a descriptor stands for, with its place, where it is open for reading.
    #[tactic(auto, unfolding(pr_parts::specs::FileCalls::open_for_reading))]
    fn open_for_reading(&self, fds: &Fds, fd: u64) -> Option<(usize, OpenFile)>
        ensures file { result ≡ open_for_reading self.now fds.now fd }
        ensures place { IfSome result (λ found. found.0 < length self.now.opens) }
        ensures there { IfSome result (λ found. at_place self.now.opens found.0 ≡ Some found.1) }
        ensures in_order { IfSome result (λ found. IsOpenFile self.now.files self.now.pipes found.1) }
    {
        let (place, file) = self.open_of(fds, fd)?;
        if reads(file.access) {
            Some((place, file))
        } else {
            None
        }
    }

    /// The same where it is open for writing.
    #[tactic(auto, unfolding(pr_parts::specs::FileCalls::open_for_writing))]
    fn open_for_writing(&self, fds: &Fds, fd: u64) -> Option<(usize, OpenFile)>
        ensures file { result ≡ open_for_writing self.now fds.now fd }
        ensures place { IfSome result (λ found. found.0 < length self.now.opens) }
        ensures there { IfSome result (λ found. at_place self.now.opens found.0 ≡ Some found.1) }
        ensures in_order { IfSome result (λ found. IsOpenFile self.now.files self.now.pipes found.1) }
    {
        let (place, file) = self.open_of(fds, fd)?;
        if writes(file.access) {
            Some((place, file))
        } else {
            None
        }
    }

    /// Whether a descriptor is open for reading.
    pub fn can_read(&self, fds: &Fds, fd: u64) -> bool
        ensures { result ≡ is_some (open_for_reading self.now fds.now fd) }
    {
        self.open_for_reading(fds, fd).is_some()
    }

    /// Whether a descriptor is open for writing.
    pub fn can_write(&self, fds: &Fds, fd: u64) -> bool
        ensures { result ≡ is_some (open_for_writing self.now fds.now fd) }
    {
        self.open_for_writing(fds, fd).is_some()
    }
}

fn reads(access: Access) -> bool
    ensures { result ≡ reads access }
{
    match access {
        Access::Read | Access::Both => true,
        Access::Write => false,
    }
}

fn writes(access: Access) -> bool
    ensures { result ≡ writes access }
{
    match access {
        Access::Write | Access::Both => true,
        Access::Read => false,
    }
}

/// What is to be done with a file, by the flags of its opening.
fn access_of(flags: u64) -> Access
    ensures { result ≡ access_of flags }
{
    match flags % CREATE {
        0 => Access::Read,
        1 => Access::Write,
        _ => Access::Both,
    }
}
