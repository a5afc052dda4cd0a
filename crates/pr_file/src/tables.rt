ghost use Rattle.std.specs.Prelude.{◌≡◌, ◌<◌, ◌≤◌, ◌+◌, ◌^◌, [], None, IfSome, IfOk, OnOk, OnErr, count_by, is_some, length, slice_set, IsTrue, ◌↔◌, true, drop, ◌++◌};
ghost use Rattle.std.specs.List.{list_any};
ghost use Rattle.pr_num.specs.Limits.{file_limit, file_size_limit, pipe_limit};
ghost use Rattle.pr_num.specs.Files.{FileTable, with_all_closed, with_user_gone, without_idle_pipe, pipe_of, is_end_of};
ghost use Rattle.pr_parts.specs.FileTables.{IsFileTable, HasRoom, HasRoomAt, at_place, file_named, free_place};
ghost use Rattle.pr_parts.specs.FileTransfers.{has_reader, has_writer, is_read_end, is_write_end, pipe_bytes, with_pipe_bytes, with_file_bytes, after_write};
ghost use Rattle.pr_parts.specs.FileCalls.{no_files, with_file, with_open, with_open_at, with_pipe, with_read_end, with_all_shared, with_user_added, first_open, contents, name_of, stat_of};

use crate::{buffers, places};
use pr_num::{Access, Bytes, FdKind, Name, NoMemory, OpenFile, StoredFile, Target};
use pr_parts::Stat;
use std::alloc::Global;
use std::marker::Model;
use std::mem;

/// The files, pipes and open files of a system, without what is always so of them.
#[derive(Drop)]
pub(crate) struct Tables {
    files: Vec<StoredFile>,
    pipes: Vec<Option<Bytes>>,
    opens: Vec<Option<OpenFile>>,
}

impl Model for Tables {
    ghost use Rattle.pr_num.specs.Files.{FileTable};

    ghost Value = { FileTable };

    ghost view = { λ t. record { files = t.files.items; pipes = t.pipes.items; opens = t.opens.items } };
}

impl Tables {
    pub(crate) fn new(alloc: Global) -> Tables
        ensures { result ≡ no_files }
    {
        Tables {
            files: Vec::new(alloc),
            pipes: Vec::new(alloc),
            opens: Vec::new(alloc),
        }
    }

    /// The open file at a place.
    pub(crate) fn open_at(&self, place: usize) -> Option<OpenFile>
        ensures open { result ≡ at_place self.now.opens place }
        ensures within { IfSome result (λ _. place < length self.now.opens) }
    {
        self.opens.get(place).copied().flatten()
    }

    /// Whether an open file is an end of this pipe.
    fn has_end(&self, pipe: u32) -> bool
        ensures { result ≡ list_any (is_end_of pipe) self.now.opens }
    {
        self.opens.iter().any(|open| is_end_of(pipe, open))
    }

    /// Frees the place of a pipe, where there is such a place.
    #[tactic(auto, using(std::proofs::lemmas::List::set_past))]
    fn free_pipe(&mut self, pipe: u32)
        ensures { self.new ≡ record self.old { pipes = slice_set self.old.pipes pipe None } }
    {
        if (pipe as usize) < self.pipes.len() {
            self.pipes[pipe as usize] = None;
        }
    }

    /// Takes a pipe away where none of its ends is open any more.
    #[tactic(auto, unfolding(pr_num::specs::Files::without_idle_pipe))]
    fn remove_idle_pipe(&mut self, pipe: Option<u32>)
        ensures { self.new ≡ without_idle_pipe pipe self.old }
    {
        let Some(pipe) = pipe else {
            return;
        };
        if !self.has_end(pipe) {
            self.free_pipe(pipe);
        }
    }

    /// One descriptor fewer stands for the open file at a place; with the last one it is closed.
    #[tactic(auto, unfolding(pr_num::specs::Files::with_user_gone))]
    pub(crate) fn remove_user(&mut self, place: usize)
        ensures { self.new ≡ with_user_gone self.old place }
    {
        let Some(open) = self.open_at(place) else {
            return;
        };
        if open.users > 1 {
            self.opens[place] = Some(OpenFile {
                users: open.users - 1,
                ..open
            });
        } else {
            self.opens[place] = None;
            self.remove_idle_pipe(pipe_of(open.target));
        }
    }

    /// Whether each open file's count of descriptors has room for so many more.
    pub(crate) fn has_room(&self, more: u32) -> bool
        ensures { IsTrue result ↔ HasRoom self.now more }
    {
        self.opens.iter().all(|open| has_room_at(more, open))
    }

    /// One descriptor more stands for the open file at a place.
    #[tactic(auto, unfolding(pr_parts::specs::FileCalls::with_user_added))]
    pub(crate) fn add_user(&mut self, place: usize)
        requires { HasRoom self.old 1 }
        ensures { self.new ≡ with_user_added self.old place }
    {
        let Some(open) = self.open_at(place) else {
            return;
        };
        self.opens[place] = Some(OpenFile {
            users: open.users + 1,
            ..open
        });
    }

    /// For each of these places one descriptor fewer stands for its open file.
    #[tactic(auto, using(pr_file_laws::proofs::UserLemmas::closing))]
    pub(crate) fn remove_users(&mut self, places: &[Option<usize>])
        ensures { self.new ≡ with_all_closed self.old places.now }
    {
        for place in places {
            if let Some(place) = *place {
                self.remove_user(place);
            }
        }
    }

    /// For each of these places one descriptor more stands for its open file.
    #[tactic(auto, using(pr_file_laws::proofs::UserLemmas::sharing))]
    pub(crate) fn add_users(&mut self, places: &[Option<usize>])
        requires { HasRoom self.old (length places.now) }
        ensures { self.new ≡ with_all_shared self.old places.now }
    {
        for place in places {
            if let Some(place) = *place {
                self.add_user(place);
            }
        }
    }

    /// Puts another open file in the place of one.
    #[tactic(auto, unfolding(pr_parts::specs::FileCalls::with_open_at))]
    pub(crate) fn set_open(&mut self, place: usize, next: OpenFile)
        requires { place < length self.old.opens }
        ensures { self.new ≡ with_open_at self.old place next }
    {
        self.opens[place] = Some(next);
    }

    /// The place of the file of a name.
    #[tactic(auto, unfolding(pr_parts::specs::FileTables::file_named), using(pr_file_laws::proofs::PlaceLemmas::positions))]
    pub(crate) fn file_named(&self, name: &Name) -> Option<usize>
        ensures place { result ≡ file_named self.now name.now }
        ensures within { IfSome result (λ place. place < length self.now.files) }
    {
        self.files
            .iter()
            .position(|file| file.name.as_slice() == name.as_slice())
    }

    /// How many files there are.
    pub(crate) fn file_count(&self) -> usize
        ensures { result ≡ length self.now.files }
    {
        self.files.len()
    }

    /// How many pipes stand.
    pub(crate) fn pipe_count(&self) -> usize
        ensures { result ≡ count_by is_some self.now.pipes }
    {
        self.pipes.iter().filter(|pipe| pipe.is_some()).count()
    }

    /// Adds a file after the others.
    #[tactic(auto, unfolding(pr_parts::specs::FileCalls::with_file))]
    pub(crate) fn add_file(&mut self, name: Name, bytes: Bytes) -> Result<(), NoMemory>
        ensures ok { OnOk result (self.new ≡ with_file self.old name bytes) }
        ensures err { OnErr result (self.new ≡ self.old) }
    {
        self.files.push(StoredFile { name, bytes })?;
        Ok(())
    }

    /// Opens the file at a place, and answers the place of the open file.
    #[tactic(auto, unfolding(pr_parts::specs::FileCalls::with_open))]
    pub(crate) fn open_file(&mut self, file: u32, access: Access) -> Result<usize, NoMemory>
        ensures ok { OnOk result (self.new ≡ with_open self.old (first_open (Target.File file) access)) }
        ensures place { IfOk result (λ place. place ≡ free_place self.old.opens) }
        ensures err { OnErr result (self.new ≡ self.old) }
    {
        self.opens.reserve(1)?;
        Ok(places::put(&mut self.opens, first_open(Target::File(file), access)))
    }

    /// Makes a file without bytes after the others and opens it, and answers the place of the open file.
    #[tactic(auto, unfolding(pr_parts::specs::FileCalls::with_open, pr_parts::specs::FileCalls::with_file))]
    pub(crate) fn create_file(
        &mut self,
        alloc: Global,
        name: Name,
        access: Access,
    ) -> Result<usize, NoMemory>
        requires { length self.old.files < file_limit }
        ensures ok { OnOk result
            (self.new
            ≡ with_open (with_file self.old name []) (first_open (Target.File (length self.old.files)) access)) }
        ensures place { IfOk result (λ place. place ≡ free_place self.old.opens) }
        ensures err { OnErr result (self.new ≡ self.old) }
    {
        self.files.reserve(1)?;
        self.opens.reserve(1)?;
        let file = Target::File(self.files.len() as u32);
        self.files.push_reserved(StoredFile {
            name,
            bytes: Bytes::from_vec(Vec::new(alloc)),
        });
        Ok(places::put(&mut self.opens, first_open(file, access)))
    }

    /// Makes a pipe without bytes and opens both its ends, and answers the places of its open read end and write end.
    #[tactic(auto, unfolding(pr_parts::specs::FileCalls::with_pipe, pr_parts::specs::FileCalls::with_read_end, pr_parts::specs::FileCalls::with_open))]
    pub(crate) fn open_pipe(&mut self, alloc: Global) -> Result<(usize, usize), NoMemory>
        requires { length self.old.pipes ≤ pipe_limit }
        ensures ok { OnOk result (self.new ≡ with_pipe self.old) }
        ensures read_end { IfOk result (λ ends. ends.0 ≡ free_place self.old.opens) }
        ensures write_end { IfOk result (λ ends. ends.1 ≡ free_place (with_read_end self.old).opens) }
        ensures err { OnErr result (self.new ≡ self.old) }
    {
        self.pipes.reserve(1)?;
        self.opens.reserve(2)?;
        let pipe = places::put(&mut self.pipes, Bytes::from_vec(Vec::new(alloc))) as u32;
        let read_end = first_open(Target::PipeReader(pipe), Access::Read);
        let write_end = first_open(Target::PipeWriter(pipe), Access::Write);
        let reader = places::put(&mut self.opens, read_end);
        let writer = places::put(&mut self.opens, write_end);
        Ok((reader, writer))
    }

    /// The bytes of what an open file reads and writes.
    pub(crate) fn contents(&self, target: Target) -> &[u8]
        ensures { result.now ≡ contents self.now target }
    {
        match target {
            Target::File(place) => self.file_bytes(place),
            Target::PipeReader(place) | Target::PipeWriter(place) => self.pipe_bytes(place),
        }
    }

    fn file_bytes(&self, place: u32) -> &[u8]
        ensures { result.now ≡ contents self.now (Target.File place) }
    {
        match self.files.get(place as usize) {
            Some(file) => file.bytes.as_slice(),
            None => &[],
        }
    }

    /// The bytes that stand in a pipe.
    pub(crate) fn pipe_bytes(&self, place: u32) -> &[u8]
        ensures { result.now ≡ contents self.now (Target.PipeReader place) }
    {
        match self.pipes.get(place as usize) {
            Some(Some(held)) => held.as_slice(),
            _ => &[],
        }
    }

    /// The name of what an open file reads and writes; a pipe has none.
    pub(crate) fn name(&self, target: Target) -> Option<Name>
        ensures { result ≡ name_of self.now target }
    {
        match target {
            Target::File(place) => self.files.get(place as usize).map(|file| file.name),
            _ => None,
        }
    }

    /// What an open file is.
    pub(crate) fn stat(&self, file: OpenFile) -> Stat
        ensures { result ≡ stat_of self.now file }
    {
        Stat {
            kind: FdKind::of(file.target).number(),
            mode: file.access.number(),
            size: self.contents(file.target).len() as u64,
            offset: file.offset,
            name: self.name(file.target),
        }
    }

    /// Whether an open file is the read end of this pipe.
    pub(crate) fn has_reader(&self, pipe: u32) -> bool
        ensures { result ≡ has_reader self.now pipe }
    {
        self.opens.iter().any(|open| is_read_end(pipe, open))
    }

    /// Whether an open file is the write end of this pipe.
    pub(crate) fn has_writer(&self, pipe: u32) -> bool
        ensures { result ≡ has_writer self.now pipe }
    {
        self.opens.iter().any(|open| is_write_end(pipe, open))
    }

    /// Takes the first bytes out of a pipe. Takes no memory.
    #[tactic(auto, unfolding(pr_parts::specs::FileTransfers::with_pipe_bytes))]
    pub(crate) fn take_front(&mut self, pipe: u32, count: usize)
        requires stands { is_some (at_place self.old.pipes pipe) ≡ true }
        requires count { count ≤ length (pipe_bytes self.old pipe) }
        ensures { self.new ≡ with_pipe_bytes self.old pipe (drop count (pipe_bytes self.old pipe)) }
    {
        let slot = &mut self.pipes[pipe as usize];
        if let Some(held) = slot.take() {
            *slot = Some(buffers::without_front(held, count));
        }
    }

    /// Puts bytes behind those of a pipe.
    #[tactic(auto, unfolding(pr_parts::specs::FileTransfers::with_pipe_bytes))]
    pub(crate) fn extend_pipe(&mut self, pipe: u32, bytes: &[u8]) -> Result<(), NoMemory>
        requires { is_some (at_place self.old.pipes pipe) ≡ true }
        ensures ok { OnOk result (self.new ≡ with_pipe_bytes self.old pipe (pipe_bytes self.old pipe ++ bytes.now)) }
        ensures err { OnErr result (self.new ≡ self.old) }
    {
        let slot = &mut self.pipes[pipe as usize];
        let Some(held) = slot.take() else {
            return Ok(());
        };
        let (held, done) = buffers::extended(held, bytes);
        *slot = Some(held);
        done
    }

    /// Writes bytes over those of a file from an offset on.
    #[tactic(auto, unfolding(pr_parts::specs::FileTransfers::with_file_bytes))]
    pub(crate) fn write_over(
        &mut self,
        alloc: Global,
        place: u32,
        offset: usize,
        bytes: &[u8],
    ) -> Result<(), NoMemory>
        requires stands { place < length self.old.files }
        requires room { offset + length bytes.now ≤ file_size_limit }
        ensures ok { OnOk result
            (self.new
            ≡ with_file_bytes self.old place (after_write (contents self.old (Target.File place)) offset bytes.now)) }
        ensures opens { self.new.opens ≡ self.old.opens }
        ensures err { OnErr result (self.new ≡ self.old) }
    {
        let file = &mut self.files[place as usize];
        let old = mem::replace(&mut file.bytes, Bytes::from_vec(Vec::new(alloc)));
        let (new, done) = buffers::written_over(old, offset, bytes);
        file.bytes = new;
        done
    }
}

fn has_room_at(more: u32, place: &Option<OpenFile>) -> bool
    ensures { IsTrue result ↔ HasRoomAt more place.now }
{
    match place {
        Some(file) => file.users.checked_add(more).is_some(),
        None => true,
    }
}

fn is_read_end(pipe: u32, place: &Option<OpenFile>) -> bool
    ensures { result ≡ is_read_end pipe place.now }
{
    match place {
        Some(file) => file.target == Target::PipeReader(pipe),
        None => false,
    }
}

fn is_write_end(pipe: u32, place: &Option<OpenFile>) -> bool
    ensures { result ≡ is_write_end pipe place.now }
{
    match place {
        Some(file) => file.target == Target::PipeWriter(pipe),
        None => false,
    }
}

/// An open file at its beginning, for which one descriptor stands.
fn first_open(target: Target, access: Access) -> OpenFile
    ensures { result ≡ first_open target access }
{
    OpenFile {
        target,
        access,
        offset: 0,
        users: 1,
    }
}

/// The pipe that an open file is an end of.
pub(crate) fn pipe_of(target: Target) -> Option<u32>
    ensures { result ≡ pipe_of target }
{
    match target {
        Target::File(_) => None,
        Target::PipeReader(pipe) | Target::PipeWriter(pipe) => Some(pipe),
    }
}

fn is_end_of(pipe: u32, place: &Option<OpenFile>) -> bool
    ensures { result ≡ is_end_of pipe place.now }
{
    match place {
        Some(file) => pipe_of(file.target) == Some(pipe),
        None => false,
    }
}
