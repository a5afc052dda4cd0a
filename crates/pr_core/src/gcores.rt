//! gcore as a controller of the kernel.
ghost use Rattle.std.specs.Prelude.{◌≡◌, ◌+◌, ◌-◌, ◌≤◌, ◌++◌, length, IfOk, OnOk};
ghost use Rattle.pr_num.specs.Limits.{read_limit};
ghost use Rattle.pr_num.specs.Records.{status_ranges};
ghost use Rattle.pr_rec.specs.Reading.{record_read};
ghost use Rattle.pr_tools.specs.Handles.{most_open};
ghost use Rattle.pr_core.specs.CoreText.{printed, report};
ghost use Rattle.pr_core.specs.Gcores.{IsReady, added_limit, first_gcore, file_of, memory_call, piece_limit, filled, call_of, next_call_of, at_stage, with_run_next, with_bytes, with_mapping, with_next, advanced, with_opened, refused, lends, with_status, with_noted, with_part, with_walk, with_piece, accepted, passes_over, refusal_in, fed, has_ended};
ghost use Rattle.pr_num.specs.Words.{word_bytes};

use crate::core_lines::push_core;
use crate::gcore_stages::{
    CONTROL, GcorePart, GcoreStage, MEMORY_FILE, STATUS, file_of_part, kind_of_part, place_of_part,
    stage_after, way_out,
};
use crate::memory_walks::MemoryWalk;
use crate::sections::{MEMORY, VERSION};
use pr_codec::push_word;
use pr_model::{Call, File, Mode, Reply, number_of, opened_in, until_in};
use pr_msg::Message;
use pr_num::limits::READ_LIMIT;
use pr_num::{Bytes, Errno, NoMemory, ProcessFlags};
use pr_rec::Status;
use pr_text::{Text, front};
use pr_tools::{Opened, bytes_read, ctl, process_stands, push_refusal, wait};
use std::alloc::Global;
use std::marker::Model;

/// How many bytes one reply can add: a section of what a read gives, and the heading of the next.
const ADDED_LIMIT: usize = 16 + READ_LIMIT as usize + 16;

/// gcore on its way: it says which call it makes next, and is fed the reply. Contracts see a plain record of where it
/// is and of the core's bytes so far, and how many more it has room for.
#[derive(Drop)]
pub struct Gcore {
    pid: u32,
    opened: Opened,
    stage: GcoreStage,
    until: u64,
    stood: bool,
    maps: Vec<u8>,
    walk: Option<MemoryWalk>,
    bytes: Vec<u8>,
    refusal: Option<Errno>,
}

impl Model for Gcore {
    ghost use Rattle.std.specs.Prelude.{◌-◌, ◌≤◌, length, vec_capacity, vec_len};
    ghost use Rattle.pr_num.specs.Limits.{read_limit};
    ghost use Rattle.pr_core.specs.Gcores.{GcoreView};

    ghost Value = { GcoreView };

    ghost view = { λ g. record {
      state = record {
        pid = g.pid;
        opened = g.opened;
        stage = g.stage;
        until = g.until;
        stood = g.stood;
        maps = g.maps.items;
        walk = g.walk;
        bytes = g.bytes.items;
        refusal = g.refusal;
      };
      room = vec_capacity g.bytes - vec_len g.bytes;
    } };

    ghost invariant = { λ g. read_limit ≤ vec_capacity g.maps };
}

/// Whether a process has lent its address space to a child, by its status.
#[tactic(auto, unfolding(crate::specs::Gcores::lends))]
fn lends(bytes: &[u8]) -> bool
    ensures { result ≡ lends (record_read status_ranges bytes.now) }
{
    match Status::decode(bytes) {
        Ok(status) => status.flags.has(ProcessFlags::VFORKP),
        Err(_) => false,
    }
}

/// Whether a refusal at a stage is passed over.
#[tactic(auto, unfolding(crate::specs::Gcores::passes_over))]
fn passes_over(stage: GcoreStage) -> bool
    ensures { result ≡ passes_over stage }
{
    match stage {
        GcoreStage::Release | GcoreStage::Close => true,
        _ => false,
    }
}

/// The errno with which a reply refuses a stage.
#[tactic(auto, unfolding(crate::specs::Gcores::refusal_in))]
fn refusal_in(stage: GcoreStage, reply: &Reply) -> Option<Errno>
    ensures { result ≡ refusal_in stage reply.now }
{
    match reply {
        Reply::Fail(errno) => {
            if passes_over(stage) {
                None
            } else {
                Some(*errno)
            }
        }
        _ => None,
    }
}

impl Gcore {
    /// gcore before its first call.
    #[tactic(auto, unfolding(crate::specs::Gcores::first_gcore))]
    pub fn new(alloc: Global, pid: u32) -> Result<Gcore, NoMemory>
        ensures { IfOk result (λ gcore. gcore.state ≡ first_gcore pid) }
    {
        let maps = Vec::with_capacity(alloc, READ_LIMIT as usize)?;
        let mut bytes = Vec::new(alloc);
        push_word(&mut bytes, VERSION)?;
        push_word(&mut bytes, u64::from(pid))?;
        Ok(Gcore {
            pid,
            opened: Opened::nothing(),
            stage: GcoreStage::OpenCtl,
            until: 0,
            stood: false,
            maps,
            walk: None,
            bytes,
            refusal: None,
        })
    }

    /// Which process it is of.
    pub fn pid(&self) -> u32
        ensures { result ≡ self.now.state.pid }
    {
        self.pid
    }

    /// The call that opens a file.
    fn open(&self, file: File, mode: Mode) -> Call
        ensures { result ≡ Call.Open self.now.state.pid 0 file mode }
    {
        Call::Open {
            pid: self.pid,
            lwp: 0,
            file,
            mode,
        }
    }

    /// The call that reads what the file at a place shows.
    fn read(&self, place: usize) -> Call
        requires { place ≤ 7 }
        ensures { result ≡ Call.Read (file_of self.now.state place) 0 read_limit }
    {
        Call::Read {
            handle: number_of(self.opened.at(place)),
            at: 0,
            len: READ_LIMIT,
        }
    }

    /// The call that reads a piece of the memory.
    fn read_memory(&self) -> Call
        ensures { result ≡ memory_call self.now.state self.now.state.walk }
    {
        let (at, len) = match self.walk {
            None => (0, 0),
            Some(walk) => (walk.address, walk.piece()),
        };
        Call::Read {
            handle: number_of(self.opened.at(MEMORY_FILE)),
            at,
            len,
        }
    }

    /// The call that closes the file that was opened last.
    #[tactic(auto, unfolding(crate::specs::Gcores::call_of))]
    fn close(&self) -> Option<Call>
        ensures { result ≡ call_of self.now.state GcoreStage.Close }
    {
        let handle = self.opened.last()?;
        Some(Call::Close { handle })
    }

    /// The call that gcore makes next; `None` exactly where it has finished.
    #[tactic(auto, unfolding(crate::specs::Gcores::next_call_of, crate::specs::Gcores::call_of, pr_num::specs::Messages::tail_length))]
    pub fn next_call(&self, alloc: Global) -> Result<Option<Call>, NoMemory>
        ensures { IfOk result (λ call. call ≡ next_call_of self.now.state) }
    {
        let call = match self.stage {
            GcoreStage::OpenCtl => self.open(File::Ctl, Mode::WriteExcl),
            GcoreStage::OpenStatus => self.open(File::Status, Mode::Read),
            GcoreStage::OpenPart(part) => self.open(file_of_part(part), Mode::Read),
            GcoreStage::OpenMemory => self.open(File::Mem, Mode::Read),
            GcoreStage::ReadFirst => self.read(place_of_part(GcorePart::Lstatus)),
            GcoreStage::Stop => ctl(alloc, self.opened.at(CONTROL), &Message::Stop)?,
            GcoreStage::AwaitStop => wait(alloc, self.opened.at(CONTROL), self.until)?,
            GcoreStage::ReadStatus => self.read(STATUS),
            GcoreStage::ReadPart(part) => self.read(place_of_part(part)),
            GcoreStage::ReadMemory => self.read_memory(),
            GcoreStage::Run | GcoreStage::Release => {
                ctl(alloc, self.opened.at(CONTROL), &Message::Run { flags: 0 })?
            }
            GcoreStage::Close => return Ok(self.close()),
        };
        Ok(Some(call))
    }

    /// Makes one `feed` possible without memory.
    pub fn prepare(&mut self) -> Result<(), NoMemory>
        ensures state { self.new.state ≡ self.old.state }
        ensures room { OnOk result (IsReady self.new) }
    {
        self.bytes.reserve(ADDED_LIMIT)?;
        Ok(())
    }

    /// Goes to a stage.
    fn go_to(&mut self, stage: GcoreStage)
        ensures state { self.new.state ≡ at_stage self.old.state stage }
        ensures room { self.new.room ≡ self.old.room }
    {
        self.stage = stage;
    }

    /// Goes to the running of the process, unless that stood before.
    #[tactic(auto, unfolding(crate::specs::Gcores::with_run_next))]
    fn run_next(&mut self)
        ensures state { self.new.state ≡ with_run_next self.old.state }
        ensures room { self.new.room ≡ self.old.room }
    {
        if self.stood {
            self.go_to(GcoreStage::Close);
        } else {
            self.go_to(GcoreStage::Run);
        }
    }

    /// Adds bytes to the core.
    fn add(&mut self, more: &[u8])
        requires { length more.now ≤ self.old.room }
        ensures state { self.new.state ≡ with_bytes self.old.state more.now }
        ensures room { self.old.room ≤ self.new.room + length more.now }
    {
        match self.bytes.extend_from_slice(more) {
            Ok(()) => {}
            Err(_) => unreachable!(),
        }
    }

    /// Adds a word to the core.
    #[tactic(auto, unfolding(pr_num::specs::Words::word_bytes))]
    fn add_word(&mut self, word: u64)
        requires { 8 ≤ self.old.room }
        ensures state { self.new.state ≡ with_bytes self.old.state (word_bytes word) }
        ensures room { self.old.room ≤ self.new.room + 8 }
    {
        self.add(&word.to_le_bytes());
    }

    /// Adds the heading of a section: its kind, and how many bytes it has.
    fn add_heading(&mut self, kind: u64, size: u64)
        requires { 16 ≤ self.old.room }
        ensures state { self.new.state ≡ with_bytes self.old.state (word_bytes kind ++ word_bytes size) }
        ensures room { self.old.room ≤ self.new.room + 16 }
    {
        self.add_word(kind);
        self.add_word(size);
    }

    /// Goes to a mapping, if one comes next: its section begins with its kind and its length.
    #[tactic(auto, unfolding(crate::specs::Gcores::with_mapping))]
    fn begin_mapping(&mut self, walk: Option<MemoryWalk>)
        requires { 16 ≤ self.old.room }
        ensures { self.new.state ≡ with_mapping self.old.state walk }
    {
        self.walk = walk;
        match walk {
            None => self.run_next(),
            Some(walk) => {
                self.add_heading(MEMORY, walk.left);
                self.go_to(GcoreStage::ReadMemory);
            }
        }
    }

    /// Goes to a stage, where it has a call.
    #[tactic(auto, unfolding(crate::specs::Gcores::with_next))]
    fn stage_on(&mut self, stage: GcoreStage)
        requires { 16 ≤ self.old.room }
        ensures { self.new.state ≡ with_next self.old.state stage }
    {
        match stage {
            GcoreStage::ReadMemory => {
                let walk = MemoryWalk::at(&self.maps, 0);
                self.begin_mapping(walk);
            }
            GcoreStage::Run => self.run_next(),
            _ => self.go_to(stage),
        }
    }

    /// Goes to the stage after the present one.
    #[tactic(auto, unfolding(crate::specs::Gcores::advanced))]
    fn advance(&mut self)
        requires { 16 ≤ self.old.room }
        ensures { self.new.state ≡ advanced self.old.state }
    {
        self.stage_on(stage_after(self.stage));
    }

    /// The file at a place was opened.
    fn open_at(&mut self, place: usize, reply: &Reply)
        requires place { place ≤ 7 }
        requires room { 16 ≤ self.old.room }
        ensures { self.new.state ≡ advanced (with_opened self.old.state place reply.now) }
    {
        self.opened = self.opened.with(place, opened_in(reply));
        self.advance();
    }

    /// Takes a refusal.
    #[tactic(auto, unfolding(crate::specs::Gcores::refused))]
    fn refuse(&mut self, errno: Errno)
        ensures { self.new.state ≡ refused self.old.state errno }
    {
        self.stage = way_out(self.stage);
        self.refusal = Some(errno);
    }

    /// Takes the status of the process. No core is made of a process that has lent its address space.
    #[tactic(auto, unfolding(crate::specs::Gcores::with_status))]
    fn take_status(&mut self, bytes: &[u8])
        requires { 16 ≤ self.old.room }
        ensures { self.new.state ≡ with_status self.old.state bytes.now }
    {
        if lends(bytes) {
            self.refuse(Errno::Busy);
        } else {
            self.advance();
        }
    }

    /// Notes the mappings.
    #[tactic(auto, unfolding(crate::specs::Gcores::with_noted))]
    fn note(&mut self, part: GcorePart, bytes: &[u8])
        requires { length bytes.now ≤ read_limit }
        ensures state { self.new.state ≡ with_noted self.old.state part bytes.now }
        ensures room { self.new.room ≡ self.old.room }
    {
        match part {
            GcorePart::Map => {
                self.maps.clear();
                match self.maps.extend_from_slice(bytes) {
                    Ok(()) => {}
                    Err(_) => unreachable!(),
                }
            }
            GcorePart::Psinfo | GcorePart::Lstatus | GcorePart::Sigact | GcorePart::Fds => {}
        }
    }

    /// Takes a part.
    #[tactic(auto, unfolding(crate::specs::Gcores::with_part, crate::specs::CoreBytes::section))]
    fn take_part(&mut self, part: GcorePart, bytes: &[u8])
        requires length { length bytes.now ≤ read_limit }
        requires room { added_limit ≤ self.old.room }
        ensures { self.new.state ≡ with_part self.old.state part bytes.now }
    {
        self.note(part, bytes);
        self.add_heading(kind_of_part(part), bytes.len() as u64);
        self.add(bytes);
        self.advance();
    }

    /// Adds so many bytes of an answer, with zeros after them where it has too few.
    #[tactic(auto, unfolding(crate::specs::Gcores::filled))]
    fn fill(&mut self, size: usize, answer: &[u8])
        requires { size ≤ self.old.room }
        ensures state { self.new.state ≡ with_bytes self.old.state (filled size answer.now) }
        ensures room { self.old.room ≤ self.new.room + size }
    {
        let found = front(answer, size);
        self.add(found);
        let len = self.bytes.len() + (size - found.len());
        match self.bytes.resize(len, 0) {
            Ok(()) => {}
            Err(_) => unreachable!(),
        }
    }

    /// Takes a piece of the memory.
    #[tactic(auto, unfolding(crate::specs::Gcores::with_piece))]
    fn take_piece(&mut self, answer: &[u8])
        requires { added_limit ≤ self.old.room }
        ensures { self.new.state ≡ with_piece self.old.state answer.now self.old.state.walk }
    {
        match self.walk {
            None => self.run_next(),
            Some(walk) => {
                self.fill(walk.piece() as usize, answer);
                match walk.on() {
                    None => {
                        let next = walk.behind(&self.maps);
                        self.begin_mapping(next);
                    }
                    on => self.walk = on,
                }
            }
        }
    }

    /// Takes a reply that does not refuse gcore.
    #[tactic(auto, unfolding(crate::specs::Gcores::accepted))]
    fn accept(&mut self, reply: &Reply)
        requires { added_limit ≤ self.old.room }
        ensures { self.new.state ≡ accepted self.old.state reply.now self.old.state.stage }
    {
        match self.stage {
            GcoreStage::OpenCtl => self.open_at(CONTROL, reply),
            GcoreStage::OpenStatus => self.open_at(STATUS, reply),
            GcoreStage::OpenPart(part) => self.open_at(place_of_part(part), reply),
            GcoreStage::OpenMemory => self.open_at(MEMORY_FILE, reply),
            GcoreStage::ReadFirst => {
                self.stood = process_stands(bytes_read(reply));
                self.advance();
            }
            GcoreStage::Stop => {
                self.until = until_in(reply);
                self.advance();
            }
            GcoreStage::ReadStatus => self.take_status(bytes_read(reply)),
            GcoreStage::ReadPart(part) => {
                self.take_part(part, front(bytes_read(reply), READ_LIMIT as usize));
            }
            GcoreStage::ReadMemory => self.take_piece(bytes_read(reply)),
            GcoreStage::AwaitStop | GcoreStage::Run | GcoreStage::Release => self.advance(),
            GcoreStage::Close => self.opened = self.opened.without_last(),
        }
    }

    /// Takes the reply to the call that `next_call` gave. Takes no memory.
    #[tactic(auto, unfolding(crate::specs::Gcores::fed))]
    pub fn feed(&mut self, reply: &Reply)
        requires { IsReady self.old }
        ensures { self.new.state ≡ fed self.old.state reply.now }
    {
        match refusal_in(self.stage, reply) {
            None => self.accept(reply),
            Some(errno) => self.refuse(errno),
        }
    }

    /// Whether gcore has finished.
    #[tactic(auto, unfolding(crate::specs::Gcores::has_ended, crate::specs::Gcores::next_call_of, crate::specs::Gcores::call_of))]
    fn has_ended(&self) -> bool
        ensures { result ≡ has_ended self.now.state }
    {
        match self.stage {
            GcoreStage::Close => self.opened.last().is_none(),
            _ => false,
        }
    }

    /// The text of the core, or the line of the refusal.
    fn push_report(&self, text: &mut Text) -> Result<(), NoMemory>
        ensures { OnOk result (text.new ≡ text.old ++ report self.now.state self.now.state.refusal) }
    {
        match self.refusal {
            None => push_core(text, &self.bytes),
            Some(errno) => push_refusal(text, b"gcore", self.pid, errno),
        }
    }

    /// What gcore prints: nothing until it has finished; then the text of the core, or the line of its refusal.
    #[tactic(auto, unfolding(crate::specs::CoreText::printed))]
    pub fn print(&self, alloc: Global) -> Result<Bytes, NoMemory>
        ensures { IfOk result (λ text. text ≡ printed self.now.state) }
    {
        let mut text = Text::new(alloc)?;
        if self.has_ended() {
            self.push_report(&mut text)?;
        }
        Ok(text.into_bytes())
    }
}
