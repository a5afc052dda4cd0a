//! A tool as a controller of the kernel.
ghost use Rattle.std.specs.Prelude.{◌≡◌, ◌++◌, length, take, nat_le, Some, None, Ok, IfOk, OnOk, if◌then◌else◌};
ghost use Rattle.pr_num.specs.Limits.{read_limit};
ghost use Rattle.pr_tools.specs.Calls.{short_read};
ghost use Rattle.pr_tools.specs.Steps.{frame_room};
ghost use Rattle.pr_tools.specs.Stacks.{with_frame};
ghost use Rattle.pr_tools.specs.Tools.{first_tool, record_file, memory_file, frame_of, call_of, next_call_of, at_step, with_run_next, with_walk, with_next, advanced, with_record, with_first, with_answer, with_closed, accepted, refused, fed, has_ended, text_of, report, printed};

use crate::calls::{ctl, poll, wait};
use crate::handles::Opened;
use crate::record_texts::push_record;
use crate::refusals::push_refusal;
use crate::replies::{bytes_read, refusal_in};
use crate::stack_lines::push_pstack;
use crate::stacks::{CallFrame, Walk, frame_in, is_frame, process_stands, walk_after, walk_in};
use crate::steps::{
    CONTROL, MEMORY, RECORD, Step, after, ctl_mode_of, file_of, first_step, frame_room,
    record_room, way_out,
};
use pr_asm::Program;
use pr_model::{Call, File, Mode, Reply, ToolKind, number_of, opened_in, tool_name, until_in};
use pr_msg::Message;
use pr_num::layout::TEXT_BASE;
use pr_num::limits::READ_LIMIT;
use pr_num::{Bytes, Errno, Instruction, NoMemory};
use pr_text::{Text, front};
use std::alloc::Global;
use std::marker::Model;

/// How many bytes an instruction has, and a frame.
const SHORT_READ: u64 = 16;

/// How many bytes the status of all lwps begins with: their number.
const BEFORE_LWPS: usize = 8;

/// A tool on its way: it says which call it makes next, and is fed the reply. Contracts see a plain record of where it
/// is and of what it read.
///
/// The room for what it reads is there from the start, so that no reply takes memory.
#[derive(Drop)]
pub struct Tool {
    kind: ToolKind,
    pid: u32,
    opened: Opened,
    step: Step,
    until: u64,
    stood: bool,
    bytes: Vec<u8>,
    first: Option<[u8; Instruction::SIZE]>,
    walk: Option<Walk>,
    frames: Vec<CallFrame>,
    refusal: Option<Errno>,
}

impl Model for Tool {
    ghost use Rattle.std.specs.Prelude.{◌≤◌, length, vec_capacity};
    ghost use Rattle.pr_tools.specs.Steps.{record_room, frame_room};
    ghost use Rattle.pr_tools.specs.Tools.{ToolState};

    ghost Value = { ToolState };

    ghost view = { λ t. record {
      kind = t.kind;
      pid = t.pid;
      opened = t.opened;
      step = t.step;
      until = t.until;
      stood = t.stood;
      bytes = t.bytes.items;
      first = t.first;
      walk = t.walk;
      frames = t.frames.items;
      refusal = t.refusal;
    } };

    ghost invariant = { λ t. (length t.bytes.items ≤ record_room t.kind) × (record_room t.kind ≤ vec_capacity t.bytes)
        × (frame_room t.kind ≤ vec_capacity t.frames) };
}

/// The address of the frame that comes next.
fn frame_of(walk: &Option<Walk>) -> u64
    ensures { result ≡ frame_of walk.now }
{
    match walk {
        None => 0,
        Some(walk) => walk.frame,
    }
}

/// The first instruction in these bytes, where there are enough.
pub fn instruction_in(bytes: &[u8]) -> Option<[u8; Instruction::SIZE]>
    ensures { result ≡ (if nat_le 16 (length bytes.now) then Some (take 16 bytes.now) else None) }
{
    if bytes.len() < Instruction::SIZE {
        return None;
    }
    let mut instruction = [0; Instruction::SIZE];
    instruction.copy_from_slice(&bytes[..Instruction::SIZE]);
    Some(instruction)
}

impl Tool {
    /// A tool before its first call. All the memory that its replies need is taken here.
    #[tactic(auto, unfolding(crate::specs::Tools::first_tool))]
    pub fn new(alloc: Global, kind: ToolKind, pid: u32) -> Result<Tool, NoMemory>
        ensures { IfOk result (λ tool. tool ≡ first_tool kind pid) }
    {
        let bytes = Vec::with_capacity(alloc, record_room(kind))?;
        let frames = Vec::with_capacity(alloc, frame_room(kind))?;
        Ok(Tool {
            kind,
            pid,
            opened: Opened::nothing(),
            step: first_step(kind),
            until: 0,
            stood: false,
            bytes,
            first: None,
            walk: None,
            frames,
            refusal: None,
        })
    }

    /// The call that opens a file.
    fn open(&self, file: File, mode: Mode) -> Call
        ensures { result ≡ Call.Open self.now.pid 0 file mode }
    {
        Call::Open {
            pid: self.pid,
            lwp: 0,
            file,
            mode,
        }
    }

    /// The call that reads a record.
    fn read_file(&self) -> Call
        ensures { result ≡ Call.Read (record_file self.now) 0 read_limit }
    {
        Call::Read {
            handle: number_of(self.opened.at(RECORD)),
            at: 0,
            len: READ_LIMIT,
        }
    }

    /// The call that reads 16 bytes of memory.
    fn read_memory(&self, at: u64) -> Call
        ensures { result ≡ Call.Read (memory_file self.now) at short_read }
    {
        Call::Read {
            handle: number_of(self.opened.at(MEMORY)),
            at,
            len: SHORT_READ,
        }
    }

    /// The call that closes the file that was opened last.
    #[tactic(auto, unfolding(crate::specs::Tools::call_of))]
    fn close(&self) -> Option<Call>
        ensures { result ≡ call_of self.now Step.Close }
    {
        let handle = self.opened.last()?;
        Some(Call::Close { handle })
    }

    /// Which tool it is.
    pub fn kind(&self) -> ToolKind
        ensures { result ≡ self.now.kind }
    {
        self.kind
    }

    /// The call that the tool makes next; `None` exactly where it has finished.
    #[tactic(auto, unfolding(crate::specs::Tools::next_call_of, crate::specs::Tools::call_of, pr_num::specs::Messages::tail_length))]
    pub fn next_call(&self, alloc: Global) -> Result<Option<Call>, NoMemory>
        ensures { IfOk result (λ call. call ≡ next_call_of self.now) }
    {
        let call = match self.step {
            Step::OpenCtl => self.open(File::Ctl, ctl_mode_of(self.kind)),
            Step::OpenFile => self.open(file_of(self.kind), Mode::Read),
            Step::OpenMemory => self.open(File::Mem, Mode::Read),
            Step::ReadFirst | Step::ReadFile => self.read_file(),
            Step::Stop => ctl(alloc, self.opened.at(CONTROL), &Message::Stop)?,
            Step::AwaitStop => wait(alloc, self.opened.at(CONTROL), self.until)?,
            Step::Direct => ctl(alloc, self.opened.at(CONTROL), &Message::Dstop)?,
            Step::AwaitEnd => poll(alloc, self.opened.at(RECORD))?,
            Step::ReadText => self.read_memory(TEXT_BASE),
            Step::ReadFrame => self.read_memory(frame_of(&self.walk)),
            Step::Run | Step::Release => ctl(
                alloc,
                self.opened.at(CONTROL),
                &Message::Run { flags: 0 },
            )?,
            Step::List => Call::List,
            Step::Close => return Ok(self.close()),
        };
        Ok(Some(call))
    }

    /// Makes one `feed` possible without memory. A tool has what it needs from the start.
    pub fn prepare(&mut self) -> Result<(), NoMemory>
        ensures done { result ≡ Ok tt }
        ensures same { self.new ≡ self.old }
    {
        Ok(())
    }

    /// Goes to a step.
    fn go_to(&mut self, step: Step)
        ensures { self.new ≡ at_step self.old step }
    {
        self.step = step;
    }

    /// Goes to the running of the process, unless that stood before.
    #[tactic(auto, unfolding(crate::specs::Tools::with_run_next))]
    fn run_next(&mut self)
        ensures { self.new ≡ with_run_next self.old }
    {
        if self.stood {
            self.go_to(Step::Close);
        } else {
            self.go_to(Step::Run);
        }
    }

    /// Goes to the frame that comes next, if one does.
    #[tactic(auto, unfolding(crate::specs::Tools::with_walk))]
    fn walk_on(&mut self, walk: Option<Walk>)
        ensures { self.new ≡ with_walk self.old walk }
    {
        self.walk = walk;
        match walk {
            None => self.run_next(),
            Some(_) => self.go_to(Step::ReadFrame),
        }
    }

    /// Goes to a step, where it has a call.
    #[tactic(auto, unfolding(crate::specs::Tools::with_next))]
    fn step_on(&mut self, step: Step)
        ensures { self.new ≡ with_next self.old step }
    {
        match step {
            Step::ReadFrame => {
                let walk = walk_in(&self.bytes, BEFORE_LWPS);
                self.walk_on(walk);
            }
            Step::Run => self.run_next(),
            _ => self.go_to(step),
        }
    }

    /// Goes to the step after the present one.
    #[tactic(auto, unfolding(crate::specs::Tools::advanced))]
    fn advance(&mut self)
        ensures { self.new ≡ advanced self.old }
    {
        self.step_on(after(self.kind, self.step));
    }

    /// Keeps the bytes of a record, as far as there is room.
    #[tactic(auto, unfolding(crate::specs::Tools::with_record))]
    fn keep_record(&mut self, bytes: &[u8])
        ensures { self.new ≡ with_record self.old bytes.now }
    {
        let kept = front(bytes, record_room(self.kind));
        self.bytes.clear();
        match self.bytes.extend_from_slice(kept) {
            Ok(()) => {}
            Err(_) => unreachable!(),
        }
    }

    /// Keeps the first instruction of the process.
    #[tactic(auto, unfolding(crate::specs::Tools::with_first))]
    fn keep_first(&mut self, bytes: &[u8])
        ensures { self.new ≡ with_first self.old bytes.now }
    {
        self.first = instruction_in(bytes);
    }

    /// Keeps the frame of an answer, where it is one and there is room.
    #[tactic(auto, unfolding(crate::specs::Stacks::with_frame))]
    fn keep_frame(&mut self, walk: &Walk, answer: &[u8])
        ensures { self.new
            ≡ record self.old { frames = with_frame (frame_room self.old.kind) self.old.frames walk.now answer.now } }
    {
        if !is_frame(answer) || self.frames.len() >= frame_room(self.kind) {
            return;
        }
        match self.frames.push(frame_in(walk, answer)) {
            Ok(()) => {}
            Err(_) => unreachable!(),
        }
    }

    /// Takes the answer to the reading of a frame.
    #[tactic(auto, unfolding(crate::specs::Tools::with_answer))]
    fn take_answer(&mut self, answer: &[u8])
        ensures { self.new ≡ with_answer self.old answer.now self.old.walk }
    {
        match self.walk {
            None => self.run_next(),
            Some(walk) => {
                self.keep_frame(&walk, answer);
                let next = walk_after(&self.bytes, &walk, answer);
                self.walk_on(next);
            }
        }
    }

    /// The file that was opened last is closed.
    #[tactic(auto, unfolding(crate::specs::Tools::with_closed))]
    fn close_last(&mut self)
        ensures { self.new ≡ with_closed self.old }
    {
        self.opened = self.opened.without_last();
    }

    /// Takes a reply that does not refuse the tool.
    #[tactic(auto, unfolding(crate::specs::Tools::accepted))]
    fn accept(&mut self, reply: &Reply)
        ensures { self.new ≡ accepted self.old reply.now self.old.step }
    {
        match self.step {
            Step::OpenCtl => {
                self.opened = self.opened.with(CONTROL, opened_in(reply));
                self.advance();
            }
            Step::OpenFile => {
                self.opened = self.opened.with(RECORD, opened_in(reply));
                self.advance();
            }
            Step::OpenMemory => {
                self.opened = self.opened.with(MEMORY, opened_in(reply));
                self.advance();
            }
            Step::ReadFirst => {
                self.stood = process_stands(bytes_read(reply));
                self.advance();
            }
            Step::Stop => {
                self.until = until_in(reply);
                self.advance();
            }
            Step::ReadFile | Step::List => {
                self.keep_record(bytes_read(reply));
                self.advance();
            }
            Step::ReadText => {
                self.keep_first(bytes_read(reply));
                self.advance();
            }
            Step::ReadFrame => self.take_answer(bytes_read(reply)),
            Step::AwaitStop | Step::Direct | Step::AwaitEnd | Step::Run | Step::Release => {
                self.advance();
            }
            Step::Close => self.close_last(),
        }
    }

    /// Takes a refusal.
    #[tactic(auto, unfolding(crate::specs::Tools::refused))]
    fn refuse(&mut self, errno: Errno)
        ensures { self.new ≡ refused self.old errno }
    {
        self.step = way_out(self.kind, self.step);
        self.refusal = Some(errno);
    }

    /// Takes the reply to the call that `next_call` gave. Takes no memory.
    #[tactic(auto, unfolding(crate::specs::Tools::fed))]
    pub fn feed(&mut self, reply: &Reply)
        ensures { self.new ≡ fed self.old reply.now }
    {
        match refusal_in(self.step, reply) {
            None => self.accept(reply),
            Some(errno) => self.refuse(errno),
        }
    }

    /// Whether the tool has finished.
    #[tactic(auto, unfolding(crate::specs::Tools::has_ended, crate::specs::Tools::next_call_of, crate::specs::Tools::call_of))]
    fn has_ended(&self) -> bool
        ensures { result ≡ has_ended self.now }
    {
        match self.step {
            Step::Close => self.opened.last().is_none(),
            _ => false,
        }
    }

    /// The text of a tool that was not refused, of what it read.
    #[tactic(auto, unfolding(crate::specs::Tools::text_of, crate::specs::Steps::record_room))]
    fn push_text(
        &self,
        alloc: Global,
        text: &mut Text,
        programs: &[Program],
    ) -> Result<(), NoMemory>
        ensures { OnOk result (text.new ≡ text.old ++ text_of self.now programs.now self.now.kind) }
    {
        match self.kind {
            ToolKind::Pstack => push_pstack(
                alloc,
                text,
                self.pid,
                &self.bytes,
                self.first,
                &self.frames,
                programs,
            ),
            kind => push_record(alloc, text, kind, self.pid, &self.bytes),
        }
    }

    /// The text of a tool, or the line of its refusal.
    fn push_report(
        &self,
        alloc: Global,
        text: &mut Text,
        programs: &[Program],
    ) -> Result<(), NoMemory>
        ensures { OnOk result (text.new ≡ text.old ++ report self.now programs.now self.now.refusal) }
    {
        match self.refusal {
            None => self.push_text(alloc, text, programs),
            Some(errno) => push_refusal(text, tool_name(self.kind).as_bytes(), self.pid, errno),
        }
    }

    /// What the tool prints: nothing until it has finished; then its text, or the line of its refusal.
    #[tactic(auto, unfolding(crate::specs::Tools::printed))]
    pub fn print(&self, alloc: Global, programs: &[Program]) -> Result<Bytes, NoMemory>
        ensures { IfOk result (λ text. text ≡ printed self.now programs.now) }
    {
        let mut text = Text::new(alloc)?;
        if self.has_ended() {
            self.push_report(alloc, &mut text, programs)?;
        }
        Ok(text.into_bytes())
    }
}
