//! apfiles as a controller of the kernel.
ghost use Rattle.std.specs.Prelude.{◌≡◌, ◌==◌, ◌++◌, take, Ok, IfOk, OnOk};
ghost use Rattle.pr_num.specs.Layout.{text_base};
ghost use Rattle.pr_num.specs.Messages.{tail_length};
ghost use Rattle.pr_num.specs.Records.{lwpstatus_ranges};
ghost use Rattle.pr_num.specs.Errnos.{errno_number};
ghost use Rattle.pr_rec.specs.Fields.{number_or_zero};
ghost use Rattle.pr_rec.specs.Reading.{record_read};
ghost use Rattle.pr_probe.specs.AgentCode.{agent_registers, code_size, stack_size};
ghost use Rattle.pr_probe.specs.ProbeStages.{lwp_of, file_of, mode_of};
ghost use Rattle.pr_probe.specs.Probes.{first_probe, handle_of, message_to, write_of, set_call, poll_agent, read_of, asking_call, call_of, next_call_of, at_stage, with_run_next, with_next, advanced, with_opened, refused, with_status, with_map, shows_open, with_answer, with_kind, after_poll, asking_accepted, accepted, refusal_in, fed, has_ended};
ghost use Rattle.pr_probe.specs.ProbeText.{report, printed};

use crate::agent_code::{CODE_SIZE, EXIT_PC, STACK_SIZE, agent_registers, planted};
use crate::descriptor_lines::{OpenDescriptor, kind_in, push_apfiles};
use crate::probe_stages::{
    AskingStep, ProbeFile, ProbeStage, file_of, is_passed_over, lwp_of, mode_of, place_of,
    stage_after, stage_asked, way_out,
};
use crate::regions::has_room;
use crate::traced_sets::{SetKind, TracedSets, is_watched, trace_message};
use pr_model::{Call, Reply, number_of, opened_in, until_in};
use pr_msg::{Message, encode};
use pr_num::layout::{STACK_BASE, TEXT_BASE};
use pr_num::limits::{DESCRIPTOR_LIMIT, READ_LIMIT};
use pr_num::{Bytes, Errno, FdKind, NoMemory};
use pr_rec::LwpStatus;
use pr_text::{Text, front};
use pr_tools::{Opened, bytes_read, ctl, poll, process_stands, push_refusal, wait};
use std::alloc::Global;
use std::marker::Model;

/// How many bytes are read of what fstat(2) wrote: the word of the kind.
const KIND_SIZE: u64 = 8;

/// apfiles on its way: it says which call it makes next, and is fed the reply. Contracts see a plain record of where it
/// is and of what it has saved and read.
///
/// The room for what it keeps is there from the start, so that no reply takes memory.
#[derive(Drop)]
pub struct Probe {
    pid: u32,
    opened: Opened,
    stage: ProbeStage,
    until: u64,
    stood: bool,
    watched: bool,
    sets: TracedSets,
    code: Vec<u8>,
    stack: Vec<u8>,
    lines: Vec<OpenDescriptor>,
    refusal: Option<Errno>,
}

impl Model for Probe {
    ghost use Rattle.std.specs.Prelude.{◌≤◌, vec_capacity};
    ghost use Rattle.pr_num.specs.Limits.{descriptor_limit};
    ghost use Rattle.pr_probe.specs.AgentCode.{code_size, stack_size};
    ghost use Rattle.pr_probe.specs.Probes.{ProbeState};

    ghost Value = { ProbeState };

    ghost view = { λ p. record {
      pid = p.pid;
      opened = p.opened;
      stage = p.stage;
      until = p.until;
      stood = p.stood;
      watched = p.watched;
      sets = p.sets;
      code = p.code.items;
      stack = p.stack.items;
      lines = p.lines.items;
      refusal = p.refusal;
    } };

    ghost invariant = { λ p. (code_size ≤ vec_capacity p.code) × (stack_size ≤ vec_capacity p.stack)
        × (descriptor_limit ≤ vec_capacity p.lines) };
}

/// Whether a call gave no errno.
fn is_none(errno: Option<Errno>) -> bool
    ensures { result ≡ (number_or_zero errno_number errno == 0) }
{
    match errno {
        None => true,
        Some(_) => false,
    }
}

/// Whether the status of an lwp shows that its call gave no errno.
#[tactic(auto, unfolding(crate::specs::Probes::shows_open))]
fn shows_open(bytes: &[u8]) -> bool
    ensures { result ≡ shows_open (record_read lwpstatus_ranges bytes.now) }
{
    match LwpStatus::decode(bytes) {
        Ok(status) => is_none(status.errno),
        Err(_) => false,
    }
}

/// The errno with which a reply refuses a stage.
#[tactic(auto, unfolding(crate::specs::Probes::refusal_in))]
fn refusal_in(stage: ProbeStage, reply: &Reply) -> Option<Errno>
    ensures { result ≡ refusal_in stage reply.now }
{
    match reply {
        Reply::Fail(errno) => {
            if is_passed_over(stage, *errno) {
                None
            } else {
                Some(*errno)
            }
        }
        _ => None,
    }
}

impl Probe {
    /// apfiles before its first call. All the memory that its replies need is taken here.
    #[tactic(auto, unfolding(crate::specs::Probes::first_probe))]
    pub fn new(alloc: Global, pid: u32) -> Result<Probe, NoMemory>
        ensures { IfOk result (λ probe. probe ≡ first_probe pid) }
    {
        let code = Vec::with_capacity(alloc, CODE_SIZE)?;
        let stack = Vec::with_capacity(alloc, STACK_SIZE)?;
        let lines = Vec::with_capacity(alloc, DESCRIPTOR_LIMIT)?;
        Ok(Probe {
            pid,
            opened: Opened::nothing(),
            stage: ProbeStage::Open(ProbeFile::Control),
            until: 0,
            stood: false,
            watched: false,
            sets: TracedSets::nothing(),
            code,
            stack,
            lines,
            refusal: None,
        })
    }

    /// Which process it is of.
    pub fn pid(&self) -> u32
        ensures { result ≡ self.now.pid }
    {
        self.pid
    }

    /// The handle of a file, where that is open.
    fn handle(&self, file: ProbeFile) -> Option<u32>
        ensures { result ≡ handle_of self.now file }
    {
        self.opened.at(place_of(file))
    }

    /// The call that opens a file.
    fn open(&self, file: ProbeFile) -> Call
        ensures { result ≡ Call.Open self.now.pid (lwp_of file) (file_of file) (mode_of file) }
    {
        Call::Open {
            pid: self.pid,
            lwp: lwp_of(file),
            file: file_of(file),
            mode: mode_of(file),
        }
    }

    /// The call that reads what a file shows.
    fn read(&self, file: ProbeFile) -> Call
        ensures { result ≡ read_of self.now file }
    {
        Call::Read {
            handle: number_of(self.handle(file)),
            at: 0,
            len: READ_LIMIT,
        }
    }

    /// The call that sends a message, which has nothing after its fixed part.
    fn send(&self, alloc: Global, file: ProbeFile, message: &Message) -> Result<Call, NoMemory>
        requires { tail_length message.now ≡ 0 }
        ensures { IfOk result (λ call. call ≡ message_to self.now file message.now) }
    {
        ctl(alloc, self.handle(file), message)
    }

    /// The call that sets one of the traced sets.
    fn trace(&self, alloc: Global, kind: SetKind, sets: &TracedSets) -> Result<Call, NoMemory>
        ensures { IfOk result (λ call. call ≡ set_call self.now kind sets.now) }
    {
        self.send(
            alloc,
            ProbeFile::Control,
            &trace_message(kind, sets.word(kind)),
        )
    }

    /// The call that reads memory.
    #[tactic(auto, unfolding(pr_num::specs::Messages::tail_length))]
    fn read_memory(&self, alloc: Global, at: u64, len: u64) -> Result<Call, NoMemory>
        ensures { IfOk result (λ call. call ≡ message_to self.now ProbeFile.Control (Message.Read at len)) }
    {
        self.send(alloc, ProbeFile::Control, &Message::Read { at, len })
    }

    /// The call that writes memory.
    #[tactic(auto, unfolding(pr_num::specs::Messages::tail_length))]
    fn write_memory(&self, alloc: Global, at: u64, bytes: &[u8]) -> Result<Call, NoMemory>
        ensures { IfOk result (λ call. call ≡ write_of self.now at bytes.now) }
    {
        let message = Message::Write {
            at,
            len: bytes.len() as u64,
        };
        let bytes = encode(alloc, &message, bytes)?;
        Ok(Call::Ctl {
            handle: number_of(self.handle(ProbeFile::Control)),
            bytes,
        })
    }

    /// The call that runs the process or the agent.
    #[tactic(auto, unfolding(pr_num::specs::Messages::tail_length))]
    fn run(&self, alloc: Global, file: ProbeFile) -> Result<Call, NoMemory>
        ensures { IfOk result (λ call. call ≡ message_to self.now file (Message.Run 0)) }
    {
        self.send(alloc, file, &Message::Run { flags: 0 })
    }

    /// The call that sets the registers of the agent.
    #[tactic(auto, unfolding(pr_num::specs::Messages::tail_length))]
    fn set_registers(&self, alloc: Global, descriptor: u32, pc: u64) -> Result<Call, NoMemory>
        ensures { IfOk result
            (λ call. call ≡ message_to self.now ProbeFile.AgentControl (Message.Sreg (agent_registers descriptor pc))) }
    {
        let regs = agent_registers(descriptor, pc);
        self.send(alloc, ProbeFile::AgentControl, &Message::Sreg { regs })
    }

    /// The call that makes the agent.
    #[tactic(auto, unfolding(pr_num::specs::Messages::tail_length))]
    fn make_agent(&self, alloc: Global) -> Result<Call, NoMemory>
        ensures { IfOk result
            (λ call. call ≡ message_to self.now ProbeFile.Control (Message.Agent (agent_registers 0 text_base))) }
    {
        let regs = agent_registers(0, TEXT_BASE);
        self.send(alloc, ProbeFile::Control, &Message::Agent { regs })
    }

    /// The call that waits for the agent.
    fn poll_agent(&self, alloc: Global) -> Result<Call, NoMemory>
        ensures { IfOk result (λ call. call ≡ poll_agent self.now) }
    {
        poll(alloc, self.handle(ProbeFile::AgentControl))
    }

    /// The call of a step of asking for a descriptor.
    #[tactic(auto, unfolding(crate::specs::Probes::asking_call))]
    fn ask(&self, alloc: Global, descriptor: u32, step: AskingStep) -> Result<Call, NoMemory>
        ensures { IfOk result (λ call. call ≡ asking_call self.now descriptor step) }
    {
        match step {
            AskingStep::SetRegisters => self.set_registers(alloc, descriptor, TEXT_BASE),
            AskingStep::Run => self.run(alloc, ProbeFile::AgentControl),
            AskingStep::Await => self.poll_agent(alloc),
            AskingStep::ReadAgent => Ok(self.read(ProbeFile::AgentStatus)),
            AskingStep::ReadKind => self.read_memory(alloc, STACK_BASE, KIND_SIZE),
        }
    }

    /// The call that closes the file that was opened last.
    #[tactic(auto, unfolding(crate::specs::Probes::call_of))]
    fn close(&self) -> Option<Call>
        ensures { result ≡ call_of self.now ProbeStage.Close }
    {
        let handle = self.opened.last()?;
        Some(Call::Close { handle })
    }

    /// The call that apfiles makes next; `None` exactly where it has finished.
    #[tactic(auto, unfolding(crate::specs::Probes::next_call_of, crate::specs::Probes::call_of, pr_num::specs::Messages::tail_length))]
    pub fn next_call(&self, alloc: Global) -> Result<Option<Call>, NoMemory>
        ensures { IfOk result (λ call. call ≡ next_call_of self.now) }
    {
        let call = match self.stage {
            ProbeStage::Open(file) => self.open(file),
            ProbeStage::ReadFirst => self.read(ProbeFile::Lstatus),
            ProbeStage::Stop => self.send(alloc, ProbeFile::Control, &Message::Stop)?,
            ProbeStage::AwaitStop => wait(alloc, self.handle(ProbeFile::Control), self.until)?,
            ProbeStage::ReadStatus => self.read(ProbeFile::Status),
            ProbeStage::ReadMap => self.read(ProbeFile::Map),
            ProbeStage::SaveCode => self.read_memory(alloc, TEXT_BASE, CODE_SIZE as u64)?,
            ProbeStage::SaveStack => self.read_memory(alloc, STACK_BASE, STACK_SIZE as u64)?,
            ProbeStage::Trace(kind) => self.trace(alloc, kind, &TracedSets::of_agent())?,
            ProbeStage::MakeAgent => self.make_agent(alloc)?,
            ProbeStage::PlantCode => self.write_memory(alloc, TEXT_BASE, &planted())?,
            ProbeStage::Asking(descriptor, step) => self.ask(alloc, descriptor, step)?,
            ProbeStage::UntraceExits => {
                self.trace(alloc, SetKind::Exits, &TracedSets::nothing())?
            }
            ProbeStage::SetExit => self.set_registers(alloc, 0, EXIT_PC)?,
            ProbeStage::RunExit => self.run(alloc, ProbeFile::AgentControl)?,
            ProbeStage::AwaitExit => self.poll_agent(alloc)?,
            ProbeStage::WriteCode => self.write_memory(alloc, TEXT_BASE, &self.code)?,
            ProbeStage::WriteStack => self.write_memory(alloc, STACK_BASE, &self.stack)?,
            ProbeStage::Retrace(kind) => self.trace(alloc, kind, &self.sets)?,
            ProbeStage::Restore(kind) => self.trace(alloc, kind, &self.sets)?,
            ProbeStage::Run | ProbeStage::Release => self.run(alloc, ProbeFile::Control)?,
            ProbeStage::Close => return Ok(self.close()),
        };
        Ok(Some(call))
    }

    /// Makes one `feed` possible without memory. apfiles has what it needs from the start.
    pub fn prepare(&mut self) -> Result<(), NoMemory>
        ensures done { result ≡ Ok tt }
        ensures same { self.new ≡ self.old }
    {
        Ok(())
    }

    /// Goes to a stage.
    fn go_to(&mut self, stage: ProbeStage)
        ensures { self.new ≡ at_stage self.old stage }
    {
        self.stage = stage;
    }

    /// Goes to the running of the process, unless that stood before.
    #[tactic(auto, unfolding(crate::specs::Probes::with_run_next))]
    fn run_next(&mut self, run: ProbeStage)
        ensures { self.new ≡ with_run_next self.old run }
    {
        if self.stood {
            self.go_to(ProbeStage::Close);
        } else {
            self.go_to(run);
        }
    }

    /// Goes to a stage, where it has a call.
    #[tactic(auto, unfolding(crate::specs::Probes::with_next))]
    fn stage_on(&mut self, stage: ProbeStage)
        ensures { self.new ≡ with_next self.old stage }
    {
        match stage {
            ProbeStage::Run | ProbeStage::Release => self.run_next(stage),
            _ => self.go_to(stage),
        }
    }

    /// Goes to the stage after the present one.
    #[tactic(auto, unfolding(crate::specs::Probes::advanced))]
    fn advance(&mut self)
        ensures { self.new ≡ advanced self.old }
    {
        self.stage_on(stage_after(self.stage));
    }

    /// A file was opened.
    fn open_file(&mut self, file: ProbeFile, reply: &Reply)
        ensures { self.new ≡ advanced (with_opened self.old file reply.now) }
    {
        self.opened = self.opened.with(place_of(file), opened_in(reply));
        self.advance();
    }

    /// Takes a refusal.
    #[tactic(auto, unfolding(crate::specs::Probes::refused))]
    fn refuse(&mut self, errno: Errno)
        ensures { self.new ≡ refused self.old errno }
    {
        self.refusal = Some(errno);
        self.stage_on(way_out(self.stage));
    }

    /// Notes the traced sets, and whether the process has a watched area.
    #[tactic(auto, unfolding(crate::specs::Probes::with_status))]
    fn note_status(&mut self, bytes: &[u8])
        ensures { self.new ≡ with_status self.old bytes.now }
    {
        self.watched = is_watched(bytes);
        self.sets = TracedSets::of_status(bytes);
    }

    /// Takes the mappings. No agent is made in a process with a watched area, nor in one without room for what it does.
    #[tactic(auto, unfolding(crate::specs::Probes::with_map))]
    fn take_map(&mut self, bytes: &[u8])
        ensures { self.new ≡ with_map self.old bytes.now }
    {
        if self.watched {
            self.refuse(Errno::Busy);
        } else if has_room(bytes) {
            self.advance();
        } else {
            self.refuse(Errno::Fault);
        }
    }

    /// Saves the bytes at which the agent's code is to stand.
    fn save_code(&mut self, bytes: &[u8])
        ensures { self.new ≡ record self.old { code = take code_size bytes.now } }
    {
        self.code.clear();
        match self.code.extend_from_slice(front(bytes, CODE_SIZE)) {
            Ok(()) => {}
            Err(_) => unreachable!(),
        }
    }

    /// Saves the bytes at which fstat(2) is to answer.
    fn save_stack(&mut self, bytes: &[u8])
        ensures { self.new ≡ record self.old { stack = take stack_size bytes.now } }
    {
        self.stack.clear();
        match self.stack.extend_from_slice(front(bytes, STACK_SIZE)) {
            Ok(()) => {}
            Err(_) => unreachable!(),
        }
    }

    /// Takes what the agent's call gave.
    #[tactic(auto, unfolding(crate::specs::Probes::with_answer))]
    fn take_answer(&mut self, descriptor: u32, bytes: &[u8])
        ensures { self.new ≡ with_answer self.old descriptor bytes.now }
    {
        if shows_open(bytes) {
            self.go_to(ProbeStage::Asking(descriptor, AskingStep::ReadKind));
        } else {
            self.go_to(stage_asked(descriptor));
        }
    }

    /// Keeps what a descriptor stands for, where that was said and there is room.
    #[tactic(auto, unfolding(crate::specs::Probes::with_kind))]
    fn keep_kind(&mut self, descriptor: u32, kind: Option<FdKind>)
        ensures { self.new ≡ with_kind self.old descriptor kind }
    {
        let Some(kind) = kind else { return };
        if self.lines.len() >= DESCRIPTOR_LIMIT {
            return;
        }
        match self.lines.push(OpenDescriptor { descriptor, kind }) {
            Ok(()) => {}
            Err(_) => unreachable!(),
        }
    }

    /// Takes the answer to a wait for the agent: one that was interrupted is made again.
    #[tactic(auto, unfolding(crate::specs::Probes::after_poll))]
    fn take_poll(&mut self, reply: &Reply)
        ensures { self.new ≡ after_poll self.old reply.now }
    {
        match reply {
            Reply::Fail(_) => {}
            _ => self.advance(),
        }
    }

    /// Takes a reply to a step of asking for a descriptor.
    #[tactic(auto, unfolding(crate::specs::Probes::asking_accepted))]
    fn accept_asking(&mut self, reply: &Reply, descriptor: u32, step: AskingStep)
        ensures { self.new ≡ asking_accepted self.old reply.now descriptor step }
    {
        match step {
            AskingStep::SetRegisters | AskingStep::Run => self.advance(),
            AskingStep::Await => self.take_poll(reply),
            AskingStep::ReadAgent => self.take_answer(descriptor, bytes_read(reply)),
            AskingStep::ReadKind => {
                self.keep_kind(descriptor, kind_in(bytes_read(reply)));
                self.go_to(stage_asked(descriptor));
            }
        }
    }

    /// Takes a reply that does not refuse apfiles.
    #[tactic(auto, unfolding(crate::specs::Probes::accepted))]
    fn accept(&mut self, reply: &Reply)
        ensures { self.new ≡ accepted self.old reply.now self.old.stage }
    {
        match self.stage {
            ProbeStage::Open(file) => self.open_file(file, reply),
            ProbeStage::ReadFirst => {
                self.stood = process_stands(bytes_read(reply));
                self.advance();
            }
            ProbeStage::Stop => {
                self.until = until_in(reply);
                self.advance();
            }
            ProbeStage::ReadStatus => {
                self.note_status(bytes_read(reply));
                self.advance();
            }
            ProbeStage::ReadMap => self.take_map(bytes_read(reply)),
            ProbeStage::SaveCode => {
                self.save_code(bytes_read(reply));
                self.advance();
            }
            ProbeStage::SaveStack => {
                self.save_stack(bytes_read(reply));
                self.advance();
            }
            ProbeStage::Asking(descriptor, step) => self.accept_asking(reply, descriptor, step),
            ProbeStage::AwaitExit => self.take_poll(reply),
            ProbeStage::Close => self.opened = self.opened.without_last(),
            _ => self.advance(),
        }
    }

    /// Takes the reply to the call that `next_call` gave. Takes no memory.
    #[tactic(auto, unfolding(crate::specs::Probes::fed))]
    pub fn feed(&mut self, reply: &Reply)
        ensures { self.new ≡ fed self.old reply.now }
    {
        match refusal_in(self.stage, reply) {
            None => self.accept(reply),
            Some(errno) => self.refuse(errno),
        }
    }

    /// Whether apfiles has finished.
    #[tactic(auto, unfolding(crate::specs::Probes::has_ended, crate::specs::Probes::next_call_of, crate::specs::Probes::call_of))]
    fn has_ended(&self) -> bool
        ensures { result ≡ has_ended self.now }
    {
        match self.stage {
            ProbeStage::Close => self.opened.last().is_none(),
            _ => false,
        }
    }

    /// The text of the process, or the line of the refusal.
    fn push_report(&self, text: &mut Text) -> Result<(), NoMemory>
        ensures { OnOk result (text.new ≡ text.old ++ report self.now self.now.refusal) }
    {
        match self.refusal {
            None => push_apfiles(text, self.pid, &self.lines),
            Some(errno) => push_refusal(text, b"apfiles", self.pid, errno),
        }
    }

    /// What apfiles prints: nothing until it has finished; then a line for each descriptor that is open, or the line of
    /// its refusal.
    #[tactic(auto, unfolding(crate::specs::ProbeText::printed))]
    pub fn print(&self, alloc: Global) -> Result<Bytes, NoMemory>
        ensures { IfOk result (λ text. text ≡ printed self.now) }
    {
        let mut text = Text::new(alloc)?;
        if self.has_ended() {
            self.push_report(&mut text)?;
        }
        Ok(text.into_bytes())
    }
}
