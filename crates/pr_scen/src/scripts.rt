//! A script as a controller of the kernel.
ghost use Rattle.std.specs.Prelude.{◌≡◌, ◌<◌, [], drop, length, map, slice_get, Ok, IfOk};
ghost use Rattle.pr_model.specs.Replies.{handle_in};
ghost use Rattle.pr_scen.specs.Bindings.{handle_of};
ghost use Rattle.pr_scen.specs.Scripts.{first_script, next_call_of, call_of, write_call, fed, with_line_over, with_bound, with_taken, with_ctl_answered, with_wait_answered, with_write_answered, present_of, with_answer};

use crate::ScriptLine;
use crate::bindings::Bindings;
use crate::script_lines::Lines;
use pr_asm::Program;
use pr_model::{Call, Reply, handle_in};
use pr_num::{Bytes, Handles, Name, NoMemory};
use std::alloc::Global;
use std::marker::Model;

/// A script on its way through its lines: it says which call it makes next, and is fed the reply. Contracts see a plain
/// record of the lines, the place of the next line, how far that line's write has come, and the handles that names
/// stand for.
#[derive(Drop)]
pub struct Script {
    lines: Lines,
    place: usize,
    taken: usize,
    wait: Option<u64>,
    bindings: Bindings,
}

impl Model for Script {
    ghost use Rattle.pr_scen.specs.Scripts.{ScriptState};

    ghost Value = { ScriptState };

    ghost view = { λ s. record { lines = s.lines; place = s.place; taken = s.taken; wait = s.wait; bindings = s.bindings } };
}

/// The length of PCREAD, the one message that is answered with bytes.
const READ_LENGTH: u64 = 24;

/// What a script's present line is, as far as its reply goes.
#[derive(Drop)]
enum Present {
    /// There is none: the script has finished.
    Over,
    /// It opens a file, and this name then stands for the handle.
    Opens(Name),
    /// It writes so many bytes.
    Writes(usize),
    /// It is over with its reply.
    Other,
}

/// The bytes from a place on, none where the place is past them.
fn bytes_left(bytes: &[u8], place: usize) -> &[u8]
    ensures { result.now ≡ drop place bytes.now }
{
    if place < bytes.len() {
        &bytes[place..]
    } else {
        &[]
    }
}

impl Script {
    /// A script before its first call. The names that it opens are kept from the start, so that no reply takes memory.
    #[tactic(auto, unfolding(crate::specs::Scripts::first_script))]
    pub fn new(alloc: Global, lines: Lines) -> Result<Script, NoMemory>
        ensures { IfOk result (λ script. script ≡ first_script lines) }
    {
        let bindings = Bindings::of(alloc, lines.as_slice())?;
        Ok(Script {
            lines,
            place: 0,
            taken: 0,
            wait: None,
            bindings,
        })
    }

    /// The handles that names stand for.
    fn handles_of(&self, alloc: Global, names: &[Name]) -> Result<Handles, NoMemory>
        ensures { IfOk result (λ handles. handles ≡ map (handle_of self.now.bindings) names.now) }
    {
        let mut handles = Vec::new(alloc);
        for name in names {
            handles.push(self.bindings.handle_of(*name))?;
        }
        Ok(Handles::from_vec(handles))
    }

    /// The call of a line of the script.
    #[tactic(auto, unfolding(crate::specs::Scripts::call_of))]
    fn call_of(&self, alloc: Global, line: &ScriptLine) -> Result<Call, NoMemory>
        ensures { IfOk result (λ call. call ≡ call_of self.now line.now) }
    {
        Ok(match line {
            ScriptLine::Open {
                pid,
                lwp,
                file,
                mode,
                ..
            } => Call::Open {
                pid: *pid,
                lwp: *lwp,
                file: *file,
                mode: *mode,
            },
            ScriptLine::Close { name } => Call::Close {
                handle: self.bindings.handle_of(*name),
            },
            ScriptLine::Read { name, at, len } => Call::Read {
                handle: self.bindings.handle_of(*name),
                at: *at,
                len: *len,
            },
            ScriptLine::Poll { names } => Call::Poll {
                handles: self.handles_of(alloc, names.as_slice())?,
            },
            ScriptLine::Write { name, bytes } => self.write_call(
                alloc,
                self.bindings.handle_of(*name),
                bytes.as_slice(),
            )?,
            ScriptLine::Interrupt { controller } => Call::Interrupt {
                controller: *controller,
            },
            ScriptLine::Spawn { program, held } => Call::Spawn {
                program: *program,
                held: *held,
            },
            ScriptLine::Kill { pid, sig } => Call::Kill {
                pid: *pid,
                sig: *sig,
            },
            ScriptLine::Until { moment } => Call::Until { moment: *moment },
            ScriptLine::List => Call::List,
        })
    }

    /// The call of a write: all bytes that are left.
    fn write_call(&self, alloc: Global, handle: u32, bytes: &[u8]) -> Result<Call, NoMemory>
        ensures { IfOk result (λ call. call ≡ write_call self.now.wait handle (drop self.now.taken bytes.now)) }
    {
        let left = bytes_left(bytes, self.taken);
        let bytes = Bytes::from_vec(Vec::from_slice(alloc, left)?);
        Ok(match self.wait {
            None => Call::Ctl { handle, bytes },
            Some(until) => Call::CtlWait {
                handle,
                until,
                bytes,
            },
        })
    }

    /// The call that the script makes next; `None` exactly where it has finished.
    #[tactic(auto, unfolding(crate::specs::Scripts::next_call_of))]
    pub fn next_call(&self, alloc: Global) -> Result<Option<Call>, NoMemory>
        ensures { IfOk result (λ call. call ≡ next_call_of self.now) }
    {
        match self.lines.as_slice().get(self.place) {
            Some(line) => Ok(Some(self.call_of(alloc, line)?)),
            None => Ok(None),
        }
    }

    /// Makes one `feed` possible without memory. A script has what it needs from the start.
    pub fn prepare(&mut self) -> Result<(), NoMemory>
        ensures done { result ≡ Ok tt }
        ensures same { self.new ≡ self.old }
    {
        Ok(())
    }

    /// Goes on to the next line.
    #[tactic(auto, unfolding(crate::specs::Scripts::with_line_over))]
    fn end_line(&mut self)
        requires { self.old.place < length self.old.lines }
        ensures { self.new ≡ with_line_over self.old }
    {
        prove!(self.place < self.lines.len());
        self.place += 1;
        self.taken = 0;
        self.wait = None;
    }

    /// Takes so many bytes off what is left of a write of `total` bytes.
    #[tactic(auto, unfolding(crate::specs::Scripts::with_taken))]
    fn take(&mut self, total: usize, n: u64)
        requires { self.old.place < length self.old.lines }
        ensures { self.new ≡ with_taken self.old total n }
    {
        if self.taken >= total || n >= (total - self.taken) as u64 {
            self.end_line();
            return;
        }
        self.taken += n as usize;
        self.wait = None;
    }

    /// The reply to a write's Ctl.
    #[tactic(auto, unfolding(crate::specs::Scripts::with_ctl_answered))]
    fn feed_ctl(&mut self, total: usize, reply: &Reply)
        requires { self.old.place < length self.old.lines }
        ensures { self.new ≡ with_ctl_answered self.old total reply.now }
    {
        match reply {
            Reply::Used(n) => self.take(total, *n),
            Reply::Bytes(_) => self.take(total, READ_LENGTH),
            Reply::Half(until) => self.wait = Some(*until),
            _ => self.end_line(),
        }
    }

    /// The reply to a write's CtlWait.
    #[tactic(auto, unfolding(crate::specs::Scripts::with_wait_answered))]
    fn feed_wait(&mut self, total: usize, reply: &Reply)
        requires { self.old.place < length self.old.lines }
        ensures { self.new ≡ with_wait_answered self.old total reply.now }
    {
        match reply {
            Reply::Used(n) => self.take(total, *n),
            _ => self.end_line(),
        }
    }

    /// The reply to a write's call.
    fn feed_write(&mut self, total: usize, reply: &Reply)
        requires { self.old.place < length self.old.lines }
        ensures { self.new ≡ with_write_answered self.old.wait self.old total reply.now }
    {
        match self.wait {
            None => self.feed_ctl(total, reply),
            Some(_) => self.feed_wait(total, reply),
        }
    }

    /// A name stands for a handle from now on.
    fn bind(&mut self, name: &Name, handle: u32)
        ensures { self.new ≡ with_bound self.old name.now handle }
    {
        self.bindings.bind(*name, handle);
    }

    /// The reply to an open.
    fn feed_open(&mut self, name: &Name, reply: &Reply)
        requires { self.old.place < length self.old.lines }
        ensures { self.new ≡ with_line_over (with_bound self.old name.now (handle_in reply.now)) }
    {
        self.bind(name, handle_in(reply));
        self.end_line();
    }

    /// What the present line is.
    #[tactic(auto, unfolding(crate::specs::Scripts::present_of))]
    fn present(&self) -> Present
        ensures { result ≡ present_of (slice_get self.now.lines self.now.place) }
    {
        match self.lines.as_slice().get(self.place) {
            None => Present::Over,
            Some(ScriptLine::Open { name, .. }) => Present::Opens(*name),
            Some(ScriptLine::Write { bytes, .. }) => Present::Writes(bytes.as_slice().len()),
            Some(_) => Present::Other,
        }
    }

    /// What a script has to say: nothing.
    pub fn print(&self, alloc: Global, _programs: &[Program]) -> Result<Bytes, NoMemory>
        ensures { IfOk result (λ text. text ≡ []) }
    {
        Ok(Bytes::from_vec(Vec::new(alloc)))
    }

    /// Takes the reply to the call that `next_call` gave. Takes no memory.
    #[tactic(auto, unfolding(crate::specs::Scripts::fed, crate::specs::Scripts::with_answer, crate::specs::Scripts::present_of))]
    pub fn feed(&mut self, reply: &Reply)
        ensures { self.new ≡ fed self.old reply.now }
    {
        match self.present() {
            Present::Over => {}
            Present::Opens(name) => self.feed_open(&name, reply),
            Present::Writes(total) => self.feed_write(total, reply),
            Present::Other => self.end_line(),
        }
    }
}
