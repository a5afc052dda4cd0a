ghost use Rattle.std.specs.Prelude.{◌≡◌, IfOk};
ghost use Rattle.pr_model.specs.Handles.{is_writable};

use pr_num::{Bytes, Errno, Handles, Name, NoMemory};
use std::alloc::Global;

/// A file of the process file system (proc(4)).
#[derive(Clone, Copy, Debug, PartialEq, Eq)]
pub enum File {
    /// Takes control messages to the process.
    Ctl,
    /// The process and its representative lwp.
    Status,
    /// Every lwp of the process.
    Lstatus,
    /// What ps(1) shows.
    Psinfo,
    /// The mappings.
    Map,
    /// What the process has used.
    Usage,
    /// The address space, `as`.
    Mem,
    /// The dispositions of all signals.
    Sigact,
    /// The watched areas.
    Watch,
    /// The open descriptors.
    Fds,
    /// Takes control messages to one lwp.
    Lwpctl,
    /// One lwp.
    Lwpstatus,
}

/// How a process file is opened (proc(4), "PROGRAMMING NOTES").
#[derive(Clone, Copy, Debug, PartialEq, Eq)]
pub enum Mode {
    /// For reading.
    Read,
    /// For writing.
    Write,
    /// For writing, while nobody else has the process open for writing.
    WriteExcl,
}

impl Mode {
    /// Whether a file that is opened so can be written.
    pub fn is_writable(self) -> bool
        ensures { result ≡ is_writable self }
    {
        match self {
            Mode::Read => false,
            Mode::Write | Mode::WriteExcl => true,
        }
    }
}

/// A call that a controller makes of the kernel.
#[derive(Drop)]
pub enum Call {
    /// Opens a file of a process. `lwp` is the lwp's id for a file of one lwp, else 0.
    Open {
        pid: u32,
        lwp: u32,
        file: File,
        mode: Mode,
    },
    Close {
        handle: u32,
    },
    /// Writes control messages, of which the first is handled.
    Ctl {
        handle: u32,
        bytes: Bytes,
    },
    /// Waits as the first of these messages asks. `until` is the clock at which the wait ends in any case; 0 sets no
    /// such end.
    CtlWait {
        handle: u32,
        until: u64,
        bytes: Bytes,
    },
    /// Reads `len` bytes from byte `at` on.
    Read {
        handle: u32,
        at: u64,
        len: u64,
    },
    /// Waits until one of these handles is ready (poll(2)).
    Poll {
        handles: Handles,
    },
    /// Interrupts the wait of a controller.
    Interrupt {
        controller: u32,
    },
    /// Makes a process of a program; `held`: it is directed to stop before it runs.
    Spawn {
        program: Name,
        held: bool,
    },
    /// Sends a signal to a process (kill(2)).
    Kill {
        pid: u32,
        sig: u64,
    },
    /// Waits until the clock has reached a moment, in milliseconds.
    Until {
        moment: u64,
    },
    /// Lists the processes.
    List,
}

impl Call {
    /// The same call again.
    pub fn copy(&self, alloc: Global) -> Result<Call, NoMemory>
        ensures { IfOk result (λ copy. copy ≡ self.now) }
    {
        Ok(match self {
            Call::Open {
                pid,
                lwp,
                file,
                mode,
            } => Call::Open {
                pid: *pid,
                lwp: *lwp,
                file: *file,
                mode: *mode,
            },
            Call::Close { handle } => Call::Close { handle: *handle },
            Call::Ctl { handle, bytes } => Call::Ctl {
                handle: *handle,
                bytes: bytes.copy(alloc)?,
            },
            Call::CtlWait {
                handle,
                until,
                bytes,
            } => Call::CtlWait {
                handle: *handle,
                until: *until,
                bytes: bytes.copy(alloc)?,
            },
            Call::Read { handle, at, len } => Call::Read {
                handle: *handle,
                at: *at,
                len: *len,
            },
            Call::Poll { handles } => Call::Poll {
                handles: handles.copy(alloc)?,
            },
            Call::Interrupt { controller } => Call::Interrupt {
                controller: *controller,
            },
            Call::Spawn { program, held } => Call::Spawn {
                program: *program,
                held: *held,
            },
            Call::Kill { pid, sig } => Call::Kill {
                pid: *pid,
                sig: *sig,
            },
            Call::Until { moment } => Call::Until { moment: *moment },
            Call::List => Call::List,
        })
    }
}

/// What the kernel answers to a call.
#[derive(Drop)]
pub enum Reply {
    /// The new handle of an open.
    Handle(u32),
    Done,
    /// So many bytes of control messages were handled.
    Used(u64),
    /// The first half of a message that waits was done; the wait is to be made until this clock, 0 for no end.
    Half(u64),
    Bytes(Bytes),
    /// The id of the process that was made.
    Pid(u32),
    /// The handle that is ready.
    Ready(u32),
    Fail(Errno),
}
