use pr_model::{File, Mode};
use pr_num::{Bytes, Name, Table};

/// The lines of a script, in order.
pub type Lines = Table<ScriptLine>;

/// A line of a script: a call that the script makes, with the name by which the script speaks of the handle.
#[derive(Drop)]
pub enum ScriptLine {
    /// Opens a file of a process; the name then stands for the handle. `lwp` is the lwp's id for a file of one lwp,
    /// else 0.
    Open {
        name: Name,
        pid: u32,
        lwp: u32,
        file: File,
        mode: Mode,
    },
    Close {
        name: Name,
    },
    /// Reads `len` bytes from byte `at` on.
    Read {
        name: Name,
        at: u64,
        len: u64,
    },
    /// Waits until one of these handles is ready.
    Poll {
        names: Table<Name>,
    },
    /// Writes control messages: the bytes that spell them, one after the other.
    Write {
        name: Name,
        bytes: Bytes,
    },
    /// Interrupts the wait of a controller.
    Interrupt {
        controller: u32,
    },
    /// Makes a process of a program; `held`: it is directed to stop before it runs.
    Spawn {
        program: Name,
        held: bool,
    },
    /// Sends a signal to a process.
    Kill {
        pid: u32,
        sig: u64,
    },
    /// Waits until the clock has reached a moment.
    Until {
        moment: u64,
    },
    /// Lists the processes.
    List,
}
