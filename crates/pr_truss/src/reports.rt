use crate::texts::MemoryRead;
use pr_num::{Errno, Name};
use pr_rec::LwpStatus;

/// What truss learnt and tells.
#[derive(Clone, Copy)]
pub enum Report {
    /// The process of a program was not made.
    CannotStart {
        program: Name,
        errno: Errno,
    },
    /// A process could not be opened.
    CannotTrace {
        pid: u32,
        errno: Errno,
    },
    /// A selected event of an lwp, with the memory that its line asks for, where it was read.
    Event {
        pid: u32,
        lwp: LwpStatus,
        text: Option<MemoryRead>,
    },
    /// A call of a function (`-u`), by its place in the options' list, whose first instruction an lwp has run; with r1
    /// to r3 before that instruction.
    Called {
        pid: u32,
        lwp: u32,
        function: usize,
        arguments: [u64; 3],
    },
}
