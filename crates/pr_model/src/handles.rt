use crate::{File, Mode};

/// What an open handle of the process file system stands for.
#[derive(Clone, Copy, Debug, PartialEq, Eq)]
pub struct Held {
    /// The controller that opened it.
    pub controller: u32,
    pub pid: u32,
    /// The lwp, for a file of one lwp, else 0.
    pub lwp: u32,
    pub file: File,
    pub mode: Mode,
}
