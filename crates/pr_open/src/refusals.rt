use thiserror::Error;

/// Why a handle is not opened, read or closed.
#[derive(Clone, Copy, Debug, PartialEq, Eq, Error)]
pub enum OpenNo {
    /// The process is open for writing already, and one of both opens is exclusive.
    #[error("the process is open for writing")]
    Busy,
    /// 1,024 handles are open.
    #[error("too many open handles")]
    Full,
    /// The handle is not open, or is another controller's.
    #[error("no such handle")]
    BadHandle,
}
