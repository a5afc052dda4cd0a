//! What a worker of a run on several threads has of its own, between two turns.
use pr_lock::{Logged, Seat};

/// How far a worker has come. It goes with the worker from one thread to another.
#[derive(Drop)]
pub struct Duty<V: Logged> {
    /// Its seat at the lock.
    pub seat: Seat<V>,
    /// The lwp that it moved last.
    pub last: Option<(u32, u32)>,
    /// The number of its next turn.
    pub turn: u64,
    /// It has made its last turn.
    pub has_stopped: bool,
}
