//! Whether all workers of a run are at work at once.
use std::sync::atomic::{AtomicU64, Ordering};
use std::thread;

/// How often a worker looks whether all have come: for some hundredths of a second, or longer where the processors have
/// much to do. In that time a thread begins.
const LOOKS: u64 = 100_000;

/// What stands in the place of a count where one has looked so often.
const GIVEN_UP: u64 = 1 << 63;

/// How many workers have come to their turns, which they tell one another beside the lock. It has no meaning: it
/// decides on how many threads a run goes, and what is proved of the run holds of each way.
#[derive(Drop)]
pub struct Attendance {
    workers: u64,
    come: AtomicU64,
}

impl Attendance {
    /// Nobody has come yet, of so many workers.
    pub fn new(workers: u64) -> Attendance {
        Attendance {
            workers,
            come: AtomicU64::new(0),
        }
    }

    /// A worker comes, and waits for the others. Whether all have come: all workers are told so, or none, now or later.
    pub fn is_full(&self) -> bool {
        self.come.fetch_add(1, Ordering::SeqCst);
        for look in 0..u64::MAX {
            let come = self.come.load(Ordering::SeqCst);
            if come >= self.workers {
                return come == self.workers;
            }
            if look >= LOOKS && self.gives_up(come) {
                return false;
            }
            thread::yield_now();
        }
        false
    }

    /// Whether a worker gives up that has seen so many come: not where another has come since.
    fn gives_up(&self, come: u64) -> bool {
        self.come
            .compare_exchange(come, GIVEN_UP, Ordering::SeqCst, Ordering::SeqCst)
            .is_ok()
    }
}
