//! Which processes are looked at for a turn: those that may have an lwp that can have one.
#![tactic(auto)]

mod around;
mod asking;
mod laws;
mod looks;
mod moments;
mod ready;
mod sleepers;
mod steps;
mod ticks;
mod wakes;

pub use around::{Around, Kin, around_lwp, note_around};
pub use asking::{FoundQuestion, next_ready};
pub use laws::{the_queue_is_in_order, the_sets_follow_each_step, the_sets_stay_ready};
pub use looks::renew;
pub use moments::Moments;
pub use ready::Ready;
pub use sleepers::some_sleeper;
pub use steps::{after_call, after_instruction, after_tick, after_turn};
