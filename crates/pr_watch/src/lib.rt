//! Watched areas of a process (proc(4), "PCWATCH").
#![tactic(auto)]

mod accesses;
mod areas;
mod hits;
mod laws;

pub use accesses::AccessKind;
pub use areas::{Areas, WatchFault};
pub use laws::a_hit_is_the_least_watched_byte;
