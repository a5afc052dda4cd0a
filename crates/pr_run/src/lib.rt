//! Runs of a world: on one thread, and on several.
#![tactic(auto)]

mod attendance;
mod duties;
mod many;
mod one;
mod shared_worlds;
mod workers;

pub use many::run_many;
pub use one::run_one;
