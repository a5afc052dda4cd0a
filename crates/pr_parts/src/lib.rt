//! What the parts of a process do, each alone: address spaces, watched areas, signals, files. Here stand the
//! definitions, on which both the crates that do it and the definitions of the whole machine rest.
#![tactic(auto)]

mod actions;
mod files;
mod signals;

pub use actions::Action;
pub use files::{FileNo, Stat};
pub use signals::Queued;
