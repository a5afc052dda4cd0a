//! What a history is to the machine without controllers where some of them hide what they do: its steps without their
//! breakpoints, the faults of stepping over these, and their agents.
#![tactic(auto)]

mod cover_tables;
mod following;
mod hiders;
mod hiding;
mod own_faults;
mod patches;
mod seen_steps;
mod writes;

pub use hiders::{Hider, hide_nothing};
pub use hiding::strip_hidden;
pub use patches::Patch;
