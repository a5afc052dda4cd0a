//! What a history is to the machine without controllers: its untraced steps, and its trace.
#![tactic(auto)]

mod pasts;
mod remembering;
mod strips;
mod traces;

pub use pasts::Past;
pub use remembering::remember;
pub use strips::{push_steps, push_turn, strip};
pub use traces::{trace, trace_of_steps};
