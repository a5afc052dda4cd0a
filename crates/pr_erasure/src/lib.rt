//! The law that tracing is transparent: what controllers do to stop, run and read processes is nothing to the programs
//! that run in them. Each public function carries one law in its contract, and does nothing.
#![tactic(auto)]

mod calls;
mod faults;
mod hidden;
mod transparency;
mod turns;

pub use calls::calls_see_what_programs_see;
pub use faults::no_instruction_incurs_flttrace;
pub use hidden::{directed_stop_is_hidden, stopping_and_running_are_hidden};
pub use transparency::tracing_is_transparent;
pub use turns::{erasure_follows_a_transition, erasure_follows_an_end};
