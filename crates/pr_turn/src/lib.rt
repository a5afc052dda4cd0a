//! One turn of an lwp.
#![tactic(auto)]

mod calls;
mod instructions;
mod making;
mod moving;
mod next;
mod turns;

pub use instructions::run_instruction;
pub use next::{Next, NextTurn};
pub use turns::{movable, movable_in, turn};
