//! The commands of the program: what its words ask for, and how each piece of work is carried out, from a source to a
//! sink. And `strip_hidden`, what programs see of a history of a scenario.
#![tactic(auto)]

mod answers;
mod checks;
mod commands;
mod core_inputs;
mod cores;
mod hidings;
mod inputs;
mod judgements;
mod outcomes;
mod reports;
mod responses;
mod running;
mod runs;
mod sharing;
mod showings;
mod stripping;
mod wrongs;

pub use commands::{Work, work_of};
pub use hidings::strip_hidden;
pub use outcomes::{Ending, Status, number};
pub use running::carry_out;
