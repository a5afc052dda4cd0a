//! Debuggers from outside: a kernel with the controllers of a scenario, driven line by line by one more controller,
//! whose calls come from a source and whose replies go to a sink.
#![tactic(auto)]

mod answers;
mod commands;
mod ends;
mod laws;
mod moves;
mod places;
mod readings;
mod reports;
mod rounds;
mod seats;
mod serving;
mod sessions;
mod waits;

pub use commands::{Work, work_of};
pub use ends::{Status, number};
pub use laws::the_outside_has_its_turn_behind_the_controllers;
pub use serving::serve;
