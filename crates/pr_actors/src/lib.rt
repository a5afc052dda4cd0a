//! Who acts in a scenario, before the first move: the kernel in its first state, whose lwps and clock move, and the
//! controllers of its plans. And what controllers print.
#![tactic(auto)]

mod controllers;
mod reports;
mod starts;

pub use reports::add_report;
pub use starts::{Actors, actors_of, kern_of};
