//! What the inputs of several programs have in common: the line between their two parts, and how kinds of refusals of
//! scenarios are called.
#![tactic(auto)]

mod kinds;
mod marks;

pub use kinds::kind_name;
pub use marks::{Mark, lines_above};
