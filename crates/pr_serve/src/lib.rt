//! What the program does: `serve` carries out what its words ask for, from a source to a sink, and says how that ended.
//! And `strip_hidden`, what programs see of a history of a scenario.
#![tactic(auto)]

mod serving;

pub use pr_commands::{Status, number, strip_hidden};
pub use serving::{Outcome, serve};
