//! What the program writes, from a history to a sink, in blocks of lines.
#![tactic(auto)]

mod cuts;
mod lines;
mod plains;
mod refusals;
mod reports;
mod runs;

pub use cuts::Cut;
pub use plains::write_plain;
pub use refusals::{refusal_line, write_refusal};
pub use reports::{Printer, Report};
pub use runs::{Showing, write_run};
