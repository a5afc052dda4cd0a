//! Lines from a source, one at a time: nothing is read while a whole line is there. So a program can answer a line
//! before the next one has come.
#![tactic(auto)]

mod lines;

pub use lines::{LINE_BYTES, Lines};
