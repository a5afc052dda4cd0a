//! The ends that programs have in common: the words after their names, an input that is read whole, and what a source
//! and a sink tell.
#![tactic(auto)]

mod inputs;
mod words;

pub use inputs::{Unread, take_input};
pub use words::words_after_name;
