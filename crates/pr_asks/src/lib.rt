//! What a debugger from outside asks for, line by line, and how it is answered: lines from a source, the calls and
//! other wishes that they are, and replies as lines. Calls and replies are written as a history writes them.
#![tactic(auto)]

mod asks;
mod call_lines;
mod message_lines;
mod replies;

pub use asks::{Ask, AskKind, Unasked, read_ask};
pub use replies::{write_count, write_entries, write_reply};
