//! What control messages and calls of controllers make of the state, and what a turn can be, as closed lists: whatever
//! is so of each of them is so of every message, call and turn. Each public function carries one law in its contract,
//! and does nothing.
#![tactic(auto)]

mod calls;
mod messages;
mod turns;

pub use calls::{calls_make_their_edits, closes_make_their_edits};
pub use messages::{
    lenders_refuse, messages_are_refused_or_make_their_edits, messages_make_their_edits,
};
pub use turns::{directed_lenders_stop, lenders_only_stop, turns_are_rows};
