//! A lock over a value that stands for a list of entries. Threads take the value in turn through seats, and all
//! that they add stands in one history.
#![tactic(auto)]

mod calls;
mod logged;
mod refusals;
mod seats;
mod views;

pub use logged::Logged;
pub use refusals::NewNo;
pub use seats::{Seat, Shared};
