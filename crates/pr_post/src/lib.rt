//! A process with its parts, and how signals are posted to it.
#![tactic(auto)]

mod posting;
mod processes;

pub use posting::{disposition_of, post};
pub use processes::{Lwp, Proc};
