//! The kernel with its history: the calls that controllers make, and the one entry that each step adds.
#![tactic(auto)]

mod as_kernel;
mod calls;
mod closes;
mod faults;
mod following;
mod interrupts;
mod kernels;
mod laws;
mod opens;
mod processes;
mod reads;
mod sending;
mod starts;
mod turns;

pub use calls::{answer, ready};
pub use closes::close;
pub use kernels::Kern;
pub use laws::made_entries_are_legal;
pub use opens::open;
pub use starts::{first_machine, keep_limits};

/// The state that a machine is in: the system, the open handles, and the interrupted controllers. Contracts see it as
/// the traced state of the definitions. `first_machine` and `answer` make and move one that keeps no history.
pub type Machine = pr_model::State<pr_proc::Sys, pr_open::Opens>;
