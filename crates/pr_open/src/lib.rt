//! The open handles of the process file system (proc(4)).
#![tactic(auto)]

mod laws;
mod opens;
mod refusals;

pub use laws::exclusive_handles_stay_alone;
pub use opens::Opens;
pub use pr_model::Held;
pub use refusals::OpenNo;
