//! Control messages: what controllers ask of processes and lwps (proc(4), "CONTROL MESSAGES"), and the waits that some
//! of them ask for.
#![tactic(auto)]

mod agents;
mod aims;
mod directing;
mod handles;
mod lending;
mod lwp_changes;
mod memory;
mod messages;
mod process_runs;
mod running;
mod settings;
mod signals;
mod targets;
mod waits;
mod watching;

pub use agents::{AgentNo, add_agent};
pub use handles::{is_control, is_of_lwp, own};
pub use messages::{control, first_message, tail};
pub use process_runs::{run, run_refused};
pub use running::is_asleep;
pub use targets::{target, target_stopped};
pub use waits::control_wait;
