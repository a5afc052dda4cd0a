//! Laws of the runs of scenarios: what the history of a run is, and what truss, the tools and gcore may send. Each
//! public function carries one law in its contract, and does nothing.
#![tactic(auto)]

mod laws;
mod tracers;

pub use laws::{histories_of_runs_are_kept, runs_grow, scenarios_that_were_read_are_in_range};
pub use tracers::{
    calls_that_send_passive_messages_are_passive, gcore_sends_passive_messages,
    histories_of_tracers_are_passive, tools_send_passive_messages, truss_sends_passive_messages,
};
