//! pfiles by an agent (`apfiles`) as a controller of the kernel: it asks for each descriptor of a process by an agent
//! lwp that makes the call in the process itself, and puts back what it changed.
#![tactic(auto)]

mod agent_code;
mod descriptor_lines;
mod laws;
mod probe_stages;
mod probes;
mod regions;
mod traced_sets;

pub use laws::{
    a_probe_closes_what_it_opened, a_probe_ends, a_probe_keeps_its_order,
    a_probe_shows_what_its_agent_was_answered, a_probe_writes_back_what_it_saved,
    a_refused_probe_undoes_what_it_did,
};
pub use probes::Probe;
