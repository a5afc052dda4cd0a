//! gcore(1) as a controller of the kernel, the bytes of a core both ways, which is what it writes of a process, and the
//! proc tools over a core.
#![tactic(auto)]

mod core_lines;
mod core_memory;
mod core_stacks;
mod core_tools;
mod cores;
mod decoding;
mod encoding;
mod entries;
mod faults;
mod gcore_stages;
mod gcores;
mod laws;
mod memory_walks;
mod pieces;
mod record_sections;
mod records;
mod sections;
mod snapshots;
mod words;

pub use core_tools::tool_over_core;
pub use cores::Core;
pub use faults::CoreFault;
pub use gcores::Gcore;
pub use laws::{
    a_core_cut_off_is_short, a_core_has_one_spelling, a_fault_stands_in_the_bytes,
    sections_are_records, what_follows_a_core_is_bad,
};
pub use snapshots::tools_over_a_snapshot_show_the_process;
