//! The files of the process file system that are read (proc(4)): what each gives, filled from the state.
#![tactic(auto)]

mod descriptors;
mod lists;
mod memory;
mod processes;
mod statuses;
mod views;

pub use descriptors::fds_bytes;
pub use lists::{list_bytes, lstatus_bytes, map_bytes, watch_bytes};
pub use processes::{psinfo_bytes, psinfo_of, usage_bytes, usage_of};
pub use statuses::{lwpstatus_of, status_of};
pub use views::{lwpstatus_bytes, outlives, status_bytes, view_record};
