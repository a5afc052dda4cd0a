//! Laws of cores: the core that gcore prints is that of one state, and the tools print of a core what they print of the
//! live process; and how gcore leaves its process, and why it was refused. Each public function carries one law in its
//! contract, and does nothing.
#![tactic(auto)]

mod endings;
mod handles;
mod live_tools;
mod snapshots;

pub use endings::{
    a_refused_gcore_takes_back_its_request, gcore_makes_its_own_calls,
    gcore_runs_its_process_again, gcore_tells_why_it_was_refused,
};
pub use handles::gcore_has_files_of_its_process_alone;
pub use live_tools::tools_over_a_snapshot_show_the_live_process;
pub use snapshots::gcore_shows_one_state;
