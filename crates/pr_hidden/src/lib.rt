//! What a controller hides from the programs that run: its breakpoints, the steps over them, and its agents. Each
//! public function carries one law in its contract, and does nothing.
#![tactic(auto)]

mod changes;
mod hidden;
mod history;
mod nobody;
mod patches;
mod steps;
mod turns;
mod writes;

pub use changes::{calls_spare_patches, changes_are_followed, instructions_spare_patches};
pub use hidden::{
    an_own_agent_is_hidden, clearing_an_own_fault_is_hidden, patching_is_hidden,
    what_controllers_set_is_hidden,
};
pub use history::{breakpoints_and_agents_are_hidden, what_is_traced_is_among_the_steps};
pub use nobody::where_nobody_hides_all_is_seen;
pub use patches::{
    bytes_written_where_a_patch_is_noted_are_hidden, stores_into_patches_are_hidden,
    what_is_read_stands_there, what_is_written_back_is_no_patch,
};
pub use steps::{
    breakpoints_are_hidden, open_turns_are_steps, stepped_instructions_are_instructions,
    stepped_returns_are_hidden,
};
pub use turns::turns_are_followed;
pub use writes::tidy_writes_are_hidden;
