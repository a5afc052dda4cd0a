//! Laws of the proc tools: what a tool prints is how things were in one state, which calls it makes and why it was
//! refused, and what it has done to its process.
//! Each public function carries one law in its contract, and does nothing.
#![tactic(auto)]

mod calls;
mod handles;
mod programs;
mod sent;
mod shown;
mod stacks;
mod texts;

pub use calls::{a_refused_tool_tells_why, a_tool_reads_once, tools_make_their_own_calls};
pub use handles::{
    tools_open_their_own_process_alone, tools_that_have_finished_have_nothing_open,
    tools_that_read_leave_the_system,
};
pub use programs::programs_stay_as_they_were;
pub use sent::{prun_runs_its_process, pstop_directs_its_process_to_stop};
pub use shown::{one_read_has_what_stands_there, tools_show_what_stands_there};
pub use stacks::{
    a_refused_pstack_takes_back_its_request, pstack_runs_its_process_again, pstack_shows_one_state,
};
pub use texts::{a_tools_text_is_of_one_state, what_is_read_back_is_what_stands_there};
