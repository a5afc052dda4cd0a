//! Laws of truss with calls of functions (`-u`). Each public function carries one law in its contract, and does
//! nothing.
#![tactic(auto)]

mod called;
mod ended;
mod events;
mod handled;
mod holds;
mod kinds;
mod leaving;
mod lifted;
mod lines;
mod listed;
mod looks;
mod messages;
mod met;
mod named;
mod once;
mod opened;
mod ordinary;
mod planted;
mod polls;
mod refusals;
mod returns;
mod soon;
mod steps;
mod stretches;
mod texts;
mod told;
mod treated;
mod turns;

pub use called::in_each_history_calls_are_turns;
pub use ended::it_closes_all_files_of_what_has_ended;
pub use events::{at_most_one_event_is_unread, each_event_is_told_by_the_next_read};
pub use handled::{
    beside_its_breakpoints_it_handles_what_it_was_given, each_given_process_is_held_or_refused,
};
pub use holds::{
    from_the_wait_of_an_opening_no_event_comes,
    it_gets_hold_of_a_process_once_and_closes_nothing_meanwhile,
    it_watches_a_process_while_it_has_hold_of_it,
};
pub use kinds::{truss_looks_at_each_new_event, what_each_event_is_to_breakpoints};
pub use leaving::an_interrupted_truss_lifts_clears_and_closes;
pub use lifted::a_breakpoint_is_lifted_for_one_lwp_alone;
pub use lines::{each_reply_tells_at_most_one_call, the_calls_reported_are_those_told};
pub use listed::{
    a_process_stands_still_while_old_stops_are_left, in_each_history_events_are_shown,
};
pub use looks::{it_looks_at_a_process_in_place, it_looks_at_what_a_poll_named};
pub use messages::{
    the_calls_that_truss_traces_are_words_of_its_options, what_truss_reads_plants_and_lifts,
};
pub use met::{each_call_told_was_met_at_its_breakpoint, the_calls_reported_were_met};
pub use named::{
    it_runs_or_closes_what_a_poll_named_before_it_polls_again,
    what_a_poll_named_by_its_handle_is_soon_run_or_closed,
};
pub use once::it_shows_no_stop_twice;
pub use opened::{
    an_interrupt_leaves_one_lwp_alone, each_breakpoint_is_lifted_for_one_lwp_alone,
    what_truss_opened_it_traces_alone,
};
pub use ordinary::{
    beside_its_breakpoints_it_is_a_truss, it_calls_closes_and_leaves_its_files_as_truss_does,
    it_shows_what_is_new, it_shows_what_it_reads_right_then,
};
pub use planted::{it_has_marked_what_its_calls_planted, what_truss_plants_it_has_read};
pub use polls::{
    it_polls_its_processes_in_the_order_of_its_opens, it_polls_soon_by_its_functions_and_files,
};
pub use refusals::{
    it_tells_no_refusal_of_what_it_has_hold_of, it_tells_refusals_before_its_first_poll_alone,
};
pub use returns::a_breakpoint_is_planted_again_first;
pub use soon::what_a_poll_named_is_soon_run_or_closed;
pub use steps::{
    a_step_goes_on_until_its_own_turn, a_step_runs_the_representative_alone,
    a_step_that_is_left_alone_goes_on, a_stepped_lwp_halts_at_one_event,
    beside_a_step_other_lwps_only_stop,
};
pub use stretches::{
    a_process_that_is_stopped_on_an_event_is_frozen, no_other_lwp_begins_an_instruction,
};
pub use texts::{
    it_reads_memory_for_its_lines_alone, it_reads_memory_right_behind_its_event,
    the_memory_of_a_line_is_that_of_its_event, the_memory_of_a_line_is_that_of_its_moment,
    what_stands_in_its_lines_is_what_it_read,
};
pub use told::{in_each_history_each_step_is_told, in_each_history_only_turns_are_told};
pub use treated::what_an_event_asks_for_comes_before_the_run;
pub use turns::{
    a_call_told_is_the_one_turn_of_its_lwp, a_turn_whose_trap_is_read_is_told,
    calls_have_their_turns_in_order,
};
