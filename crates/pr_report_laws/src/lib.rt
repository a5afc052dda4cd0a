//! Laws of what truss shows: exactly the selected events of each process that it watches, once and in order. Each
//! public function carries one law in its contract, and does nothing.
#![tactic(auto)]

mod attachments;
mod business;
mod children;
mod follows;
mod grips;
mod holds;
mod lineages;
mod memories;
mod named;
mod newborns;
mod polls;
mod positions;
mod reads;
mod releases;
mod reports;
mod unfollowing;

pub use attachments::{
    a_watched_process_is_let_go_for_a_reason, an_opened_process_is_watched,
    no_process_is_watched_at_first_or_at_last, only_an_opened_process_is_watched,
};
pub use business::{
    truss_calls_files_that_it_has_open, truss_closes_all_that_it_has_of_what_has_ended,
    truss_closes_all_that_it_has_of_what_it_leaves, truss_closes_nothing_that_it_has_hold_of,
    truss_closes_the_control_file_of_a_process_last, truss_looks_at_a_process_in_its_place,
    truss_opens_each_file_in_its_place, truss_polls_soon_by_the_control_files_that_it_has_open,
    truss_prints_what_it_has_counted, truss_reads_memory_for_its_lines,
    truss_selects_what_its_options_name, truss_sends_little_once_it_has_polled,
    truss_shows_what_it_reads_right_then_and_once, truss_tells_no_refusal_of_what_it_has_hold_of,
    truss_tells_refusals_of_what_it_opens,
    truss_traces_writes_and_asks_for_no_more_than_it_is_asked,
};
pub use children::no_child_is_left;
pub use follows::{
    each_child_of_which_a_read_told_is_handled, each_child_that_was_read_is_handled,
    each_child_that_was_read_while_leaving_is_set_free, no_freeing_of_a_child_is_interrupted,
    no_opening_of_a_child_is_interrupted, truss_acts_on_a_child_just_where_a_read_told_of_it,
};
pub use grips::{the_grip_of_a_process_is_the_watch_of_it, truss_gets_hold_of_a_process_once};
pub use holds::{
    no_child_is_left_of_a_process_that_truss_had_hold_of, truss_has_one_grip_of_a_process,
    truss_lets_a_process_go_for_a_reason, truss_shows_what_came_while_it_had_hold_of_a_process,
    truss_watches_a_process_while_it_has_hold_of_it,
};
pub use lineages::{
    a_child_that_is_left_to_truss_does_nothing_before_it_is_watched,
    each_process_is_left_to_truss_where_all_children_are,
    the_grip_of_a_child_that_is_left_to_truss_is_the_watch_of_it,
    the_text_of_an_event_is_that_of_its_moment_where_it_is_left_to_truss,
    the_text_of_an_event_is_that_of_its_moment_where_truss_follows_at_the_birth,
    truss_reads_the_traced_events_of_what_is_left_to_it,
    truss_shows_the_selected_events_of_what_is_left_to_it,
    truss_shows_the_selected_events_of_what_it_follows_at_its_birth,
    what_is_left_to_truss_is_followed_at_its_birth, what_is_left_to_truss_was_left_to_it_before,
};
pub use memories::{
    the_text_of_an_event_is_that_of_its_moment, the_text_of_an_event_is_what_stood_in_memory,
};
pub use named::{
    truss_looks_at_what_a_poll_named, truss_runs_what_a_poll_has_named,
    what_a_poll_named_is_run_or_closed_within_twelve_calls,
};
pub use newborns::{a_followed_child_does_nothing_before_it_is_watched, no_process_is_made_twice};
pub use polls::truss_polls_its_processes_in_the_order_of_its_opens;
pub use positions::a_process_stands_in_one_of_four_ways_with_truss;
pub use reads::{
    truss_reads_the_traced_events, truss_reads_the_traced_events_of_what_it_never_followed,
};
pub use releases::{
    the_modes_stay_as_truss_has_set_them, truss_is_granted_the_modes,
    truss_kills_nothing_that_it_closes, truss_sets_the_modes_of_what_it_sets_free,
    truss_sets_the_modes_of_what_it_traces, what_truss_has_set_by_its_messages_is_released,
    what_truss_has_set_is_released, what_truss_has_set_stays_set, what_truss_traces_is_released,
};
pub use reports::{
    truss_shows_the_selected_events, truss_shows_the_selected_events_of_what_it_never_followed,
};
pub use unfollowing::a_process_is_unfollowed_before_it_is_left;
