//! Laws of truss: what it has done when it has finished, and what it leaves. Each public function carries one law in
//! its contract, and does nothing.
#![tactic(auto)]

mod business;
mod given;
mod handles;
mod polled;
mod stills;
mod told;

pub use business::truss_does_its_own_business;
pub use given::{each_given_process_is_handled, each_handle_is_closed};
pub use handles::{nothing_stays_open, what_is_closed_is_released};
pub use polled::what_a_poll_named_is_soon_run_or_closed;
pub use stills::{
    a_frozen_process_stands_still, a_halting_process_only_stops,
    a_process_left_alone_stands_as_it_stood, a_quiet_process_halts_at_one_event,
    a_turn_leaves_other_processes_alone, other_controllers_leave_an_exclusive_process_alone,
    running_from_one_event_leaves_a_quiet_process,
};
pub use told::a_stop_tells_its_event;
