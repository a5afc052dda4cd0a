//! Laws over the definitions of pr_num and pr_model: what shows that they mean what they say. Each public function
//! carries one law in its contract, and does nothing.
#![tactic(auto)]

mod calls;
mod closes;
mod messages;
mod order;
mod runs;
mod stops;
mod untraced_runs;

pub use calls::refused_call_leaves_state;
pub use closes::nothing_is_left_after_the_last_close;
pub use messages::{
    encoded_message_is_read, no_encoding_begins_another, one_encoding_one_message,
    read_message_is_encoded,
};
pub use order::the_next_lwp_is_the_least;
pub use runs::running_a_process_stopped_on_an_event;
pub use stops::{one_lwp_is_its_process, the_representative_is_first_of_its_process};
pub use untraced_runs::untraced_runs_follow_one_another;
