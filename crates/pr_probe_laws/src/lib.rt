//! Laws of apfiles: what it writes over in the memory of a process it puts back, the sets by which a process is traced
//! it sets back, it runs the process again, its text is that of one state, the line of a refusal tells why it was
//! refused, it makes the calls of its table alone, and programs see nothing of it where it is left alone. Each public
//! function carries one law in its contract, and does nothing.
#![tactic(auto)]

mod endings;
mod hidden;
mod one_state;
mod own_calls;
mod put_back;
mod sets_back;

pub use endings::{
    apfiles_runs_its_process_again, apfiles_takes_back_its_request,
    apfiles_tells_why_it_was_refused,
};
pub use hidden::{
    apfiles_is_hidden, apfiles_is_refused_nothing_while_it_hides_something,
    apfiles_waits_until_its_agent_has_ended,
};
pub use one_state::apfiles_shows_one_state;
pub use own_calls::{
    apfiles_makes_its_own_calls, apfiles_opens_its_own_process_alone,
    apfiles_that_has_finished_has_nothing_open,
};
pub use put_back::apfiles_puts_back_what_it_wrote_over;
pub use sets_back::apfiles_sets_the_traced_sets_back;
