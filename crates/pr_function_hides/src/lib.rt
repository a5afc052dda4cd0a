//! Laws of what truss with calls of functions (`-u`) hides from programs: the breakpoints that stand are those that it
//! has marked, its writes are tidy, none is left in a process that lives, nor a fault of its own, it alone steps lwps,
//! it clears faults as it runs a process, its own alone, and posts none of its own, and so programs see nothing of it.
//! Beside these stand laws of its marks: which function it steps, and which turns are calls, its calls and their
//! replies tell. Each public function carries one law in its contract, and does nothing.
//!
//! Most of them are of a run of trusses that are undisturbed (`IsRunOfTrusses`): a legal history from a state that the
//! machine reaches, in which controllers write bytes and these make their own calls, and where those who hide are each
//! a truss that shows calls of functions and that is undisturbed (`AreUndisturbed`). Whether it is interrupted is left
//! open. What else a law asks it says itself.
#![tactic(auto)]

mod clears;
mod closes;
mod copies;
mod faults;
mod hidden;
mod lifted;
mod lists;
mod planted;
mod replaced;
mod stepped;
mod steps;
mod treats;
mod waits;
mod writes;

pub use clears::truss_clears_by_running;
pub use closes::{truss_leaves_no_breakpoint, truss_leaves_no_fault};
pub use copies::{
    a_run_lets_one_copy_go_on, beside_truss_no_copy_goes_on, between_calls_of_truss_copies_stand,
    no_copy_is_made_before_its_entry_is_run, what_truss_read_stands_until_it_is_run,
};
pub use faults::{truss_clears_its_own_faults_alone, truss_posts_no_own_fault};
pub use hidden::truss_is_hidden;
pub use lifted::a_copy_finds_no_breakpoint;
pub use lists::in_each_history_calls_are_those_turns;
pub use planted::{
    what_is_fetched_at_a_planted_function_is_a_breakpoint,
    who_spares_breakpoints_leaves_planted_functions_alone,
};
pub use replaced::after_a_replacement_truss_writes_nothing;
pub use stepped::{its_calls_tell_which_turns_are_calls, what_truss_steps_it_has_lifted};
pub use steps::truss_alone_steps;
pub use treats::what_truss_does_at_an_event_comes_before_its_run;
pub use waits::what_waits_to_be_planted_again_waits;
pub use writes::truss_writes_tidily;
