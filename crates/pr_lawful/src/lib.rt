//! The law that lawful states stay lawful: whatever a turn of an lwp, a call of a controller or the clock makes of one.
//! Each public function carries one law in its contract, and does nothing.
#![tactic(auto)]

mod states;
mod turns;
mod uses;

pub use states::{
    calls_keep_states_lawful, reached_states_are_lawful, the_first_state_is_lawful,
    ticks_keep_states_lawful, turns_keep_states_lawful,
};
pub use turns::turns_keep_systems_lawful;
pub use uses::{
    infos_of_lawful_processes_are_in_range, lawful_systems_have_room, new_processes_are_unopened,
    parts_of_lawful_systems_are_lawful,
};
