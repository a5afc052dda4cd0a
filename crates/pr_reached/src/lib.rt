//! Laws of reached states: they are lawful, fit and in range, and so the fields of their records are in their ranges;
//! no lwp is asleep in a fork, a vfork or an exec in them; what a process has mapped is an address space of few
//! mappings; what it has used is bounded by the length of the history. Each public function carries one law in its
//! contract, and does nothing.
#![tactic(auto)]

mod fits;
mod mapped;
mod reached;
mod records;
mod slept;
mod states;
mod uses;

pub use fits::reached_states_are_fit;
pub use mapped::{processes_have_address_spaces, processes_have_few_mappings};
pub use reached::legal_histories_reach_states;
pub use records::{records_of_lawful_systems_are_in_range, records_of_reached_states_are_in_range};
pub use slept::no_lwp_sleeps_in_a_copy;
pub use states::{
    calls_keep_states_in_range, reached_states_are_in_range, the_first_state_is_in_range,
    ticks_keep_states_in_range, turns_keep_states_in_range,
};
pub use uses::{counts_grow_with_histories, what_is_used_is_in_range};
