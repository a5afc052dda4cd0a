//! The law that memory is lent in order in every state that is reached (vfork(2)), what controllers are shown of a
//! process whose memory is lent, and that its lwps stop as they are directed to. Each public function carries one law
//! in its contract, and does nothing.
#![tactic(auto)]

mod spaces;
mod states;
mod stops;

pub use spaces::{
    each_space_shown_is_of_one_process, lenders_are_read_as_their_borrowers,
    lenders_show_the_space_of_their_borrowers, owners_show_their_own_space,
};
pub use states::{
    calls_keep_lending_in_order, legal_histories_lend_in_order, the_first_state_lends_in_order,
    ticks_keep_lending_in_order, turns_keep_lending_in_order,
};
pub use stops::directed_lwps_make_their_stop;
