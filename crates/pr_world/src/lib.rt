//! The world: a kernel with its controllers, who of them can move, and who moves next.
#![tactic(auto)]

mod callers;
mod controllers;
mod ends;
mod laws;
mod moves;
mod questions;
mod rounds;
mod worlds;

pub use controllers::Controller;
pub use ends::End;
pub use laws::{
    a_move_goes_on_from_where_a_world_came, a_run_is_legal_and_follows_the_protocol,
    a_run_over_a_machine_is_a_function, each_move_is_an_entry, next_is_who_can_move,
};
pub use worlds::World;
