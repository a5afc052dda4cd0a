//! Which lwps a step lets move: those of few processes, and those that wait for what may differ after it. Each public
//! function carries one law in its contract, and does nothing.
#![tactic(auto)]

mod left;
mod steps;

pub use left::{
    calls_leave_what_they_do_not_touch, ticks_leave_every_process,
    turns_leave_what_they_do_not_touch, what_is_left_moves_only_if_it_could,
};
pub use steps::{
    calls_let_only_few_move, most_turns_touch_one_process, ticks_let_only_those_that_doze_move,
    turns_let_only_few_move,
};
