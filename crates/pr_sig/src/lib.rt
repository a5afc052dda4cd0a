//! Signals of one process: those that are pending and what came with them, which of them an lwp takes next, which the
//! generation of another deletes, and what a signal does.
#![tactic(auto)]

mod laws;
mod pending;
mod places;
mod rules;

pub use laws::{
    early_signals, information_of_signals, pending_sets, stop_and_continue_delete_each_other,
    taken_signals,
};
pub use pending::Pendings;
pub use pr_parts::{Action, Queued};
pub use rules::{action, deletes, takeable};
