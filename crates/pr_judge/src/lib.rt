//! Whether a history that is given is one that a kernel would have made.
#![tactic(auto)]

mod judges;
mod judging;
mod players;
mod plays;
mod replies;
mod turns;

pub use judges::Judge;
pub use judging::legal;
pub use plays::play;
