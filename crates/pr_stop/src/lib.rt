//! Stops: what an lwp shows, which lwp represents its process, what is traced, and who is directed to stop.
#![tactic(auto)]

mod directing;
mod points;
mod representing;

pub use directing::{direct, direct_others};
pub use points::{is_traced, meets, stop_at};
pub use representing::{is_stopped, representative, representative_lwp, shown};
