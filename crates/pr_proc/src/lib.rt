//! Processes: the system as the kernel keeps it, and how processes begin and end.
#![tactic(auto)]

mod arguments;
mod ends;
mod execs;
mod families;
mod first;
mod forks;
mod ids;
mod loans;
mod lwps;
mod marks;
mod order;
mod processes;
mod programs;
mod refusals;
mod releases;
mod sending;
mod signals;
mod sizes;
mod spawns;
mod stops;
mod systems;
mod zombies;

pub use arguments::{arguments_in, arguments_of};
pub use ends::end;
pub use execs::exec;
pub use families::Children;
pub use first::first_system;
pub use forks::{fork, lend};
pub use ids::id_of;
pub use lwps::{end_lwp, make_lwp, suspend};
pub use order::{Question, first_among, next_asked, next_lwp};
pub use pr_post::{Lwp, Proc, disposition_of};
pub use processes::Processes;
pub use programs::{Programs, program_named};
pub use refusals::{ProcNo, errno_of};
pub use releases::release;
pub use sending::{Sending, sending_of};
pub use signals::generate;
pub use sizes::{size_of, total_has_room};
pub use spawns::spawn;
pub use stops::shows;
pub use systems::{Sys, has_agent, live, seen};
pub use zombies::{children, reap};
