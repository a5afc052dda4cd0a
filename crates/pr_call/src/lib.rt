//! System calls as programs make them (section 2 of the manual): what each does to the system, a function a call.
#![tactic(auto)]

mod answers;
mod askings;
mod breaks;
mod files;
mod filing;
mod lwps;
mod making;
mod maps;
mod memory;
mod paths;
mod performing;
mod plain;
mod processes;
mod requests;
mod sending;
mod signals;
mod sleeps;
mod stores;
mod transfers;
mod waits;

pub use performing::perform;
pub use requests::{Performed, Request};
pub use sleeps::is_ready;
