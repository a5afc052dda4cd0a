//! Files, pipes and descriptors, each call alone.
#![tactic(auto)]

mod buffers;
mod fds;
mod files;
mod places;
mod tables;

pub use fds::Fds;
pub use files::Files;
pub use pr_parts::{FileNo, Stat};
