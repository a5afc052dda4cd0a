//! Sets of process ids, as bits: in place, and for each process id in blocks of 64.
#![tactic(auto)]

mod bits;
mod block_sets;
mod process_sets;

pub use block_sets::BlockSets;
pub use process_sets::ProcessSet;
