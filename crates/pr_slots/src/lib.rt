//! Things by number and things under ids, in a slab: none moves when another comes or goes.
#![tactic(auto)]

mod slab_by_id;
mod slots;

pub use slab_by_id::SlabById;
pub use slots::Slots;
