//! Address spaces: mappings with their bytes, the heap, and reads and writes (mmap(2), munmap(2), mprotect(2), brk(2)).
#![tactic(auto)]

mod accesses;
mod faults;
mod gaps;
mod laws;
mod mapping_lists;
mod mappings;
mod page_writes;
mod pages;
mod ranges;
mod spaces;
mod texts;
mod writes;

pub use faults::{Map, MemFault};
pub use laws::{a_gap_is_free_and_least, what_is_written_is_read};
pub use mappings::Mapping;
pub use spaces::Space;
