//! The records of the process file system as bytes, both ways (proc(4)).
#![tactic(auto)]

mod columns;
mod descriptors;
mod entries;
mod faults;
mod fields;
mod laws;
mod lists;
mod lwp_flags;
mod lwps;
mod mappings;
mod names;
mod process_flags;
mod processes;
mod statuses;
mod upgrades;
mod usages;
mod whats;

pub use descriptors::Descriptor;
pub use entries::{FdEntry, ListEntry, WatchEntry};
pub use faults::RecFault;
pub use laws::{
    entries_stand_in_their_places, one_encoding_one_record, what_fills_records_is_in_range,
    what_is_encoded_is_decoded,
};
pub use lists::{
    SIGACT_SIZE, encode_sigact, write_fds, write_list, write_lstatus, write_map, write_watch,
};
pub use lwp_flags::LwpMarks;
pub use lwps::{Disposition, LwpStatus};
pub use mappings::MapEntry;
pub use names::name_field;
pub use pr_num::{LwpFlags, ProcessFlags};
pub use process_flags::flags_of_process;
pub use processes::Psinfo;
pub use statuses::Status;
pub use upgrades::upgrade;
pub use usages::Usage;
pub use whats::What;
