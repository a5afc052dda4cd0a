//! The words that every other crate uses: numbers with names, sets of them, byte strings and names.
#![tactic(auto)]

mod by_id;
mod errnos;
mod faults;
mod files;
mod flags;
mod infos;
mod instruction_laws;
mod instructions;
pub mod layout;
pub mod limits;
mod lists;
mod lwp_flags;
mod mappings;
mod memory;
mod messages;
mod modes;
mod names;
mod numbered;
mod process_flags;
mod protections;
mod run_flags;
pub mod set_laws;
mod sets;
mod signals;
mod stop_reasons;
mod syscalls;
pub mod table_laws;
mod tables;
mod texts;
mod watch_flags;

/// The lwp id of the agent: no other lwp ever gets it.
pub const AGENT: u32 = 65_535;

pub use by_id::ById;
pub use errnos::Errno;
pub use faults::Flt;
pub use files::{Access, FdKind, OpenFile, StoredFile, Target};
pub use flags::{FlagBits, KnownFlags};
pub use infos::Info;
pub use instruction_laws::an_instruction_is_its_bytes;
pub use instructions::{Instruction, Reg};
pub use lists::{Bytes, Handles, Table};
pub use lwp_flags::LwpFlags;
pub use mappings::{Area, BadByte, Mapping, MappingKind};
pub use memory::NoMemory;
pub use messages::{Message, MsgFault};
pub use modes::Modes;
pub use names::Name;
pub use numbered::Numbered;
pub use process_flags::ProcessFlags;
pub use protections::{PROT_EXEC, PROT_READ, PROT_WRITE, Prot};
pub use run_flags::RunFlags;
pub use sets::{FltSet, SetOf, SigSet, SysSet};
pub use signals::{DefAct, Sig};
pub use stop_reasons::StopReason;
pub use syscalls::{ArgKind, Sysno};
pub use texts::{are_zeros, zero_in};
pub use watch_flags::WatchFlags;
