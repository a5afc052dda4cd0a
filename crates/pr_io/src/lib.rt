//! Where bytes come from and go to: sources and sinks that count their faults, in memory and on the
//! standard streams, and the gate that workers pass.
#![tactic(auto)]

mod failures;
mod gates;
mod memory;
mod sinks;
mod sources;
mod standard;

pub use failures::Failed;
pub use gates::{Gate, OpenGate};
pub use memory::{MemSink, MemSource};
pub use sinks::{Sink, write_all};
pub use sources::{ReadEnd, Source, read_all};
pub use standard::{StdSink, StdSource};
