//! Programs for the machine: their instructions, data and labels.
#![tactic(auto)]

mod assembly;
mod immediate_forms;
mod labels;
mod laws;
mod layouts;
mod mnemonics;
mod names;
mod operands;
mod places;
mod programs;
mod reading;
mod refusals;
mod statements;
mod symbols;

pub use labels::Label;
pub use laws::{a_refusal_names_the_first_line, statements_are_read_as_they_are_spelled};
pub use programs::Program;
pub use reading::{read_lines, read_program};
pub use refusals::{AsmFault, AsmKind, AsmRefusal};
pub use statements::{Statement, statement_of};
