//! The text of a core, which gcore(1) prints, read.
#![tactic(auto)]

mod core_texts;
mod headings;
mod hex_lines;
mod laws;
mod refusals;

pub use core_texts::read_core;
pub use laws::a_cores_text_is_read_back;
pub use refusals::CoreTextRefusal;
