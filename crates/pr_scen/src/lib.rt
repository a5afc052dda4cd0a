//! Scenarios: the text that asks for programs, files, processes and controllers, and the script as a controller of the
//! kernel.
#![tactic(auto)]

mod bindings;
mod blocks;
mod drafts;
mod few_names;
mod functions;
mod items;
mod laws;
mod lines;
mod message_lists;
mod message_words;
mod name_indexes;
mod plans;
mod program_texts;
mod reading;
mod refusals;
mod scenarios;
mod schedules;
mod script_blocks;
mod script_lines;
mod scripts;
mod writes;

pub use laws::{
    a_refusal_in_a_block_names_its_least_line, a_refusal_names_the_first_line,
    each_scenario_has_a_text, lines_are_read_as_they_are_encoded,
    texts_are_read_as_they_are_encoded, what_encodes_a_scenario_is_read,
};
pub use plans::Plan;
pub use program_texts::read_programs;
pub use reading::read_scenario;
pub use refusals::{ScenFault, ScenKind, ScenRefusal};
pub use scenarios::Scenario;
pub use script_lines::{Lines, ScriptLine};
pub use scripts::Script;
