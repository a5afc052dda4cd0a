//! The words that truss(1) takes, and its lines.
#![tactic(auto)]

mod arguments;
mod entries;
mod event_lines;
mod events;
mod faults;
mod function_lines;
mod function_names;
mod functions;
mod options;
mod pids;
mod reading;
mod selections;
mod text_ranges;

pub use entries::named_entries;
pub use event_lines::event_line;
pub use events::{Event, event_of};
pub use faults::{OptFault, WordFault};
pub use function_lines::function_line;
pub use function_names::FunctionNames;
pub use functions::{FUNCTION_LIMIT, Function, Functions};
pub use options::Options;
pub use reading::{Asked, has_bad_option, read_options, read_words};
pub use selections::{has_line, is_selected, never_returns};
pub use text_ranges::text_range;
