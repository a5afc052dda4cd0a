//! Histories as text: each entry is written on a line, and a history is read back from its text.
#![tactic(auto)]

mod actors;
mod call_readers;
mod calls;
mod entries;
mod entry_lines;
mod entry_readers;
mod generated;
mod laws;
mod lines;
mod names;
mod numerals;
mod pieces;
mod reading;
mod refusals;
mod reply_readers;
mod steps;
mod turn_readers;
mod turns;
mod word_readers;
mod words;

pub use entries::{write_entry, write_heading, write_status};
pub use entry_lines::EntryLines;
pub use generated::generated_pieces;
pub use laws::{
    a_history_is_in_its_text, a_line_is_its_words, a_text_grows_at_its_end, a_text_is_its_lines,
    bytes_are_their_hex_word, forms_are_told_by_their_first_word,
};
pub use reading::read_history;
pub use refusals::HistRefusal;
pub use steps::{write_plain_heading, write_step, write_trace_heading};
