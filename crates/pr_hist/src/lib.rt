//! Histories in words: each entry is told as users of truss(1) and proc(4) would tell it.
#![tactic(auto)]

mod briefs;
mod calls;
mod charts;
mod drawings;
mod entries;
mod fields;
mod flags;
mod histories;
mod lanes;
mod laws;
mod listings;
mod messages;
mod moves;
mod names;
mod news;
mod operand_words;
mod phrases;
mod pictures;
mod records;
mod refusals;
mod replies;
mod selections;
mod sets;
mod spellings;
mod texts;
mod turns;
mod values;

pub use charts::Chart;
pub use drawings::chart_of;
pub use entries::words_of;
pub use histories::{selected_text, text_of};
pub use laws::{
    a_chart_grows_by_the_rows_that_are_told, a_lane_shows_what_last_became_of_its_lwp,
    a_lane_stands_still_since_a_stop, a_part_grows_by_the_blocks_that_are_told,
    a_process_last_moved_in_the_last_entry_of_its_lwps, a_process_runs_what_entries_tell,
    a_text_grows_by_a_block, handles_are_named_while_open,
};
pub use listings::Listing;
pub use names::{Known, Names};
pub use selections::{Selection, Who};
pub use spellings::bytes_of_line;
pub use texts::{write_hex_bytes, write_spaced};
