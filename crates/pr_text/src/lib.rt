//! Lines of text: a builder of a line, the words of a line, and what words can be read as.
#![tactic(auto)]

mod comments;
mod cuts;
mod digits;
mod hex_words;
mod keys;
mod laws;
mod lines;
mod lists;
mod names;
mod number_words;
mod operands;
mod quoted_words;
mod quotes;
mod refusals;
mod scanning;
mod slices;
mod spans;
mod splitting;
mod text_lines;
mod texts;
mod tokens;

pub use comments::begins_comment;
pub use cuts::pieces_of;
pub use digits::hex_digit;
pub use hex_words::{bytes_of_digits, put_digits};
pub use keys::Key;
pub use laws::{a_line_is_its_words, numbers_are_their_digits, quoted_text_tells_its_bytes};
pub use lines::{Line, TooLong};
pub use lists::parts_of;
pub use names::name_of;
pub use number_words::{digit_of, id_of, number_of};
pub use operands::{four, none, one, some, three, two};
pub use quoted_words::quoted_bytes;
pub use quotes::QUOTED_LIMIT;
pub use refusals::{LineFault, LineRefusal, Refused};
pub use slices::{before_zero, behind, front};
pub use spans::{Word, Words};
pub use splitting::{word_texts, words};
pub use text_lines::split_lines;
pub use texts::Text;
pub use tokens::Tokens;
