//! Words in bytes: a word is its eight bytes, the least first.
#![tactic(auto)]

mod laws;
mod words;

pub use laws::{a_word_is_its_bytes, words_are_their_bytes};
pub use words::{Short, WORD, push_word, put, put_words, read_words, word};
