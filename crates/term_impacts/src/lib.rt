//! Words of a text and their impacts: how a place's text is weighed, word by word.
//!
//! The words of a text are its pieces between word boundaries (UAX #29) that have a letter or a number, after default case folding.
//! Those of more than 32 bytes do not count. The impact of a word is its share of all the words of the text, from 1 to 255.
//!
//! [`impacts`] gives the first 64 distinct words of a text with their impacts, and [`one_word`] the word of a text of one word.
//! [`Word`] is a word in a form of 33 bytes that orders as its text does, and [`Words`] is a map from words to impacts.
//! [`Label`] is the first line of a text, cut to 63 bytes, in a form of 64 bytes. Each result is exact: the definitions are in
//! `specs/Text.antt`, `Impacts.antt`, `Form.antt`, `Pairs.antt` and `Label.antt`.
//!
//! Tests: `text_tests/src/term_impacts_tests.rt`.
#![tactic(auto)]

mod folding;
mod label;
mod tally;
mod text;
mod text_words;
mod word;
mod words;

pub use label::{LABEL_MAX, Label};
pub use text::{impacts, one_word};
pub use word::{WORD_MAX, Word};
pub use words::{WORDS_MAX, Words};
