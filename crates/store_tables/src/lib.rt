//! The tables of a store over [`Pages`](page_face::Pages): the places by key, and the words by text and by number.
//!
//! Each is a paged B+-tree map of rows of one length, as `row_codec` writes them. [`Tables`] holds their roots. On pages that
//! hold entries (`specs/Holding.antt`) each read is a look-up in those entries, asks only for pages of its own map and
//! never returns `Damaged`. On any other pages it is safe, ends, and names a rule that a page breaks in its place, or the leaf whose
//! row isn't of its form.
//!
//! [`Tables::put_place`] puts an entry into the place table, [`Tables::remove_place`] takes one out, and both leave the other two.
//! [`Tables::hold`] counts one more place that holds a word, and gives a new word the next number. [`Tables::release`] counts one
//! place fewer, and takes the word out of both tables with its last place. `specs/Words.antt` defines what these two do to the
//! tables of words.
//!
//! Tests: `page_tests/src/store_tables_tests.rt`.
#![tactic(auto)]

mod entry;
mod layouts;
mod maps;
mod reading;
mod releasing;
mod tables;
mod taking;
mod words;
mod writing;

pub use row_codec::Stored;
pub use tables::Tables;
pub use words::disagreement;
