//! The places that the tables of a store keep, over [`Pages`](page_face::Pages).
//!
//! On pages that hold a state ([`store_model`]) each call reads that state or changes it: what lives at a key, and its
//! words. A place row names its words by number, and each number is read through the words by number. A place that is put
//! holds each of its words, and a new word is given the next number; a word that no place holds any more is removed.
//! `store_model/specs/Updates.antt` defines what an update does to the tables. On any other pages a call is safe and ends.
//!
//! The words of a batch are gathered ([`gather_words`]) and held ahead, each once by as many places as put it ([`hold_words`]). Then
//! [`put_in_batch`] puts each place by the numbers in memory (`store_model/specs/Ahead.antt`).
//!
//! [`carry_over`] moves the places of a store of version 1 to version 2. Both versions have the same tables of words, the same tree with
//! its rows, and the same fields of page 0. In version 1 the place map has another number, and its rows have no label.
//! `specs/Version1.antt` defines which state such pages represent: each place has the empty label. After the call the pages represent the
//! same state in version 2 (`store_model/specs/Stands.antt`).
//!
//! Tests: `search_tests/src/table_updates_tests.rt`, `irtree_tests/src/upgrade_tests.rt`.
#![tactic(auto)]

mod ahead;
mod carrying;
mod gathering;
mod held;
mod layout;
mod numbering;
mod pairs;
mod place;
mod putting;
mod reading;
mod releasing;
mod removing;
mod rows;
mod words;

pub use ahead::hold_words;
pub use carrying::carry_over;
pub use gathering::gather_words;
pub use held::{put_held, put_in_batch};
pub use place::place_at;
pub use putting::put_place;
pub use removing::remove_place;
pub use words::words_of;
