//! Whether a store is whole: each rule of the format is kept, on any bytes, and otherwise a page and a rule that it breaks.
//!
//! [`verify`] walks the tree, the rows' map, the tables and the free list, each of their pages once, and finds the pages that no structure
//! uses. Then it compares what they hold: the rows of each node with what is below its slots, the entries of the leaves with the places,
//! the words by text with those by number and with the places, and page 0's numbers with the places.
//!
//! `specs/Whole.antt` defines a whole store: what page 0, the tables, the tree, its rows and the free list keep, rule by rule.
//! `specs/Breaks.antt` defines which rule a store breaks, and at which page. The laws prove that a store is whole exactly if its pages
//! hold a state, by `store_model`, and that a store that breaks a rule isn't whole.
//!
//! The walks over the tables give lists. [`texts_of`] returns the words by text, [`numbers_of`] the words by number, and [`places_of`] the
//! places' points and the numbers of their words. Each checks its map by `page_walks` with a [`Sink`](page_walks::Sink) and decodes each
//! row. A leaf with a row that is no entry's breaks the rule `Value`. `specs/Gains.antt` and `specs/Places.antt` define what a sink gains.
//!
//! [`words_agree`], [`leaves_agree`] and [`counts_agree`] decide an agreement of whole lists exactly, by a sort and one comparison. The
//! lists are those that the walks gathered. `proofs/Held.antt` has the law that the numbers of all places' words count who holds each.
//!
//! Tests: `irtree_tests/src/verify_tests.rt`.
#![tactic(auto)]

mod comparing;
mod counts;
mod layouts;
mod leaves;
mod numbers;
mod parts;
mod places;
mod sites;
mod texts;
mod verdict;
mod walking;
mod words;

pub use verdict::{Verdict, verify};
