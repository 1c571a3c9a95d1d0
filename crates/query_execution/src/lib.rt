//! What the tree of a store gives for a query, by the tree's entries and the word tables. It is the hits of a range, box, nearest or top
//! query, or of one by rarity, or the choice of a group or gather query.
//!
//! A query names words by their texts, and the tree's rows know them by number: [`ids_of`] looks up each word of a query once, in the words
//! by text. A query by rarity is then asked as a top query: its words have weights by how many places hold them, which the words by number
//! tell. [`hits`] and [`chosen`] search the tree. If tables and tree hold the same places, they return what a scan of all places gives.
//!
//! Tests: `search_tests/src/irtree_engine_tests.rt` reaches it.
#![tactic(auto)]

mod answering;
mod asked;
mod choosing;
mod known;
mod weighing;

pub use answering::hits;
pub use choosing::chosen;
pub use known::ids_of;
