//! The places that a query's words and its point rank first, found in an IR-tree (Cong, Jensen and Wu, VLDB 2009) by a best-first search.
//! [`top`] returns the first k of them by cost and then by key. [`rarity`] is the weight of a word by how many of the places hold it.
//!
//! Tests: `search_tests/src/topk_query_tests.rt`.
#![tactic(auto)]

mod query;

pub use place_values::rarity;
pub use query::top;
