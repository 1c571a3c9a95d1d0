//! The entries of an IR-tree as a list, what each gives to a query, and which slots of a node a query's words admit.
//!
//! A tree's entries are items (`rtree_nodes`): how far each reaches to its four sides, and then the impact of each word by the word's
//! number. `specs/Hits.antt` defines what such an item gives to a query, case by case as `place_map` does for a place.
//! `proofs/Agreements.antt` has the proof that the two agree. [`admitted`] tests all slots of a node at once, by one row of bytes a word.
//!
//! Tests: `search_tests/src/boolean_queries_tests.rt` and `search_tests/src/topk_query_tests.rt` reach it.
#![tactic(auto)]

mod admitting;
mod entering;
mod ids;
mod masks;
mod weighing;

pub use admitting::admitted;
pub use entering::{enter, enter_at};
pub use ids::Ids;
pub use weighing::{Marks, relevances};
