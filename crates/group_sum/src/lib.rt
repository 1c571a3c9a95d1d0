//! The group of places that costs least in all: a place for each word, with the least sum of distances.
//!
//! Tests: `search_tests/src/collective_query_tests.rt`.
#![tactic(auto)]

mod filling;
mod query;
mod serving;
mod sets;
mod splits;
mod table;

pub use query::group_sum;
