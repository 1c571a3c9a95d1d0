//! Chooses the slot of an R-tree that an entry goes into, and splits 33 entries over two nodes, by the words that they share.
//!
//! [`WordAware`] is a [`SplitPolicy`](split_policy::SplitPolicy) beside those of `split_policy`. An entry goes where most of its words
//! are, and a split keeps entries with the same words together. No call allocates memory or fails.
//!
//! Tests: `tree_tests/src/text_policy_tests.rt`.
#![tactic(auto)]

mod beginners;
mod joining;
mod sharing;
mod word_aware;

pub use word_aware::WordAware;
