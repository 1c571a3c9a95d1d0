//! Chooses the slot that an entry goes into in an R-tree of 32 slots a node, and splits 33 entries over two nodes (Guttman 1984). Each
//! of the two nodes gets at least 12 entries.
//!
//! A policy is a [`SplitPolicy`]. It decides the shape of the tree, and never the result of a query. [`Quadratic`] is Guttman's
//! quadratic split, and [`Halving`] cuts the entries in the middle of an axis. No call allocates memory or fails.
//!
//! The other public items are the parts of a quadratic split, for crates that divide entries otherwise.
//!
//! Tests: `tree_tests/src/split_policy_tests.rt`.
#![tactic(auto)]

mod axis;
mod choice;
mod cost;
mod division;
mod group;
mod halving;
mod mask;
mod policy;
mod quadratic;
mod seeds;

pub use choice::least_growth;
pub use cost::Cost;
pub use division::Division;
pub use group::Group;
pub use halving::Halving;
pub use mask::{bit, is_set};
pub use policy::SplitPolicy;
pub use quadratic::Quadratic;
