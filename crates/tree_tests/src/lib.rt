//! Tests of the tree's crates: nodes, the rows of their words, policies, and entries that are put in and taken out.
//!
//! Most modules test the crate of their name, on trees in memory. `split_condense_tests` grows and shrinks whole trees, and checks every
//! node of them against the places that live.
#![tactic(auto)]

#[cfg(test)]
mod irtree_delete_tests;
#[cfg(test)]
mod irtree_insert_tests;
#[cfg(test)]
mod node_inverted_tests;
#[cfg(test)]
mod rtree_find_tests;
#[cfg(test)]
mod rtree_nodes_tests;
#[cfg(test)]
mod split_condense_tests;
#[cfg(test)]
mod split_policy_tests;
#[cfg(test)]
mod text_policy_tests;
#[cfg(test)]
mod tree_updates_tests;
