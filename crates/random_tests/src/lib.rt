//! Tests over random maps: the cost of groups, the answers to queries of each kind, and the pages they read, compared with a scan of
//! all places.
#![tactic(auto)]

#[cfg(test)]
mod calls;
#[cfg(test)]
mod dice;
#[cfg(test)]
mod group_tests;
#[cfg(test)]
mod log_tests;
#[cfg(test)]
mod making;
#[cfg(test)]
mod maps;
#[cfg(test)]
mod tree_nodes;
