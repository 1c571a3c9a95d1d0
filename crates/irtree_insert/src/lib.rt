//! Putting an item with its words into an IR-tree over pages (Guttman 1984, with M = 32 and m = 12; Cong, Jensen and Wu, VLDB 2009).
//!
//! [`insert_at`] puts a place into a leaf of a tree, or an item of any level into a node of that level. It sets the tree's root, which is a
//! new one if the old one was split. The rows of words give for each slot of each node the greatest impact of each word below it, and are
//! kept in step. A [`SplitPolicy`](split_policy::SplitPolicy) chooses the way down and how a full node is split.
//!
//! Each node on the way is read once, and checked before anything is written. On the way up a node is written if one of its rectangles
//! changed or an item was added, once. Each node that is made takes one page. A slot above is raised by the item's words. If its child was
//! split, the slot's words that went to the new node are set to what the child still has.
//!
//! Tests: `tree_tests/src/irtree_insert_tests.rt`.
#![tactic(auto)]

mod add;
mod draft;
mod fetch;
mod grown;
mod insert;
mod outline;
mod part;
mod put;
mod root;
mod store;

pub use insert::insert_at;
