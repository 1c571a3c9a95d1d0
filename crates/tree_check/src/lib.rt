//! Whether the nodes in the pages of a store are an R-tree, and whether the rows of words beside it are right, on any bytes; and which rule
//! is broken at which page if they aren't.
//!
//! [`check_nodes`] walks the tree from its root and reads each page once. Without damage the nodes are a well-formed R-tree (Guttman 1984):
//! fill, levels, values, spare bytes, and each rectangle the least one around what is below it. The pages met are then exactly those that
//! the tree uses. With damage, the rule that is named is broken at the page that is named, and so the tree isn't whole. Both are clauses.
//!
//! A page that is named twice, or that isn't counted, is found on its way in by `page_walks`. A rectangle is compared with the least one
//! around the child's own items, after all below the child was walked. So the rectangle is wrong, and not what it is compared with. The
//! pages of the tree are handed on in a list, each after those below it.
//!
//! [`check_words`] goes over that list. For each node, word and slot the row must have the greatest impact of the word below the slot, and
//! there must be no other row (Cong, Jensen and Wu, VLDB 2009). It compares the bytes of each slot with what is directly below it: in a
//! leaf with the words of the slot's place, in an inner node with the greatest bytes of the child's rows. Since a child comes before its
//! node, the first slot that differs is wrong, and not what it is compared with. The rows of a node are read once into memory, and the
//! words of each slot are taken out of them there.
//!
//! [`check_rows`] walks the rows' map itself, leaf by leaf. The map has to be whole, and each row has to name a node of the tree and not to
//! be all zeros. The walk is one of `page_walks` with a [`Sink`](page_walks::Sink).
//!
//! What is right between each node and what is directly below it is right in the whole tree. `proofs/Joined.antt` shows that a well-formed
//! tree whose nodes are so is well formed with its rows, as `irtree_shape` defines it.
//!
//! `sizes` has laws about how large a tree is by the number of its entries, as contracts of calls that do nothing. A well-formed tree of
//! `n` entries has at most `(n + 10) / 11` nodes, and uses a page for each. One whose root is at level `l` has at least `12^l` entries, so
//! with fewer than 2^32 entries the root is at most at level 8. No call of the program uses them yet.
//!
//! Tests: `irtree_tests/src/verify_tests.rt`, with a store for each rule.
#![tactic(auto)]

mod agreeing;
mod check;
mod node;
mod reading;
mod rows;
mod sizes;
mod walk;
mod words;

pub use agreeing::check_words;
pub use check::check_nodes;
pub use rows::check_rows;
pub use sizes::{entries_are_many, levels_are_few, nodes_are_few, pages_are_few, pages_are_nodes};
