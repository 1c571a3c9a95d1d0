//! What the nodes of an IR-tree mean, each joined with the rows of its words (Cong, Jensen and Wu, VLDB 2009). And what they become when an
//! entry is put in or taken out.
//!
//! An item's reach after its four sides is the greatest impact of each word below it. So "least rectangle" and "greatest impact" are one
//! statement (`specs/Words.antt`). Tree and rows share one free list. The pages of the rows' map count as spare for the tree, since rows
//! come and go with what a tree does (`specs/Stock.antt`).
//!
//! The crate is definitions (`specs/`) and laws (`proofs/`). It has no code, and so no tests.
#![tactic(auto)]
