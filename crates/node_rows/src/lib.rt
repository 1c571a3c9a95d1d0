//! The rows of words of an R-tree's nodes, which make it an IR-tree (Cong, Jensen and Wu, VLDB 2009). Each node has for each word one row
//! of 32 bytes: the greatest impact of the word below each slot.
//!
//! The rows of a tree are one paged map. A row's key is its node's page and its word's number, so the rows of a node are
//! next to each other, in the order of their words. A row of zeros is never stored. Seen from above, the rows are one function
//! from a node, a word and a slot to a byte (`specs/Rows.antt`). Each call here states which bytes it returns, or which
//! bytes [`set_row`] makes; every other byte is as it was.
//!
//! A call that goes through the rows of a node copies a leaf of the map at a time and reads its rows there ([`LeafCopy`], [`next_in`]).
//! One way down is enough for some 84 of them. The copy stays right for the words still to come while a call changes the rows already
//! read.
//!
//! The crate `node_inverted`, which changes all rows of a node, is built on this one.
//!
//! Tests: `tree_tests/src/node_inverted_tests.rt`, through `node_inverted`.
#![tactic(auto)]

mod ascent;
mod columns;
mod key;
mod layout;
mod leaf;
mod next;
mod pairing;
mod roots;
mod rows;
mod sharing;
mod slots;
mod words;

pub use ascent::after;
pub use columns::column;
pub use key::RowKey;
pub use layout::WordRows;
pub use leaf::{LeafCopy, next_in, row_form};
pub use next::next_row;
pub use pairing::like;
pub use roots::Tree;
pub use rows::{find_row, row, set_found, set_row};
pub use sharing::{rising, rows_at, shared_by};
pub use slots::{clear_row, greater, greatest, is_clear, moving, put_byte, staying};
pub use words::{push_word, words_of};
