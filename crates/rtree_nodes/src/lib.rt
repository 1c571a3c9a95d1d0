//! The nodes of an R-tree: what they mean, their pages, and the search for one entry.
//!
//! A node is a function from the number of a slot to what is in it (Guttman 1984, with M = 32 and m = 12). An item's reach to each side is
//! one number that grows with its rectangle. So "least rectangle" is one statement for every side, and for the greatest impact of every
//! word. `specs/` and `proofs/` have the definitions and laws of slots, items and trees for the crates that write nodes and search them.
//!
//! | Bytes | What they hold |
//! |---|---|
//! | 0 | 3, the kind of a node's page |
//! | 1 | the level, 0 in a leaf |
//! | 2, 3 | spare |
//! | 4 to 7 | the mask of used slots, slot i at bit i |
//! | 8 to 15 | spare |
//! | from 16 + 74 * i | slot i of a leaf: longitude, latitude, and the 66 bytes of the key |
//! | from 16 + 20 * i | slot i of an inner node: west, south, east, north, and the child's page |
//!
//! All numbers have four bytes and are big-endian, coordinates in two's complement. The bytes of unused slots, and those after the
//! last slot, are spare; spare bytes are 0.
//!
//! Encoder and decoder are inverse, and other calls read and change a node in place, in a page's bytes. Every call is safe on any
//! bytes, looks at no more of them than it needs, and takes no memory. Only [`Node::decode`] checks a page. The other calls work on the
//! node that `node_of` sees in a page, which has no slot if the page is no node's.
//!
//! [`find`] is an R-tree's search (Guttman 1984, section 3.1) for one entry, with the way to it. Below a node it goes down to each child
//! whose rectangle holds the point, until a leaf has the entry. Rectangles overlap, so more than one way may have to be tried. It changes
//! no page.
//!
//! Tests: `tree_tests/src/rtree_nodes_tests.rt` and `tree_tests/src/rtree_find_tests.rt`.
#![tactic(auto)]

mod bytes;
mod codec;
mod content;
mod entering;
mod finding;
mod head;
mod held;
mod layout;
mod leaf;
mod mask;
mod parting;
mod reach;
mod reading;
mod round;
mod spare;
mod writing;

pub use bytes::i32_at;
pub use codec::same_page;
pub use content::{Header, Slot};
pub use finding::find;
pub use head::header;
pub use held::{Node, Slots};
pub use layout::{PLACE_BYTES, SLOTS_AT, is_used};
pub use mask::{count, free_slot};
pub use parting::split_off;
pub use reach::{bounds, rects};
pub use reading::{child_at, slot_at};
pub use writing::{clear_slot, new_node, put_slot};

/// How many slots a node has (M in Guttman 1984): as many entries of a leaf as a page holds beside its header, rounded down to a power of
/// two. So the used slots are the bits of one `u32`.
pub const SLOTS: usize = 32;

/// The least number of used slots of a node that isn't the root (m in Guttman 1984): 12 of the 33 entries of a split fit either side.
pub const SLOTS_MIN: usize = 12;

/// The greatest level of a root. A well-formed tree with a root of level 10 has at least 2 * 12^9 leaves, which is more than 2^32, and so
/// more pages than a `u32` can number.
pub const LEVEL_MAX: u8 = 9;
