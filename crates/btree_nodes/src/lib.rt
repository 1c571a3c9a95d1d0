//! Nodes of a B+-tree of fixed rows in pages, and the way down such a tree.
//!
//! A page of a map has its kind in byte 0 (1 leaf, 2 inner) and the map's number in byte 1. The count of its cells is in bytes 2 and 3,
//! its level is in byte 4 (0 in a leaf), and its cells are from byte 16 on. All other bytes are spare. A leaf's cell is a row, a key and
//! a value. An inner page's cell is an entry, a key and a child's page in four bytes; the first entry's key is all zeros. A page other
//! than the root holds at least half of the cells that fit.
//!
//! The cells of a page have one width, follow one another without a gap, and each begins with its key. Keys of one length are
//! numbers here, the first byte being the highest, so that every fact of order is one about numbers. A changed page
//! is gathered of its cells with [`splice`] and written by [`build`], or a copy of it is edited in its place by [`edit_cells`].
//!
//! The way down ([`locate`]) is a loop over the levels, with no page buffer. A page that was checked since it came into memory isn't
//! checked again. It ends on any bytes, and `Damaged` names a rule that a page breaks in its place.
//!
//! Tests: `page_tests/src/paged_map_tests.rt`, through `paged_map`.
#![tactic(auto)]

mod bounds;
mod check;
mod form;
mod key;
mod locating;
mod narrowing;
mod node;
mod order;
mod pairs;
mod recheck;
mod sealed;
mod store;
mod writing;

pub use bounds::{child_at, is_below, lower, upper};
pub use check::{check_inner, check_leaf, count, half, least_at, level, root_least};
pub use form::{Form, Shape};
pub use key::{body, compare, key_of, place};
pub use locating::{Leaf, locate};
pub use narrowing::Bounds;
pub use node::{Found, damaged, find_place};
pub use order::ascends;
pub use recheck::seal_of;
pub use sealed::{copy_value, inner_count, leaf_count, place_in, row_in};
pub use store::store_one;
pub use writing::{build, clear_key, copy_key, edit_cells, splice, write_at};
