//! The removal of a row from a paged map: a page that has become too empty shares its cells with a neighbour.
//!
//! On a well-formed tree and free list, after a removal that succeeds the tree's rows are those before without the row at the key.
//!
//! A page other than the root holds at least half of the cells that fit. If a page has fewer after a row was taken
//! out, its cells and those of a neighbour are gathered. If they fit in one page they become one, and the other page
//! is given back; otherwise each of the two gets half of them.
//!
//! Tests: `page_tests/src/paged_map_tests.rt`, through `paged_map`.
#![tactic(auto)]

mod beside;
mod cells;
mod joining;
mod leaf;
mod mending;
mod node;
mod pair;
mod remove;
mod root;
mod settling;
mod sharing;

pub use beside::{look_beside, look_if_low};
pub use joining::join;
pub use leaf::{remove_leaf, take_out};
pub use mending::mend;
pub use pair::{halve, merge};
pub use remove::remove_in;
pub use root::lower_root;
pub use settling::{Beside, settle, settle_if_low};
pub use sharing::{shape_at, share};
