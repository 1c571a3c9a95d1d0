//! Points, rectangles, keys and distances: the exact values that every other crate uses.
//!
//! A point is a pair of whole numbers, degrees times 10^7. A key is a text of 1 to 64 bytes or an automatic number. A distance is the
//! straight line on the map of degrees, where longitudes meet at 180 degrees and count as much as a scale says. No call allocates memory.
//!
//! Tests: `text_tests/src/spatial_base_tests.rt`.
#![tactic(auto)]

mod distance;
mod key;
mod memory;
mod origin;
mod point;
mod rect;

pub use distance::{dist, isqrt};
pub use key::{KEY_TEXT_MAX, Key, KeyFault};
pub use memory::Memory;
pub use origin::{Origin, SCALE_MAX};
pub use point::{LATITUDE_MAX, LONGITUDE_MAX, Point};
pub use rect::Rect;
