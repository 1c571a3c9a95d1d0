//! What an opener gives.
use place_values::Hit;

/// A node that may be opened, or a place.
#[derive(Clone, Copy, Debug, PartialEq, Eq)]
pub enum Item {
    /// A node.
    Node {
        /// Its page.
        page: u32,
        /// Its level, 0 for a leaf.
        level: u8,
        /// No place below it costs less.
        bound: u64,
    },
    /// A place, with what it costs.
    Place(Hit),
}
