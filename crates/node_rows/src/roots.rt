//! A tree by its two roots.

/// The roots of a tree and of the map of its rows.
#[derive(Clone, Copy, Debug, PartialEq, Eq)]
pub struct Tree {
    /// The page of the tree's root, or 0 if the tree is empty.
    pub root: u32,
    /// The page of the root of the rows' map, or 0 if there is no row.
    pub rows: u32,
}
