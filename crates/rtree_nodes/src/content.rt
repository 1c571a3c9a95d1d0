//! The header of a node's page, and the content of a slot.
ghost use Rattle.std.specs.Prelude.{◌≡◌};
ghost use Rattle.rtree_nodes.specs.Reach.{reach_of, item_of, rect_in};

use spatial_base::{Key, Point, Rect};

/// What the first bytes of a node's page hold.
#[derive(Clone, Copy, Debug, PartialEq, Eq)]
pub struct Header {
    /// The level, 0 in a leaf.
    pub level: u8,
    /// The mask of used slots, slot i at bit i. It isn't 0.
    pub used: u32,
}

/// The content of a slot: a place in a leaf, a child in an inner node.
#[derive(Clone, Copy, Debug, PartialEq, Eq)]
pub enum Slot {
    /// A place of a leaf.
    Place {
        /// Its point on the map.
        point: Point,
        /// Its key.
        key: Key,
    },
    /// A child of an inner node.
    Child {
        /// The least rectangle around what is below it.
        rect: Rect,
        /// Its page.
        page: u32,
    },
}

impl Slot {
    /// The rectangle of the slot: a child's, or that of a place's point.
    pub fn rect(&self) -> Rect
        ensures value { result ≡ rect_in self.now }
        ensures reach { reach_of result ≡ (item_of self.now).reach }
    {
        match self {
            Slot::Place { point, .. } => Rect::of(point),
            Slot::Child { rect, .. } => *rect,
        }
    }
}
