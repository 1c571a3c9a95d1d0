//! A node in memory.
ghost use Rattle.std.specs.Prelude.{◌≡◌, ◌<◌, ◌==◌};
ghost use Rattle.rtree_nodes.specs.Kinds.{is_leaf};

use spatial_base::{Key, Point, Rect};

/// The 32 slots of a node. What an array holds at an unused slot means nothing.
#[derive(Clone, Copy, Debug)]
pub enum Slots {
    /// The places of a leaf.
    Leaf {
        /// The point of each.
        points: [Point; 32],
        /// The key of each.
        keys: [Key; 32],
    },
    /// The children of an inner node.
    Inner {
        /// The least rectangle around what is below each.
        rects: [Rect; 32],
        /// The page of each.
        children: [u32; 32],
    },
}

/// A node in memory: at least one slot is used, and the level is 0 exactly if it is a leaf.
#[derive(Clone, Copy, Debug)]
pub struct Node {
    /// The level, 0 in a leaf.
    pub level: u8,
    /// The mask of used slots, slot i at bit i.
    pub used: u32,
    /// What the slots hold.
    pub slots: Slots,
    ghost leaf: { is_leaf slots ≡ (level == 0) },
    ghost some: { 0 < used },
}
