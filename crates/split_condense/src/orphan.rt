//! Items that are in no node.
ghost use Rattle.irtree_insert.specs.Fits.{Fits};

use rtree_nodes::Slot;

/// An item whose node was dissolved, until it is put back.
#[derive(Drop)]
pub(crate) struct Orphan {
    /// The level of the nodes that it belongs to: 0 for a place.
    pub(crate) level: u8,
    /// What was in the slot: a place at level 0, else a child.
    pub(crate) slot: Slot,
    /// The words below the slot by number, each with its greatest impact.
    pub(crate) words: Vec<(u64, u8)>,
    ghost fits: { Fits level slot },
}
