//! What putting an item in makes of a node.
ghost use Rattle.std.specs.Prelude.{◌≡◌, false};
ghost use Rattle.rtree_nodes.specs.Reach.{item_of, is_place};
ghost use Rattle.irtree_insert.specs.Grown.{beside_item};

use rtree_nodes::Slot;
use spatial_base::Rect;

/// A node that was made beside another one, in a split.
#[derive(Clone, Copy, Debug)]
pub(crate) struct Beside {
    /// The least rectangle round the node.
    pub(crate) rect: Rect,
    /// The node's page.
    pub(crate) page: u32,
}

impl Beside {
    /// Returns the slot for the node.
    pub(crate) fn slot(&self) -> Slot
        ensures item { item_of result ≡ beside_item self.now }
        ensures child { is_place result ≡ false }
    {
        Slot::Child {
            rect: self.rect,
            page: self.page,
        }
    }
}

/// What putting an item in has made of a node.
#[derive(Clone, Copy, Debug)]
pub(crate) struct Grown {
    /// The least rectangle round the node now.
    pub(crate) rect: Rect,
    /// The node that was made beside it, if the node was split.
    pub(crate) more: Option<Beside>,
}
