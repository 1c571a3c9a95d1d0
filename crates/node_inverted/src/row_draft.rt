//! The draft of a leaf of the rows' map.
ghost use Rattle.std.specs.Prelude.{◌≡◌};
ghost use Rattle.rtree_nodes.specs.Stock.{rows_form};

use node_rows::row_form;
use paged_map::LeafDraft;

/// A copy of a leaf of the rows' map, whose rows are changed in memory before it is written in one call.
#[derive(Drop)]
pub(crate) struct RowDraft {
    pub(crate) leaf: LeafDraft,
    ghost form: { leaf.form ≡ rows_form },
}

impl RowDraft {
    /// Room for the copy of a leaf.
    pub fn blank() -> RowDraft {
        RowDraft {
            leaf: LeafDraft::blank(row_form()),
        }
    }
}
