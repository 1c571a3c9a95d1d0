//! The draft of a leaf.
ghost use Rattle.std.specs.Prelude.{◌≡◌, ◌+◌, ◌*◌, ◌<◌, ◌≤◌};

use btree_nodes::{Bounds, Form};
use page_face::Page;

/// A copy of one leaf of a map, whose rows are changed in memory before it is written in one call.
///
/// [`PagedMap::draft`](crate::PagedMap::draft) makes the copy. It is a copy of the leaf as long as no page changes except by
/// [`LeafDraft::write`]. Keys and values have the lengths of the map's form, as a condition of each call.
#[derive(Drop)]
pub struct LeafDraft {
    pub(crate) form: Form,
    pub(crate) page: u32,
    pub(crate) count: usize,
    pub(crate) least: usize,
    pub(crate) bounds: Bounds,
    pub(crate) bytes: Page,
    ghost fits: { 16 + (form.key + form.value) * count ≤ 4096 },
    ghost top: { 0 < bounds.top → bounds.top ≡ form.key },
}

impl LeafDraft {
    /// Room for the copy of a leaf of a form, with no row yet.
    pub fn blank(form: Form) -> LeafDraft
        ensures { result.form ≡ form }
    {
        LeafDraft {
            form,
            page: 0,
            count: 0,
            least: 0,
            bounds: Bounds::all(),
            bytes: [0; 4096],
        }
    }
}
