//! The offsets of the parts of a node's page.
ghost use Rattle.std.specs.Prelude.{◌≡◌, ◌<◌, ◌≤◌, ◌+◌, ◌==◌};
ghost use Rattle.std.specs.Int.{bit_at};
ghost use Rattle.rtree_nodes.specs.Cells.{cell_width, cell_start};
ghost use Rattle.rtree_nodes.specs.Pages.{level_in, is_used as is_used_in, mask_of as mask_in};

use crate::bytes::u32_at;
use page_face::Page;

/// Byte 0 of a node's page: 1 and 2 are the pages of maps, 4 a free one.
pub(crate) const NODE_KIND: u8 = 3;

/// The offset of the mask of used slots, after the kind, the level and two spare bytes, so that it is aligned.
pub(crate) const MASK_AT: usize = 4;

/// The offset of the first slot, the same as that of the first cell of a map's page.
pub const SLOTS_AT: usize = 16;

/// The bytes of a place: two coordinates of 4 bytes, and a key's form of 66.
pub const PLACE_BYTES: usize = 74;

/// The bytes of a child: four coordinates and a page, of 4 bytes each.
pub(crate) const CHILD_BYTES: usize = 20;

/// The level in a page's header.
pub(crate) fn level_of(page: &Page) -> u8
    ensures { result ≡ level_in page.now }
{
    page[1]
}

/// The mask in a page's header.
pub(crate) fn mask_of(page: &Page) -> u32
    ensures { result ≡ mask_in page.now }
{
    u32_at(page, MASK_AT)
}

/// Whether bit `at` is set.
pub(crate) fn is_set(mask: u32, at: usize) -> bool
    requires { at < 32 }
    ensures { result ≡ (bit_at mask at == 1) }
{
    (mask >> at) & 1 == 1
}

/// Returns whether a slot of a node's page is used, by the mask in the header.
pub fn is_used(page: &Page, at: usize) -> bool
    requires { at < 32 }
    ensures { result ≡ is_used_in page.now at }
{
    (u32_at(page, MASK_AT) >> at) & 1 == 1
}

/// The bytes of a slot.
pub(crate) fn width_at(level: u8) -> usize
    ensures { result ≡ cell_width level }
{
    if level == 0 { PLACE_BYTES } else { CHILD_BYTES }
}

/// The offset at which slot `at` begins, or the last one ends.
pub(crate) fn start_of(level: u8, at: usize) -> usize
    requires { at ≤ 32 }
    ensures is { result ≡ cell_start level at }
    ensures within { result ≤ 2384 }
    ensures fits { result + cell_width level ≤ 4096 }
{
    SLOTS_AT + width_at(level) * at
}
