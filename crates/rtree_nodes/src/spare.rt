//! The spare bytes of a node's page.
ghost use Rattle.std.specs.Prelude.{◌≡◌, ◌<◌, ◌||◌};
ghost use Rattle.page_face.specs.FreeList.{are_zero as is_clear};
ghost use Rattle.rtree_nodes.specs.Numbers.{all_below};
ghost use Rattle.rtree_nodes.specs.Pages.{is_used, cell_at, has_clear_spares as is_clear_page};

use crate::SLOTS;
use crate::layout::{is_set, level_of, mask_of, start_of, width_at};
use page_face::{Page, are_zero};

// Whether a slot is used, or its bytes are zero.
fn is_used_or_clear(page: &Page, at: usize) -> bool
    requires { at < 32 }
    ensures { result ≡ (is_used page.now at || is_clear (cell_at page.now at)) }
{
    let start = start_of(level_of(page), at);
    is_set(mask_of(page), at) || are_zero(&page[start..start + width_at(level_of(page))])
}

// Whether the bytes of all unused slots are zero.
fn has_clear_slots(page: &Page) -> bool
    ensures { result ≡ all_below 32 (λ i. is_used page.now i || is_clear (cell_at page.now i)) }
{
    for i in 0..SLOTS {
        if !is_used_or_clear(page, i) {
            return false;
        }
    }
    true
}

/// Whether each spare byte is zero.
pub(crate) fn has_clear_spares(page: &Page) -> bool
    ensures { result ≡ is_clear_page page.now }
{
    are_zero(&page[2..4])
        && are_zero(&page[8..16])
        && has_clear_slots(page)
        && are_zero(&page[start_of(level_of(page), SLOTS)..])
}
