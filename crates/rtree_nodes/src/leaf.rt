//! The slot of a leaf that holds a place, read in the page itself.
ghost use Rattle.std.specs.Prelude.{◌≡◌, ◌<◌, ◌≤◌, ◌+◌, ◌↔◌, ℕ, Some, None, true, false, IsTrue, IfSome};
ghost use Rattle.rtree_nodes.specs.Slots.{got};
ghost use Rattle.rtree_nodes.specs.Reach.{place_item};
ghost use Rattle.rtree_nodes.specs.Pages.{level_in, stored_in};
ghost use Rattle.rtree_nodes.specs.Entries.{is_entry, IsPlaceIn};

use crate::SLOTS;
use crate::bytes::i32_at;
use crate::layout::{PLACE_BYTES, SLOTS_AT, is_used};
use page_face::Page;
use spatial_base::Point;

// Whether this point, followed by the key of these bytes, is at an offset.
fn is_place(page: &Page, start: usize, point: &Point, key: &[u8; 66]) -> bool
    requires { start + 74 ≤ 4096 }
    ensures { IsTrue result ↔ IsPlaceIn page.now start point.now key.now }
{
    i32_at(page, start) == point.x()
        && i32_at(page, start + 4) == point.y()
        && page[start + 8..start + PLACE_BYTES] == key[..]
}

// Whether a slot of a leaf holds this place.
fn holds_place(page: &Page, at: usize, point: &Point, key: &[u8; 66]) -> bool
    requires { at < 32 }
    ensures held { level_in page.now ≡ 0 → result ≡ true → stored_in page.now at ≡ Some (place_item point.now key.now) }
    ensures other { level_in page.now ≡ 0 → result ≡ false → got (is_entry point.now key.now) (stored_in page.now at) ≡ 0 }
{
    is_used(page, at) && is_place(page, SLOTS_AT + PLACE_BYTES * at, point, key)
}

/// Returns the slot of a leaf's page that holds the place at this point with the key of these bytes, or `None` if none does.
///
/// Reads the slots in place, and decodes no key.
pub fn place_slot(page: &Page, point: &Point, key: &[u8; 66]) -> Option<u8>
    ensures found { level_in page.now ≡ 0 → IfSome result (λ at. (at < 32) × (stored_in page.now at ≡ Some (place_item point.now key.now))) }
    ensures absent { level_in page.now ≡ 0 → result ≡ None → (i : ℕ) → i < 32 → got (is_entry point.now key.now) (stored_in page.now i) ≡ 0 }
{
    for at in 0..SLOTS {
        if holds_place(page, at, point, key) {
            return Some(at as u8);
        }
    }
    None
}
