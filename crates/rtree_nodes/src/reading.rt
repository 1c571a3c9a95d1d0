//! The content of one slot of a page.
ghost use Rattle.std.specs.Prelude.{◌≡◌, ◌<◌, ◌≤◌, ◌+◌, ◌*◌, ◌==◌, ◌&&◌, ◌↔◌, true, false, not, take, drop, Option, IsTrue, IsSome, IfSome, IfOk, IfErr, IsOk, IsErr, option_map, Some, None};
ghost use Rattle.rtree_nodes.specs.Slots.{IsUsed, IsChildAt};
ghost use Rattle.rtree_nodes.specs.Numbers.{number_at, int_at};
ghost use Rattle.rtree_nodes.specs.Reach.{item_of, place_item, child_item, is_place};
ghost use Rattle.rtree_nodes.specs.Cells.{cell_start, has_form, is_on_map, is_rect, is_key_form};
ghost use Rattle.rtree_nodes.specs.Pages.{level_in, is_used, cell_at, item_at, stored_in, is_form, slots_in};

use crate::Slot;
use crate::bytes::{i32_at, key_bytes, u32_at};
use crate::layout::{CHILD_BYTES, PLACE_BYTES, SLOTS_AT, is_set, level_of, mask_of};
use page_face::{Page, Rule};
use spatial_base::{Key, Point, Rect};

/// The point at an offset, or `None` exactly if it is off the map.
pub(crate) fn point_at(page: &Page, at: usize) -> Option<Point>
    requires { at + 8 ≤ 4096 }
    ensures some { IsSome result ↔ IsTrue (is_on_map (int_at at page.now) (int_at (at + 4) page.now)) }
    ensures value { IfSome result (λ point. point ≡ record { x = int_at at page.now; y = int_at (at + 4) page.now }) }
{
    Point::new(i32_at(page, at), i32_at(page, at + 4))
}

/// The rectangle at an offset, or `None` exactly if the bytes are no rectangle.
pub(crate) fn rect_at(page: &Page, at: usize) -> Option<Rect>
    requires { at + 16 ≤ 4096 }
    ensures some { IsSome result ↔ IsTrue (is_rect (record { west = int_at at page.now; south = int_at (at + 4) page.now; east = int_at (at + 8) page.now; north = int_at (at + 12) page.now })) }
    ensures value { IfSome result (λ rect. rect ≡ record { west = int_at at page.now; south = int_at (at + 4) page.now; east = int_at (at + 8) page.now; north = int_at (at + 12) page.now }) }
{
    Rect::new(
        i32_at(page, at),
        i32_at(page, at + 4),
        i32_at(page, at + 8),
        i32_at(page, at + 12),
    )
}

// The place at an offset, or `None` exactly if its point or its key isn't one.
fn place_at(page: &Page, at: usize) -> Option<Slot>
    requires { at + 74 ≤ 4096 }
    ensures some { IsSome result ↔ IsTrue (is_on_map (int_at at page.now) (int_at (at + 4) page.now) && is_key_form (take 66 (drop (at + 8) page.now))) }
    ensures item { IfSome result (λ slot. item_of slot ≡ place_item (record { x = int_at at page.now; y = int_at (at + 4) page.now }) (take 66 (drop (at + 8) page.now))) }
    ensures kind { IfSome result (λ slot. is_place slot ≡ true) }
{
    let point = point_at(page, at)?;
    let key = Key::of_bytes(&key_bytes(page, at + 8))?;
    Some(Slot::Place { point, key })
}

// The child at an offset, or `None` exactly if its rectangle isn't one.
fn child_in(page: &Page, at: usize) -> Option<Slot>
    requires { at + 20 ≤ 4096 }
    ensures some { IsSome result ↔ IsTrue (is_rect (record { west = int_at at page.now; south = int_at (at + 4) page.now; east = int_at (at + 8) page.now; north = int_at (at + 12) page.now })) }
    ensures item { IfSome result (λ slot. item_of slot ≡ child_item (record { west = int_at at page.now; south = int_at (at + 4) page.now; east = int_at (at + 8) page.now; north = int_at (at + 12) page.now }) (number_at (at + 16) page.now)) }
    ensures kind { IfSome result (λ slot. is_place slot ≡ false) }
{
    let rect = rect_at(page, at)?;
    Some(Slot::Child {
        rect,
        page: u32_at(page, at + 16),
    })
}

/// The content of a slot's bytes, whether it is used or not; `None` exactly if they aren't of its form.
pub(crate) fn cell_slot(page: &Page, at: usize) -> Option<Slot>
    requires { at < 32 }
    ensures some { IsSome result ↔ IsTrue (has_form (level_in page.now) (cell_at page.now at)) }
    ensures item { IfSome result (λ slot. item_of slot ≡ item_at page.now at) }
    ensures kind { IfSome result (λ slot. is_place slot ≡ (level_in page.now == 0)) }
{
    if level_of(page) == 0 {
        place_at(page, SLOTS_AT + PLACE_BYTES * at)
    } else {
        child_in(page, SLOTS_AT + CHILD_BYTES * at)
    }
}

/// Returns the content of a slot, or `None` if the slot isn't used. Looks at no other slot.
///
/// Refuses `Value` exactly if the slot is used and isn't of its form.
pub fn slot_at(page: &Page, at: usize) -> Result<Option<Slot>, Rule>
    requires { at < 32 }
    ensures value { IsErr result ↔ IsTrue (is_used page.now at && not (has_form (level_in page.now) (cell_at page.now at))) }
    ensures rule { IfErr result (λ rule. rule ≡ Rule.Value) }
    ensures stored { IfOk result (λ slot. option_map item_of slot ≡ stored_in page.now at) }
    ensures kind { IfOk result (λ slot. IfSome slot (λ slot. is_place slot ≡ (level_in page.now == 0))) }
    ensures ok { is_form page.now ≡ true → IsOk result }
    ensures item { is_form page.now ≡ true → IfOk result (λ slot. option_map item_of slot ≡ slots_in page.now at) }
{
    if !is_set(mask_of(page), at) {
        return Ok(None);
    }
    match cell_slot(page, at) {
        Some(slot) => Ok(Some(slot)),
        None => Err(Rule::Value),
    }
}

/// Returns the page of the child in a slot of an inner node. For a leaf's page, or a slot that isn't used, it may be any number.
pub fn child_at(page: &Page, at: usize) -> u32
    requires { at < 32 }
    ensures number { result ≡ number_at (cell_start 1 at + 16) page.now }
    ensures child { is_form page.now ≡ true → 0 < level_in page.now → IsUsed (slots_in page.now) at → IsChildAt (slots_in page.now) at result }
{
    u32_at(page, SLOTS_AT + CHILD_BYTES * at + 16)
}
