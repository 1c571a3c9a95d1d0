//! The rectangles of a node's slots, and the least one around them.
ghost use Rattle.std.specs.Prelude.{◌≡◌, ◌<◌, ◌+◌, ◌&&◌, ◌↔◌, ℕ, true, false, not, IsTrue, IsErr, IsOk, IfOk, IfErr, IfSome, IsSome, slice_index_or, if◌then◌else◌, Option, Some, None};
ghost use Rattle.rtree_nodes.specs.Slots.{filled, tops, Held};
ghost use Rattle.rtree_nodes.specs.Reach.{reach_of, origin as zero_point, origin_rect as zero_rect, joined_both};
ghost use Rattle.rtree_nodes.specs.Cells.{has_rect};
ghost use Rattle.rtree_nodes.specs.Pages.{level_in, mask_of as mask_in, is_used, cell_at, rect_of_slot, has_rects, stored_in, is_form, slots_in};

use crate::SLOTS;
use crate::layout::{CHILD_BYTES, PLACE_BYTES, SLOTS_AT, is_set, level_of, mask_of};
use crate::reading::{point_at, rect_at};
use page_face::{Page, Rule};
use spatial_base::{Point, Rect};

/// The point 0 0.
pub(crate) fn origin() -> Point
    ensures { result ≡ zero_point }
{
    match Point::new(0, 0) {
        Some(point) => point,
        None => unreachable!(),
    }
}

/// The rectangle of the point 0 0.
pub(crate) fn origin_rect() -> Rect
    ensures { result ≡ zero_rect }
{
    Rect::of(&origin())
}

// The rectangle of a slot's bytes, whether it is used or not; `None` exactly if the bytes are no rectangle.
fn cell_rect(page: &Page, at: usize) -> Option<Rect>
    requires { at < 32 }
    ensures some { IsSome result ↔ IsTrue (has_rect (level_in page.now) (cell_at page.now at)) }
    ensures value { IfSome result (λ rect. rect ≡ rect_of_slot page.now at) }
{
    if level_of(page) == 0 {
        let point = point_at(page, SLOTS_AT + PLACE_BYTES * at)?;
        Some(Rect::of(&point))
    } else {
        rect_at(page, SLOTS_AT + CHILD_BYTES * at)
    }
}

// The rectangle of a slot, or None if the slot isn't used.
fn slot_rect(page: &Page, at: usize) -> Result<Option<Rect>, Rule>
    requires { at < 32 }
    ensures value { IsErr result ↔ IsTrue (is_used page.now at && not (has_rect (level_in page.now) (cell_at page.now at))) }
    ensures rule { IfErr result (λ rule. rule ≡ Rule.Value) }
    ensures rect { IfOk result (λ rect. rect ≡ (if is_used page.now at then Some (rect_of_slot page.now at) else None)) }
{
    if !is_set(mask_of(page), at) {
        return Ok(None);
    }
    match cell_rect(page, at) {
        Some(rect) => Ok(Some(rect)),
        None => Err(Rule::Value),
    }
}

// The rectangle of a slot, or that of the point 0 0 if the slot isn't used.
fn rect_or_origin(page: &Page, at: usize) -> Result<Rect, Rule>
    requires { at < 32 }
    ensures value { IsErr result ↔ IsTrue (is_used page.now at && not (has_rect (level_in page.now) (cell_at page.now at))) }
    ensures rule { IfErr result (λ rule. rule ≡ Rule.Value) }
    ensures rect { IfOk result (λ rect. rect ≡ (if is_used page.now at then rect_of_slot page.now at else zero_rect)) }
{
    match slot_rect(page, at) {
        Ok(Some(rect)) => Ok(rect),
        Ok(None) => Ok(origin_rect()),
        Err(rule) => Err(rule),
    }
}

/// Returns the rectangle of each used slot, in a leaf that of its point, and the rectangle of the point 0 0 for the others.
///
/// Refuses `Value` exactly if the point or rectangle of a used slot isn't one. Keys aren't looked at.
pub fn rects(page: &Page) -> Result<[Rect; 32], Rule>
    ensures value { IsErr result ↔ (has_rects page.now ≡ false) }
    ensures rule { IfErr result (λ rule. rule ≡ Rule.Value) }
    ensures each { IfOk result (λ rects. (i : ℕ) → i < 32 → slice_index_or rects i zero_rect ≡ (if is_used page.now i then rect_of_slot page.now i else zero_rect)) }
    ensures ok { is_form page.now ≡ true → IsOk result }
    ensures reach { is_form page.now ≡ true → IfOk result (λ rects. (i : ℕ) → i < 32 → Held (λ x. reach_of (slice_index_or rects i zero_rect) ≡ x.reach) (slots_in page.now i)) }
{
    let mut rects = [origin_rect(); 32];
    for i in 0..SLOTS {
        rects[i] = rect_or_origin(page, i)?;
    }
    Ok(rects)
}

// A rectangle widened to another, if there is one.
fn widened(bounds: Option<Rect>, rect: Option<Rect>) -> Option<Rect>
    ensures { result ≡ joined_both bounds rect }
{
    match (bounds, rect) {
        (Some(bounds), Some(rect)) => Some(bounds.join(&rect)),
        (Some(bounds), None) => Some(bounds),
        (None, rect) => rect,
    }
}

/// Returns the least rectangle around all used slots, or the rectangle of the point 0 0 if none is used.
///
/// Refuses `Value` exactly if the point or rectangle of a used slot isn't one. Keys aren't looked at.
pub fn bounds(page: &Page) -> Result<Rect, Rule>
    ensures value { IsErr result ↔ (has_rects page.now ≡ false) }
    ensures rule { IfErr result (λ rule. rule ≡ Rule.Value) }
    ensures none { mask_in page.now ≡ 0 → IfOk result (λ rect. rect ≡ zero_rect) }
    ensures stored { 0 < mask_in page.now → IfOk result (λ rect. (d : ℕ) → reach_of rect d ≡ tops d (stored_in page.now)) }
    ensures ok { is_form page.now ≡ true → IsOk result }
    ensures reach { 0 < filled (slots_in page.now) → IfOk result (λ rect. (d : ℕ) → reach_of rect d ≡ tops d (slots_in page.now)) }
{
    let mut bounds = None;
    for i in 0..SLOTS {
        bounds = widened(bounds, slot_rect(page, i)?);
    }
    Ok(bounds.unwrap_or(origin_rect()))
}
