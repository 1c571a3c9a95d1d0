//! The children of an inner node whose rectangle holds a point.
ghost use Rattle.std.specs.Prelude.{◌≡◌, ◌<◌, ℕ, true, false, None, IfOk, IfErr, IsOk, MatchOption, slice_index_or};
ghost use Rattle.page_face.specs.declared.fault.Rule.TheVariants.{Value};
ghost use Rattle.rtree_nodes.specs.Pages.{level_in, is_form, stored_in};
ghost use Rattle.rtree_nodes.specs.Reach.{item_of, is_place};
ghost use Rattle.rtree_nodes.specs.Breaks.{BreaksNode};
ghost use Rattle.rtree_nodes.specs.Entries.{IsRound, IsShort};

use crate::{SLOTS, Slot, slot_at};
use page_face::{Page, Rule};
use spatial_base::Point;

// The child in a slot's content, if its rectangle holds the point.
fn child_of(slot: &Slot, point: &Point) -> Option<u32>
    ensures { is_place slot.now ≡ false → MatchOption result (IsShort point.now (item_of slot.now)) (λ child. (item_of slot.now).to ≡ child) }
{
    match slot {
        Slot::Child { rect, page } => {
            // Its sides are on the map: the contract of `west` states so, and that of `holds` doesn't.
            let _west = rect.west();
            rect.holds(point).then_some(*page)
        }
        Slot::Place { .. } => None,
    }
}

// The child in a slot of an inner node, if its rectangle holds the point.
fn child_round(page: &Page, at: usize, point: &Point) -> Result<Option<u32>, Rule>
    requires { at < 32 }
    ensures round { 0 < level_in page.now → IfOk result (λ child. IsRound (stored_in page.now) point.now at child) }
    ensures ok { is_form page.now ≡ true → IsOk result }
    ensures breaks { IfErr result (λ rule. (rule ≡ Value) × BreaksNode Value page.now) }
{
    match slot_at(page, at) {
        Ok(Some(slot)) => Ok(child_of(&slot, point)),
        Ok(None) => Ok(None),
        Err(rule) => Err(rule),
    }
}

/// Returns for each slot of an inner node its child, if the child's rectangle holds the point, and else `None`.
///
/// Refuses `Value` if a used slot isn't of its form.
pub fn children_round(page: &Page, point: &Point) -> Result<[Option<u32>; 32], Rule>
    ensures round { 0 < level_in page.now → IfOk result (λ children. (i : ℕ) → i < 32 → IsRound (stored_in page.now) point.now i (slice_index_or children i None)) }
    ensures ok { is_form page.now ≡ true → IsOk result }
    ensures breaks { IfErr result (λ rule. (rule ≡ Value) × BreaksNode Value page.now) }
{
    let mut children = [None; 32];
    for at in 0..SLOTS {
        match child_round(page, at, point) {
            Ok(child) => children[at] = child,
            Err(rule) => return Err(rule),
        }
    }
    Ok(children)
}
