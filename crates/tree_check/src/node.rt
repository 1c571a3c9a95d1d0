//! One node of a tree by itself.
ghost use Rattle.std.specs.Prelude.{◌≡◌, ◌<◌, ℕ, true, false, Some, None, IfErr, OnOk, MatchOption};
ghost use Rattle.rtree_nodes.specs.Pages.{level_in, is_form, slots_in};
ghost use Rattle.rtree_nodes.specs.Reach.{child_item, item_of, is_place, reach_of};
ghost use Rattle.rtree_nodes.specs.Slots.{filled, tops};
ghost use Rattle.rtree_nodes.specs.Trees.{root_least as least_of_root};
ghost use Rattle.tree_check.specs.Nodes.{IsPlaced};
ghost use Rattle.tree_check.specs.Damages.{BreaksPlaced};

use page_face::{Page, Rule};
use rtree_nodes::{Node, Slot, bounds, count, slot_at};
use spatial_base::Rect;

/// A child of an inner node.
#[derive(Clone, Copy)]
pub(crate) struct Child {
    /// The least rectangle around what is below it.
    pub rect: Rect,
    /// Its page.
    pub page: u32,
}

/// The least number of items of a root of this level.
pub(crate) fn root_least(level: u8) -> usize
    ensures is { result ≡ least_of_root level }
    ensures some { 0 < result }
{
    if level == 0 { 1 } else { 2 }
}

/// Whether a page is that of a node of this level with at least so many items.
///
/// Refuses the first of these rules that the page breaks: `Kind`, `Fill` if no slot is used, `Spare`, `Value`, `Level`, `Fill`.
pub(crate) fn check_form(bytes: &Page, level: u8, least: usize) -> Result<(), Rule>
    requires { 0 < least }
    ensures placed { OnOk result (IsPlaced least level bytes.now) }
    ensures breaks { IfErr result (λ rule. BreaksPlaced rule least level bytes.now) }
{
    let node = match Node::decode(bytes) {
        Ok(node) => node,
        Err(rule) => return Err(rule),
    };
    if node.level != level {
        return Err(Rule::Level);
    }
    if count(bytes) < least {
        return Err(Rule::Fill);
    }
    Ok(())
}

// The child in a slot, or `None` if a place is.
fn child_of(slot: &Slot) -> Option<Child>
    ensures { MatchOption result (is_place slot.now ≡ true) (λ child. item_of slot.now ≡ child_item child.rect child.page) }
{
    match slot {
        Slot::Child { rect, page } => Some(Child {
            rect: *rect,
            page: *page,
        }),
        Slot::Place { .. } => None,
    }
}

/// The child in a slot of an inner node, or `None` if the slot isn't used.
pub(crate) fn child_in(bytes: &Page, at: usize) -> Option<Child>
    requires within { at < 32 }
    requires form { is_form bytes.now ≡ true }
    requires inner { 0 < level_in bytes.now }
    ensures { MatchOption result (slots_in bytes.now at ≡ None) (λ child. slots_in bytes.now at ≡ Some (child_item child.rect child.page)) }
{
    match slot_at(bytes, at) {
        Ok(Some(slot)) => child_of(&slot),
        Ok(None) => None,
        Err(_) => None,
    }
}

/// The least rectangle around the items of a node that has one.
pub(crate) fn bounds_of(bytes: &Page) -> Rect
    requires { 0 < filled (slots_in bytes.now) }
    ensures { (d : ℕ) → reach_of result d ≡ tops d (slots_in bytes.now) }
{
    match bounds(bytes) {
        Ok(rect) => rect,
        Err(_) => unreachable!(),
    }
}

/// Whether two rectangles are the same.
pub(crate) fn is_same(first: &Rect, second: &Rect) -> bool
    ensures same { result ≡ true → first.now ≡ second.now }
    ensures apart { result ≡ false → ((d : ℕ) → reach_of first.now d ≡ reach_of second.now d) → ⊥ }
{
    first.west() == second.west()
        && first.south() == second.south()
        && first.east() == second.east()
        && first.north() == second.north()
}
