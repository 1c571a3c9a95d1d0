//! What the slots of a node's page give, read in place.
ghost use Rattle.std.specs.Prelude.{◌≡◌, ◌⊎◌, ◌<◌, ◌≤◌, ◌==◌, ◌∷◌, ◌++◌, [], ℕ, Bool, true, false, length, slice_index, IfOk, IfErr, IfSome, IsOk, OnOk, Some};
ghost use Rattle.std.specs.List.{AllByRecursion};
ghost use Rattle.page_face.specs.declared.fault.Rule.TheVariants.{Value};
ghost use Rattle.rtree_nodes.specs.Slots.{Slots as SlotsOf};
ghost use Rattle.rtree_nodes.specs.Breaks.{BreaksNode};
ghost use Rattle.rtree_nodes.specs.Pages.{level_in, is_form, stored_in};
ghost use Rattle.rtree_nodes.specs.Reach.{item_of, is_place};
ghost use Rattle.best_first.specs.Items.{IsGivenAt, bound_of as bound_in};
ghost use Rattle.best_first.specs.Cuts.{kept_one, kept_of};
ghost use Rattle.node_filter.specs.Masks.{has_slot};
ghost use Rattle.spatial_base.specs.Key.{form_of};
ghost use Rattle.spatial_base.specs.Point.{IsOnMap, distance};
ghost use Rattle.rtree_nodes.specs.Reach.{place_item, child_item};
ghost use Rattle.best_first.specs.Asks.{cost_by, hit_with, bound_with};
ghost use Rattle.best_first.specs.NodeOpenings.{marked_by, given_at, spread, IsIn, listed_item};

use crate::best::is_over;
use crate::{Ask, Item};
use btree_nodes::damaged;
use node_filter::Marks;
use page_face::{Page, PageFault, Rule};
use place_values::Hit;
use rtree_nodes::{PLACE_BYTES, SLOTS, SLOTS_AT, Slot, child_at, i32_at, is_used, slot_at};
use spatial_base::{Key, Origin, Point, Rect};
use std::alloc::Global;

// The bytes of a child: four coordinates and a page, of 4 bytes each.
const CHILD_BYTES: usize = 20;

// The hit of a place with a relevance.
fn hit_at(ask: &Ask, from: &Origin, point: &Point, key: &Key, text: u32) -> Hit
    ensures key { result.key ≡ key.now }
    ensures point { result.point ≡ point.now }
    ensures hit { result ≡ hit_with from.now ask.now text (place_item point.now (form_of key.now)) }
{
    // The point is on the map, and the key has a form.
    let _x = point.x();
    let _y = point.y();
    let _form = key.bytes();
    let dist = from.dist(point);
    Hit {
        cost: ask.cost(dist, text),
        key: *key,
        dist,
        text,
        point: *point,
    }
}

// The bound of a child with a relevance: no place below it costs less.
fn bound_at(ask: &Ask, from: &Origin, rect: &Rect, page: u32, text: u32) -> u64
    ensures { result ≡ bound_with from.now ask.now text (child_item rect.now page) }
{
    // The rectangle is one of the map.
    let _west = rect.west();
    ask.cost(from.mindist(rect), text)
}

// A place's hit, or a child's node.
fn item_at(ask: &Ask, from: &Origin, slot: &Slot, level: u8, text: u32) -> Item
    requires { is_place slot.now ≡ (level == 0) }
    ensures item { marked_by from.now ask.now level true text (item_of slot.now) ≡ result ∷ [] }
    ensures level { IsGivenAt level result }
    ensures stands { (slots : SlotsOf) (at : ℕ) → at < 32 → slots at ≡ Some (item_of slot.now) → IsIn slots result }
{
    match slot {
        Slot::Place { point, key } => Item::Place(hit_at(ask, from, point, key, text)),
        Slot::Child { rect, page } => Item::Node {
            page: *page,
            level: level - 1,
            bound: bound_at(ask, from, rect, *page, text),
        },
    }
}

// The node of the child in a slot, if it is used and its bytes are a rectangle's. A leaf has none.
fn child_in(page: &Page, at: usize, level: u8, ask: &Ask, from: &Origin, text: u32) -> Option<Item>
    requires at { at < 32 }
    requires level { level ≡ level_in page.now }
    ensures given { IfSome result (λ item. given_at (marked_by from.now ask.now level true text) (stored_in page.now at) ≡ item ∷ []) }
    ensures level { IfSome result (IsGivenAt level) }
    ensures stands { IfSome result (IsIn (stored_in page.now)) }
{
    if level == 0 {
        return None;
    }
    if !is_used(page, at) {
        return None;
    }
    let start = SLOTS_AT + CHILD_BYTES * at;
    match Rect::new(
        i32_at(page, start),
        i32_at(page, start + 4),
        i32_at(page, start + 8),
        i32_at(page, start + 12),
    ) {
        Some(rect) => {
            let child = child_at(page, at);
            Some(Item::Node {
                page: child,
                level: level - 1,
                bound: bound_at(ask, from, &rect, child, text),
            })
        }
        None => None,
    }
}

// What a place at a point costs with a relevance.
fn cost_at(ask: &Ask, from: &Origin, point: &Point, text: u32) -> u64
    ensures cost { result ≡ cost_by ask.now (distance from.now point.now) text }
    ensures on { IsOnMap point.now.x point.now.y }
{
    // The point is on the map, by the contracts of `x` and `y`.
    let (_x, _y) = (point.x(), point.y());
    ask.cost(from.dist(point), text)
}

// Whether a slot of a leaf has no place that costs little enough. Of the place only the point is looked at, and not the key after it.
fn is_far(
    page: &Page,
    at: usize,
    level: u8,
    ask: &Ask,
    from: &Origin,
    text: u32,
    most: Option<u64>,
) -> bool
    requires { at < 32 }
    ensures { result ≡ true → level ≡ level_in page.now → (marked : Bool) → kept_of most (given_at (marked_by from.now ask.now level marked text) (stored_in page.now at)) ≡ [] }
{
    if level > 0 {
        return false;
    }
    if !is_used(page, at) {
        return true;
    }
    let start = SLOTS_AT + PLACE_BYTES * at;
    match Point::new(i32_at(page, start), i32_at(page, start + 4)) {
        Some(point) => is_over(cost_at(ask, from, &point, text), most),
        None => false,
    }
}

// What no place that an item leads to costs less than.
fn bound_of(item: &Item) -> u64
    ensures { result ≡ bound_in item.now }
{
    match item {
        Item::Node { bound, .. } => *bound,
        Item::Place(hit) => hit.cost,
    }
}

// The item, unless its bound is above the most that is asked for.
fn kept(item: Item, most: Option<u64>) -> Option<Item>
    ensures kept { listed_item result ≡ kept_one most item }
    ensures same { IfSome result (λ kept. kept ≡ item) }
{
    if is_over(bound_of(&item), most) {
        None
    } else {
        Some(item)
    }
}

// What a slot gives, if it is marked, except for what costs too much.
fn slot_item(
    page: &Page,
    at: usize,
    level: u8,
    ask: &Ask,
    from: &Origin,
    marks: &Marks,
    most: Option<u64>,
) -> Result<Option<Item>, Rule>
    requires at { at < 32 }
    requires level { level ≡ level_in page.now }
    ensures given { IfOk result (λ item. listed_item item ≡ kept_of most (given_at (marked_by from.now ask.now level (has_slot marks.now.slots at) (slice_index marks.now.texts at)) (stored_in page.now at))) }
    ensures level { IfOk result (λ item. IfSome item (IsGivenAt level)) }
    ensures stands { IfOk result (λ item. IfSome item (IsIn (stored_in page.now))) }
    ensures ok { is_form page.now ≡ true → IsOk result }
    ensures breaks { IfErr result (λ rule. (rule ≡ Value) × BreaksNode Value page.now) }
{
    if !is_marked(marks, at) {
        return Ok(None);
    }
    if is_far(page, at, level, ask, from, marks.texts[at], most) {
        return Ok(None);
    }
    if let Some(child) = child_in(page, at, level, ask, from, marks.texts[at]) {
        return Ok(kept(child, most));
    }
    match slot_at(page, at) {
        Ok(Some(slot)) => Ok(kept(item_at(ask, from, &slot, level, marks.texts[at]), most)),
        Ok(None) => Ok(None),
        Err(rule) => Err(rule),
    }
}

// Whether a slot is marked.
fn is_marked(marks: &Marks, at: usize) -> bool
    requires { at < 32 }
    ensures { result ≡ has_slot marks.now.slots at }
{
    (marks.slots >> at) & 1 == 1
}

// Adds what a slot gives.
fn push_item(items: &mut Vec<Item>, item: Option<Item>) -> Result<(), PageFault>
    ensures items { OnOk result (items.new.items ≡ items.old.items ++ listed_item item) }
    ensures memory { IfErr result (λ fault. fault ≡ PageFault.Memory) }
{
    let Some(item) = item else {
        return Ok(());
    };
    match items.push(item) {
        Ok(()) => Ok(()),
        Err(_) => Err(PageFault::Memory),
    }
}

/// Returns what the marked slots of a node's page give, in order: the hits of a leaf's places, and of any other node its children with
/// their bounds. What costs more than `most` is left out.
///
/// Refuses `Damaged` with `Value` if a slot that was looked at isn't of its form, and `Memory` if it runs out of memory. Of a place that
/// costs too much only the point is looked at.
pub fn gather(
    alloc: Global,
    page: &Page,
    node: u32,
    level: u8,
    ask: &Ask,
    from: &Origin,
    marks: &Marks,
    most: Option<u64>,
) -> Result<Vec<Item>, PageFault>
    requires { level ≡ level_in page.now }
    ensures given { IfOk result (λ items. items.items ≡ kept_of most (spread 32 (λ i. given_at (marked_by from.now ask.now level (has_slot marks.now.slots i) (slice_index marks.now.texts i)) (stored_in page.now i)))) }
    ensures few { IfOk result (λ items. length items.items ≤ 32) }
    ensures levels { IfOk result (λ items. AllByRecursion (IsGivenAt level) items.items) }
    ensures stand { IfOk result (λ items. AllByRecursion (IsIn (stored_in page.now)) items.items) }
    ensures cause { IfErr result (λ fault. (fault ≡ PageFault.Memory)
        ⊎ ((fault ≡ PageFault.Damaged (record { page = node; rule = Value })) × BreaksNode Value page.now × (is_form page.now ≡ false))) }
{
    // Room for all at once: a list that grows with its items takes a tenth of a search without words.
    let Ok(mut items) = Vec::with_capacity(alloc, SLOTS) else {
        return Err(PageFault::Memory);
    };
    for at in 0..SLOTS {
        let item = match slot_item(page, at, level, ask, from, marks, most) {
            Ok(item) => item,
            Err(rule) => return Err(damaged(node, rule)),
        };
        match push_item(&mut items, item) {
            Ok(()) => {}
            Err(fault) => return Err(fault),
        }
    }
    Ok(items)
}
