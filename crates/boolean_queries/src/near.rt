//! The slots of a node that touch a region, read in place in the page.
ghost use Rattle.std.specs.Prelude.{◌≡◌, ◌≢◌, ◌⊎◌, ◌||◌, ℕ, ◌<◌, ◌+◌, ◌==◌, [], ◌++◌, map, true, false, IfOk, IfErr, OnOk, IsOk};
ghost use Rattle.page_face.specs.declared.fault.Rule.TheVariants.{Value};
ghost use Rattle.rtree_nodes.specs.Breaks.{BreaksNode};
ghost use Rattle.rtree_nodes.specs.Pages.{level_in, is_form, stored_in};
ghost use Rattle.rtree_nodes.specs.Reach.{item_of, is_place};
ghost use Rattle.node_filter.specs.Masks.{has_slot, Marks};
ghost use Rattle.boolean_queries.specs.Near.{near_item, is_near, nears, numbered, listed, alone_in};

use crate::region::Region;
use best_first::Item;
use btree_nodes::damaged;
use page_face::{Page, PageFault, Rule};
use rtree_nodes::{PLACE_BYTES, SLOTS, SLOTS_AT, Slot, i32_at, is_used, slot_at};
use spatial_base::{Point, Rect};

// The bytes of a child: four coordinates and a page, of 4 bytes each.
const CHILD_BYTES: usize = 20;

/// What a slot of a node gives.
#[derive(Clone, Copy, Debug)]
pub(crate) struct Near {
    /// The slot.
    pub slot: usize,
    /// Its place's hit, or its child.
    pub item: Item,
}

// Whether a leaf's slot may hold a place in the region, by its point alone: the key after it isn't looked at.
fn may_have(page: &Page, at: usize, region: &Region) -> bool
    requires { at < 32 }
    ensures far { result ≡ false → level_in page.now ≡ 0 → listed (near_item region.now 0) (stored_in page.now at) ≡ [] }
{
    if !is_used(page, at) {
        return false;
    }
    let start = SLOTS_AT + PLACE_BYTES * at;
    match Point::new(i32_at(page, start), i32_at(page, start + 4)) {
        Some(point) => region.has(&point),
        None => true,
    }
}

// Whether an inner node's slot may hold a child that meets the region, by its rectangle alone.
fn may_meet(page: &Page, at: usize, level: u8, region: &Region) -> bool
    requires within { at < 32 }
    requires inner { 0 < level }
    requires level { level ≡ level_in page.now }
    ensures far { result ≡ false → listed (near_item region.now level) (stored_in page.now at) ≡ [] }
{
    if !is_used(page, at) {
        return false;
    }
    let start = SLOTS_AT + CHILD_BYTES * at;
    match Rect::new(
        i32_at(page, start),
        i32_at(page, start + 4),
        i32_at(page, start + 8),
        i32_at(page, start + 12),
    ) {
        Some(rect) => {
            // Its sides are on the map, by the contract of `west`.
            let _west = rect.west();
            region.meets(&rect)
        }
        None => true,
    }
}

// Whether a slot may hold what touches the region, by its point or rectangle alone.
fn may_touch(page: &Page, at: usize, level: u8, region: &Region) -> bool
    requires within { at < 32 }
    requires level { level ≡ level_in page.now }
    ensures far { result ≡ false → listed (near_item region.now level) (stored_in page.now at) ≡ [] }
{
    if level == 0 {
        may_have(page, at, region)
    } else {
        may_meet(page, at, level, region)
    }
}

// What a slot's place or child gives, if it touches the region.
fn item_in(slot: &Slot, level: u8, region: &Region) -> Option<Item>
    requires { is_place slot.now ≡ (level == 0) }
    ensures { alone_in result ≡ near_item region.now level (item_of slot.now) }
{
    match slot {
        Slot::Place { point, key } => {
            if region.has(point) {
                Some(Item::Place(region.hit(point, key)))
            } else {
                None
            }
        }
        Slot::Child { rect, page } => {
            // Its sides are on the map, by the contract of `west`.
            let _west = rect.west();
            if region.meets(rect) {
                Some(Item::Node {
                    page: *page,
                    level: level - 1,
                    bound: 0,
                })
            } else {
                None
            }
        }
    }
}

// What a slot gives, if it is used and touches the region.
fn near_slot(page: &Page, at: usize, level: u8, region: &Region) -> Result<Option<Item>, Rule>
    requires within { at < 32 }
    requires level { level ≡ level_in page.now }
    ensures near { IfOk result (λ item. alone_in item ≡ listed (near_item region.now level) (stored_in page.now at)) }
    ensures ok { is_form page.now ≡ true → IsOk result }
    ensures breaks { IfErr result (λ rule. (rule ≡ Value) × BreaksNode Value page.now) }
{
    if !may_touch(page, at, level, region) {
        return Ok(None);
    }
    match slot_at(page, at) {
        Ok(Some(slot)) => Ok(item_in(&slot, level, region)),
        Ok(None) => Ok(None),
        Err(rule) => Err(rule),
    }
}

// The mask, with a slot added if it is wanted.
fn with_slot(mask: u32, at: usize, is_wanted: bool) -> u32
    requires { at < 32 }
    ensures here { has_slot result at ≡ (has_slot mask at || is_wanted) }
    ensures others { (i : ℕ) → i ≢ at → has_slot result i ≡ has_slot mask i }
{
    if is_wanted { mask | 1 << at } else { mask }
}

// Adds what a slot gives.
fn add_near(near: &mut Vec<Near>, slot: usize, item: Option<Item>) -> Result<(), PageFault>
    ensures near { OnOk result (near.new.items ≡ near.old.items ++ map (numbered slot) (alone_in item)) }
    ensures memory { IfErr result (λ fault. fault ≡ PageFault.Memory) }
{
    match item {
        Some(item) => match near.push(Near { slot, item }) {
            Ok(()) => Ok(()),
            Err(_) => Err(PageFault::Memory),
        },
        None => Ok(()),
    }
}

/// Lists what the slots of a node's page give to a region, slot by slot, and returns the mask of the slots that give something. Of a slot
/// outside the region only the point or the rectangle is looked at.
///
/// Refuses `Damaged` with `Value` if a slot that was looked at isn't of its form, and `Memory`.
pub(crate) fn gather(
    page: &Page,
    node: u32,
    level: u8,
    region: &Region,
    near: &mut Vec<Near>,
) -> Result<u32, PageFault>
    requires { level ≡ level_in page.now }
    ensures near { OnOk result (near.new.items ≡ nears region.now level (stored_in page.now)) }
    ensures slots { IfOk result (λ mask. Marks mask (λ i. is_near region.now level (stored_in page.now i))) }
    ensures ok { is_form page.now ≡ true → IfErr result (λ fault. fault ≡ PageFault.Memory) }
    ensures fault { IfErr result (λ fault. (fault ≡ PageFault.Memory)
        ⊎ ((fault ≡ PageFault.Damaged (record { page = node; rule = Value })) × BreaksNode Value page.now)) }
{
    near.clear();
    let mut mask = 0;
    for at in 0..SLOTS {
        let item = match near_slot(page, at, level, region) {
            Ok(item) => item,
            Err(rule) => return Err(damaged(node, rule)),
        };
        mask = with_slot(mask, at, item.is_some());
        add_near(near, at, item)?;
    }
    Ok(mask)
}
