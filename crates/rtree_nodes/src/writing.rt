//! Slots that are written and cleared in place.
ghost use Rattle.std.specs.Prelude.{◌≡◌, ◌≢◌, ℕ, ◌<◌, ◌+◌, ◌^◌, ◌∷◌, ◌==◌, true, replicate};
ghost use Rattle.std.specs.Int.{w32, to_be_bytes, bit_at};
ghost use Rattle.spatial_base.specs.Key.{IsName};
ghost use Rattle.spatial_base.specs.Point.{IsOnMap};
ghost use Rattle.spatial_base.specs.Rect.{IsRect};
ghost use Rattle.rtree_nodes.specs.Slots.{no_slots, without_slot};
ghost use Rattle.rtree_nodes.specs.Trees.{with_slot};
ghost use Rattle.rtree_nodes.specs.Numbers.{overwritten};
ghost use Rattle.rtree_nodes.specs.Reach.{item_of, is_place};
ghost use Rattle.rtree_nodes.specs.Cells.{cell_of, cell_start, cell_width, start_for, place_cell as bytes_of_place, child_cell as bytes_of_child, IsValid};
ghost use Rattle.rtree_nodes.specs.Pages.{level_in, mask_of as mask_in, is_form, node_of, slots_in};

use crate::Slot;
use crate::bytes::overwrite;
use crate::layout::{
    CHILD_BYTES, MASK_AT, NODE_KIND, PLACE_BYTES, SLOTS_AT, level_of, mask_of, start_of, width_at,
};
use btree_nodes::write_at;
use page_face::Page;
use spatial_base::{Key, Point, Rect};

// A page whose first two bytes are the kind and this level, and all others 0.
fn blank(level: u8) -> Page
    ensures { result ≡ 3 ∷ (level ∷ replicate 4094 0) }
{
    let mut page = [0; 4096];
    page[0] = NODE_KIND;
    page[1] = level;
    page
}

/// Returns the page of a node of this level in which no slot is used.
pub fn new_node(level: u8) -> Page
    ensures form { is_form result ≡ true }
    ensures node { node_of result ≡ record { level = level; slots = no_slots } }
    ensures level { level_in result ≡ level }
    ensures mask { mask_in result ≡ 0 }
{
    blank(level)
}

// The bytes of a place.
fn place_cell(point: &Point, key: &Key) -> [u8; 74]
    ensures bytes { result ≡ bytes_of_place point.now key.now }
    ensures point { IsOnMap point.now.x point.now.y }
    ensures name { IsName key.now }
{
    let mut cell = [0; 74];
    write_at(&mut cell, 0, &point.x().to_be_bytes());
    write_at(&mut cell, 4, &point.y().to_be_bytes());
    write_at(&mut cell, 8, &key.bytes());
    cell
}

// The bytes of a child.
fn child_cell(rect: &Rect, page: u32) -> [u8; 20]
    ensures bytes { result ≡ bytes_of_child rect.now page }
    ensures rect { IsRect rect.now.west rect.now.south rect.now.east rect.now.north }
{
    let mut cell = [0; 20];
    write_at(&mut cell, 0, &rect.west().to_be_bytes());
    write_at(&mut cell, 4, &rect.south().to_be_bytes());
    write_at(&mut cell, 8, &rect.east().to_be_bytes());
    write_at(&mut cell, 12, &rect.north().to_be_bytes());
    write_at(&mut cell, 16, &page.to_be_bytes());
    cell
}

// Writes the bytes of a slot, and leaves the mask.
fn write_cell(page: &mut Page, at: usize, slot: &Slot)
    requires { at < 32 }
    ensures bytes { page.new ≡ overwritten (start_for slot.now at) (cell_of slot.now) page.old }
    ensures valid { IsValid slot.now }
{
    match slot {
        Slot::Place { point, key } => {
            overwrite(page, SLOTS_AT + PLACE_BYTES * at, &place_cell(point, key))
        }
        Slot::Child { rect, page: child } => {
            overwrite(page, SLOTS_AT + CHILD_BYTES * at, &child_cell(rect, *child))
        }
    }
}

// Writes the mask.
fn set_mask(page: &mut Page, used: u32)
    ensures bytes { page.new ≡ overwritten 4 (to_be_bytes w32 used) page.old }
    ensures fits { used < 2 ^ 32 }
{
    overwrite(page, MASK_AT, &used.to_be_bytes());
}

/// Puts an item into a slot, replacing what was there, and marks the slot used. Leaves all other slots.
///
/// A place is for a leaf, a child for an inner node. If the slot doesn't fit the page's level, the page is no node's afterwards.
pub fn put_slot(page: &mut Page, at: usize, slot: &Slot)
    requires { at < 32 }
    ensures form { is_form page.old ≡ true → is_place slot.now ≡ (level_in page.old == 0) → is_form page.new ≡ true }
    ensures slots { is_form page.old ≡ true → is_place slot.now ≡ (level_in page.old == 0) → slots_in page.new ≡ with_slot at (item_of slot.now) (slots_in page.old) }
    ensures level { level_in page.new ≡ level_in page.old }
    ensures used { bit_at (mask_in page.new) at ≡ 1 }
    ensures others { (i : ℕ) → i < 32 → i ≢ at → bit_at (mask_in page.new) i ≡ bit_at (mask_in page.old) i }
    ensures fits { mask_in page.new < 2 ^ 32 }
{
    write_cell(page, at, slot);
    let used = mask_of(page) | 1 << at;
    set_mask(page, used);
}

// Makes the bytes of a slot zero, and leaves the mask.
fn clear_cell(page: &mut Page, at: usize)
    requires { at < 32 }
    ensures { page.new ≡ overwritten (cell_start (level_in page.old) at) (replicate (cell_width (level_in page.old)) 0) page.old }
{
    let level = level_of(page);
    let zeros = [0; PLACE_BYTES];
    overwrite(page, start_of(level, at), &zeros[..width_at(level)]);
}

/// Takes the item out of a slot, makes its bytes zero, and marks the slot free. Leaves all other slots.
pub fn clear_slot(page: &mut Page, at: usize)
    requires { at < 32 }
    ensures form { is_form page.old ≡ true → is_form page.new ≡ true }
    ensures slots { is_form page.old ≡ true → slots_in page.new ≡ without_slot at (slots_in page.old) }
    ensures level { level_in page.new ≡ level_in page.old }
    ensures used { bit_at (mask_in page.new) at ≡ 0 }
    ensures others { (i : ℕ) → i < 32 → i ≢ at → bit_at (mask_in page.new) i ≡ bit_at (mask_in page.old) i }
    ensures fits { mask_in page.new < 2 ^ 32 }
{
    clear_cell(page, at);
    let used = mask_of(page) & !(1 << at);
    set_mask(page, used);
}
