//! The entries of the leaves of a tree.
ghost use Rattle.std.specs.Prelude.{◌≡◌, ◌≢◌, ℕ, ◌+◌, ◌<◌, All, Err, IfOk, IfSome, IsErrOf, IsOk, OnOk, option_map, true};
ghost use Rattle.page_face.specs.Calls.{FailsReading, Reads};
ghost use Rattle.page_face.specs.Causes.{IsUncounted};
ghost use Rattle.btree_nodes.specs.Damages.{AreReadable};
ghost use Rattle.rtree_nodes.specs.Pages.{is_form, level_in, node_of, slots_in};
ghost use Rattle.rtree_nodes.specs.Reach.{is_place, item_of};
ghost use Rattle.rtree_nodes.specs.Slots.{Item, amount, filled, got};
ghost use Rattle.rtree_nodes.specs.Whole.{tree_sum, tree_uses};
ghost use Rattle.store_verify.specs.Sites.{IsSite, site_item, site_sum};
ghost use Rattle.store_verify.specs.EntrySums.{AreTreePages, IsFilledPage, page_sum};

use btree_nodes::damaged;
use page_face::{Damage, Page, PageFault, Pages, Rule};
use rtree_nodes::{SLOTS, Slot, header, slot_at};
use spatial_base::{Key, Point};
use std::alloc::Global;

// The key and the point of a place.
fn site_of(point: &Point, key: &Key) -> (Key, Point)
    ensures value { result ≡ (key.now, point.now) }
    ensures is { IsSite result }
{
    // The key is of its form and the point is on the map: the contracts of these calls state so.
    let _form = key.bytes();
    let _at = (point.x(), point.y());
    (*key, *point)
}

// The key and the point of a slot's place, or `None` if it has no place.
fn site_in(slot: &Option<Slot>) -> Option<(Key, Point)>
    ensures site { IfSome slot.now (λ slot. is_place slot ≡ true) → option_map site_item result ≡ option_map item_of slot.now }
    ensures is { IfSome result IsSite }
{
    match slot {
        Some(Slot::Place { point, key }) => Some(site_of(point, key)),
        Some(Slot::Child { .. }) => None,
        None => None,
    }
}

// The key and the point in a slot of a page, or `None` if it has no place. Refuses `Value` if the slot isn't of its form.
fn site_at(bytes: &Page, at: usize) -> Result<Option<(Key, Point)>, Rule>
    requires within { at < 32 }
    ensures site { is_form bytes.now ≡ true → level_in bytes.now ≡ 0 → IfOk result (λ site. option_map site_item site ≡ slots_in bytes.now at) }
    ensures is { IfOk result (λ site. IfSome site IsSite) }
    ensures ok { is_form bytes.now ≡ true → IsOk result }
{
    match slot_at(bytes, at) {
        Ok(slot) => Ok(site_in(&slot)),
        Err(rule) => Err(rule),
    }
}

// Adds the entry in a slot of the leaf at a page, if it has one.
fn add_entry(
    page: u32,
    bytes: &Page,
    at: usize,
    found: &mut Vec<(Key, Point)>,
) -> Result<(), PageFault>
    requires within { at < 32 }
    requires found { All IsSite found.old.items }
    ensures sum { is_form bytes.now ≡ true → level_in bytes.now ≡ 0
        → OnOk result ((f : Item → ℕ) → site_sum f found.new.items ≡ site_sum f found.old.items + got f (slots_in bytes.now at)) }
    ensures are { All IsSite found.new.items }
    ensures no_false_damage { is_form bytes.now ≡ true → (damage : Damage) → ¬ IsErrOf result (PageFault.Damaged damage) }
    ensures disk { result ≢ Err PageFault.Disk }
    ensures room_left { result ≢ Err PageFault.NoRoom }
    ensures goes_on { result ≢ Err PageFault.Stopped }
{
    match site_at(bytes, at) {
        Ok(Some(site)) => match found.push(site) {
            Ok(()) => Ok(()),
            Err(_) => Err(PageFault::Memory),
        },
        Ok(None) => Ok(()),
        Err(rule) => Err(damaged(page, rule)),
    }
}

// Adds the entries of the leaf at a page.
fn add_leaf(page: u32, bytes: &Page, found: &mut Vec<(Key, Point)>) -> Result<(), PageFault>
    requires found { All IsSite found.old.items }
    ensures sum { is_form bytes.now ≡ true → level_in bytes.now ≡ 0
        → OnOk result ((f : Item → ℕ) → site_sum f found.new.items ≡ site_sum f found.old.items + amount f (slots_in bytes.now)) }
    ensures are { All IsSite found.new.items }
    ensures no_false_damage { is_form bytes.now ≡ true → (damage : Damage) → ¬ IsErrOf result (PageFault.Damaged damage) }
    ensures disk { result ≢ Err PageFault.Disk }
    ensures room_left { result ≢ Err PageFault.NoRoom }
    ensures goes_on { result ≢ Err PageFault.Stopped }
{
    for at in 0..SLOTS {
        match add_entry(page, bytes, at, found) {
            Ok(()) => {}
            Err(fault) => return Err(fault),
        }
    }
    Ok(())
}

// Adds the entries of the node of this page, if it is a leaf.
fn add_node(page: u32, bytes: &Page, found: &mut Vec<(Key, Point)>) -> Result<(), PageFault>
    requires found { All IsSite found.old.items }
    ensures sum { is_form bytes.now ≡ true → OnOk result ((f : Item → ℕ) → site_sum f found.new.items ≡ site_sum f found.old.items + page_sum f bytes.now) }
    ensures are { All IsSite found.new.items }
    ensures no_false_damage { 0 < filled (slots_in bytes.now) → (damage : Damage) → ¬ IsErrOf result (PageFault.Damaged damage) }
    ensures disk { result ≢ Err PageFault.Disk }
    ensures room_left { result ≢ Err PageFault.NoRoom }
    ensures goes_on { result ≢ Err PageFault.Stopped }
{
    match header(bytes) {
        Ok(head) => {
            if head.level == 0 {
                add_leaf(page, bytes, found)
            } else {
                Ok(())
            }
        }
        Err(rule) => Err(damaged(page, rule)),
    }
}

// Looks at a page of a tree, and adds its entries.
fn add_page<P: Pages>(
    pages: &mut P,
    page: u32,
    found: &mut Vec<(Key, Point)>,
) -> Result<(), PageFault>
    requires found { All IsSite found.old.items }
    ensures sum { AreReadable (P.pages pages.old) (P.count pages.old) → is_form (P.pages pages.old page) ≡ true
        → OnOk result ((f : Item → ℕ) → site_sum f found.new.items ≡ site_sum f found.old.items + page_sum f (P.pages pages.old page)) }
    ensures are { All IsSite found.new.items }
    ensures no_false_damage { AreReadable (P.pages pages.old) (P.count pages.old) → IsFilledPage (IsUncounted (P.count pages.old)) (P.pages pages.old) page
        → (damage : Damage) → ¬ IsErrOf result (PageFault.Damaged damage) }
    ensures fails { FailsReading P.Pages pages.old pages.new result }
    ensures frame { Reads P.Pages pages.old pages.new }
{
    match pages.look(page) {
        Ok(()) => add_node(page, pages.looked(), found),
        Err(fault) => Err(fault),
    }
}

/// Returns the key and the point of each entry in the leaves of a tree, page by page.
///
/// The list is that of the pages of a well-formed tree, each counted, as `tree_check` returns it.
///
/// Returns `Damaged` with `Link` for a page that is 0 or isn't counted, and with `Kind`, `Fill` or `Value` for one that breaks this rule as
/// a node's page. The list of such a tree has none. Returns `Disk` or `Stopped` as a look at a page does, and `Memory` too if there is none
/// for the entries.
///
/// Looks once at each page of the list, and at no other. Takes 76 bytes an entry.
pub(crate) fn sites_of<P: Pages>(
    alloc: Global,
    pages: &mut P,
    list: &[u32],
) -> Result<Vec<(Key, Point)>, PageFault>
    ensures sites { (root : ℕ) → AreTreePages (P.pages pages.old) (P.count pages.old) root list.now
        → IfOk result (λ found. (f : Item → ℕ) → site_sum f found.items ≡ tree_sum node_of (P.pages pages.old) root f) }
    ensures are { IfOk result (λ found. All IsSite found.items) }
    ensures no_false_damage { (root : ℕ) → AreTreePages (P.pages pages.old) (P.count pages.old) root list.now
        → ((n : ℕ) → IsUncounted (P.count pages.old) n → tree_uses node_of (P.pages pages.old) root n ≡ 0)
        → (damage : Damage) → ¬ IsErrOf result (PageFault.Damaged damage) }
    ensures fails { FailsReading P.Pages pages.old pages.new result }
    ensures frame { Reads P.Pages pages.old pages.new }
{
    let mut found = Vec::new(alloc);
    for page in list {
        match add_page(pages, *page, &mut found) {
            Ok(()) => {}
            Err(fault) => return Err(fault),
        }
    }
    Ok(found)
}
