//! The entry of a point and a key, by a search down from the root.
ghost use Rattle.std.specs.Prelude.{◌≡◌, ◌≢◌, ℕ, ◌<◌, ◌≤◌, List, length, IfOk, IfSome, IsErrOf, Ok, Err, None, true, false, slice_index};
ghost use Rattle.page_face.specs.Calls.{Reads, FailsReading};
ghost use Rattle.btree_nodes.specs.Damages.{AreReadable, AskedSince, AsksOnly, KeepsAsked};
ghost use Rattle.rtree_nodes.specs.Slots.{got};
ghost use Rattle.spatial_base.specs.Key.{form_of};
ghost use Rattle.rtree_nodes.specs.Stock.{view};
ghost use Rattle.rtree_nodes.specs.Made.{nodes_in};
ghost use Rattle.rtree_nodes.specs.Whole.{IsWell, IsWhole, level_at, tree_sum};
ghost use Rattle.rtree_nodes.specs.Loose.{Leads, IsAt};
ghost use Rattle.rtree_nodes.specs.Reach.{place_item};
ghost use Rattle.rtree_nodes.specs.Pages.{level_in, stored_in, node_of};
ghost use Rattle.rtree_nodes.specs.Entries.{is_entry};
ghost use Rattle.rtree_nodes.specs.Subtrees.{IsNodeAt, AreCounted, Finds};
ghost use Rattle.rtree_nodes.specs.Harms.{IsHarm};
ghost use Rattle.rtree_nodes.specs.Ways.{IsWay};

use crate::SLOTS;
use crate::entering::{enter_child, enter_root};
use crate::leaf::place_slot;
use crate::round::children_round;
use btree_nodes::damaged;
use page_face::{Damage, Page, PageFault, Pages};
use spatial_base::{Key, Point};

// Whether a leaf holds the place; its slot is then in path[0].
fn seek_in_leaf(page: &Page, point: &Point, key: &[u8; 66], path: &mut [u8; 10]) -> bool
    ensures found { level_in page.now ≡ 0 → result ≡ true → IsAt (stored_in page.now) (slice_index path.new 0) (place_item point.now key.now) }
    ensures absent { level_in page.now ≡ 0 → result ≡ false → (i : ℕ) → i < 32 → got (is_entry point.now key.now) (stored_in page.now i) ≡ 0 }
{
    match place_slot(page, point, key) {
        Some(at) => {
            path[0] = at;
            true
        }
        None => false,
    }
}

// Whether the place is below the page that was looked at last; the slots that lead to it are then in path[0 ..= level].
fn seek<P: Pages>(
    pages: &mut P,
    page: u32,
    level: u8,
    point: &Point,
    key: &[u8; 66],
    path: &mut [u8; 10],
) -> Result<bool, PageFault>
    requires low { level ≤ 9 }
    requires level { level ≡ level_in (P.looked pages.old) }
    ensures finds { P.looked pages.old ≡ P.pages pages.old page → IsNodeAt (nodes_in node_of (P.pages pages.old)) level page
        → IfOk result (Finds (nodes_in node_of (P.pages pages.old)) level page point.now key.now path.new) }
    ensures no_false_damage { P.looked pages.old ≡ P.pages pages.old page → IsNodeAt (nodes_in node_of (P.pages pages.old)) level page
        → AreCounted (nodes_in node_of (P.pages pages.old)) (P.count pages.old) level page
        → (damage : Damage) → result ≢ Err (PageFault.Damaged damage) }
    ensures way { P.looked pages.old ≡ P.pages pages.old page → AreReadable (P.pages pages.old) (P.count pages.old)
        → IfOk result (λ found. found ≡ true → IsWay (P.pages pages.old) path.new level page) }
    ensures keeps { KeepsAsked (P.asked pages.old) (P.asked pages.new) }
    ensures more { AsksOnly (λ _. 1) (P.asked pages.old) (P.asked pages.new) }
    ensures damaged { (before : List ℕ) (root : ℕ) → (0 < length (P.pages pages.old page) → P.looked pages.old ≡ P.pages pages.old page)
        → AskedSince before (P.asked pages.old) page → (damage : Damage) → IsErrOf result (PageFault.Damaged damage)
        → IsHarm (P.pages pages.old) (P.count pages.old) root before (P.asked pages.new) damage }
    ensures fails { FailsReading P.Pages pages.old pages.new result }
    ensures frame { Reads P.Pages pages.old pages.new }
{
    if level == 0 {
        return Ok(seek_in_leaf(pages.looked(), point, key, path));
    }
    let children = match children_round(pages.looked(), point) {
        Ok(children) => children,
        Err(rule) => return Err(damaged(page, rule)),
    };
    for at in 0..SLOTS {
        if let Some(child) = children[at] {
            match enter_child(pages, child, level - 1) {
                Ok(()) => {}
                Err(fault) => return Err(fault),
            }
            match seek(pages, child, level - 1, point, key, path) {
                Ok(false) => {}
                Ok(true) => {
                    path[level as usize] = at as u8;
                    return Ok(true);
                }
                Err(fault) => return Err(fault),
            }
        }
    }
    Ok(false)
}

/// Returns the root's level if the tree has the entry of this point and key, or `None` if it doesn't.
///
/// `path[l]` is then the slot at level `l`, for each `l` from 0 up to the root's level, so that the slots lead from the root down to the
/// entry. All other places of `path`, and every one if the entry isn't there, may hold any slot. Over any other pages whose bytes are
/// readable these slots lead down from the root, too. Each above level 0 names a page one level below its own, and the last one is used.
///
/// A root of 0 is the empty tree, for which no page is read.
///
/// Refuses `Damaged` with a rule that a page read in this call breaks. It is `Link` if the page is 0 or isn't counted, `Kind` if it isn't
/// a node's, and `Fill` if it has no slot. It is `Value` if a slot of an inner node isn't of its form. It is `Level` if a child isn't one
/// level below its parent or the root is above level 9. On a well-formed tree it never refuses `Damaged`. Refuses also `Disk`, `Stopped`
/// and `Memory`.
///
/// Reads the root, and one page for each child whose rectangle holds the point, until it has found the entry. In a well-formed tree it
/// reads no page twice. Writes none and copies none, and keeps 256 bytes for each level.
pub fn find<P: Pages>(
    pages: &mut P,
    root: u32,
    point: &Point,
    key: &Key,
    path: &mut [u8; 10],
) -> Result<Option<u8>, PageFault>
    ensures found { IsWell node_of (P.pages pages.old) root → IfOk result (λ found. IfSome found (λ level.
        Leads (nodes_in node_of (P.pages pages.old)) path.new level root (place_item point.now (form_of key.now))
        × (level ≡ level_at node_of (P.pages pages.old) root))) }
    ensures low { IfOk result (λ found. IfSome found (λ level. level ≤ 9)) }
    // On pages whose bytes are readable, the slots lead down from the root by the pages' bytes.
    ensures way { AreReadable (P.pages pages.old) (P.count pages.old) → IfOk result (λ found. IfSome found (λ level. IsWay (P.pages pages.old) path.new level root)) }
    ensures absent { IsWell node_of (P.pages pages.old) root → result ≡ Ok None
        → tree_sum node_of (P.pages pages.old) root (is_entry point.now (form_of key.now)) ≡ 0 }
    ensures no_false_damage { (rows : ℕ) (free : List ℕ) → IsWhole node_of (view (P.pages pages.old) rows (P.count pages.old) (P.first pages.old) free) root
        → (damage : Damage) → result ≢ Err (PageFault.Damaged damage) }
    ensures damaged { (damage : Damage) → IsErrOf result (PageFault.Damaged damage)
        → IsHarm (P.pages pages.old) (P.count pages.old) root (P.asked pages.old) (P.asked pages.new) damage }
    ensures more { AsksOnly (λ _. 1) (P.asked pages.old) (P.asked pages.new) }
    ensures empty { root ≡ 0 → P.asked pages.new ≡ P.asked pages.old }
    ensures fails { FailsReading P.Pages pages.old pages.new result }
    ensures frame { Reads P.Pages pages.old pages.new }
{
    if root == 0 {
        return Ok(None);
    }
    let level = match enter_root(pages, root) {
        Ok(level) => level,
        Err(fault) => return Err(fault),
    };
    match seek(pages, root, level, point, &key.bytes(), path) {
        Ok(true) => Ok(Some(level)),
        Ok(false) => Ok(None),
        Err(fault) => Err(fault),
    }
}
