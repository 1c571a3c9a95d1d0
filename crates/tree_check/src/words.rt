//! The words of a slot, compared with what is below it.
ghost use Rattle.std.specs.Prelude.{◌≡◌, ◌≢◌, ◌^◌, ℕ, true, false, [], Some, IfOk, IsErrOf};
ghost use Rattle.page_face.specs.Calls.{Reads, FailsReading};
ghost use Rattle.btree_nodes.specs.Damages.{AreReadable};
ghost use Rattle.btree_nodes.specs.Tree.{IsMap, map_uses};
ghost use Rattle.paged_map.specs.Maps.{AreCounted};
ghost use Rattle.spatial_base.specs.Key.{form_of};
ghost use Rattle.spatial_base.specs.Point.{IsOnMap};
ghost use Rattle.row_codec.specs.Stored.{held_pairs, IsStored};
ghost use Rattle.rtree_nodes.specs.Reach.{place_item};
ghost use Rattle.rtree_nodes.specs.Stock.{rows_form};
ghost use Rattle.node_rows.specs.Impacts.{impact_in, top_at};
ghost use Rattle.node_rows.specs.Rows.{bytes_in};
ghost use Rattle.node_rows.specs.Words.{AreWords};
ghost use Rattle.store_tables.specs.Entries.{Entries};
ghost use Rattle.store_tables.specs.Holding.{Holds, table_uses};
ghost use Rattle.tree_check.specs.Agreement.{AreSound, HasWords, IsEntry, IsEntryIn, IsMissing, IsMissingIn, IsRightSlot};

use btree_nodes::damaged;
use node_rows::{Tree, words_of};
use page_face::{Damage, PageFault, Pages, Rule};
use row_codec::Stored;
use rtree_nodes::Slot;
use spatial_base::{Key, Point};
use std::alloc::Global;
use store_tables::Tables;

/// Whether two lists have the same words with the same impacts.
fn are_same(first: &[(u64, u8)], second: &[(u64, u8)]) -> bool
    ensures same { result ≡ true → first.now ≡ second.now }
    ensures apart { result ≡ false → first.now ≢ second.now }
{
    first == second
}

/// Whether there is no word.
fn are_none(words: &[(u64, u8)]) -> bool
    ensures none { result ≡ true → words.now ≡ [] }
    ensures some { result ≡ false → words.now ≢ [] }
{
    words.is_empty()
}

/// The words of a place by number, each with its impact.
fn pairs_of(stored: &Stored) -> &[(u64, u8)]
    requires { IsStored stored.now }
    ensures { result.now ≡ held_pairs stored.now }
{
    &stored.pairs[..stored.count as usize]
}

/// Whether these are the words of a node, each with the greatest byte of its row.
fn are_of_node<P: Pages>(
    alloc: Global,
    pages: &mut P,
    tree: &Tree,
    node: u32,
    words: &[(u64, u8)],
) -> Result<bool, PageFault>
    requires { AreWords 0 (2 ^ 64) words.now }
    ensures right { IsMap rows_form (P.pages pages.old) tree.now.rows
        → IfOk result (λ right. right ≡ true → (w : ℕ) → impact_in words.now w ≡ top_at (bytes_in (P.pages pages.old) tree.now.rows) node w) }
    ensures wrong { IsMap rows_form (P.pages pages.old) tree.now.rows
        → IfOk result (λ right. right ≡ false → ((w : ℕ) → impact_in words.now w ≡ top_at (bytes_in (P.pages pages.old) tree.now.rows) node w) → ⊥) }
    ensures no_false_damage { IsMap rows_form (P.pages pages.old) tree.now.rows → AreCounted (map_uses rows_form (P.pages pages.old) tree.now.rows) (P.count pages.old)
        → AreReadable (P.pages pages.old) (P.count pages.old) → (damage : Damage) → ¬ IsErrOf result (PageFault.Damaged damage) }
    ensures fails { FailsReading P.Pages pages.old pages.new result }
    ensures frame { Reads P.Pages pages.old pages.new }
{
    match words_of(alloc, pages, tree, node) {
        Ok(below) => Ok(are_same(words, &below)),
        Err(fault) => Err(fault),
    }
}

/// Whether two points are the same.
fn is_same_point(point: &Point, other: &Point) -> bool
    ensures same { result ≡ true → point.now ≡ other.now }
    ensures apart { result ≡ false → point.now ≢ other.now }
{
    point == other
}

// A law: a point is on the map. Does nothing when it runs.
fn on_map(point: &Point)
    ensures { IsOnMap point.now.x point.now.y }
{
    let _at = (point.x(), point.y());
}

/// Whether these are the words of the place of an entry.
///
/// Refuses `Damaged` with `Entry` at page 0 if there is no place at the key, or one at another point.
fn are_of_place<P: Pages>(
    pages: &mut P,
    tables: &Tables,
    point: &Point,
    key: &Key,
    words: &[(u64, u8)],
) -> Result<bool, PageFault>
    requires { AreWords 0 (2 ^ 64) words.now }
    ensures right { (entries : Entries) → Holds (P.pages pages.old) tables.now entries
        → IfOk result (λ right. right ≡ true → HasWords entries.places (λ w. impact_in words.now w) (place_item point.now (form_of key.now))) }
    ensures wrong { (entries : Entries) → Holds (P.pages pages.old) tables.now entries
        → IfOk result (λ right. right ≡ false → HasWords entries.places (λ w. impact_in words.now w) (place_item point.now (form_of key.now)) → ⊥) }
    ensures held { (entries : Entries) → Holds (P.pages pages.old) tables.now entries → IfOk result (λ right. IsEntry entries.places (place_item point.now (form_of key.now))) }
    ensures damaged { (entries : Entries) → Holds (P.pages pages.old) tables.now entries
        → AreReadable (P.pages pages.old) (P.count pages.old) → AreCounted (table_uses (P.pages pages.old) tables.now) (P.count pages.old)
        → (damage : Damage) → IsErrOf result (PageFault.Damaged damage) → IsMissing entries.places (place_item point.now (form_of key.now)) damage }
    ensures fails { FailsReading P.Pages pages.old pages.new result }
    ensures frame { Reads P.Pages pages.old pages.new }
{
    // The key is of its form: the contract of `bytes` states so.
    let _form = key.bytes();
    on_map(point);
    match tables.place(pages, key) {
        Ok(Some(stored)) => {
            if is_same_point(&stored.point, point) {
                Ok(are_same(words, pairs_of(&stored)))
            } else {
                Err(damaged(0, Rule::Entry))
            }
        }
        Ok(None) => Err(damaged(0, Rule::Entry)),
        Err(fault) => Err(fault),
    }
}

// Whether the words of a used slot are right by what is below it.
fn are_right_in<P: Pages>(
    alloc: Global,
    pages: &mut P,
    tree: &Tree,
    tables: &Tables,
    slot: &Slot,
    words: &[(u64, u8)],
) -> Result<bool, PageFault>
    requires { AreWords 0 (2 ^ 64) words.now }
    ensures right { (entries : Entries) → AreSound (P.pages pages.old) (P.count pages.old) tree.now.rows tables.now entries
        → IfOk result (λ right. right ≡ true → IsRightSlot (bytes_in (P.pages pages.old) tree.now.rows) entries.places (λ w. impact_in words.now w) (Some slot.now)) }
    ensures wrong { (entries : Entries) → AreSound (P.pages pages.old) (P.count pages.old) tree.now.rows tables.now entries
        → IfOk result (λ right. right ≡ false → IsRightSlot (bytes_in (P.pages pages.old) tree.now.rows) entries.places (λ w. impact_in words.now w) (Some slot.now) → ⊥) }
    ensures held { (entries : Entries) → AreSound (P.pages pages.old) (P.count pages.old) tree.now.rows tables.now entries → IfOk result (λ right. IsEntryIn entries.places (Some slot.now)) }
    ensures damaged { (entries : Entries) → AreSound (P.pages pages.old) (P.count pages.old) tree.now.rows tables.now entries
        → (damage : Damage) → IsErrOf result (PageFault.Damaged damage) → IsMissingIn entries.places (Some slot.now) damage }
    ensures fails { FailsReading P.Pages pages.old pages.new result }
    ensures frame { Reads P.Pages pages.old pages.new }
{
    match slot {
        Slot::Child { page, .. } => are_of_node(alloc, pages, tree, *page, words),
        Slot::Place { point, key } => are_of_place(pages, tables, point, key, words),
    }
}

/// Whether the words of a slot are right by what is below it.
///
/// Refuses `Damaged` with `Entry` at page 0 if a place in the slot isn't one of the place table.
pub(crate) fn are_right<P: Pages>(
    alloc: Global,
    pages: &mut P,
    tree: &Tree,
    tables: &Tables,
    slot: &Option<Slot>,
    words: &[(u64, u8)],
) -> Result<bool, PageFault>
    requires { AreWords 0 (2 ^ 64) words.now }
    ensures right { (entries : Entries) → AreSound (P.pages pages.old) (P.count pages.old) tree.now.rows tables.now entries
        → IfOk result (λ right. right ≡ true → IsRightSlot (bytes_in (P.pages pages.old) tree.now.rows) entries.places (λ w. impact_in words.now w) slot.now) }
    ensures wrong { (entries : Entries) → AreSound (P.pages pages.old) (P.count pages.old) tree.now.rows tables.now entries
        → IfOk result (λ right. right ≡ false → IsRightSlot (bytes_in (P.pages pages.old) tree.now.rows) entries.places (λ w. impact_in words.now w) slot.now → ⊥) }
    ensures held { (entries : Entries) → AreSound (P.pages pages.old) (P.count pages.old) tree.now.rows tables.now entries → IfOk result (λ right. IsEntryIn entries.places slot.now) }
    ensures damaged { (entries : Entries) → AreSound (P.pages pages.old) (P.count pages.old) tree.now.rows tables.now entries
        → (damage : Damage) → IsErrOf result (PageFault.Damaged damage) → IsMissingIn entries.places slot.now damage }
    ensures fails { FailsReading P.Pages pages.old pages.new result }
    ensures frame { Reads P.Pages pages.old pages.new }
{
    match slot {
        None => Ok(are_none(words)),
        Some(slot) => are_right_in(alloc, pages, tree, tables, slot, words),
    }
}
