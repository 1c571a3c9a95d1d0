//! The row of a node for a word.
ghost use Rattle.std.specs.Prelude.{◌≡◌, ◌≢◌, ◌⊎◌, ℕ, List, Some, None, IfOk, IfSome, OnOk, OnErr, IsErrOf, false, if◌then◌else◌, is_some};
ghost use Rattle.page_face.specs.Calls.{Reads, Changes, FailsReading, FailsChanging};
ghost use Rattle.btree_nodes.specs.Damages.{AreReadable, AskedSince, AsksOnly, IsRefusedTake};
ghost use Rattle.page_face.specs.FreeList.{are_zero};
ghost use Rattle.btree_nodes.specs.Rows.{lookup, put, without};
ghost use Rattle.btree_nodes.specs.Supply.{view};
ghost use Rattle.btree_nodes.specs.Tree.{IsMap, map_rows, map_uses};
ghost use Rattle.paged_map.specs.Maps.{AreCounted, HasBecome, IsKept, IsMapDamaged};
ghost use Rattle.paged_map.specs.Spots.{IsSpot};
ghost use Rattle.rtree_nodes.specs.Stock.{rows_form};
ghost use Rattle.node_rows.specs.Damages.{IsRowsHarm};
ghost use Rattle.node_rows.specs.Lookups.{IsRowFound};
ghost use Rattle.node_rows.specs.Rows.{HasBytes, IsRows, bytes_in, key_of};
ghost use Rattle.node_rows.specs.Turns.{Turns, with_row};

use crate::Tree;
use crate::key::RowKey;
use crate::layout::WordRows;
use crate::slots::{clear_row, is_clear};
use page_face::{Damage, PageFault, Pages};
use paged_map::{PagedMap, RowSpot};

/// Returns the row of a node for a word, by the word's number: zeros if there is none.
///
/// Returns `Damaged` with a rule that a page asked for in this call breaks in its place, `Disk`, `Stopped`, or `Memory` if it
/// runs out of memory.
///
/// Looks at one page a level of the rows' map, and writes none.
pub fn row<P: Pages>(
    pages: &mut P,
    tree: &Tree,
    node: u32,
    number: u64,
) -> Result<[u8; 32], PageFault>
    ensures row { IsMap rows_form (P.pages pages.old) tree.now.rows
        → IfOk result (λ row. HasBytes row (bytes_in (P.pages pages.old) tree.now.rows node number)) }

    // Each page on the way kept the rules in its place. On any pages whose bytes are readable, the row is what its leaf has.
    ensures kept { AreReadable (P.pages pages.old) (P.count pages.old)
        → IfOk result (IsRowFound (P.pages pages.old) (P.count pages.old) tree.now.rows node number) }

    // On a well-formed map whose pages are counted no page is damaged.
    ensures no_false_damage { IsMap rows_form (P.pages pages.old) tree.now.rows → AreCounted (map_uses rows_form (P.pages pages.old) tree.now.rows) (P.count pages.old)
        → AreReadable (P.pages pages.old) (P.count pages.old) → (damage : Damage) → ¬ IsErrOf result (PageFault.Damaged damage) }
    ensures damaged { AreReadable (P.pages pages.old) (P.count pages.old) → (damage : Damage) → IsErrOf result (PageFault.Damaged damage)
        → IsMapDamaged rows_form (P.pages pages.old) (P.count pages.old) tree.now.rows damage × AskedSince (P.asked pages.old) (P.asked pages.new) damage.page }
    ensures own { AreReadable (P.pages pages.old) (P.count pages.old)
        → AsksOnly (map_uses rows_form (P.pages pages.old) tree.now.rows) (P.asked pages.old) (P.asked pages.new) }
    ensures fails { FailsReading P.Pages pages.old pages.new result }
    ensures frame { Reads P.Pages pages.old pages.new }
{
    let key = RowKey { node, number }.bytes();
    let mut row = [0; 32];
    match PagedMap::<WordRows>::at(tree.rows).get(pages, &key, &mut row)? {
        Some(_) => Ok(row),
        None => Ok(clear_row()),
    }
}

/// Returns the spot of the row of a node for a word, if there is one, and leaves its bytes in `row`: zeros if there is none. The
/// row's leaf is then the page looked at.
///
/// Fails as [`row`](row()) does, and costs as much.
pub fn find_row<P: Pages>(
    pages: &mut P,
    tree: &Tree,
    node: u32,
    number: u64,
    row: &mut [u8; 32],
) -> Result<Option<RowSpot>, PageFault>
    ensures row { IsMap rows_form (P.pages pages.old) tree.now.rows
        → OnOk result (HasBytes row.new (bytes_in (P.pages pages.old) tree.now.rows node number)) }
    ensures there { IsMap rows_form (P.pages pages.old) tree.now.rows
        → IfOk result (λ found. lookup (key_of node number) (map_rows rows_form (P.pages pages.old) tree.now.rows) ≡ (if is_some found then Some row.new else None)) }
    ensures spot { IfOk result (λ found. IfSome found (IsSpot rows_form (P.pages pages.new) (P.count pages.new) tree.now.rows (P.looked pages.new) (key_of node number))) }
    ensures kept { AreReadable (P.pages pages.old) (P.count pages.old)
        → OnOk result (IsRowFound (P.pages pages.old) (P.count pages.old) tree.now.rows node number row.new) }
    ensures no_false_damage { IsMap rows_form (P.pages pages.old) tree.now.rows → AreCounted (map_uses rows_form (P.pages pages.old) tree.now.rows) (P.count pages.old)
        → AreReadable (P.pages pages.old) (P.count pages.old) → (damage : Damage) → ¬ IsErrOf result (PageFault.Damaged damage) }
    ensures damaged { AreReadable (P.pages pages.old) (P.count pages.old) → (damage : Damage) → IsErrOf result (PageFault.Damaged damage)
        → IsMapDamaged rows_form (P.pages pages.old) (P.count pages.old) tree.now.rows damage × AskedSince (P.asked pages.old) (P.asked pages.new) damage.page }
    ensures own { AreReadable (P.pages pages.old) (P.count pages.old)
        → AsksOnly (map_uses rows_form (P.pages pages.old) tree.now.rows) (P.asked pages.old) (P.asked pages.new) }
    ensures fails { FailsReading P.Pages pages.old pages.new result }
    ensures frame { Reads P.Pages pages.old pages.new }
{
    let key = RowKey { node, number }.bytes();
    match PagedMap::<WordRows>::at(tree.rows).find(pages, &key, row)? {
        Some(spot) => Ok(Some(spot)),
        None => {
            *row = clear_row();
            Ok(None)
        }
    }
}

// Puts a row at its key.
fn put_row<P: Pages>(
    pages: &mut P,
    tree: &mut Tree,
    key: RowKey,
    row: &[u8; 32],
) -> Result<(), PageFault>
    ensures put { (free : List ℕ) → IsKept rows_form (view (P.pages pages.old) (P.count pages.old) (P.first pages.old) free) tree.old.rows
        → OnOk result (HasBecome rows_form (view (P.pages pages.old) (P.count pages.old) (P.first pages.old) free) (P.pages pages.new) (P.count pages.new) (P.first pages.new) tree.old.rows tree.new.rows
        (put (key_of key.node key.number) row.now (map_rows rows_form (P.pages pages.old) tree.old.rows))) }
    ensures root { tree.new.root ≡ tree.old.root }
    ensures kept { OnErr result (tree.new ≡ tree.old) }
    ensures told { AreReadable (P.pages pages.old) (P.count pages.old) → OnOk result (AreReadable (P.pages pages.new) (P.count pages.new)) }
    ensures no_false_damage { (free : List ℕ) → IsKept rows_form (view (P.pages pages.old) (P.count pages.old) (P.first pages.old) free) tree.old.rows
        → (damage : Damage) → ¬ IsErrOf result (PageFault.Damaged damage) }
    ensures damaged { AreReadable (P.pages pages.old) (P.count pages.old) → (damage : Damage) → IsErrOf result (PageFault.Damaged damage)
        → (IsMapDamaged rows_form (P.pages pages.old) (P.count pages.old) tree.old.rows damage × AskedSince (P.asked pages.old) (P.asked pages.new) damage.page)
        ⊎ IsRefusedTake (P.pages pages.new) (P.count pages.new) (P.first pages.new) damage }
    ensures stays { AreReadable (P.pages pages.old) (P.count pages.old) → (damage : Damage) → IsErrOf result (PageFault.Damaged damage)
        → ((P.pages pages.new ≡ P.pages pages.old) × (P.count pages.new ≡ P.count pages.old))
        ⊎ IsRefusedTake (P.pages pages.new) (P.count pages.new) (P.first pages.new) damage }
    ensures own { AreReadable (P.pages pages.old) (P.count pages.old)
        → AsksOnly (map_uses rows_form (P.pages pages.old) tree.old.rows) (P.asked pages.old) (P.asked pages.new) }
    ensures fails { FailsChanging P.Pages pages.old pages.new result }
    ensures frame { Changes P.Pages pages.old pages.new }
{
    let mut map = PagedMap::<WordRows>::at(tree.rows);
    let _had = map.put(pages, &key.bytes(), row)?;
    tree.rows = map.root();
    Ok(())
}

// Takes the row at a key out, if there is one.
fn remove_row<P: Pages>(pages: &mut P, tree: &mut Tree, key: RowKey) -> Result<(), PageFault>
    ensures removed { (free : List ℕ) → IsKept rows_form (view (P.pages pages.old) (P.count pages.old) (P.first pages.old) free) tree.old.rows
        → OnOk result (HasBecome rows_form (view (P.pages pages.old) (P.count pages.old) (P.first pages.old) free) (P.pages pages.new) (P.count pages.new) (P.first pages.new) tree.old.rows tree.new.rows
        (without (key_of key.node key.number) (map_rows rows_form (P.pages pages.old) tree.old.rows))) }
    ensures root { tree.new.root ≡ tree.old.root }
    ensures kept { OnErr result (tree.new ≡ tree.old) }
    ensures told { AreReadable (P.pages pages.old) (P.count pages.old) → OnOk result (AreReadable (P.pages pages.new) (P.count pages.new)) }
    ensures no_false_damage { (free : List ℕ) → IsKept rows_form (view (P.pages pages.old) (P.count pages.old) (P.first pages.old) free) tree.old.rows
        → (damage : Damage) → ¬ IsErrOf result (PageFault.Damaged damage) }
    ensures damaged { AreReadable (P.pages pages.old) (P.count pages.old) → (damage : Damage) → IsErrOf result (PageFault.Damaged damage)
        → IsMapDamaged rows_form (P.pages pages.old) (P.count pages.old) tree.old.rows damage × AskedSince (P.asked pages.old) (P.asked pages.new) damage.page }
    ensures stays { (damage : Damage) → IsErrOf result (PageFault.Damaged damage) → (P.pages pages.new ≡ P.pages pages.old) × (P.count pages.new ≡ P.count pages.old) }
    ensures own { AreReadable (P.pages pages.old) (P.count pages.old)
        → AsksOnly (map_uses rows_form (P.pages pages.old) tree.old.rows) (P.asked pages.old) (P.asked pages.new) }
    ensures fails { FailsChanging P.Pages pages.old pages.new result }
    ensures frame { Changes P.Pages pages.old pages.new }
{
    let mut map = PagedMap::<WordRows>::at(tree.rows);
    let _had = map.remove(pages, &key.bytes())?;
    tree.rows = map.root();
    Ok(())
}

/// Sets the row of a node for a word, by the word's number. A row of zeros is removed.
///
/// Returns `Damaged` with a rule that a page asked for in this call breaks in its place, or as a `take` returned it. Returns `Disk`,
/// `NoRoom`, `Stopped`, or `Memory` if it runs out of memory. After a failure `tree` is as before. If a page breaks a rule in its place,
/// no page has changed. After any other failure pages may have changed: the caller must abandon them.
///
/// Looks at one page a level of the rows' map. Writes only the leaf of the row if it has room, or more rows than it must have.
/// Otherwise writes at most three pages a level, and reads at most two by value. A row of zeros that isn't stored writes nothing.
pub fn set_row<P: Pages>(
    pages: &mut P,
    tree: &mut Tree,
    node: u32,
    number: u64,
    row: &[u8; 32],
) -> Result<(), PageFault>
    ensures turns { (free : List ℕ) → IsRows (view (P.pages pages.old) (P.count pages.old) (P.first pages.old) free) tree.old.rows
        → OnOk result (Turns (view (P.pages pages.old) (P.count pages.old) (P.first pages.old) free) tree.old.rows (P.pages pages.new) (P.count pages.new) (P.first pages.new) tree.new.rows
        (with_row node number row.now (bytes_in (P.pages pages.old) tree.old.rows))) }
    ensures root { tree.new.root ≡ tree.old.root }
    ensures kept { OnErr result (tree.new ≡ tree.old) }
    ensures told { AreReadable (P.pages pages.old) (P.count pages.old) → OnOk result (AreReadable (P.pages pages.new) (P.count pages.new)) }

    // On a well-formed map and a free list that ends at 0 no page is damaged.
    ensures no_false_damage { (free : List ℕ) → IsKept rows_form (view (P.pages pages.old) (P.count pages.old) (P.first pages.old) free) tree.old.rows
        → (damage : Damage) → ¬ IsErrOf result (PageFault.Damaged damage) }
    ensures damaged { AreReadable (P.pages pages.old) (P.count pages.old) → (damage : Damage) → IsErrOf result (PageFault.Damaged damage)
        → (IsMapDamaged rows_form (P.pages pages.old) (P.count pages.old) tree.old.rows damage × AskedSince (P.asked pages.old) (P.asked pages.new) damage.page)
        ⊎ IsRefusedTake (P.pages pages.new) (P.count pages.new) (P.first pages.new) damage }

    // A rule that a page breaks is found before a page is written.
    ensures stays { AreReadable (P.pages pages.old) (P.count pages.old) → (damage : Damage) → IsErrOf result (PageFault.Damaged damage)
        → ((P.pages pages.new ≡ P.pages pages.old) × (P.count pages.new ≡ P.count pages.old))
        ⊎ IsRefusedTake (P.pages pages.new) (P.count pages.new) (P.first pages.new) damage }
    ensures own { AreReadable (P.pages pages.old) (P.count pages.old)
        → AsksOnly (map_uses rows_form (P.pages pages.old) tree.old.rows) (P.asked pages.old) (P.asked pages.new) }
    ensures fails { FailsChanging P.Pages pages.old pages.new result }
    ensures frame { Changes P.Pages pages.old pages.new }
{
    let key = RowKey { node, number };
    if is_clear(row) {
        remove_row(pages, tree, key)
    } else {
        put_row(pages, tree, key, row)
    }
}

// Puts other bytes at the spot of a row that was found. The root stays.
fn replace_row<P: Pages>(
    pages: &mut P,
    tree: &Tree,
    key: RowKey,
    spot: &RowSpot,
    row: &[u8; 32],
) -> Result<(), PageFault>
    requires spot { IsSpot rows_form (P.pages pages.old) (P.count pages.old) tree.now.rows (P.looked pages.old) (key_of key.node key.number) spot.now }
    ensures put { (free : List ℕ) → IsKept rows_form (view (P.pages pages.old) (P.count pages.old) (P.first pages.old) free) tree.now.rows
        → OnOk result (HasBecome rows_form (view (P.pages pages.old) (P.count pages.old) (P.first pages.old) free) (P.pages pages.new) (P.count pages.new) (P.first pages.new) tree.now.rows tree.now.rows
        (put (key_of key.node key.number) row.now (map_rows rows_form (P.pages pages.old) tree.now.rows))) }
    ensures told { AreReadable (P.pages pages.old) (P.count pages.old) → OnOk result (AreReadable (P.pages pages.new) (P.count pages.new)) }
    ensures alone { (n : ℕ) → n ≢ spot.now.page → P.pages pages.new n ≡ P.pages pages.old n }
    ensures count { P.count pages.new ≡ P.count pages.old }
    ensures no_false_damage { (damage : Damage) → ¬ IsErrOf result (PageFault.Damaged damage) }
    ensures asked { P.asked pages.new ≡ P.asked pages.old }
    ensures fails { FailsChanging P.Pages pages.old pages.new result }
    ensures frame { Changes P.Pages pages.old pages.new }
{
    let map = PagedMap::<WordRows>::at(tree.rows);
    map.replace(pages, spot, &key.bytes(), row)
}

/// Sets the row of a node for a word, after [`find_row`] has looked for it: no other page was looked at since, and no page has changed.
///
/// Fails as [`set_row`] does. Writes only the row's leaf, with no way down, if the row was found and some byte of it stays. Otherwise
/// costs as much as [`set_row`].
pub fn set_found<P: Pages>(
    pages: &mut P,
    tree: &mut Tree,
    node: u32,
    number: u64,
    spot: Option<RowSpot>,
    row: &[u8; 32],
) -> Result<(), PageFault>
    requires spot { IfSome spot (IsSpot rows_form (P.pages pages.old) (P.count pages.old) tree.old.rows (P.looked pages.old) (key_of node number)) }
    ensures turns { (free : List ℕ) → IsRows (view (P.pages pages.old) (P.count pages.old) (P.first pages.old) free) tree.old.rows
        → OnOk result (Turns (view (P.pages pages.old) (P.count pages.old) (P.first pages.old) free) tree.old.rows (P.pages pages.new) (P.count pages.new) (P.first pages.new) tree.new.rows
        (with_row node number row.now (bytes_in (P.pages pages.old) tree.old.rows))) }

    // If the row was found and isn't all zeros now, there is no way down, no page is taken, and only the row's leaf may change.
    ensures alone { are_zero row.now ≡ false → IfSome spot (λ found. (tree.new ≡ tree.old) × (P.asked pages.new ≡ P.asked pages.old) × (P.count pages.new ≡ P.count pages.old)
        × ((n : ℕ) → n ≢ found.page → P.pages pages.new n ≡ P.pages pages.old n)) }
    ensures root { tree.new.root ≡ tree.old.root }
    ensures kept { OnErr result (tree.new ≡ tree.old) }
    ensures told { AreReadable (P.pages pages.old) (P.count pages.old) → OnOk result (AreReadable (P.pages pages.new) (P.count pages.new)) }
    ensures no_false_damage { (free : List ℕ) → IsKept rows_form (view (P.pages pages.old) (P.count pages.old) (P.first pages.old) free) tree.old.rows
        → (damage : Damage) → ¬ IsErrOf result (PageFault.Damaged damage) }
    ensures damaged { AreReadable (P.pages pages.old) (P.count pages.old) → (damage : Damage) → IsErrOf result (PageFault.Damaged damage)
        → IsRowsHarm (P.pages pages.new) (P.count pages.new) (P.first pages.new) tree.new.rows (P.asked pages.old) (P.asked pages.new) damage }
    ensures own { AreReadable (P.pages pages.old) (P.count pages.old)
        → AsksOnly (map_uses rows_form (P.pages pages.old) tree.old.rows) (P.asked pages.old) (P.asked pages.new) }
    ensures fails { FailsChanging P.Pages pages.old pages.new result }
    ensures frame { Changes P.Pages pages.old pages.new }
{
    match spot {
        Some(spot) => {
            if is_clear(row) {
                set_row(pages, tree, node, number, row)
            } else {
                replace_row(pages, tree, RowKey { node, number }, &spot, row)
            }
        }
        None => set_row(pages, tree, node, number, row),
    }
}
