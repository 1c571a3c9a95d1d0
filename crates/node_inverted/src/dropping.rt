//! The removal of all rows of a node.
ghost use Rattle.std.specs.Prelude.{◌≡◌, ◌<◌, ℕ, List, IfOk, IfSome, OnOk, IsErrOf};
ghost use Rattle.page_face.specs.Calls.{Changes, FailsChanging, FailsReading, Reads};
ghost use Rattle.btree_nodes.specs.Damages.{AreReadable, AsksOnly};
ghost use Rattle.btree_nodes.specs.Supply.{View, view};
ghost use Rattle.btree_nodes.specs.Tree.{IsMap, map_uses};
ghost use Rattle.paged_map.specs.Maps.{AreCounted};
ghost use Rattle.rtree_nodes.specs.Stock.{rows_form};
ghost use Rattle.node_rows.specs.Damages.{IsRowsDamage, IsRowsHarm};
ghost use Rattle.node_rows.specs.Rows.{Bytes, IsRows, bytes_in};
ghost use Rattle.node_rows.specs.Turns.{Turns, dropped};
ghost use Rattle.node_rows.specs.Copies.{IsCopy};
ghost use Rattle.node_rows.specs.Ascents.{reached};
ghost use Rattle.node_inverted.specs.Gathers.{IsDropping};

use crate::drafting::set_rows;
use crate::taking::{NodeRow, ROWS_AT_ONCE, push_row};
use node_rows::{LeafCopy, Tree, after, clear_row, next_in};
use page_face::{Damage, PageFault, Pages};
use std::alloc::Global;

// Adds a row of zeros for the node's first row from number `at` on. Returns the number to go on from, if any.
fn clear_next<P: Pages>(
    pages: &mut P,
    tree: &Tree,
    node: u32,
    at: u64,
    copy: &mut LeafCopy,
    rows: &mut Vec<NodeRow>,
) -> Result<Option<u64>, PageFault>
    ensures dropping { (before : View) (root : ℕ) (b : Bytes) → IsCopy b node copy.old
        → IsDropping before root (P.pages pages.old) (P.count pages.old) (P.first pages.old) tree.now.rows node b at rows.old.items
        → IfOk result (λ next. IsDropping before root (P.pages pages.new) (P.count pages.new) (P.first pages.new) tree.now.rows node b (reached next) rows.new.items) }
    ensures copy { (before : View) (root : ℕ) (b : Bytes) → IsCopy b node copy.old
        → IsDropping before root (P.pages pages.old) (P.count pages.old) (P.first pages.old) tree.now.rows node b at rows.old.items
        → OnOk result (IsCopy b node copy.new) }
    ensures onto { IfOk result (λ next. IfSome next (λ word. at < word)) }
    ensures no_false_damage { IsMap rows_form (P.pages pages.old) tree.now.rows → AreCounted (map_uses rows_form (P.pages pages.old) tree.now.rows) (P.count pages.old)
        → AreReadable (P.pages pages.old) (P.count pages.old) → (damage : Damage) → ¬ IsErrOf result (PageFault.Damaged damage) }
    ensures damaged { AreReadable (P.pages pages.old) (P.count pages.old) → (damage : Damage) → IsErrOf result (PageFault.Damaged damage)
        → IsRowsDamage (P.pages pages.old) (P.count pages.old) tree.now.rows (P.asked pages.old) (P.asked pages.new) damage }
    ensures own { AreReadable (P.pages pages.old) (P.count pages.old)
        → AsksOnly (map_uses rows_form (P.pages pages.old) tree.now.rows) (P.asked pages.old) (P.asked pages.new) }
    ensures fails { FailsReading P.Pages pages.old pages.new result }
    ensures frame { Reads P.Pages pages.old pages.new }
{
    let Some(found) = next_in(copy, pages, tree, node, at)? else {
        return Ok(None);
    };
    push_row(rows, found.0, clear_row())?;
    Ok(after(found.0))
}

// Removes the node's first row from number `at` on. Rows are removed several at once. Returns the number to go on from, if any.
fn drop_next<P: Pages>(
    pages: &mut P,
    tree: &mut Tree,
    node: u32,
    at: u64,
    copy: &mut LeafCopy,
    rows: &mut Vec<NodeRow>,
) -> Result<Option<u64>, PageFault>
    ensures dropping { (before : View) (root : ℕ) (b : Bytes) → IsCopy b node copy.old
        → IsDropping before root (P.pages pages.old) (P.count pages.old) (P.first pages.old) tree.old.rows node b at rows.old.items
        → IfOk result (λ next. IsDropping before root (P.pages pages.new) (P.count pages.new) (P.first pages.new) tree.new.rows node b (reached next) rows.new.items) }
    ensures copy { (before : View) (root : ℕ) (b : Bytes) → IsCopy b node copy.old
        → IsDropping before root (P.pages pages.old) (P.count pages.old) (P.first pages.old) tree.old.rows node b at rows.old.items
        → OnOk result (IsCopy b node copy.new) }
    ensures onto { IfOk result (λ next. IfSome next (λ word. at < word)) }
    ensures root { tree.new.root ≡ tree.old.root }
    ensures told { AreReadable (P.pages pages.old) (P.count pages.old) → OnOk result (AreReadable (P.pages pages.new) (P.count pages.new)) }
    ensures no_false_damage { (free : List ℕ) → IsRows (view (P.pages pages.old) (P.count pages.old) (P.first pages.old) free) tree.old.rows → AreReadable (P.pages pages.old) (P.count pages.old)
        → (damage : Damage) → ¬ IsErrOf result (PageFault.Damaged damage) }
    ensures damaged { AreReadable (P.pages pages.old) (P.count pages.old) → (damage : Damage) → IsErrOf result (PageFault.Damaged damage)
        → IsRowsHarm (P.pages pages.new) (P.count pages.new) (P.first pages.new) tree.new.rows (P.asked pages.old) (P.asked pages.new) damage }
    ensures more { AreReadable (P.pages pages.old) (P.count pages.old) → AsksOnly (λ _. 1) (P.asked pages.old) (P.asked pages.new) }
    ensures fails { FailsChanging P.Pages pages.old pages.new result }
    ensures frame { Changes P.Pages pages.old pages.new }
{
    let next = clear_next(pages, tree, node, at, copy, rows)?;
    if rows.len() < ROWS_AT_ONCE {
        return Ok(next);
    }
    set_rows(pages, tree, node, rows)?;
    rows.clear();
    Ok(next)
}

/// Removes all rows of a node.
///
/// Returns `Damaged`, `Disk`, `NoRoom`, `Stopped`, or `Memory` as [`next_row`](crate::next_row) and [`set_row`](crate::set_row) do. On a
/// well-formed map whose pages' bytes are readable no page is damaged. After a failure `tree` and the pages are as the call left them:
/// the caller must abandon them.
///
/// For a node of W words in L leaves of the rows' map, reads them with at most L + 4 ways down, each of one page a level. The rows are
/// removed up to 64 at once, leaf by leaf, with one way down and one write for each leaf. Each row by which a leaf gets too few costs a
/// call of [`set_row`](crate::set_row). Holds one leaf and those rows at a time.
pub fn drop_node<P: Pages>(
    alloc: Global,
    pages: &mut P,
    tree: &mut Tree,
    node: u32,
) -> Result<(), PageFault>
    ensures turns { (free : List ℕ) → IsRows (view (P.pages pages.old) (P.count pages.old) (P.first pages.old) free) tree.old.rows
        → OnOk result (Turns (view (P.pages pages.old) (P.count pages.old) (P.first pages.old) free) tree.old.rows (P.pages pages.new) (P.count pages.new) (P.first pages.new) tree.new.rows
        (dropped node (bytes_in (P.pages pages.old) tree.old.rows))) }
    ensures root { tree.new.root ≡ tree.old.root }
    ensures told { AreReadable (P.pages pages.old) (P.count pages.old) → OnOk result (AreReadable (P.pages pages.new) (P.count pages.new)) }

    // On a well-formed map and a free list that ends at 0 no page is damaged.
    ensures no_false_damage { (free : List ℕ) → IsRows (view (P.pages pages.old) (P.count pages.old) (P.first pages.old) free) tree.old.rows → AreReadable (P.pages pages.old) (P.count pages.old)
        → (damage : Damage) → ¬ IsErrOf result (PageFault.Damaged damage) }
    ensures damaged { AreReadable (P.pages pages.old) (P.count pages.old) → (damage : Damage) → IsErrOf result (PageFault.Damaged damage)
        → IsRowsHarm (P.pages pages.new) (P.count pages.new) (P.first pages.new) tree.new.rows (P.asked pages.old) (P.asked pages.new) damage }
    ensures more { AreReadable (P.pages pages.old) (P.count pages.old) → AsksOnly (λ _. 1) (P.asked pages.old) (P.asked pages.new) }
    ensures fails { FailsChanging P.Pages pages.old pages.new result }
    ensures frame { Changes P.Pages pages.old pages.new }
{
    let mut rows = Vec::new(alloc);
    let mut copy = LeafCopy::none();
    let mut from = Some(0);
    while let Some(at) = from {
        from = drop_next(pages, tree, node, at, &mut copy, &mut rows)?;
    }
    set_rows(pages, tree, node, &rows)?;
    Ok(())
}
