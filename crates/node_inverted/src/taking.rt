//! Rows that are taken from a node into memory.
ghost use Rattle.std.specs.Prelude.{◌≡◌, ◌+◌, ◌<◌, ◌≤◌, ◌^◌, ◌++◌, ◌∷◌, [], ℕ, List, max, IfErr, IfOk, IfSome, IsErrOf, OnOk};
ghost use Rattle.page_face.specs.Calls.{Changes, FailsChanging, FailsReading, Reads};
ghost use Rattle.btree_nodes.specs.Damages.{AreReadable, AsksOnly};
ghost use Rattle.btree_nodes.specs.Supply.{view};
ghost use Rattle.btree_nodes.specs.Tree.{IsMap, map_uses};
ghost use Rattle.paged_map.specs.Maps.{AreCounted};
ghost use Rattle.rtree_nodes.specs.Stock.{rows_form};
ghost use Rattle.node_rows.specs.Damages.{IsRowsDamage, IsRowsHarm};
ghost use Rattle.node_rows.specs.Rows.{IsRows, bytes_in};
ghost use Rattle.node_rows.specs.Copies.{IsCopy};
ghost use Rattle.node_rows.specs.Ascents.{reached, until};
ghost use Rattle.node_rows.specs.Words.{no_bytes};
ghost use Rattle.node_inverted.specs.Lifts.{AreOrdered, IsTaken, bytes_at, lifted_at, lifted_by};

use crate::dropping::drop_node;
use node_rows::{LeafCopy, Tree, after, next_in};
use page_face::{Damage, PageFault, Pages};
use std::alloc::Global;

/// A row of a node in memory.
#[derive(Drop, Clone, Copy)]
pub struct NodeRow {
    /// The word's number.
    pub number: u64,
    /// The greatest impact of the word below each slot.
    pub bytes: [u8; 32],
}

/// The greatest number of rows that are gathered before they are set.
pub(crate) const ROWS_AT_ONCE: usize = 64;

/// Adds a row.
pub(crate) fn push_row(
    rows: &mut Vec<NodeRow>,
    number: u64,
    bytes: [u8; 32],
) -> Result<(), PageFault>
    ensures lifted { OnOk result ((w i : ℕ) → lifted_at rows.new.items w i ≡ max (lifted_at rows.old.items w i) (lifted_by (record { number = number; bytes = bytes }) w i)) }
    ensures ordered { (at : ℕ) → AreOrdered 0 at rows.old.items → at ≤ number → OnOk result (AreOrdered 0 (number + 1) rows.new.items) }
    ensures items { OnOk result (rows.new.items ≡ rows.old.items ++ record { number = number; bytes = bytes } ∷ []) }
    ensures memory { IfErr result (λ fault. fault ≡ PageFault.Memory) }
{
    let row = NodeRow { number, bytes };
    match rows.push(row) {
        Ok(()) => Ok(()),
        Err(_) => Err(PageFault::Memory),
    }
}

// Adds the node's first row from number `at` on. Returns the number to go on from, if any.
fn list_next<P: Pages>(
    pages: &mut P,
    tree: &Tree,
    node: u32,
    at: u64,
    copy: &mut LeafCopy,
    rows: &mut Vec<NodeRow>,
) -> Result<Option<u64>, PageFault>
    ensures listed { IsMap rows_form (P.pages pages.old) tree.now.rows → IsCopy (bytes_in (P.pages pages.old) tree.now.rows) node copy.old
        → ((n w i : ℕ) → lifted_at rows.old.items w i ≡ until at (bytes_at node (bytes_in (P.pages pages.old) tree.now.rows)) no_bytes n w i)
        → IfOk result (λ next. (n w i : ℕ) → lifted_at rows.new.items w i ≡ until (reached next) (bytes_at node (bytes_in (P.pages pages.old) tree.now.rows)) no_bytes n w i) }
    ensures ordered { AreOrdered 0 at rows.old.items → IfOk result (λ next. AreOrdered 0 (reached next) rows.new.items) }
    ensures copy { IsMap rows_form (P.pages pages.old) tree.now.rows → IsCopy (bytes_in (P.pages pages.old) tree.now.rows) node copy.old
        → OnOk result (IsCopy (bytes_in (P.pages pages.old) tree.now.rows) node copy.new) }
    ensures onto { IfOk result (λ next. IfSome next (λ word. at < word)) }
    ensures no_false_damage { IsMap rows_form (P.pages pages.old) tree.now.rows → AreCounted (map_uses rows_form (P.pages pages.old) tree.now.rows) (P.count pages.old)
        → AreReadable (P.pages pages.old) (P.count pages.old) → (damage : Damage) → ¬ IsErrOf result (PageFault.Damaged damage) }
    ensures damaged { AreReadable (P.pages pages.old) (P.count pages.old) → (damage : Damage) → IsErrOf result (PageFault.Damaged damage)
        → IsRowsDamage (P.pages pages.old) (P.count pages.old) tree.now.rows (P.asked pages.old) (P.asked pages.new) damage }
    ensures own { AreReadable (P.pages pages.old) (P.count pages.old)
        → AsksOnly (map_uses rows_form (P.pages pages.old) tree.now.rows) (P.asked pages.old) (P.asked pages.new) }
    ensures fails { FailsReading P.Pages pages.old pages.new result }
    ensures frame { Reads P.Pages pages.old pages.new }
{
    let Some(found) = next_in(copy, pages, tree, node, at)? else {
        return Ok(None);
    };
    let bytes = found.1;
    push_row(rows, found.0, bytes)?;
    Ok(after(found.0))
}

// The rows of a node in the order of their words.
fn list_rows<P: Pages>(
    alloc: Global,
    pages: &mut P,
    tree: &Tree,
    node: u32,
) -> Result<Vec<NodeRow>, PageFault>
    ensures listed { IsMap rows_form (P.pages pages.old) tree.now.rows
        → IfOk result (λ rows. (w i : ℕ) → lifted_at rows.items w i ≡ bytes_in (P.pages pages.old) tree.now.rows node w i) }
    ensures ordered { IfOk result (λ rows. AreOrdered 0 (2 ^ 64) rows.items) }
    ensures no_false_damage { IsMap rows_form (P.pages pages.old) tree.now.rows → AreCounted (map_uses rows_form (P.pages pages.old) tree.now.rows) (P.count pages.old)
        → AreReadable (P.pages pages.old) (P.count pages.old) → (damage : Damage) → ¬ IsErrOf result (PageFault.Damaged damage) }
    ensures damaged { AreReadable (P.pages pages.old) (P.count pages.old) → (damage : Damage) → IsErrOf result (PageFault.Damaged damage)
        → IsRowsHarm (P.pages pages.new) (P.count pages.new) (P.first pages.new) tree.now.rows (P.asked pages.old) (P.asked pages.new) damage }
    ensures own { AreReadable (P.pages pages.old) (P.count pages.old)
        → AsksOnly (map_uses rows_form (P.pages pages.old) tree.now.rows) (P.asked pages.old) (P.asked pages.new) }
    ensures fails { FailsReading P.Pages pages.old pages.new result }
    ensures frame { Reads P.Pages pages.old pages.new }
{
    let mut rows = Vec::new(alloc);
    let mut copy = LeafCopy::none();
    let mut from = Some(0);
    while let Some(at) = from {
        from = list_next(pages, tree, node, at, &mut copy, &mut rows)?;
    }
    Ok(rows)
}

/// Removes all rows of a node, and returns them in the order of their words.
///
/// Returns `Damaged`, `Disk`, `NoRoom`, `Stopped`, or `Memory` as [`next_row`](crate::next_row) and [`set_row`](crate::set_row) do. On a
/// well-formed map whose pages' bytes are readable no page is damaged. After a failure `tree` and the pages are as the call left them:
/// the caller must abandon them.
///
/// For a node of W words in L leaves of the rows' map, reads them with at most L + 4 ways down, each of one page a level. It also costs a
/// call of [`drop_node`].
pub fn take_rows<P: Pages>(
    alloc: Global,
    pages: &mut P,
    tree: &mut Tree,
    node: u32,
) -> Result<Vec<NodeRow>, PageFault>
    ensures taken { (free : List ℕ) → IsRows (view (P.pages pages.old) (P.count pages.old) (P.first pages.old) free) tree.old.rows
        → IfOk result (λ rows. IsTaken (view (P.pages pages.old) (P.count pages.old) (P.first pages.old) free) tree.old.rows (P.pages pages.new) (P.count pages.new) (P.first pages.new) tree.new.rows
        node (bytes_in (P.pages pages.old) tree.old.rows) rows.items) }
    ensures ordered { IfOk result (λ rows. AreOrdered 0 (2 ^ 64) rows.items) }
    ensures root { tree.new.root ≡ tree.old.root }
    ensures told { AreReadable (P.pages pages.old) (P.count pages.old) → OnOk result (AreReadable (P.pages pages.new) (P.count pages.new)) }

    // On a well-formed map and a free list that ends at 0 no page is damaged.
    ensures no_false_damage { (free : List ℕ) → IsRows (view (P.pages pages.old) (P.count pages.old) (P.first pages.old) free) tree.old.rows → AreReadable (P.pages pages.old) (P.count pages.old)
        → (damage : Damage) → ¬ IsErrOf result (PageFault.Damaged damage) }
    ensures damaged { AreReadable (P.pages pages.old) (P.count pages.old) → (damage : Damage) → IsErrOf result (PageFault.Damaged damage)
        → IsRowsHarm (P.pages pages.new) (P.count pages.new) (P.first pages.new) tree.new.rows (P.asked pages.old) (P.asked pages.new) damage }
    ensures more { AreReadable (P.pages pages.old) (P.count pages.old) → AsksOnly (λ _. 1) (P.asked pages.old) (P.asked pages.new) }
    ensures fails { FailsChanging P.Pages pages.old pages.new result }
    ensures frame { Changes P.Pages pages.old pages.new }
{
    let rows = list_rows(alloc, pages, tree, node)?;
    drop_node(alloc, pages, tree, node)?;
    Ok(rows)
}
