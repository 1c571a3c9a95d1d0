//! Bytes that rise when an entry comes in below a slot.
ghost use Rattle.std.specs.Prelude.{◌≡◌, ◌<◌, ℕ, List, IfSome, OnOk, OnErr, IsErrOf};
ghost use Rattle.page_face.specs.Calls.{Changes, FailsChanging};
ghost use Rattle.btree_nodes.specs.Damages.{AreReadable, AsksOnly};
ghost use Rattle.btree_nodes.specs.Supply.{view};
ghost use Rattle.paged_map.specs.Spots.{IsSpot};
ghost use Rattle.rtree_nodes.specs.Stock.{rows_form};
ghost use Rattle.node_rows.specs.Damages.{IsRowsHarm};
ghost use Rattle.node_rows.specs.Rows.{HasBytes, IsRows, bytes_in, key_of};
ghost use Rattle.node_rows.specs.Turns.{Turns};
ghost use Rattle.node_rows.specs.Impacts.{impact_in, raised, with_byte};

use crate::drafting::edit_rows;
use crate::edits::{RowEdits, Slot};
use node_rows::{Tree, clear_row, find_row, put_byte, set_found};
use page_face::{Damage, PageFault, Pages};
use paged_map::RowSpot;

// Sets one byte of a row that was read. Writes nothing if it has that value already. A row that was looked up is replaced at its spot.
pub(crate) fn set_byte<P: Pages>(
    pages: &mut P,
    tree: &mut Tree,
    node: u32,
    slot: usize,
    number: u64,
    spot: Option<RowSpot>,
    row: &[u8; 32],
    byte: u8,
) -> Result<(), PageFault>
    requires slot { slot < 32 }
    requires spot { IfSome spot (IsSpot rows_form (P.pages pages.old) (P.count pages.old) tree.old.rows (P.looked pages.old) (key_of node number)) }
    ensures turns { (free : List ℕ) → IsRows (view (P.pages pages.old) (P.count pages.old) (P.first pages.old) free) tree.old.rows
        → HasBytes row.now (bytes_in (P.pages pages.old) tree.old.rows node number)
        → OnOk result (Turns (view (P.pages pages.old) (P.count pages.old) (P.first pages.old) free) tree.old.rows (P.pages pages.new) (P.count pages.new) (P.first pages.new) tree.new.rows
        (with_byte node number slot byte (bytes_in (P.pages pages.old) tree.old.rows))) }
    ensures root { tree.new.root ≡ tree.old.root }
    ensures kept { OnErr result (tree.new ≡ tree.old) }
    ensures told { AreReadable (P.pages pages.old) (P.count pages.old) → OnOk result (AreReadable (P.pages pages.new) (P.count pages.new)) }
    ensures no_false_damage { (free : List ℕ) → IsRows (view (P.pages pages.old) (P.count pages.old) (P.first pages.old) free) tree.old.rows
        → (damage : Damage) → ¬ IsErrOf result (PageFault.Damaged damage) }
    ensures damaged { AreReadable (P.pages pages.old) (P.count pages.old) → (damage : Damage) → IsErrOf result (PageFault.Damaged damage)
        → IsRowsHarm (P.pages pages.new) (P.count pages.new) (P.first pages.new) tree.new.rows (P.asked pages.old) (P.asked pages.new) damage }
    ensures more { AreReadable (P.pages pages.old) (P.count pages.old) → AsksOnly (λ _. 1) (P.asked pages.old) (P.asked pages.new) }
    ensures fails { FailsChanging P.Pages pages.old pages.new result }
    ensures frame { Changes P.Pages pages.old pages.new }
{
    if row[slot] == byte {
        return Ok(());
    }
    let mut changed = *row;
    put_byte(&mut changed, slot, byte);
    set_found(pages, tree, node, number, spot, &changed)
}

/// Sets the byte of a word at a slot of a node.
///
/// Returns `Damaged`, `Disk`, `NoRoom`, `Stopped`, or `Memory` as [`row`](crate::row()) and [`set_row`](crate::set_row) do. On a
/// well-formed map whose pages' bytes are readable no page is damaged. After a failure `tree` is as before, and pages may have changed:
/// the caller must abandon them.
///
/// Looks at one page a level of the rows' map. If the byte differs, writes only the leaf if the row is there and some byte of it
/// stays, and otherwise costs a call of `set_row`.
pub fn set_impact<P: Pages>(
    pages: &mut P,
    tree: &mut Tree,
    node: u32,
    slot: usize,
    number: u64,
    impact: u8,
) -> Result<(), PageFault>
    requires { slot < 32 }
    ensures turns { (free : List ℕ) → IsRows (view (P.pages pages.old) (P.count pages.old) (P.first pages.old) free) tree.old.rows
        → OnOk result (Turns (view (P.pages pages.old) (P.count pages.old) (P.first pages.old) free) tree.old.rows (P.pages pages.new) (P.count pages.new) (P.first pages.new) tree.new.rows
        (with_byte node number slot impact (bytes_in (P.pages pages.old) tree.old.rows))) }
    ensures root { tree.new.root ≡ tree.old.root }
    ensures kept { OnErr result (tree.new ≡ tree.old) }
    ensures told { AreReadable (P.pages pages.old) (P.count pages.old) → OnOk result (AreReadable (P.pages pages.new) (P.count pages.new)) }

    // On a well-formed map and a free list that ends at 0 no page is damaged.
    ensures no_false_damage { (free : List ℕ) → IsRows (view (P.pages pages.old) (P.count pages.old) (P.first pages.old) free) tree.old.rows → AreReadable (P.pages pages.old) (P.count pages.old)
        → (damage : Damage) → ¬ IsErrOf result (PageFault.Damaged damage) }
    ensures damaged { AreReadable (P.pages pages.old) (P.count pages.old) → (damage : Damage) → IsErrOf result (PageFault.Damaged damage)
        → IsRowsHarm (P.pages pages.new) (P.count pages.new) (P.first pages.new) tree.new.rows (P.asked pages.old) (P.asked pages.new) damage }
    ensures more { AreReadable (P.pages pages.old) (P.count pages.old) → AsksOnly (λ _. 1) (P.asked pages.old) (P.asked pages.new) }
    ensures fails { FailsChanging P.Pages pages.old pages.new result }
    ensures frame { Changes P.Pages pages.old pages.new }
{
    let mut there = clear_row();
    let spot = find_row(pages, tree, node, number, &mut there)?;
    set_byte(pages, tree, node, slot, number, spot, &there, impact)
}

/// Raises a slot of a node by the words of an entry that comes in below it: each word's byte at the slot is then at least the
/// word's impact. `pairs` are the entry's words, each by its number, with their impacts.
///
/// Returns `Damaged`, `Disk`, `NoRoom`, `Stopped`, or `Memory` as [`row`](crate::row()) and [`set_row`](crate::set_row) do. On a
/// well-formed map whose pages' bytes are readable no page is damaged. After a failure `tree` and the pages are as the call left them:
/// the caller must abandon them.
///
/// For pairs in the order of their words' numbers whose rows are stored in L leaves of the rows' map, costs L ways down and L writes of a
/// page. Each way down looks at one page a level. Each row for which a leaf has no room costs a call of [`set_row`](crate::set_row).
pub fn raise<P: Pages>(
    pages: &mut P,
    tree: &mut Tree,
    node: u32,
    slot: usize,
    pairs: &[(u64, u8)],
) -> Result<(), PageFault>
    requires { slot < 32 }
    ensures turns { (free : List ℕ) → IsRows (view (P.pages pages.old) (P.count pages.old) (P.first pages.old) free) tree.old.rows
        → OnOk result (Turns (view (P.pages pages.old) (P.count pages.old) (P.first pages.old) free) tree.old.rows (P.pages pages.new) (P.count pages.new) (P.first pages.new) tree.new.rows
        (raised node slot (impact_in pairs.now) (bytes_in (P.pages pages.old) tree.old.rows))) }
    ensures root { tree.new.root ≡ tree.old.root }
    ensures told { AreReadable (P.pages pages.old) (P.count pages.old) → OnOk result (AreReadable (P.pages pages.new) (P.count pages.new)) }

    // On a well-formed map and a free list that ends at 0 no page is damaged.
    ensures no_false_damage { (free : List ℕ) → IsRows (view (P.pages pages.old) (P.count pages.old) (P.first pages.old) free) tree.old.rows → AreReadable (P.pages pages.old) (P.count pages.old)
        → (damage : Damage) → ¬ IsErrOf result (PageFault.Damaged damage) }
    ensures damaged { AreReadable (P.pages pages.old) (P.count pages.old) → (damage : Damage) → IsErrOf result (PageFault.Damaged damage)
        → IsRowsHarm (P.pages pages.new) (P.count pages.new) (P.first pages.new) tree.new.rows (P.asked pages.old) (P.asked pages.new) damage }
    ensures more { AreReadable (P.pages pages.old) (P.count pages.old) → AsksOnly (λ _. 1) (P.asked pages.old) (P.asked pages.new) }
    ensures fails { FailsChanging P.Pages pages.old pages.new result }
    ensures frame { Changes P.Pages pages.old pages.new }
{
    edit_rows(
        pages,
        tree,
        node,
        &RowEdits::Raises(Slot { at: slot }, pairs),
    )
}
