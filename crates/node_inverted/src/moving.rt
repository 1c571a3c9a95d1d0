//! Slots of a node that move to another one, as in a split.
ghost use Rattle.std.specs.Prelude.{◌≡◌, ◌<◌, ℕ, List, [], IfErr, IfOk, IfSome, OnOk, IsErrOf};
ghost use Rattle.page_face.specs.Calls.{Changes, FailsChanging, FailsReading, Reads};
ghost use Rattle.btree_nodes.specs.Damages.{AreReadable, AsksOnly};
ghost use Rattle.btree_nodes.specs.Supply.{View, view};
ghost use Rattle.btree_nodes.specs.Tree.{IsMap, map_uses};
ghost use Rattle.paged_map.specs.Maps.{AreCounted};
ghost use Rattle.rtree_nodes.specs.Stock.{rows_form};
ghost use Rattle.node_rows.specs.Damages.{IsRowsDamage, IsRowsHarm};
ghost use Rattle.node_rows.specs.Rows.{Bytes, HasBytes, IsRows, bytes_in};
ghost use Rattle.node_rows.specs.Turns.{Turns, HasNone, moved};
ghost use Rattle.node_rows.specs.Copies.{IsCopy};
ghost use Rattle.node_rows.specs.Ascents.{on_word, until, reached};
ghost use Rattle.node_inverted.specs.Drafts.{with_rows};
ghost use Rattle.node_inverted.specs.Gathers.{IsMoving};

use crate::drafting::set_rows;
use crate::taking::{NodeRow, ROWS_AT_ONCE, push_row};
use node_rows::{LeafCopy, Tree, after, is_clear, moving, next_in, staying};
use page_face::{Damage, PageFault, Pages};
use std::alloc::Global;

// Adds the part of a row that stays to some rows, and the part that goes to others. A row none of whose bytes move isn't added.
fn part_row(
    slots: u32,
    number: u64,
    row: &[u8; 32],
    stays: &mut Vec<NodeRow>,
    goes: &mut Vec<NodeRow>,
) -> Result<(), PageFault>
    ensures parted { (node to : ℕ) (bytes b : Bytes) → (node ≡ to → ⊥) → ((n w i : ℕ) → with_rows to goes.old.items (with_rows node stays.old.items bytes) n w i ≡ b n w i)
        → HasBytes row.now (b node number) → ((i : ℕ) → b to number i ≡ 0)
        → OnOk result ((n w i : ℕ) → with_rows to goes.new.items (with_rows node stays.new.items bytes) n w i ≡ on_word number (moved node slots to b) b n w i) }
    ensures memory { IfErr result (λ fault. fault ≡ PageFault.Memory) }
{
    let go = moving(row, slots);
    if is_clear(&go) {
        return Ok(());
    }
    let stay = staying(row, slots);
    push_row(stays, number, stay)?;
    push_row(goes, number, go)
}

// Adds what stays and what goes of the node's first row from number `at` on. Returns the number to go on from, if any.
fn part_next<P: Pages>(
    pages: &mut P,
    tree: &Tree,
    node: u32,
    slots: u32,
    at: u64,
    copy: &mut LeafCopy,
    stays: &mut Vec<NodeRow>,
    goes: &mut Vec<NodeRow>,
) -> Result<Option<u64>, PageFault>
    ensures parted { (before : View) (root to : ℕ) (b : Bytes) → (node ≡ to → ⊥) → HasNone b to → IsCopy b node copy.old
        → IsMoving before root (P.pages pages.old) (P.count pages.old) (P.first pages.old) tree.now.rows node slots to b at stays.old.items goes.old.items
        → IfOk result (λ next. IsMoving before root (P.pages pages.new) (P.count pages.new) (P.first pages.new) tree.now.rows node slots to b (reached next) stays.new.items goes.new.items) }
    ensures copy { (before : View) (root to : ℕ) (b : Bytes) → IsCopy b node copy.old
        → IsMoving before root (P.pages pages.old) (P.count pages.old) (P.first pages.old) tree.now.rows node slots to b at stays.old.items goes.old.items
        → OnOk result (IsCopy b node copy.new) }
    ensures onto { IfOk result (λ next. IfSome next (λ word. at < word)) }
    ensures no_false_damage { IsMap rows_form (P.pages pages.old) tree.now.rows → AreCounted (map_uses rows_form (P.pages pages.old) tree.now.rows) (P.count pages.old)
        → AreReadable (P.pages pages.old) (P.count pages.old) → (damage : Damage) → ¬ IsErrOf result (PageFault.Damaged damage) }
    ensures damaged { AreReadable (P.pages pages.old) (P.count pages.old) → (damage : Damage) → IsErrOf result (PageFault.Damaged damage)
        → IsRowsDamage (P.pages pages.old) (P.count pages.old) tree.now.rows (P.asked pages.old) (P.asked pages.new) damage }
    ensures own { AreReadable (P.pages pages.old) (P.count pages.old)
        → AsksOnly (map_uses rows_form (P.pages pages.old) tree.now.rows) (P.asked pages.old) (P.asked pages.new) }
    ensures fails { FailsReading P.Pages pages.old pages.new result }
    ensures frame { Reads P.Pages pages.old pages.new }
{
    let Some(found) = next_in(copy, pages, tree, node, at)? else {
        return Ok(None);
    };
    let row = found.1;
    part_row(slots, found.0, &row, stays, goes)?;
    Ok(after(found.0))
}

// Sets what stays at a node and what goes to another one. Then no row is left to be set.
fn set_parts<P: Pages>(
    pages: &mut P,
    tree: &mut Tree,
    node: u32,
    to: u32,
    stays: &mut Vec<NodeRow>,
    goes: &mut Vec<NodeRow>,
) -> Result<(), PageFault>
    ensures turns { (before : View) (root slots at : ℕ) (b : Bytes)
        → IsMoving before root (P.pages pages.old) (P.count pages.old) (P.first pages.old) tree.old.rows node slots to b at stays.old.items goes.old.items
        → OnOk result (Turns before root (P.pages pages.new) (P.count pages.new) (P.first pages.new) tree.new.rows (until at (moved node slots to b) b)) }
    ensures stays { OnOk result (stays.new.items ≡ []) }
    ensures goes { OnOk result (goes.new.items ≡ []) }
    ensures root { tree.new.root ≡ tree.old.root }
    ensures told { AreReadable (P.pages pages.old) (P.count pages.old) → OnOk result (AreReadable (P.pages pages.new) (P.count pages.new)) }
    ensures no_false_damage { (free : List ℕ) → IsRows (view (P.pages pages.old) (P.count pages.old) (P.first pages.old) free) tree.old.rows → AreReadable (P.pages pages.old) (P.count pages.old)
        → (damage : Damage) → ¬ IsErrOf result (PageFault.Damaged damage) }
    ensures damaged { AreReadable (P.pages pages.old) (P.count pages.old) → (damage : Damage) → IsErrOf result (PageFault.Damaged damage)
        → IsRowsHarm (P.pages pages.new) (P.count pages.new) (P.first pages.new) tree.new.rows (P.asked pages.old) (P.asked pages.new) damage }
    ensures more { AreReadable (P.pages pages.old) (P.count pages.old) → AsksOnly (λ _. 1) (P.asked pages.old) (P.asked pages.new) }
    ensures fails { FailsChanging P.Pages pages.old pages.new result }
    ensures frame { Changes P.Pages pages.old pages.new }
{
    set_rows(pages, tree, node, stays)?;
    set_rows(pages, tree, to, goes)?;
    stays.clear();
    goes.clear();
    Ok(())
}

// Moves the bytes of the node's first row from number `at` on. Rows are set several at once. Returns the number to go on from, if any.
fn move_next<P: Pages>(
    pages: &mut P,
    tree: &mut Tree,
    node: u32,
    slots: u32,
    to: u32,
    at: u64,
    copy: &mut LeafCopy,
    stays: &mut Vec<NodeRow>,
    goes: &mut Vec<NodeRow>,
) -> Result<Option<u64>, PageFault>
    ensures moving { (before : View) (root : ℕ) (b : Bytes) → (node ≡ to → ⊥) → HasNone b to → IsCopy b node copy.old
        → IsMoving before root (P.pages pages.old) (P.count pages.old) (P.first pages.old) tree.old.rows node slots to b at stays.old.items goes.old.items
        → IfOk result (λ next. IsMoving before root (P.pages pages.new) (P.count pages.new) (P.first pages.new) tree.new.rows node slots to b (reached next) stays.new.items goes.new.items) }
    ensures copy { (before : View) (root : ℕ) (b : Bytes) → IsCopy b node copy.old
        → IsMoving before root (P.pages pages.old) (P.count pages.old) (P.first pages.old) tree.old.rows node slots to b at stays.old.items goes.old.items
        → OnOk result (IsCopy b node copy.new) }
    ensures onto { IfOk result (λ next. IfSome next (λ word. at < word)) }
    ensures root { tree.new.root ≡ tree.old.root }
    ensures told { AreReadable (P.pages pages.old) (P.count pages.old) → OnOk result (AreReadable (P.pages pages.new) (P.count pages.new)) }
    ensures no_false_damage { (free : List ℕ) → IsRows (view (P.pages pages.old) (P.count pages.old) (P.first pages.old) free) tree.old.rows → AreReadable (P.pages pages.old) (P.count pages.old)
        → (damage : Damage) → ¬ IsErrOf result (PageFault.Damaged damage) }
    ensures damaged { AreReadable (P.pages pages.old) (P.count pages.old) → (damage : Damage) → IsErrOf result (PageFault.Damaged damage)
        → IsRowsHarm (P.pages pages.new) (P.count pages.new) (P.first pages.new) tree.new.rows (P.asked pages.old) (P.asked pages.new) damage }
    ensures more { AreReadable (P.pages pages.old) (P.count pages.old) → AsksOnly (λ _. 1) (P.asked pages.old) (P.asked pages.new) }
    ensures fails { FailsChanging P.Pages pages.old pages.new result }
    ensures frame { Changes P.Pages pages.old pages.new }
{
    let next = part_next(pages, tree, node, slots, at, copy, stays, goes)?;
    if stays.len() < ROWS_AT_ONCE {
        return Ok(next);
    }
    set_parts(pages, tree, node, to, stays, goes)?;
    Ok(next)
}

/// Moves the bytes at these slots, the set bits of `slots`, to the same slots of another node that has no row. A split of the node moves
/// its entries so.
///
/// Returns `Damaged`, `Disk`, `NoRoom`, `Stopped`, or `Memory` as [`next_row`](crate::next_row) and [`set_row`](crate::set_row) do. On a
/// well-formed map whose pages' bytes are readable no page is damaged. After a failure `tree` and the pages are as the call left them:
/// the caller must abandon them.
///
/// For a node of W words in L leaves of the rows' map, reads them with at most L + 4 ways down, each of one page a level. The rows of
/// which a byte moves are set up to 64 at once, at either node leaf by leaf, with one way down and one write for each leaf. Each row by
/// which a leaf gets too many or too few costs a call of [`set_row`](crate::set_row). Holds one leaf and those rows at a time.
pub fn move_slots<P: Pages>(
    alloc: Global,
    pages: &mut P,
    tree: &mut Tree,
    node: u32,
    slots: u32,
    to: u32,
) -> Result<(), PageFault>
    ensures turns { (free : List ℕ) → (node ≡ to → ⊥) → IsRows (view (P.pages pages.old) (P.count pages.old) (P.first pages.old) free) tree.old.rows
        → HasNone (bytes_in (P.pages pages.old) tree.old.rows) to
        → OnOk result (Turns (view (P.pages pages.old) (P.count pages.old) (P.first pages.old) free) tree.old.rows (P.pages pages.new) (P.count pages.new) (P.first pages.new) tree.new.rows
        (moved node slots to (bytes_in (P.pages pages.old) tree.old.rows))) }
    ensures root { tree.new.root ≡ tree.old.root }
    ensures told { AreReadable (P.pages pages.old) (P.count pages.old) → OnOk result (AreReadable (P.pages pages.new) (P.count pages.new)) }

    // On a well-formed map and a free list that ends at 0 no page is damaged.
    ensures no_false_damage { (free : List ℕ) → (node ≡ to → ⊥) → IsRows (view (P.pages pages.old) (P.count pages.old) (P.first pages.old) free) tree.old.rows
        → HasNone (bytes_in (P.pages pages.old) tree.old.rows) to → AreReadable (P.pages pages.old) (P.count pages.old)
        → (damage : Damage) → ¬ IsErrOf result (PageFault.Damaged damage) }
    ensures damaged { AreReadable (P.pages pages.old) (P.count pages.old) → (damage : Damage) → IsErrOf result (PageFault.Damaged damage)
        → IsRowsHarm (P.pages pages.new) (P.count pages.new) (P.first pages.new) tree.new.rows (P.asked pages.old) (P.asked pages.new) damage }
    ensures more { AreReadable (P.pages pages.old) (P.count pages.old) → AsksOnly (λ _. 1) (P.asked pages.old) (P.asked pages.new) }
    ensures fails { FailsChanging P.Pages pages.old pages.new result }
    ensures frame { Changes P.Pages pages.old pages.new }
{
    let mut stays = Vec::new(alloc);
    let mut goes = Vec::new(alloc);
    let mut copy = LeafCopy::none();
    let mut from = Some(0);
    while let Some(at) = from {
        from = move_next(
            pages, tree, node, slots, to, at, &mut copy, &mut stays, &mut goes,
        )?;
    }
    set_parts(pages, tree, node, to, &mut stays, &mut goes)?;
    Ok(())
}
