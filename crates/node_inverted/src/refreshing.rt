//! A slot whose child has changed.
ghost use Rattle.std.specs.Prelude.{◌≡◌, ◌+◌, ◌<◌, ◌++◌, ◌∷◌, [], ℕ, List, Some, IfErr, OnOk, IsErrOf};
ghost use Rattle.page_face.specs.Calls.{Changes, FailsChanging, FailsReading, Reads};
ghost use Rattle.btree_nodes.specs.Damages.{AreReadable, AsksOnly};
ghost use Rattle.btree_nodes.specs.Supply.{View, view};
ghost use Rattle.btree_nodes.specs.Tree.{IsMap, map_uses};
ghost use Rattle.paged_map.specs.Maps.{AreCounted};
ghost use Rattle.rtree_nodes.specs.Stock.{rows_form};
ghost use Rattle.node_rows.specs.Damages.{IsRowsHarm};
ghost use Rattle.node_rows.specs.Rows.{Bytes, HasBytes, IsRows, bytes_in};
ghost use Rattle.node_rows.specs.Turns.{Turns};
ghost use Rattle.node_rows.specs.Copies.{IsCopy};
ghost use Rattle.node_rows.specs.Impacts.{refreshed, with_byte};
ghost use Rattle.node_inverted.specs.Drafts.{with_rows};
ghost use Rattle.node_inverted.specs.Gathers.{IsRenewing};
ghost use Rattle.node_rows.specs.Refreshing.{IsBounded, IsFrom, IsRefreshing, lesser_of, on_words, word_of};

use crate::ahead::{Ahead, next_word, pass, row_ahead};
use crate::drafting::set_rows;
use crate::raising::set_byte;
use crate::taking::{NodeRow, ROWS_AT_ONCE, push_row};
use node_rows::{LeafCopy, Tree, greatest, next_in, put_byte};
use page_face::{Damage, PageFault, Pages};
use std::alloc::Global;

// Refreshes the slot at one word, the least one that lies ahead.
fn refresh_word<P: Pages>(
    pages: &mut P,
    tree: &mut Tree,
    node: u32,
    slot: usize,
    child: u32,
    number: u64,
    below: &mut Ahead,
    above: &mut Ahead,
    below_copy: &mut LeafCopy,
    above_copy: &mut LeafCopy,
) -> Result<(), PageFault>
    requires { slot < 32 }
    ensures turns { (before : View) (root : ℕ) (b : Bytes) → IsBounded b → (node ≡ child → ⊥) → lesser_of (word_of below.old) (word_of above.old) ≡ Some number
        → IsRefreshing before root (P.pages pages.old) (P.count pages.old) (P.first pages.old) tree.old.rows node slot child b below.old above.old
        → IsCopy b child below_copy.old → IsCopy b node above_copy.old
        → OnOk result (IsRefreshing before root (P.pages pages.new) (P.count pages.new) (P.first pages.new) tree.new.rows node slot child b below.new above.new × IsCopy b child below_copy.new × IsCopy b node above_copy.new) }
    ensures past { OnOk result (IsFrom (number + 1) below.new × IsFrom (number + 1) above.new) }
    ensures root { tree.new.root ≡ tree.old.root }
    ensures told { AreReadable (P.pages pages.old) (P.count pages.old) → OnOk result (AreReadable (P.pages pages.new) (P.count pages.new)) }
    ensures no_false_damage { (before : View) (root : ℕ) (b : Bytes) → (node ≡ child → ⊥) → lesser_of (word_of below.old) (word_of above.old) ≡ Some number
        → IsRefreshing before root (P.pages pages.old) (P.count pages.old) (P.first pages.old) tree.old.rows node slot child b below.old above.old
        → AreReadable (P.pages pages.old) (P.count pages.old) → (damage : Damage) → ¬ IsErrOf result (PageFault.Damaged damage) }
    ensures damaged { AreReadable (P.pages pages.old) (P.count pages.old) → (damage : Damage) → IsErrOf result (PageFault.Damaged damage)
        → IsRowsHarm (P.pages pages.new) (P.count pages.new) (P.first pages.new) tree.new.rows (P.asked pages.old) (P.asked pages.new) damage }
    ensures more { AreReadable (P.pages pages.old) (P.count pages.old) → AsksOnly (λ _. 1) (P.asked pages.old) (P.asked pages.new) }
    ensures fails { FailsChanging P.Pages pages.old pages.new result }
    ensures frame { Changes P.Pages pages.old pages.new }
{
    let low = row_ahead(below, number);
    let high = row_ahead(above, number);
    let byte = greatest(&low);
    set_byte(pages, tree, node, slot, number, None, &high, byte)?;
    pass(pages, tree, child, number, below, below_copy)?;
    pass(pages, tree, node, number, above, above_copy)
}

/// Makes the byte of each word at a slot of a node the greatest of the words' bytes in the slot's child. All other bytes stay.
///
/// Returns `Damaged`, `Disk`, `NoRoom`, `Stopped`, or `Memory` as [`next_row`](crate::next_row) and [`set_row`](crate::set_row) do. On a
/// well-formed map whose pages' bytes are readable no page is damaged. After a failure `tree` and the pages are as the call left them:
/// the caller must abandon them.
///
/// Goes through the rows of the child and of the node once, side by side. If they are stored in L leaves of the rows' map, costs at most
/// L + 8 ways down, each of one page a level. Each byte that differs costs a call of `set_row`.
pub fn refresh<P: Pages>(
    pages: &mut P,
    tree: &mut Tree,
    node: u32,
    slot: usize,
    child: u32,
) -> Result<(), PageFault>
    requires { slot < 32 }
    ensures turns { (free : List ℕ) → IsRows (view (P.pages pages.old) (P.count pages.old) (P.first pages.old) free) tree.old.rows → (node ≡ child → ⊥)
        → OnOk result (Turns (view (P.pages pages.old) (P.count pages.old) (P.first pages.old) free) tree.old.rows (P.pages pages.new) (P.count pages.new) (P.first pages.new) tree.new.rows
        (refreshed node slot child (bytes_in (P.pages pages.old) tree.old.rows))) }
    ensures root { tree.new.root ≡ tree.old.root }
    ensures told { AreReadable (P.pages pages.old) (P.count pages.old) → OnOk result (AreReadable (P.pages pages.new) (P.count pages.new)) }

    // On a well-formed map and a free list that ends at 0 no page is damaged.
    ensures no_false_damage { (free : List ℕ) → IsRows (view (P.pages pages.old) (P.count pages.old) (P.first pages.old) free) tree.old.rows → (node ≡ child → ⊥)
        → AreReadable (P.pages pages.old) (P.count pages.old) → (damage : Damage) → ¬ IsErrOf result (PageFault.Damaged damage) }
    ensures damaged { AreReadable (P.pages pages.old) (P.count pages.old) → (damage : Damage) → IsErrOf result (PageFault.Damaged damage)
        → IsRowsHarm (P.pages pages.new) (P.count pages.new) (P.first pages.new) tree.new.rows (P.asked pages.old) (P.asked pages.new) damage }
    ensures more { AreReadable (P.pages pages.old) (P.count pages.old) → AsksOnly (λ _. 1) (P.asked pages.old) (P.asked pages.new) }
    ensures fails { FailsChanging P.Pages pages.old pages.new result }
    ensures frame { Changes P.Pages pages.old pages.new }
{
    let mut below_copy = LeafCopy::none();
    let mut above_copy = LeafCopy::none();
    let mut below = next_in(&mut below_copy, pages, tree, child, 0)?;
    let mut above = next_in(&mut above_copy, pages, tree, node, 0)?;
    while let Some(number) = next_word(&below, &above) {
        refresh_word(
            pages,
            tree,
            node,
            slot,
            child,
            number,
            &mut below,
            &mut above,
            &mut below_copy,
            &mut above_copy,
        )?;
    }
    Ok(())
}

// Adds a row with one byte set to some rows of a node. A row whose byte has that value already isn't added.
fn renew_row(
    slot: usize,
    number: u64,
    row: &[u8; 32],
    byte: u8,
    rows: &mut Vec<NodeRow>,
) -> Result<(), PageFault>
    requires { slot < 32 }
    ensures renewed { (node : ℕ) (bytes b : Bytes) → ((n w i : ℕ) → with_rows node rows.old.items bytes n w i ≡ b n w i) → HasBytes row.now (bytes node number)
        → ((i : ℕ) → (i ≡ slot → ⊥) → b node number i ≡ bytes node number i) → (bytes node number slot ≡ byte → b node number slot ≡ byte)
        → OnOk result ((n w i : ℕ) → with_rows node rows.new.items bytes n w i ≡ with_byte node number slot byte b n w i) }
    ensures memory { IfErr result (λ fault. fault ≡ PageFault.Memory) }
{
    if row[slot] == byte {
        return Ok(());
    }
    let mut changed = *row;
    put_byte(&mut changed, slot, byte);
    push_row(rows, number, changed)
}

// Adds the node's row for one word, if the slot's byte changes. The child's row and the node's are read out of copies of leaves.
fn renew_next<P: Pages>(
    pages: &mut P,
    tree: &Tree,
    node: u32,
    slot: usize,
    child: u32,
    number: u64,
    below: &mut LeafCopy,
    above: &mut LeafCopy,
    rows: &mut Vec<NodeRow>,
) -> Result<(), PageFault>
    requires { slot < 32 }
    ensures renewing { (before : View) (root impact : ℕ) (b : Bytes) (words : List (ℕ × ℕ)) → (node ≡ child → ⊥)
        → IsRenewing before root (P.pages pages.old) (P.count pages.old) (P.first pages.old) tree.now.rows node slot child b words rows.old.items below.old above.old
        → OnOk result (IsRenewing before root (P.pages pages.new) (P.count pages.new) (P.first pages.new) tree.now.rows node slot child b (words ++ (number, impact) ∷ []) rows.new.items below.new above.new) }
    ensures no_false_damage { IsMap rows_form (P.pages pages.old) tree.now.rows → AreCounted (map_uses rows_form (P.pages pages.old) tree.now.rows) (P.count pages.old)
        → AreReadable (P.pages pages.old) (P.count pages.old) → (damage : Damage) → ¬ IsErrOf result (PageFault.Damaged damage) }
    ensures damaged { AreReadable (P.pages pages.old) (P.count pages.old) → (damage : Damage) → IsErrOf result (PageFault.Damaged damage)
        → IsRowsHarm (P.pages pages.new) (P.count pages.new) (P.first pages.new) tree.now.rows (P.asked pages.old) (P.asked pages.new) damage }
    ensures own { AreReadable (P.pages pages.old) (P.count pages.old)
        → AsksOnly (map_uses rows_form (P.pages pages.old) tree.now.rows) (P.asked pages.old) (P.asked pages.new) }
    ensures fails { FailsReading P.Pages pages.old pages.new result }
    ensures frame { Reads P.Pages pages.old pages.new }
{
    let low_ahead = next_in(below, pages, tree, child, number)?;
    let high_ahead = next_in(above, pages, tree, node, number)?;
    let low = row_ahead(&low_ahead, number);
    let high = row_ahead(&high_ahead, number);
    let byte = greatest(&low);
    renew_row(slot, number, &high, byte, rows)
}

// Refreshes the slot at one word. Rows are set several at once; then the copy of the node's leaf is no longer used.
fn renew_one<P: Pages>(
    pages: &mut P,
    tree: &mut Tree,
    node: u32,
    slot: usize,
    child: u32,
    number: u64,
    below: &mut LeafCopy,
    above: &mut LeafCopy,
    rows: &mut Vec<NodeRow>,
) -> Result<(), PageFault>
    requires { slot < 32 }
    ensures renewing { (before : View) (root impact : ℕ) (b : Bytes) (words : List (ℕ × ℕ)) → (node ≡ child → ⊥)
        → IsRenewing before root (P.pages pages.old) (P.count pages.old) (P.first pages.old) tree.old.rows node slot child b words rows.old.items below.old above.old
        → OnOk result (IsRenewing before root (P.pages pages.new) (P.count pages.new) (P.first pages.new) tree.new.rows node slot child b (words ++ (number, impact) ∷ []) rows.new.items below.new above.new) }
    ensures root { tree.new.root ≡ tree.old.root }
    ensures told { AreReadable (P.pages pages.old) (P.count pages.old) → OnOk result (AreReadable (P.pages pages.new) (P.count pages.new)) }
    ensures no_false_damage { (free : List ℕ) → IsRows (view (P.pages pages.old) (P.count pages.old) (P.first pages.old) free) tree.old.rows → AreReadable (P.pages pages.old) (P.count pages.old)
        → (damage : Damage) → ¬ IsErrOf result (PageFault.Damaged damage) }
    ensures damaged { AreReadable (P.pages pages.old) (P.count pages.old) → (damage : Damage) → IsErrOf result (PageFault.Damaged damage)
        → IsRowsHarm (P.pages pages.new) (P.count pages.new) (P.first pages.new) tree.new.rows (P.asked pages.old) (P.asked pages.new) damage }
    ensures more { AreReadable (P.pages pages.old) (P.count pages.old) → AsksOnly (λ _. 1) (P.asked pages.old) (P.asked pages.new) }
    ensures fails { FailsChanging P.Pages pages.old pages.new result }
    ensures frame { Changes P.Pages pages.old pages.new }
{
    renew_next(pages, tree, node, slot, child, number, below, above, rows)?;
    if rows.len() < ROWS_AT_ONCE {
        return Ok(());
    }
    set_rows(pages, tree, node, rows)?;
    rows.clear();
    *above = LeafCopy::none();
    Ok(())
}

/// Makes the bytes of these words at a slot of a node the greatest of their bytes in the slot's child. All other bytes stay.
///
/// It is [`refresh`] for a child of which no other word has changed, and goes through no other row. Only the numbers of `words` matter.
///
/// Returns `Damaged`, `Disk`, `NoRoom`, `Stopped`, or `Memory` as [`row`](crate::row()) and [`set_row`](crate::set_row) do. On a
/// well-formed map whose pages' bytes are readable no page is damaged. After a failure `tree` and the pages are as the call left them:
/// the caller must abandon them.
///
/// Let the words' rows be stored in L leaves of the rows' map at the child and in M at the node. For words in the order of their numbers,
/// it goes down for the rows of either as [`words_of`](crate::words_of) does. The node's rows whose byte differs are set up to 64 at
/// once, leaf by leaf, with one way down and one write for each leaf. Each row by which a leaf gets too many or too few costs a call of
/// `set_row`. After each 64 rows the node's leaf is read anew.
pub fn renew<P: Pages>(
    alloc: Global,
    pages: &mut P,
    tree: &mut Tree,
    node: u32,
    slot: usize,
    child: u32,
    words: &[(u64, u8)],
) -> Result<(), PageFault>
    requires { slot < 32 }
    ensures turns { (free : List ℕ) → IsRows (view (P.pages pages.old) (P.count pages.old) (P.first pages.old) free) tree.old.rows → (node ≡ child → ⊥)
        → OnOk result (Turns (view (P.pages pages.old) (P.count pages.old) (P.first pages.old) free) tree.old.rows (P.pages pages.new) (P.count pages.new) (P.first pages.new) tree.new.rows
        (on_words words.now (refreshed node slot child (bytes_in (P.pages pages.old) tree.old.rows)) (bytes_in (P.pages pages.old) tree.old.rows))) }
    ensures root { tree.new.root ≡ tree.old.root }
    ensures told { AreReadable (P.pages pages.old) (P.count pages.old) → OnOk result (AreReadable (P.pages pages.new) (P.count pages.new)) }

    // On a well-formed map and a free list that ends at 0 no page is damaged.
    ensures no_false_damage { (free : List ℕ) → IsRows (view (P.pages pages.old) (P.count pages.old) (P.first pages.old) free) tree.old.rows → (node ≡ child → ⊥)
        → AreReadable (P.pages pages.old) (P.count pages.old) → (damage : Damage) → ¬ IsErrOf result (PageFault.Damaged damage) }
    ensures damaged { AreReadable (P.pages pages.old) (P.count pages.old) → (damage : Damage) → IsErrOf result (PageFault.Damaged damage)
        → IsRowsHarm (P.pages pages.new) (P.count pages.new) (P.first pages.new) tree.new.rows (P.asked pages.old) (P.asked pages.new) damage }
    ensures more { AreReadable (P.pages pages.old) (P.count pages.old) → AsksOnly (λ _. 1) (P.asked pages.old) (P.asked pages.new) }
    ensures fails { FailsChanging P.Pages pages.old pages.new result }
    ensures frame { Changes P.Pages pages.old pages.new }
{
    let mut rows = Vec::new(alloc);
    let mut below = LeafCopy::none();
    let mut above = LeafCopy::none();
    for pair in words {
        renew_one(
            pages, tree, node, slot, child, pair.0, &mut below, &mut above, &mut rows,
        )?;
    }
    set_rows(pages, tree, node, &rows)?;
    Ok(())
}
