//! Rows of a node that are changed leaf by leaf.
ghost use Rattle.std.specs.Prelude.{◌≡◌, ◌≢◌, ◌≤◌, ℕ, List, false, IfOk, IsErrOf, IsTrue, OnOk};
ghost use Rattle.page_face.specs.Calls.{Changes, FailsChanging, FailsReading, Reads};
ghost use Rattle.page_face.specs.FreeList.{PageMap};
ghost use Rattle.btree_nodes.specs.Damages.{AreReadable, AskedSince, AsksOnly};
ghost use Rattle.btree_nodes.specs.Supply.{view};
ghost use Rattle.btree_nodes.specs.Tree.{IsMap, map_uses};
ghost use Rattle.paged_map.specs.Drafts.{IsLeafDraft};
ghost use Rattle.paged_map.specs.Maps.{AreCounted, IsMapDamaged};
ghost use Rattle.rtree_nodes.specs.Stock.{rows_form};
ghost use Rattle.node_rows.specs.Damages.{IsRowsHarm};
ghost use Rattle.node_rows.specs.Rows.{Bytes, HasBytes, IsRows, bytes_in};
ghost use Rattle.node_rows.specs.Turns.{Turns, with_row};
ghost use Rattle.node_inverted.specs.Drafts.{EditsUntil, IsDrafting, IsRowOf, Reaches, edited, edited_by, edits_in, with_rows};

use crate::edits::{RowEdit, RowEdits};
use crate::raising::set_byte;
use crate::row_draft::RowDraft;
use crate::taking::NodeRow;
use node_rows::{
    RowKey, Tree, WordRows, clear_row, find_row, greater, is_clear, put_byte, set_row,
};
use page_face::{Damage, PageFault, Pages};
use paged_map::PagedMap;

impl RowDraft {
    /// Copies the leaf that the row of a node for a word belongs to, and returns whether there is one: the empty map has none.
    ///
    /// Looks at one page a level of the rows' map. Returns `Damaged`, `Disk`, `Stopped`, or `Memory` as [`row`](crate::row()).
    pub fn open<P: Pages>(
        &mut self,
        pages: &mut P,
        tree: &Tree,
        node: u32,
        number: u64,
    ) -> Result<bool, PageFault>
        ensures drafting { (free : List ℕ) → IsRows (view (P.pages pages.old) (P.count pages.old) (P.first pages.old) free) tree.now.rows
            → IfOk result (λ some. IsTrue some → IsDrafting (P.pages pages.old) tree.now.rows (bytes_in (P.pages pages.old) tree.now.rows) self.new) }
        ensures sound { IfOk result (λ some. IsTrue some → IsLeafDraft (P.count pages.new) self.new.leaf) }
        ensures holds { IfOk result (λ some. IsTrue some → IsRowOf self.new node number) }
        ensures no_false_damage { IsMap rows_form (P.pages pages.old) tree.now.rows → AreCounted (map_uses rows_form (P.pages pages.old) tree.now.rows) (P.count pages.old)
            → AreReadable (P.pages pages.old) (P.count pages.old) → (damage : Damage) → result ≢ Err (PageFault.Damaged damage) }
        ensures damaged { AreReadable (P.pages pages.old) (P.count pages.old) → (damage : Damage) → IsErrOf result (PageFault.Damaged damage)
            → IsMapDamaged rows_form (P.pages pages.old) (P.count pages.old) tree.now.rows damage × AskedSince (P.asked pages.old) (P.asked pages.new) damage.page }
        ensures own { AreReadable (P.pages pages.old) (P.count pages.old)
            → AsksOnly (map_uses rows_form (P.pages pages.old) tree.now.rows) (P.asked pages.old) (P.asked pages.new) }
        ensures fails { FailsReading P.Pages pages.old pages.new result }
        ensures frame { Reads P.Pages pages.old pages.new }
    {
        let key = RowKey { node, number }.bytes();
        PagedMap::<WordRows>::at(tree.rows).draft(pages, &key, &mut self.leaf)
    }

    /// Whether the row of a node for a word belongs to the leaf.
    pub fn holds(&self, node: u32, number: u64) -> bool
        ensures { IsTrue result → IsRowOf self.now node number }
    {
        self.leaf.holds(&RowKey { node, number }.bytes())
    }

    /// The bytes of a row that belongs to the leaf.
    pub fn row(&self, node: u32, number: u64) -> [u8; 32]
        ensures { (count : ℕ) (pages : PageMap) (root : ℕ) (b : Bytes) → IsLeafDraft count self.now.leaf → IsRowOf self.now node number → IsDrafting pages root b self.now → HasBytes result (b node number) }
    {
        let mut row = clear_row();
        if self.leaf.get(&RowKey { node, number }.bytes(), &mut row) {
            row
        } else {
            clear_row()
        }
    }

    /// Sets a row that belongs to the leaf. Returns `false`, and changes nothing, if the leaf would then have too many rows, or too few.
    pub fn set(&mut self, node: u32, number: u64, row: &[u8; 32]) -> bool
        ensures sound { (count : ℕ) → IsLeafDraft count self.old.leaf → IsRowOf self.old node number → IsLeafDraft count self.new.leaf }
        ensures set { (count : ℕ) (pages : PageMap) (root : ℕ) (b : Bytes) → IsLeafDraft count self.old.leaf → IsRowOf self.old node number → IsDrafting pages root b self.old
            → IsTrue result → IsDrafting pages root (with_row node number row.now b) self.new }
        ensures refused { result ≡ false → self.new ≡ self.old }
    {
        let key = RowKey { node, number }.bytes();
        if is_clear(row) {
            self.leaf.remove(&key)
        } else {
            self.leaf.put(&key, row)
        }
    }

    /// Writes the leaf. Returns `Stopped`, or `Memory` if it runs out of memory.
    pub fn write<P: Pages>(&self, pages: &mut P, tree: &Tree) -> Result<(), PageFault>
        requires { IsLeafDraft (P.count pages.old) self.now.leaf }
        ensures turns { (free : List ℕ) (b : Bytes) → IsRows (view (P.pages pages.old) (P.count pages.old) (P.first pages.old) free) tree.now.rows
            → IsDrafting (P.pages pages.old) tree.now.rows b self.now
            → OnOk result (Turns (view (P.pages pages.old) (P.count pages.old) (P.first pages.old) free) tree.now.rows (P.pages pages.new) (P.count pages.new) (P.first pages.new) tree.now.rows b) }
        ensures told { AreReadable (P.pages pages.old) (P.count pages.old) → OnOk result (AreReadable (P.pages pages.new) (P.count pages.new)) }
        ensures no_false_damage { (damage : Damage) → result ≢ Err (PageFault.Damaged damage) }
        ensures asked { P.asked pages.new ≡ P.asked pages.old }
        ensures fails { FailsReading P.Pages pages.old pages.new result }
        ensures frame { Changes P.Pages pages.old pages.new }
    {
        self.leaf.write(pages)
    }
}

// Changes a row in a draft. Returns `false` if the row belongs to another leaf, or if the leaf would then have too many rows, or too few;
// then nothing has changed.
fn edit_in(draft: &mut RowDraft, node: u32, number: u64, edit: &RowEdit<'_>) -> bool
    ensures sound { (count : ℕ) → IsLeafDraft count draft.old.leaf → IsLeafDraft count draft.new.leaf }
    ensures edited { (count : ℕ) (pages : PageMap) (root : ℕ) (b : Bytes) → IsLeafDraft count draft.old.leaf → IsDrafting pages root b draft.old
        → IsTrue result → IsDrafting pages root (edited node number edit.now b) draft.new }
    ensures refused { result ≡ false → draft.new ≡ draft.old }
{
    if !draft.holds(node, number) {
        return false;
    }
    match edit {
        RowEdit::Set(row) => draft.set(node, number, row),
        RowEdit::Raise(slot, impact) => {
            let mut row = draft.row(node, number);
            let byte = greater(row[slot.at], *impact);
            if row[slot.at] == byte {
                return true;
            }
            put_byte(&mut row, slot.at, byte);
            draft.set(node, number, &row)
        }
    }
}

// Changes rows in a draft, one after another, as far as they belong to its leaf and go into it. Returns the changes that are left.
fn edit_in_draft<'a>(draft: &mut RowDraft, node: u32, edits: &RowEdits<'a>) -> RowEdits<'a>
    ensures sound { (count : ℕ) → IsLeafDraft count draft.old.leaf → IsLeafDraft count draft.new.leaf }
    ensures edited { (count : ℕ) (pages : PageMap) (root : ℕ) (b : Bytes) → IsLeafDraft count draft.old.leaf → IsDrafting pages root b draft.old
        → EditsUntil pages root node edits.now b result draft.new }
    ensures fewer { edits_in result ≤ edits_in edits.now }
{
    let mut left = *edits;
    while let Some((number, edit, rest)) = left.split_first() {
        if !edit_in(draft, node, number, &edit) {
            return left;
        }
        left = rest;
    }
    left
}

// Changes one row, which is looked up.
fn edit_one<P: Pages>(
    pages: &mut P,
    tree: &mut Tree,
    node: u32,
    number: u64,
    edit: &RowEdit<'_>,
) -> Result<(), PageFault>
    ensures turns { (free : List ℕ) → IsRows (view (P.pages pages.old) (P.count pages.old) (P.first pages.old) free) tree.old.rows
        → OnOk result (Turns (view (P.pages pages.old) (P.count pages.old) (P.first pages.old) free) tree.old.rows (P.pages pages.new) (P.count pages.new) (P.first pages.new) tree.new.rows
        (edited node number edit.now (bytes_in (P.pages pages.old) tree.old.rows))) }
    ensures root { tree.new.root ≡ tree.old.root }
    ensures told { AreReadable (P.pages pages.old) (P.count pages.old) → OnOk result (AreReadable (P.pages pages.new) (P.count pages.new)) }
    ensures no_false_damage { (free : List ℕ) → IsRows (view (P.pages pages.old) (P.count pages.old) (P.first pages.old) free) tree.old.rows → AreReadable (P.pages pages.old) (P.count pages.old)
        → (damage : Damage) → ¬ IsErrOf result (PageFault.Damaged damage) }
    ensures damaged { AreReadable (P.pages pages.old) (P.count pages.old) → (damage : Damage) → IsErrOf result (PageFault.Damaged damage)
        → IsRowsHarm (P.pages pages.new) (P.count pages.new) (P.first pages.new) tree.new.rows (P.asked pages.old) (P.asked pages.new) damage }
    ensures more { AreReadable (P.pages pages.old) (P.count pages.old) → AsksOnly (λ _. 1) (P.asked pages.old) (P.asked pages.new) }
    ensures fails { FailsChanging P.Pages pages.old pages.new result }
    ensures frame { Changes P.Pages pages.old pages.new }
{
    match edit {
        RowEdit::Set(row) => set_row(pages, tree, node, number, row),
        RowEdit::Raise(slot, impact) => {
            let mut there = clear_row();
            let spot = find_row(pages, tree, node, number, &mut there)?;
            let byte = greater(there[slot.at], *impact);
            set_byte(pages, tree, node, slot.at, number, spot, &there, byte)
        }
    }
}

// Changes one row, and those after it that belong to the same leaf. Returns the changes that are left.
fn edit_leaf<'a, P: Pages>(
    pages: &mut P,
    tree: &mut Tree,
    node: u32,
    number: u64,
    first: &RowEdit<'a>,
    behind: &RowEdits<'a>,
    draft: &mut RowDraft,
) -> Result<RowEdits<'a>, PageFault>
    ensures turns { (free : List ℕ) → IsRows (view (P.pages pages.old) (P.count pages.old) (P.first pages.old) free) tree.old.rows
        → IfOk result (λ left. Reaches (view (P.pages pages.old) (P.count pages.old) (P.first pages.old) free) tree.old.rows (P.pages pages.new) (P.count pages.new) (P.first pages.new) tree.new.rows
        (edited_by node left) (edited_by node behind.now (edited node number first.now (bytes_in (P.pages pages.old) tree.old.rows)))) }
    ensures fewer { IfOk result (λ left. edits_in left ≤ edits_in behind.now) }
    ensures root { tree.new.root ≡ tree.old.root }
    ensures told { AreReadable (P.pages pages.old) (P.count pages.old) → OnOk result (AreReadable (P.pages pages.new) (P.count pages.new)) }
    ensures no_false_damage { (free : List ℕ) → IsRows (view (P.pages pages.old) (P.count pages.old) (P.first pages.old) free) tree.old.rows → AreReadable (P.pages pages.old) (P.count pages.old)
        → (damage : Damage) → ¬ IsErrOf result (PageFault.Damaged damage) }
    ensures damaged { AreReadable (P.pages pages.old) (P.count pages.old) → (damage : Damage) → IsErrOf result (PageFault.Damaged damage)
        → IsRowsHarm (P.pages pages.new) (P.count pages.new) (P.first pages.new) tree.new.rows (P.asked pages.old) (P.asked pages.new) damage }
    ensures more { AreReadable (P.pages pages.old) (P.count pages.old) → AsksOnly (λ _. 1) (P.asked pages.old) (P.asked pages.new) }
    ensures fails { FailsChanging P.Pages pages.old pages.new result }
    ensures frame { Changes P.Pages pages.old pages.new }
{
    let there = draft.open(pages, tree, node, number)?;
    if there && edit_in(draft, node, number, first) {
        let left = edit_in_draft(draft, node, behind);
        draft.write(pages, tree)?;
        return Ok(left);
    }
    edit_one(pages, tree, node, number, first)?;
    Ok(*behind)
}

/// Changes rows of a node, one after another. Fails and costs as [`set_rows`].
pub(crate) fn edit_rows<P: Pages>(
    pages: &mut P,
    tree: &mut Tree,
    node: u32,
    edits: &RowEdits<'_>,
) -> Result<(), PageFault>
    ensures turns { (free : List ℕ) → IsRows (view (P.pages pages.old) (P.count pages.old) (P.first pages.old) free) tree.old.rows
        → OnOk result (Turns (view (P.pages pages.old) (P.count pages.old) (P.first pages.old) free) tree.old.rows (P.pages pages.new) (P.count pages.new) (P.first pages.new) tree.new.rows
        (edited_by node edits.now (bytes_in (P.pages pages.old) tree.old.rows))) }
    ensures root { tree.new.root ≡ tree.old.root }
    ensures told { AreReadable (P.pages pages.old) (P.count pages.old) → OnOk result (AreReadable (P.pages pages.new) (P.count pages.new)) }
    ensures no_false_damage { (free : List ℕ) → IsRows (view (P.pages pages.old) (P.count pages.old) (P.first pages.old) free) tree.old.rows → AreReadable (P.pages pages.old) (P.count pages.old)
        → (damage : Damage) → ¬ IsErrOf result (PageFault.Damaged damage) }
    ensures damaged { AreReadable (P.pages pages.old) (P.count pages.old) → (damage : Damage) → IsErrOf result (PageFault.Damaged damage)
        → IsRowsHarm (P.pages pages.new) (P.count pages.new) (P.first pages.new) tree.new.rows (P.asked pages.old) (P.asked pages.new) damage }
    ensures more { AreReadable (P.pages pages.old) (P.count pages.old) → AsksOnly (λ _. 1) (P.asked pages.old) (P.asked pages.new) }
    ensures fails { FailsChanging P.Pages pages.old pages.new result }
    ensures frame { Changes P.Pages pages.old pages.new }
{
    let mut draft = RowDraft::blank();
    let mut left = *edits;
    while let Some((number, first, behind)) = left.split_first() {
        left = edit_leaf(pages, tree, node, number, &first, &behind, &mut draft)?;
    }
    Ok(())
}

/// Sets these rows of a node, one after another.
///
/// Returns `Damaged`, `Disk`, `NoRoom`, `Stopped`, or `Memory` as [`set_row`]. On a well-formed map whose pages' bytes are readable no page
/// is damaged. After a failure `tree` and the pages are as the call left them: the caller must abandon them.
///
/// For rows in the order of their words that are stored in L leaves of the rows' map, costs L ways down and L writes of a page. Each way
/// down looks at one page a level. Each row by which a leaf gets too many or too few costs a call of [`set_row`].
pub(crate) fn set_rows<P: Pages>(
    pages: &mut P,
    tree: &mut Tree,
    node: u32,
    rows: &[NodeRow],
) -> Result<(), PageFault>
    ensures turns { (free : List ℕ) → IsRows (view (P.pages pages.old) (P.count pages.old) (P.first pages.old) free) tree.old.rows
        → OnOk result (Turns (view (P.pages pages.old) (P.count pages.old) (P.first pages.old) free) tree.old.rows (P.pages pages.new) (P.count pages.new) (P.first pages.new) tree.new.rows
        (with_rows node rows.now (bytes_in (P.pages pages.old) tree.old.rows))) }
    ensures root { tree.new.root ≡ tree.old.root }
    ensures told { AreReadable (P.pages pages.old) (P.count pages.old) → OnOk result (AreReadable (P.pages pages.new) (P.count pages.new)) }

    // On a well-formed map and a free list that ends at 0 no page is damaged.
    ensures no_false_damage { (free : List ℕ) → IsRows (view (P.pages pages.old) (P.count pages.old) (P.first pages.old) free) tree.old.rows → AreReadable (P.pages pages.old) (P.count pages.old)
        → (damage : Damage) → ¬ IsErrOf result (PageFault.Damaged damage) }
    ensures damaged { AreReadable (P.pages pages.old) (P.count pages.old) → (damage : Damage) → IsErrOf result (PageFault.Damaged damage)
        → IsRowsHarm (P.pages pages.new) (P.count pages.new) (P.first pages.new) tree.new.rows (P.asked pages.old) (P.asked pages.new) damage }
    ensures more { AreReadable (P.pages pages.old) (P.count pages.old) → AsksOnly (λ _. 1) (P.asked pages.old) (P.asked pages.new) }
    ensures fails { FailsChanging P.Pages pages.old pages.new result }
    ensures frame { Changes P.Pages pages.old pages.new }
{
    edit_rows(pages, tree, node, &RowEdits::Sets(rows))
}
