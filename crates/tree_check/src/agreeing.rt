//! The rows of each node of a tree.
ghost use Rattle.std.specs.Prelude.{◌≡◌, ◌<◌, ◌^◌, ℕ, true, OnOk, IsErrOf};
ghost use Rattle.std.specs.List.{AllByRecursion};
ghost use Rattle.page_face.specs.Calls.{Reads, FailsReading};
ghost use Rattle.rtree_nodes.specs.Pages.{is_form, level_in, slots_in};
ghost use Rattle.node_rows.specs.Rows.{bytes_in};
ghost use Rattle.store_tables.specs.Entries.{Entries};
ghost use Rattle.tree_check.specs.Agreement.{AreRight, AreSound, IsFirstWrong, IsNodePage, IsRight, IsWrong, IsWrongSlot};
ghost use Rattle.tree_check.specs.Columns.{DoAscend, SayBytes};

use crate::reading::{rows_of, words_at};
use crate::words::are_right;
use btree_nodes::damaged;
use node_rows::Tree;
use page_face::{Damage, Page, PageFault, Pages, Rule};
use rtree_nodes::{SLOTS, slot_at};
use std::alloc::Global;
use store_tables::Tables;

// Checks the words of a slot of the node at a page, whose bytes and rows these are. The words are listed in `words`.
fn check_slot<P: Pages>(
    alloc: Global,
    pages: &mut P,
    tree: &Tree,
    tables: &Tables,
    page: u32,
    bytes: &Page,
    rows: &[(u64, [u8; 32])],
    at: usize,
    words: &mut Vec<(u64, u8)>,
) -> Result<(), PageFault>
    requires within { at < 32 }
    requires ordered { DoAscend 0 (2 ^ 64) rows.now }
    ensures right { (entries : Entries) → AreSound (P.pages pages.old) (P.count pages.old) tree.now.rows tables.now entries → is_form bytes.now ≡ true
        → SayBytes (bytes_in (P.pages pages.old) tree.now.rows) page rows.now
        → OnOk result (IsRight (bytes_in (P.pages pages.old) tree.now.rows) entries.places (level_in bytes.now)
        (λ w. bytes_in (P.pages pages.old) tree.now.rows page w at) (slots_in bytes.now at)) }
    ensures damaged { (entries : Entries) → AreSound (P.pages pages.old) (P.count pages.old) tree.now.rows tables.now entries → is_form bytes.now ≡ true
        → SayBytes (bytes_in (P.pages pages.old) tree.now.rows) page rows.now
        → (damage : Damage) → IsErrOf result (PageFault.Damaged damage)
        → IsWrongSlot (P.pages pages.old) tree.now.rows entries.places page bytes.now at damage }
    ensures fails { FailsReading P.Pages pages.old pages.new result }
    ensures frame { Reads P.Pages pages.old pages.new }
{
    let slot = match slot_at(bytes, at) {
        Ok(slot) => slot,
        Err(rule) => return Err(damaged(page, rule)),
    };
    match words_at(rows, at, words) {
        Ok(()) => {}
        Err(fault) => return Err(fault),
    }
    match are_right(alloc, pages, tree, tables, &slot, words) {
        Ok(true) => Ok(()),
        Ok(false) => Err(damaged(page, Rule::Row)),
        Err(fault) => Err(fault),
    }
}

// Checks the rows of the node at a page. They are listed in `rows`, and the words of each slot in turn in `words`.
fn check_node<P: Pages>(
    alloc: Global,
    pages: &mut P,
    tree: &Tree,
    tables: &Tables,
    page: u32,
    rows: &mut Vec<(u64, [u8; 32])>,
    words: &mut Vec<(u64, u8)>,
) -> Result<(), PageFault>
    ensures right { (entries : Entries) → AreSound (P.pages pages.old) (P.count pages.old) tree.now.rows tables.now entries
        → IsNodePage (P.pages pages.old) (P.count pages.old) page → OnOk result (AreRight (P.pages pages.old) tree.now.rows entries.places page) }
    ensures damaged { (entries : Entries) → AreSound (P.pages pages.old) (P.count pages.old) tree.now.rows tables.now entries
        → IsNodePage (P.pages pages.old) (P.count pages.old) page
        → (damage : Damage) → IsErrOf result (PageFault.Damaged damage) → IsWrong (P.pages pages.old) tree.now.rows entries.places page damage }
    ensures fails { FailsReading P.Pages pages.old pages.new result }
    ensures frame { Reads P.Pages pages.old pages.new }
{
    match pages.look(page) {
        Ok(()) => {}
        Err(fault) => return Err(fault),
    }
    let bytes = *pages.looked();
    match rows_of(pages, tree, page, rows) {
        Ok(()) => {}
        Err(fault) => return Err(fault),
    }
    for at in 0..SLOTS {
        match check_slot(alloc, pages, tree, tables, page, &bytes, rows, at, words) {
            Ok(()) => {}
            Err(fault) => return Err(fault),
        }
    }
    Ok(())
}

/// Compares the rows of each node of a list with what is directly below its slots. In a leaf that is the place of each key, and in an
/// inner node the rows of each child. A slot that isn't used has no byte.
///
/// The list is that of a well-formed tree's pages, each after those below it. The rows' map is well formed, and the tables hold entries.
///
/// Returns `Damaged` for the first slot that isn't right, of the first node that has one. If the slot's item in a leaf isn't the place of
/// its key, the damage is `Entry` at page 0. Otherwise the slot's bytes differ, and the damage is `Row` at the node.
///
/// Returns `Disk`, `Stopped`, or `Memory` if it runs out of memory.
///
/// Looks at each node once, and goes through its rows once, and once more for those of each child. Takes memory for the rows of the
/// node that has most, and for the words of two slots. Writes no page.
pub fn check_words<P: Pages>(
    alloc: Global,
    pages: &mut P,
    tree: &Tree,
    tables: &Tables,
    list: &[u32],
) -> Result<(), PageFault>
    ensures right { (entries : Entries) → AreSound (P.pages pages.old) (P.count pages.old) tree.now.rows tables.now entries
        → AllByRecursion (IsNodePage (P.pages pages.old) (P.count pages.old)) list.now
        → OnOk result (AllByRecursion (AreRight (P.pages pages.old) tree.now.rows entries.places) list.now) }
    ensures damaged { (entries : Entries) → AreSound (P.pages pages.old) (P.count pages.old) tree.now.rows tables.now entries
        → AllByRecursion (IsNodePage (P.pages pages.old) (P.count pages.old)) list.now
        → (damage : Damage) → IsErrOf result (PageFault.Damaged damage) → IsFirstWrong (P.pages pages.old) tree.now.rows entries.places list.now damage }
    ensures fails { FailsReading P.Pages pages.old pages.new result }
    ensures frame { Reads P.Pages pages.old pages.new }
{
    let mut rows = Vec::new(alloc);
    let mut words = Vec::new(alloc);
    for page in list {
        match check_node(alloc, pages, tree, tables, *page, &mut rows, &mut words) {
            Ok(()) => {}
            Err(fault) => return Err(fault),
        }
    }
    Ok(())
}
