//! What is left of a node from which something was taken out.
ghost use Rattle.std.specs.Prelude.{◌≡◌, ◌≢◌, ◌<◌, ◌≤◌, ◌+◌, ℕ, List, ◌∷◌, ◌++◌, [], Option, None, true, false, option_map, length, IfOk, OnOk, IfErr, IfSome, IsSome, IsErrOf};
ghost use Rattle.page_face.specs.Calls.{FailsWriting, FailsChanging, Writes, Changes};
ghost use Rattle.page_face.specs.Causes.{IsUncounted};
ghost use Rattle.page_face.specs.FreeList.{with_page};
ghost use Rattle.page_face.specs.declared.fault.Damage.{Damage};
ghost use Rattle.btree_nodes.specs.Damages.{AreReadable, AsksOnly};
ghost use Rattle.rtree_nodes.specs.Slots.{Item, NodeMap, Held, Each, got, amount, filled};
ghost use Rattle.rtree_nodes.specs.Trees.{IsItem};
ghost use Rattle.rtree_nodes.specs.Stock.{view, plain, spare_in};
ghost use Rattle.rtree_nodes.specs.Loose.{total_loose, AllLoose};
ghost use Rattle.rtree_nodes.specs.Reach.{item_of};
ghost use Rattle.rtree_nodes.specs.Pages.{level_in, stored_in, is_form, slots_in, node_of};
ghost use Rattle.node_rows.specs.Damages.{IsRowsHarm};
ghost use Rattle.node_rows.specs.Rows.{IsRows, bytes_in};
ghost use Rattle.node_rows.specs.Impacts.{impact_in};
ghost use Rattle.node_inverted.specs.Lifts.{lifted_at};
ghost use Rattle.irtree_shape.specs.Words.{joined, words_on};
ghost use Rattle.irtree_shape.specs.Stock.{IsSupplied};
ghost use Rattle.irtree_shape.specs.Made.{nodes_in};
ghost use Rattle.irtree_shape.specs.Loose.{IsLoosening, Settles};
ghost use Rattle.irtree_shape.specs.Steps.{bounding_child_in};
ghost use Rattle.split_condense.specs.Orphans.{loose_in, AreLow, IsChildOf, IsUnread};
ghost use Rattle.split_condense.specs.Clears.{IsDissolved, KeepsWords};

use crate::Orphan;
use btree_nodes::damaged;
use node_inverted::{NodeRow, Tree, take_rows};
use node_rows::push_word;
use page_face::{Page, PageFault, Pages};
use rtree_nodes::{SLOTS, Slot, bounds, count, slot_at};
use std::alloc::Global;

// The words at one slot of a node, among the node's rows in memory.
fn words_at(alloc: Global, rows: &[NodeRow], at: usize) -> Result<Vec<(u64, u8)>, PageFault>
    requires at { at < 32 }
    ensures words { IfOk result (λ words. (w : ℕ) → impact_in words.items w ≡ lifted_at rows.now w at) }
    ensures memory { IfErr result (λ fault. fault ≡ PageFault.Memory) }
{
    let mut words = Vec::new(alloc);
    for row in rows {
        match push_word(&mut words, row.number, row.bytes[at]) {
            Ok(()) => {}
            Err(fault) => return Err(fault),
        }
    }
    Ok(words)
}

// Adds an orphan.
fn push_orphan(orphans: &mut Vec<Orphan>, orphan: Orphan) -> Result<(), PageFault>
    ensures pushed { OnOk result (orphans.new.items ≡ orphans.old.items ++ orphan ∷ []) }
    ensures memory { IfErr result (λ fault. fault ≡ PageFault.Memory) }
{
    match orphans.push(orphan) {
        Ok(()) => Ok(()),
        Err(_) => Err(PageFault::Memory),
    }
}

// Makes the item in a slot an orphan, with its words among the node's rows in memory, if the slot is used.
fn let_go(
    alloc: Global,
    page: u32,
    bytes: &Page,
    level: u8,
    rows: &[NodeRow],
    at: usize,
    orphans: &mut Vec<Orphan>,
) -> Result<(), PageFault>
    requires at { at < 32 }
    requires level { level ≡ level_in bytes.now }
    ensures sums { (F : ℕ → Item → ℕ) (b : ℕ → ℕ → ℕ) → ((w i : ℕ) → lifted_at rows.now w i ≡ b w i)
        → OnOk result (total_loose F (loose_in orphans.new.items) ≡ total_loose F (loose_in orphans.old.items) + got (F level) (words_on b (stored_in bytes.now) at)) }
    ensures items { (nodes : NodeMap) (b : ℕ → ℕ → ℕ) → ((w i : ℕ) → lifted_at rows.now w i ≡ b w i)
        → Held (λ y. IsItem nodes level y) (words_on b (stored_in bytes.now) at) → AllLoose (λ l y. IsItem nodes l y) (loose_in orphans.old.items)
        → OnOk result (AllLoose (λ l y. IsItem nodes l y) (loose_in orphans.new.items)) }
    ensures low { (top : ℕ) → level ≤ top → AreLow top (loose_in orphans.old.items) → OnOk result (AreLow top (loose_in orphans.new.items)) }
    ensures refuses { IfErr result (IsUnread page bytes.now) }
{
    let slot = match slot_at(bytes, at) {
        Ok(Some(slot)) => slot,
        Ok(None) => return Ok(()),
        Err(rule) => return Err(damaged(page, rule)),
    };
    let words = match words_at(alloc, rows, at) {
        Ok(words) => words,
        Err(fault) => return Err(fault),
    };
    push_orphan(orphans, Orphan { level, slot, words })
}

// Makes each item of a node an orphan, with its words among the node's rows in memory.
fn let_all_go(
    alloc: Global,
    page: u32,
    bytes: &Page,
    level: u8,
    rows: &[NodeRow],
    orphans: &mut Vec<Orphan>,
) -> Result<(), PageFault>
    requires level { level ≡ level_in bytes.now }
    ensures sums { (F : ℕ → Item → ℕ) (b : ℕ → ℕ → ℕ) → ((w i : ℕ) → lifted_at rows.now w i ≡ b w i)
        → OnOk result (total_loose F (loose_in orphans.new.items) ≡ total_loose F (loose_in orphans.old.items) + amount (F level) (words_on b (stored_in bytes.now))) }
    ensures items { (nodes : NodeMap) (b : ℕ → ℕ → ℕ) → ((w i : ℕ) → lifted_at rows.now w i ≡ b w i)
        → Each (λ y. IsItem nodes level y) (words_on b (stored_in bytes.now)) → AllLoose (λ l y. IsItem nodes l y) (loose_in orphans.old.items)
        → OnOk result (AllLoose (λ l y. IsItem nodes l y) (loose_in orphans.new.items)) }
    ensures low { (top : ℕ) → level ≤ top → AreLow top (loose_in orphans.old.items) → OnOk result (AreLow top (loose_in orphans.new.items)) }
    ensures refuses { IfErr result (IsUnread page bytes.now) }
{
    for at in 0..SLOTS {
        match let_go(alloc, page, bytes, level, rows, at, orphans) {
            Ok(()) => {}
            Err(fault) => return Err(fault),
        }
    }
    Ok(())
}

// Makes each item of a node an orphan with its words, and drops the node's rows.
fn dissolve<P: Pages>(
    alloc: Global,
    pages: &mut P,
    tree: &mut Tree,
    page: u32,
    bytes: &Page,
    level: u8,
    orphans: &mut Vec<Orphan>,
) -> Result<(), PageFault>
    requires level { level ≡ level_in bytes.now }
    ensures dissolved { (free : List ℕ) → IsSupplied (view (P.pages pages.old) tree.old.rows (P.count pages.old) (P.first pages.old) free)
        → spare_in (view (P.pages pages.old) tree.old.rows (P.count pages.old) (P.first pages.old) free) page ≡ 0
        → OnOk result (IsDissolved (view (P.pages pages.old) tree.old.rows (P.count pages.old) (P.first pages.old) free) (P.pages pages.new) tree.new.rows (P.count pages.new) (P.first pages.new)
        page level (stored_in bytes.now) (loose_in orphans.old.items) (loose_in orphans.new.items)) }
    ensures low { (top : ℕ) → level ≤ top → AreLow top (loose_in orphans.old.items) → OnOk result (AreLow top (loose_in orphans.new.items)) }
    ensures many { OnOk result (length orphans.new.items ≡ length orphans.old.items + filled (stored_in bytes.now)) }
    ensures told { AreReadable (P.pages pages.old) (P.count pages.old) → OnOk result (AreReadable (P.pages pages.new) (P.count pages.new)) }
    ensures no_false_damage { (free : List ℕ) → IsRows (plain (view (P.pages pages.old) tree.old.rows (P.count pages.old) (P.first pages.old) free)) tree.old.rows
        → AreReadable (P.pages pages.old) (P.count pages.old) → is_form bytes.now ≡ true → (damage : Damage) → result ≢ Err (PageFault.Damaged damage) }
    ensures damaged { is_form bytes.now ≡ true → AreReadable (P.pages pages.old) (P.count pages.old) → (damage : Damage) → IsErrOf result (PageFault.Damaged damage)
        → IsRowsHarm (P.pages pages.new) (P.count pages.new) (P.first pages.new) tree.new.rows (P.asked pages.old) (P.asked pages.new) damage }
    ensures more { AreReadable (P.pages pages.old) (P.count pages.old) → AsksOnly (λ _. 1) (P.asked pages.old) (P.asked pages.new) }
    ensures root { tree.new.root ≡ tree.old.root }
    ensures fails { FailsChanging P.Pages pages.old pages.new result }
    ensures frame { Changes P.Pages pages.old pages.new }
{
    let rows = take_rows(alloc, pages, tree, page)?;
    let_all_go(alloc, page, bytes, level, &rows, orphans)?;
    Ok(())
}

// Writes a node, unless its page holds these bytes already.
fn write_changed<P: Pages>(
    pages: &mut P,
    page: u32,
    bytes: &Page,
    is_changed: bool,
) -> Result<(), PageFault>
    requires page { ¬ IsUncounted (P.count pages.old) page }
    ensures written { (is_changed ≡ false → bytes.now ≡ P.pages pages.old page) → OnOk result (P.pages pages.new ≡ with_page page bytes.now (P.pages pages.old)) }
    ensures told { AreReadable (P.pages pages.old) (P.count pages.old) → OnOk result (AreReadable (P.pages pages.new) (P.count pages.new)) }
    ensures first { P.first pages.new ≡ P.first pages.old }
    ensures sound { (damage : Damage) → result ≢ Err (PageFault.Damaged damage) }
    ensures fails { FailsWriting P.Pages pages.old result }
    ensures frame { Writes P.Pages pages.old pages.new }
{
    if is_changed {
        pages.write(page, bytes)
    } else {
        Ok(())
    }
}

/// Writes a node from which something was taken out, or dissolves it if it has too few slots.
///
/// `bytes` are the node's, and `is_changed` is whether they differ from those in its page. If at least `least` slots are used, the node is
/// written if it changed, and its slot for the node above is returned. Else each of its items becomes an orphan with its words, its rows
/// are dropped, its page is given back, and `None` is returned.
///
/// Refuses `Damaged` as `take_rows` does, and with `Value` if the bytes aren't a node's. Refuses `Disk`, `NoRoom`, `Stopped` and `Memory`.
/// A node that stays costs one write or none; one that is dissolved a call of `take_rows` and one write.
pub(crate) fn settle<P: Pages>(
    alloc: Global,
    pages: &mut P,
    tree: &mut Tree,
    page: u32,
    bytes: &Page,
    level: u8,
    least: usize,
    is_changed: bool,
    orphans: &mut Vec<Orphan>,
) -> Result<Option<Slot>, PageFault>
    requires page { ¬ IsUncounted (P.count pages.old) page }
    requires some { 0 < least }
    requires least { least ≤ 12 }
    requires level { level ≡ level_in bytes.now }
    ensures settled { (free : List ℕ) → is_form bytes.now ≡ true
        → IsLoosening node_of (view (P.pages pages.old) tree.old.rows (P.count pages.old) (P.first pages.old) free) level page
        (joined (node_of bytes.now) (bytes_in (P.pages pages.old) tree.old.rows page)) (loose_in orphans.old.items)
        → (is_changed ≡ false → bytes.now ≡ P.pages pages.old page)
        → IfOk result (λ left. Settles node_of (view (P.pages pages.old) tree.old.rows (P.count pages.old) (P.first pages.old) free) (P.pages pages.new) tree.new.rows (P.count pages.new) (P.first pages.new) least level page
        (words_on (bytes_in (P.pages pages.old) tree.old.rows page) (slots_in bytes.now)) (bounding_child_in (nodes_in node_of (P.pages pages.new) tree.new.rows) (option_map item_of left))
        (loose_in orphans.old.items) (loose_in orphans.new.items)) }
    ensures others { (free : List ℕ) → is_form bytes.now ≡ true
        → IsLoosening node_of (view (P.pages pages.old) tree.old.rows (P.count pages.old) (P.first pages.old) free) level page
        (joined (node_of bytes.now) (bytes_in (P.pages pages.old) tree.old.rows page)) (loose_in orphans.old.items)
        → (is_changed ≡ false → bytes.now ≡ P.pages pages.old page)
        → OnOk result (KeepsWords [] page (bytes_in (P.pages pages.old) tree.old.rows) (bytes_in (P.pages pages.new) tree.new.rows) (length orphans.old.items) (length orphans.new.items)) }
    ensures here { IfOk result (λ left. IfSome left (IsChildOf page)) }
    ensures stays { is_form bytes.now ≡ true → least ≤ filled (slots_in bytes.now) → IfOk result IsSome }
    ensures low { (top : ℕ) → level ≤ top → AreLow top (loose_in orphans.old.items) → OnOk result (AreLow top (loose_in orphans.new.items)) }
    ensures gone { is_form bytes.now ≡ true → IfOk result (λ left. left ≡ None → (filled (slots_in bytes.now) < least) × (length orphans.new.items ≡ length orphans.old.items + filled (slots_in bytes.now))) }
    ensures told { AreReadable (P.pages pages.old) (P.count pages.old) → OnOk result (AreReadable (P.pages pages.new) (P.count pages.new)) }
    ensures no_false_damage { (free : List ℕ) → IsRows (plain (view (P.pages pages.old) tree.old.rows (P.count pages.old) (P.first pages.old) free)) tree.old.rows
        → AreReadable (P.pages pages.old) (P.count pages.old) → is_form bytes.now ≡ true → (damage : Damage) → result ≢ Err (PageFault.Damaged damage) }
    ensures damaged { is_form bytes.now ≡ true → AreReadable (P.pages pages.old) (P.count pages.old) → (damage : Damage) → IsErrOf result (PageFault.Damaged damage)
        → IsRowsHarm (P.pages pages.new) (P.count pages.new) (P.first pages.new) tree.new.rows (P.asked pages.old) (P.asked pages.new) damage }
    ensures more { AreReadable (P.pages pages.old) (P.count pages.old) → AsksOnly (λ _. 1) (P.asked pages.old) (P.asked pages.new) }
    ensures root { tree.new.root ≡ tree.old.root }
    ensures fails { FailsChanging P.Pages pages.old pages.new result }
    ensures frame { Changes P.Pages pages.old pages.new }
{
    if count(bytes) >= least {
        let rect = match bounds(bytes) {
            Ok(rect) => rect,
            Err(rule) => return Err(damaged(page, rule)),
        };
        return match write_changed(pages, page, bytes, is_changed) {
            Ok(()) => Ok(Some(Slot::Child { rect, page })),
            Err(fault) => Err(fault),
        };
    }
    match dissolve(alloc, pages, tree, page, bytes, level, orphans) {
        Ok(()) => {}
        Err(fault) => return Err(fault),
    }
    match pages.give_back(page) {
        Ok(()) => Ok(None),
        Err(fault) => Err(fault),
    }
}
