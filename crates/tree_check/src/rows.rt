//! The rows, each of which names a node of the tree.
ghost use Rattle.std.specs.Prelude.{◌≡◌, ◌≢◌, ◌⊎◌, ◌+◌, ◌*◌, ◌^◌, ◌<◌, ◌≤◌, ℕ, [], true, false, take, drop, length, slice_index_or, Err, IfOk, IfSome, IfNone, MatchOption, option_map};
ghost use Rattle.page_face.specs.Calls.{FailsReading, Reads};
ghost use Rattle.page_face.specs.FreeList.{are_zero};
ghost use Rattle.page_face.specs.Nodes.{count_of};
ghost use Rattle.page_face.specs.declared.fault.Damage.{Damage};
ghost use Rattle.btree_nodes.specs.Damages.{AreReadable};
ghost use Rattle.btree_nodes.specs.Nodes.{IsLeaf, rows_in};
ghost use Rattle.btree_nodes.specs.Tree.{map_rows, map_uses};
ghost use Rattle.page_walks.specs.Met.{held, Meets};
ghost use Rattle.page_walks.specs.Maps.{IsBrokenMap, IsWholeMap};
ghost use Rattle.rtree_nodes.specs.Stock.{rows_form};
ghost use Rattle.tree_check.specs.Names.{AreNamed, IsFound, IsUnnamed, row_damage, row_of};

use node_rows::{RowKey, WordRows, is_clear};
use page_face::{Damage, Page, PageFault, Pages, Rule};
use page_walks::{Check, Refusal, Sink};
use paged_map::PagedMap;
use std::collections::BTreeSet;

/// A row of words.
#[derive(Clone, Copy)]
struct WordRow {
    /// Its node and its word.
    key: RowKey,
    /// Its byte for each slot.
    bytes: [u8; 32],
}

// The bytes of a row of a leaf: those of its key, and then one for each slot.
fn cell_at(page: &Page, at: usize) -> &[u8]
    requires fits { 16 + 44 * at + 44 ≤ 4096 }
    ensures is { result.now ≡ take 44 (drop (16 + 44 * at) page.now) }
    ensures length { length result.now ≡ 44 }
{
    let from = 16 + 44 * at;
    &page[from..from + 44]
}

// Reads a row of a leaf.
fn row_at(page: &Page, at: usize) -> WordRow
    requires sound { IsLeaf rows_form 1 page.now }
    requires within { at < count_of page.now }
    ensures { slice_index_or (rows_in rows_form page.now) at (0, []) ≡ row_of result }
{
    let cell = cell_at(page, at);
    let mut key = [0; 12];
    key.copy_from_slice(&cell[..12]);
    let mut bytes = [0; 32];
    bytes.copy_from_slice(&cell[12..]);
    WordRow {
        key: RowKey::of_bytes(&key),
        bytes,
    }
}

// A law: the number of a key's word has 64 bits. Does nothing when it runs.
fn in_bounds(key: RowKey)
    ensures { key.number < 2 ^ 64 }
{
    let _number = key.number;
}

// Whether a page is one of these nodes. `last` is one of them, if there is one: neighbouring rows mostly name the same node.
#[tactic(auto, unfolding(page_walks::specs::Met::held))]
fn is_node(nodes: &BTreeSet<u32>, last: Option<u32>, page: u32) -> bool
    requires last { IfSome last (λ n. held nodes.now n ≡ 1) }
    ensures node { result ≡ true → held nodes.now page ≡ 1 }
    ensures none { result ≡ false → held nodes.now page ≡ 0 }
{
    if let Some(last) = last {
        if last == page {
            return true;
        }
    }
    nodes.contains(&page)
}

// Whether a row names one of these nodes and isn't all zeros.
fn is_named(nodes: &BTreeSet<u32>, last: Option<u32>, row: &WordRow) -> bool
    requires last { IfSome last (λ n. held nodes.now n ≡ 1) }
    ensures named { result ≡ true → (held nodes.now row.now.key.node ≡ 1) × (are_zero row.now.bytes ≡ false) }
    ensures unnamed { result ≡ false → (held nodes.now row.now.key.node ≡ 0) ⊎ (are_zero row.now.bytes ≡ true) }
{
    is_node(nodes, last, row.key.node) && !is_clear(&row.bytes)
}

// The key of the first row of a leaf that names none of these nodes or is all zeros.
fn stray_in(nodes: &BTreeSet<u32>, page: &Page, count: usize) -> Option<RowKey>
    requires count { count ≡ count_of page.now }
    requires sound { IsLeaf rows_form 1 page.now }
    ensures { IsFound (rows_in rows_form page.now) (held nodes.now) result }
{
    let mut last = None;
    for at in 0..count {
        let row = row_at(page, at);
        in_bounds(row.key);
        if !is_named(nodes, last, &row) {
            return Some(row.key);
        }
        last = Some(row.key.node);
    }
    None
}

// Looks for a row that names none of these nodes or is all zeros.
#[derive(Drop)]
struct StrayRow<'n> {
    // The nodes.
    nodes: &'n BTreeSet<u32>,
    // The key of the first such row among those taken so far.
    stray: Option<RowKey>,
}

impl<'n> Sink for StrayRow<'n> {
    ghost use Rattle.rtree_nodes.specs.Stock.{rows_form};
    ghost use Rattle.tree_check.specs.Names.{Seeks};
    ghost use Rattle.tree_check.specs.Laws.{seeks-none, seeks-more};

    ghost form = { rows_form };

    ghost takes = { λ before rows after. Seeks rows before.nodes.now after.nodes.now before.stray after.stray };

    ghost good = { λ _. Unit {0} };

    ghost breaks = { λ _ _. ⊥ };

    ghost apart = { λ _ _ never _. never };

    ghost takes_none = { λ s. seeks-none s.nodes.now s.stray };

    ghost takes_more = { λ a b c rows more first then. seeks-more rows more a.nodes.now b.nodes.now c.nodes.now a.stray b.stray c.stray first then };

    fn leaf(&mut self, page: &Page, count: usize) -> Result<(), Refusal> {
        if self.stray.is_none() {
            self.stray = stray_in(self.nodes, page, count);
        }
        Ok(())
    }
}

// The damage of a row at this key: it is broken at the node that it names.
fn damage_of(stray: Option<RowKey>) -> Option<Damage>
    ensures { result ≡ option_map row_damage stray }
{
    match stray {
        Some(key) => Some(Damage {
            page: key.node,
            rule: Rule::Row,
        }),
        None => None,
    }
}

/// Walks the rows' map below a root, and decides whether it is whole, and each of its rows names one of these nodes and isn't all zeros.
///
/// Returns `None` exactly if all that is so and no page of the map is in `seen`, and otherwise a damage. If the map isn't whole, the damage
/// is a page of it and a rule that it breaks: one of `Link` to `Level`, or `Shared` for a page that the map uses twice or that was in
/// `seen`. If it is whole, the damage is `Row` at the node that the first other row names. After `None`, `seen` has gained exactly the
/// map's pages. After any other end it may have gained some of them. Returns `Disk`, `Stopped` or `Memory` as a look at a page does.
///
/// Looks once at each page of the map, and at no other. Takes memory for a number a page. Writes no page.
pub fn check_rows<P: Pages>(
    pages: &mut P,
    root: u32,
    seen: &mut BTreeSet<u32>,
    nodes: &BTreeSet<u32>,
) -> Result<Option<Damage>, PageFault>
    ensures decides { AreReadable (P.pages pages.old) (P.count pages.old)
        → IfOk result (λ found. MatchOption found
        (IsWholeMap rows_form (P.pages pages.old) (P.count pages.old) (held seen.old) root × AreNamed (map_rows rows_form (P.pages pages.old) root) (held nodes.now))
        (λ damage. IsBrokenMap rows_form (P.pages pages.old) (P.count pages.old) (held seen.old) root damage
        ⊎ (IsWholeMap rows_form (P.pages pages.old) (P.count pages.old) (held seen.old) root × IsUnnamed (map_rows rows_form (P.pages pages.old) root) (held nodes.now) damage))) }
    ensures exact { AreReadable (P.pages pages.old) (P.count pages.old)
        → IfOk result (λ found. IfSome found (λ damage.
        ¬ (IsWholeMap rows_form (P.pages pages.old) (P.count pages.old) (held seen.old) root × AreNamed (map_rows rows_form (P.pages pages.old) root) (held nodes.now)))) }
    ensures gains { AreReadable (P.pages pages.old) (P.count pages.old)
        → IfOk result (λ found. IfNone found ((n : ℕ) → held seen.new n ≡ held seen.old n + map_uses rows_form (P.pages pages.old) root n)) }
    ensures meets { AreReadable (P.pages pages.old) (P.count pages.old)
        → Meets (map_uses rows_form (P.pages pages.old) root) (P.asked pages.old) (P.asked pages.new) (held seen.old) (held seen.new) }
    ensures undamaged { (damage : Damage) → result ≢ Err (PageFault.Damaged damage) }
    ensures fails { FailsReading P.Pages pages.old pages.new result }
    ensures frame { Reads P.Pages pages.old pages.new }
{
    let map = PagedMap::<WordRows>::at(root);
    let mut sink = StrayRow { nodes, stray: None };
    match map.check_into(pages, seen, &mut sink)? {
        Some(damage) => Ok(Some(damage)),
        None => Ok(damage_of(sink.stray)),
    }
}
