//! A copy of a leaf of the rows' map, from which the rows of a node are read with one way down for all of them.
ghost use Rattle.std.specs.Prelude.{◌≡◌, ◌↔◌, ◌+◌, ◌*◌, ◌^◌, ◌<◌, ◌≤◌, ℕ, length, take, drop, Some, None, if◌then◌else◌, IfErr, IfOk, IfSome, IsErrOf, IsTrue, OnOk};
ghost use Rattle.page_face.specs.Calls.{Reads, FailsReading};
ghost use Rattle.page_face.specs.Nodes.{count_of};
ghost use Rattle.page_face.specs.Number.{number as number_of_bytes};
ghost use Rattle.btree_nodes.specs.Bounds.{upper_of};
ghost use Rattle.btree_nodes.specs.Damages.{AreReadable, AskedSince, AsksOnly};
ghost use Rattle.btree_nodes.specs.Nodes.{rows_in};
ghost use Rattle.btree_nodes.specs.Rows.{IsWithin, first_from};
ghost use Rattle.btree_nodes.specs.Tree.{IsMap, map_rows, map_uses};
ghost use Rattle.paged_map.specs.Maps.{AreCounted, IsMapDamaged};
ghost use Rattle.rtree_nodes.specs.Stock.{rows_form};
ghost use Rattle.node_rows.specs.Rows.{AreFilled, Bytes, bytes_in, key_of as key_number};
ghost use Rattle.node_rows.specs.Turns.{GivesFilled, Next};
ghost use Rattle.node_rows.specs.Damages.{IsRowsDamage};
ghost use Rattle.node_rows.specs.Copies.{IsBefore, IsCopy, IsFilledCopy, NextBefore, NextOr};

use crate::Tree;
use crate::key::RowKey;
use crate::next::next_row;
use btree_nodes::{Bounds, Form, count, locate, place};
use page_face::{Damage, Page, PageFault, Pages};

// The number of rows that a page has room for after its 16 bytes of head: each has 12 bytes of key and 32 of value.
const ROWS_MAX: usize = 92;

/// Returns what the pages of the rows' map have in common.
pub fn row_form() -> Form
    ensures { result ≡ rows_form }
{
    Form {
        key: 12,
        value: 32,
        map: 4,
    }
}

// The key of the row at this place.
fn copy_key(page: &Page, at: usize, found: &mut [u8; 12])
    requires fits { 16 + 44 * at + 44 ≤ 4096 }
    ensures { found.new ≡ take 12 (drop (16 + 44 * at) page.now) }
{
    let from = 16 + 44 * at;
    found.copy_from_slice(&page[from..from + 12]);
}

// The bytes of the row at this place.
fn copy_row(page: &Page, at: usize, row: &mut [u8; 32])
    requires fits { 16 + 44 * at + 44 ≤ 4096 }
    ensures { row.new ≡ drop 12 (take 44 (drop (16 + 44 * at) page.now)) }
{
    let from = 16 + 44 * at;
    row.copy_from_slice(&page[from..from + 44][12..]);
}

// Whether a leaf has a row whose key isn't less. The key of the first one is then left in `found` and its bytes in `row`.
fn first_in(page: &Page, key: &[u8; 12], found: &mut [u8; 12], row: &mut [u8; 32]) -> bool
    ensures first { (low high : ℕ) → 16 + 44 * count_of page.now ≤ 4096 → IsWithin low high (rows_in rows_form page.now)
        → first_from (number_of_bytes key.now) (rows_in rows_form page.now) ≡ (if result then Some (number_of_bytes found.new, row.new) else None) }
{
    let rows = count(page);
    if rows > ROWS_MAX {
        return false;
    }
    let at = place(page, key, false, 44, rows);
    if at == rows {
        return false;
    }
    copy_key(page, at, found);
    copy_row(page, at, row);
    true
}

// Whether a word comes before another one, or before the end.
fn is_before(number: u64, next: Option<u64>) -> bool
    ensures { IsTrue result ↔ IsBefore number next }
{
    match next {
        Some(next) => number < next,
        None => true,
    }
}

// The word of a node from which on keys aren't below a bound, or `None` if all are. No bound is that of all keys.
fn word_at(node: u32, high: &[u8]) -> Option<u64>
    requires length { 0 < length high.now → length high.now ≡ 12 }
    ensures start { (from : ℕ) → key_number node from < upper_of 12 high.now → IsBefore from result }
    ensures below { (from w : ℕ) → from < 2 ^ 64 → key_number node from < upper_of 12 high.now → w < 2 ^ 64 → IsBefore w result → key_number node w < upper_of 12 high.now }
{
    if high.is_empty() {
        return None;
    }
    let mut bytes = [0; 12];
    bytes.copy_from_slice(high);
    let bound = RowKey::of_bytes(&bytes);
    if bound.node == node {
        Some(bound.number)
    } else {
        None
    }
}

/// A copy of a leaf of the rows' map, and the words of a node whose rows it has.
#[derive(Drop)]
pub struct LeafCopy {
    /// The leaf's bytes.
    page: Page,
    /// The first of the words.
    from: u64,
    /// The first word after them, or `None` if no word is.
    next: Option<u64>,
}

impl LeafCopy {
    /// Returns the copy of no leaf: it has no word.
    pub fn none() -> LeafCopy
        ensures copy { (b : Bytes) (node : ℕ) → IsCopy b node result }
        ensures filled { IsFilledCopy result }
    {
        LeafCopy {
            page: [0; 4096],
            from: 0,
            next: Some(0),
        }
    }

    // Whether a word is one of those whose rows the copy has.
    fn has(&self, number: u64) -> bool
        ensures from { IsTrue result → self.now.from ≤ number }
        ensures next { IsTrue result → IsBefore number self.now.next }
    {
        self.from <= number && is_before(number, self.next)
    }

    // The first row of a node from one of the copy's words on, if the copy has one.
    fn first(&self, node: u32, from: u64) -> Option<(u64, [u8; 32])>
        ensures next { (b : Bytes) → IsCopy b node self.now → self.now.from ≤ from → IsBefore from self.now.next → NextBefore b node from self.now.next result }
        ensures filled { (b : Bytes) → IsCopy b node self.now → IsFilledCopy self.now → self.now.from ≤ from → IsBefore from self.now.next → GivesFilled result }
        ensures onto { IfSome result (λ found. from ≤ found.0) }
    {
        let key = RowKey { node, number: from }.bytes();
        let mut found = [0; 12];
        let mut row = [0; 32];
        if !first_in(&self.page, &key, &mut found, &mut row) {
            return None;
        }
        let next = RowKey::of_bytes(&found);
        if next.node != node {
            return None;
        }
        if next.number < from {
            return None;
        }
        if !is_before(next.number, self.next) {
            return None;
        }
        Some((next.number, row))
    }

    // The first row of a node from a word on, or `None` if the node has no such row. If the copy can't decide it, returns `Err` of a word
    // before which there is none.
    fn seek(&self, node: u32, from: u64) -> Result<Option<(u64, [u8; 32])>, u64>
        ensures next { (b : Bytes) → IsCopy b node self.now → NextOr b node from result }
        ensures filled { (b : Bytes) → IsCopy b node self.now → IsFilledCopy self.now → IfOk result GivesFilled }
        ensures onto { IfOk result (λ next. IfSome next (λ found. from ≤ found.0)) }
        ensures further { IfErr result (λ at. from ≤ at) }
    {
        if !self.has(from) {
            return Err(from);
        }
        match self.first(node, from) {
            Some(found) => Ok(Some(found)),
            None => match self.next {
                Some(next) => Err(next),
                None => Ok(None),
            },
        }
    }

    // Copies the leaf that a node's key for a word belongs to. The copy then has the rows of the node's words from that one on
    // up to the leaf's end.
    //
    // Looks at one page a level of the rows' map, and copies the leaf.
    fn fill<P: Pages>(
        &mut self,
        pages: &mut P,
        tree: &Tree,
        node: u32,
        from: u64,
    ) -> Result<(), PageFault>
        requires root { 0 < tree.now.rows }
        ensures copy { (b : Bytes) → IsMap rows_form (P.pages pages.old) tree.now.rows → ((w i : ℕ) → from ≤ w → bytes_in (P.pages pages.old) tree.now.rows node w i ≡ b node w i)
            → OnOk result (IsCopy b node self.new) }
        ensures filled { IsMap rows_form (P.pages pages.old) tree.now.rows → AreFilled (map_rows rows_form (P.pages pages.old) tree.now.rows) → OnOk result (IsFilledCopy self.new) }
        ensures no_false_damage { IsMap rows_form (P.pages pages.old) tree.now.rows → AreCounted (map_uses rows_form (P.pages pages.old) tree.now.rows) (P.count pages.old)
            → AreReadable (P.pages pages.old) (P.count pages.old) → (damage : Damage) → ¬ IsErrOf result (PageFault.Damaged damage) }
        ensures damaged { AreReadable (P.pages pages.old) (P.count pages.old) → (damage : Damage) → IsErrOf result (PageFault.Damaged damage)
            → IsMapDamaged rows_form (P.pages pages.old) (P.count pages.old) tree.now.rows damage × AskedSince (P.asked pages.old) (P.asked pages.new) damage.page }
        ensures own { AreReadable (P.pages pages.old) (P.count pages.old)
            → AsksOnly (map_uses rows_form (P.pages pages.old) tree.now.rows) (P.asked pages.old) (P.asked pages.new) }
        ensures fails { FailsReading P.Pages pages.old pages.new result }
        ensures frame { Reads P.Pages pages.old pages.new }
    {
        let key = RowKey { node, number: from }.bytes();
        let form = row_form();
        let mut bounds = Bounds::all();
        match locate(pages, form, tree.rows, &key, &mut bounds) {
            Ok(_leaf) => {
                self.page = *pages.looked();
                self.from = from;
                self.next = word_at(node, bounds.high(form));
                Ok(())
            }
            Err(fault) => Err(fault),
        }
    }
}

// The first row of a node from a word on, by the leaf that its key belongs to, of which a copy is made.
fn next_filled<P: Pages>(
    copy: &mut LeafCopy,
    pages: &mut P,
    tree: &Tree,
    node: u32,
    from: u64,
) -> Result<Option<(u64, [u8; 32])>, PageFault>
    requires root { 0 < tree.now.rows }
    ensures next { (b : Bytes) → IsMap rows_form (P.pages pages.old) tree.now.rows → ((w i : ℕ) → from ≤ w → bytes_in (P.pages pages.old) tree.now.rows node w i ≡ b node w i)
        → IfOk result (Next b node from) }
    ensures copy { (b : Bytes) → IsMap rows_form (P.pages pages.old) tree.now.rows → ((w i : ℕ) → from ≤ w → bytes_in (P.pages pages.old) tree.now.rows node w i ≡ b node w i)
        → OnOk result (IsCopy b node copy.new) }
    ensures filled { IsMap rows_form (P.pages pages.old) tree.now.rows → AreFilled (map_rows rows_form (P.pages pages.old) tree.now.rows)
        → OnOk result (IsFilledCopy copy.new) × IfOk result GivesFilled }
    ensures onto { IfOk result (λ next. IfSome next (λ found. from ≤ found.0)) }
    ensures no_false_damage { IsMap rows_form (P.pages pages.old) tree.now.rows → AreCounted (map_uses rows_form (P.pages pages.old) tree.now.rows) (P.count pages.old)
        → AreReadable (P.pages pages.old) (P.count pages.old) → (damage : Damage) → ¬ IsErrOf result (PageFault.Damaged damage) }
    ensures damaged { AreReadable (P.pages pages.old) (P.count pages.old) → (damage : Damage) → IsErrOf result (PageFault.Damaged damage)
        → IsRowsDamage (P.pages pages.old) (P.count pages.old) tree.now.rows (P.asked pages.old) (P.asked pages.new) damage }
    ensures own { AreReadable (P.pages pages.old) (P.count pages.old)
        → AsksOnly (map_uses rows_form (P.pages pages.old) tree.now.rows) (P.asked pages.old) (P.asked pages.new) }
    ensures fails { FailsReading P.Pages pages.old pages.new result }
    ensures frame { Reads P.Pages pages.old pages.new }
{
    match copy.fill(pages, tree, node, from) {
        Ok(()) => match copy.seek(node, from) {
            Ok(next) => Ok(next),
            Err(at) => next_row(pages, tree, node, at),
        },
        Err(fault) => Err(fault),
    }
}

/// Returns what [`next_row`] does, out of a copy of a leaf if that has it. Otherwise the leaf that the node's key for the word belongs
/// to is copied first.
///
/// The copy may be of pages as they were, as long as the node's bytes in it are those of the pages from the word on.
///
/// Fails as [`next_row`] does. Looks at no page if the copy has the row, and at one a level of the rows' map to copy a leaf. If that
/// leaf has no such row either, costs a call of [`next_row`] as well.
pub fn next_in<P: Pages>(
    copy: &mut LeafCopy,
    pages: &mut P,
    tree: &Tree,
    node: u32,
    from: u64,
) -> Result<Option<(u64, [u8; 32])>, PageFault>
    ensures next { (b : Bytes) → IsMap rows_form (P.pages pages.old) tree.now.rows → ((w i : ℕ) → from ≤ w → bytes_in (P.pages pages.old) tree.now.rows node w i ≡ b node w i)
        → IsCopy b node copy.old → IfOk result (Next b node from) }
    ensures copy { (b : Bytes) → IsMap rows_form (P.pages pages.old) tree.now.rows → ((w i : ℕ) → from ≤ w → bytes_in (P.pages pages.old) tree.now.rows node w i ≡ b node w i)
        → IsCopy b node copy.old → OnOk result (IsCopy b node copy.new) }

    // Where no row that is stored is all zeros, the row is none of zeros, so that it is stored, and none that is stored was passed over.
    ensures filled { (b : Bytes) → IsMap rows_form (P.pages pages.old) tree.now.rows → AreFilled (map_rows rows_form (P.pages pages.old) tree.now.rows)
        → IsCopy b node copy.old → IsFilledCopy copy.old → OnOk result (IsFilledCopy copy.new) × IfOk result GivesFilled }
    ensures onto { IfOk result (λ next. IfSome next (λ found. from ≤ found.0)) }

    // On a well-formed map whose pages are counted no page is damaged.
    ensures no_false_damage { IsMap rows_form (P.pages pages.old) tree.now.rows → AreCounted (map_uses rows_form (P.pages pages.old) tree.now.rows) (P.count pages.old)
        → AreReadable (P.pages pages.old) (P.count pages.old) → (damage : Damage) → ¬ IsErrOf result (PageFault.Damaged damage) }
    ensures damaged { AreReadable (P.pages pages.old) (P.count pages.old) → (damage : Damage) → IsErrOf result (PageFault.Damaged damage)
        → IsRowsDamage (P.pages pages.old) (P.count pages.old) tree.now.rows (P.asked pages.old) (P.asked pages.new) damage }
    ensures own { AreReadable (P.pages pages.old) (P.count pages.old)
        → AsksOnly (map_uses rows_form (P.pages pages.old) tree.now.rows) (P.asked pages.old) (P.asked pages.new) }
    ensures fails { FailsReading P.Pages pages.old pages.new result }
    ensures frame { Reads P.Pages pages.old pages.new }
{
    match copy.seek(node, from) {
        Ok(next) => Ok(next),
        Err(at) => {
            if tree.rows == 0 {
                Ok(None)
            } else {
                next_filled(copy, pages, tree, node, at)
            }
        }
    }
}
