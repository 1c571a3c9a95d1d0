//! A row that is put into a leaf.
ghost use Rattle.std.specs.Prelude.{◌≡◌, ◌≢◌, ◌⊎◌, ℕ, ◌<◌, ◌≤◌, ◌+◌, ◌-◌, ◌*◌, List, ◌++◌, length, map, IfOk, IsErrOf, take, drop, is_some};
ghost use Rattle.page_face.specs.Calls.{FailsChanging, Changes, TakesAtMost};
ghost use Rattle.page_face.specs.Causes.{IsUncounted};
ghost use Rattle.page_face.specs.Number.{number};
ghost use Rattle.page_face.specs.Cells.{chop, key_at};
ghost use Rattle.btree_nodes.specs.Supply.{IsSupplied, view, spare, one_at};
ghost use Rattle.btree_nodes.specs.Rows.{Row, IsWithin, IsMade, lookup, put};
ghost use Rattle.page_face.specs.Nodes.{count_of};
ghost use Rattle.btree_nodes.specs.Nodes.{row_of, rows_in, IsLeaf};
ghost use Rattle.btree_nodes.specs.Bounds.{upper_of};
ghost use Rattle.btree_nodes.specs.Damages.{AreReadable, BreaksLeaf, IsRefusedTake};
ghost use Rattle.btree_nodes.specs.Store.{IsGrown};
ghost use Rattle.btree_insert.specs.Keeps.{KeepsOthers};

use crate::split::split_page;
use btree_nodes::{
    Form, Shape, body, compare, damaged, key_of, leaf_count, place, splice, store_one,
};
use page_face::{Damage, Page, PageFault, Pages};
use std::cmp::Ordering;

/// What putting a row below a page has done.
#[derive(Clone, Copy, Debug, PartialEq, Eq)]
pub struct Grown {
    /// The page that was split off, or 0.
    pub right: u32,
    /// Whether the key was there.
    pub had: bool,
}

// Writes a leaf of these rows, or two. Returns the page that was split off, or 0, and leaves its first key in `middle`.
fn store_leaf<P: Pages>(
    pages: &mut P,
    form: Form,
    least: usize,
    page: u32,
    count: usize,
    cells: &[u8],
    middle: &mut [u8],
) -> Result<u32, PageFault>
    requires cells { length cells.now ≡ (form.key + form.value) * count }
    requires some { 0 < count }
    requires few { 16 + (form.key + form.value) * (count - 1) ≤ 4096 }
    requires middle { length middle.old ≡ form.key }
    requires counted { ¬ IsUncounted (P.count pages.old) page }
    ensures grown { (low high : ℕ) (free : List ℕ) → least ≤ count → IsWithin low high (map (row_of form.key) (chop (form.key + form.value) count cells.now))
        → IsSupplied (view (P.pages pages.old) (P.count pages.old) (P.first pages.old) free)
        → ((n : ℕ) → one_at page n + spare free (P.count pages.old) n ≤ 1)
        → IfOk result (λ right. IsGrown form least (view (P.pages pages.old) (P.count pages.old) (P.first pages.old) free) (one_at page) (P.pages pages.new) (P.count pages.new) (P.first pages.new)
        0 page low high (map (row_of form.key) (chop (form.key + form.value) count cells.now)) right (number middle.new)) }

    ensures kept { AreReadable (P.pages pages.old) (P.count pages.old) → IfOk result (λ right. KeepsOthers page (P.pages pages.old) (P.count pages.old) (P.pages pages.new) (P.count pages.new)) }
    ensures no_false_damage { (free : List ℕ) → IsSupplied (view (P.pages pages.old) (P.count pages.old) (P.first pages.old) free) → (damage : Damage) → result ≢ Err (PageFault.Damaged damage) }
    ensures damaged { (damage : Damage) → IsErrOf result (PageFault.Damaged damage) → IsRefusedTake (P.pages pages.new) (P.count pages.new) (P.first pages.new) damage }
    ensures takes { TakesAtMost P.Pages 1 pages.old pages.new result }
    ensures fails { FailsChanging P.Pages pages.old pages.new result }
    ensures frame { Changes P.Pages pages.old pages.new }
    ensures asked { P.asked pages.new ≡ P.asked pages.old }
{
    let width = form.key + form.value;
    let shape = Shape {
        number: form.map,
        kind: 1,
        level: 0,
        width,
    };
    if 16 + cells.len() <= 4096 {
        store_one(pages, shape, page, count as u16, cells)?;
        return Ok(0);
    }
    let half = count / 2;
    let cut = width * half;
    let right = split_page(
        pages,
        shape,
        page,
        half as u16,
        &cells[..cut],
        (count - half) as u16,
        &cells[cut..],
    )?;
    middle.copy_from_slice(&cells[cut..cut + form.key]);
    Ok(right)
}

/// Returns 1 if the row at this place of a leaf of `count` rows has the key, and 0 otherwise.
pub fn gone_at(bytes: &Page, form: Form, count: usize, at: usize, key: &[u8]) -> usize
    requires fits { 16 + (form.key + form.value) * count ≤ 4096 }
    requires key { length key.now ≡ form.key }
    ensures some { result ≡ 1 → (at < count) × (key_at form.key (form.key + form.value) bytes.now at ≡ number key.now) }
    ensures none { (result ≡ 1 → ⊥) → at < count → key_at form.key (form.key + form.value) bytes.now at ≡ number key.now → ⊥ }
    ensures small { result ≤ 1 }
{
    if at >= count {
        return 0;
    }
    match compare(key_of(bytes, form.key, form.key + form.value, at), key) {
        Ordering::Equal => 1,
        _ => 0,
    }
}

// Puts a row into the leaf looked at, of `count` rows, at this place, replacing the `gone` rows there. Returns the page that was split
// off, or 0.
fn put_at<P: Pages>(
    pages: &mut P,
    form: Form,
    least: usize,
    page: u32,
    count: usize,
    at: usize,
    gone: usize,
    key: &[u8],
    value: &[u8],
    middle: &mut [u8],
    cells: &mut [u8],
) -> Result<u32, PageFault>
    requires key { length key.now ≡ form.key }
    requires value { length value.now ≡ form.value }
    requires middle { length middle.old ≡ form.key }
    requires fits { 16 + (form.key + form.value) * count ≤ 4096 }
    requires at { at + gone ≤ count }
    requires gone { gone ≤ 1 }
    requires cells { length cells.old ≡ (form.key + form.value) * (count + 1 - gone) }
    requires counted { ¬ IsUncounted (P.count pages.old) page }
    ensures grown { (low high : ℕ) (free : List ℕ) (rows : List Row) → least ≤ count + 1 - gone
        → IsMade low high (put (number key.now) value.now) rows (map (row_of form.key) (chop (form.key + form.value) (count + 1 - gone) (take ((form.key + form.value) * at) (take ((form.key + form.value) * count) (drop 16 (P.looked pages.old))) ++ ((key.now ++ value.now) ++ drop ((form.key + form.value) * (at + gone)) (take ((form.key + form.value) * count) (drop 16 (P.looked pages.old)))))))
        → IsSupplied (view (P.pages pages.old) (P.count pages.old) (P.first pages.old) free)
        → ((n : ℕ) → one_at page n + spare free (P.count pages.old) n ≤ 1)
        → IfOk result (λ right. IsGrown form least (view (P.pages pages.old) (P.count pages.old) (P.first pages.old) free) (one_at page) (P.pages pages.new) (P.count pages.new) (P.first pages.new)
        0 page low high (put (number key.now) value.now rows) right (number middle.new)) }

    ensures kept { AreReadable (P.pages pages.old) (P.count pages.old) → IfOk result (λ right. KeepsOthers page (P.pages pages.old) (P.count pages.old) (P.pages pages.new) (P.count pages.new)) }
    ensures no_false_damage { (free : List ℕ) → IsSupplied (view (P.pages pages.old) (P.count pages.old) (P.first pages.old) free) → (damage : Damage) → result ≢ Err (PageFault.Damaged damage) }
    ensures damaged { (damage : Damage) → IsErrOf result (PageFault.Damaged damage) → IsRefusedTake (P.pages pages.new) (P.count pages.new) (P.first pages.new) damage }
    ensures takes { TakesAtMost P.Pages 1 pages.old pages.new result }
    ensures fails { FailsChanging P.Pages pages.old pages.new result }
    ensures frame { Changes P.Pages pages.old pages.new }
    ensures asked { P.asked pages.new ≡ P.asked pages.old }
{
    let width = form.key + form.value;
    splice(
        body(pages.looked(), width, count),
        width * at,
        width * (at + gone),
        key,
        value,
        cells,
    );
    store_leaf(pages, form, least, page, count + 1 - gone, cells, middle)
}

// The number of bytes of a leaf's cells after a row was put, replacing `gone` rows.
fn room_for(form: Form, count: usize, gone: usize) -> usize
    requires fits { 16 + (form.key + form.value) * count ≤ 4096 }
    requires gone { gone ≤ count + 1 }
    ensures is { result ≡ (form.key + form.value) * (count + 1 - gone) }
    ensures small { result ≤ 5120 }
{
    (form.key + form.value) * (count + 1 - gone)
}

// Puts a row into the leaf looked at, of `count` rows. If it is split, the first key of the page that was split off is left in
// `middle`.
fn put_row<P: Pages>(
    pages: &mut P,
    form: Form,
    least: usize,
    page: u32,
    count: usize,
    key: &[u8],
    value: &[u8],
    middle: &mut [u8],
) -> Result<Grown, PageFault>
    requires count { count ≡ count_of (P.looked pages.old) }
    requires sound { IsLeaf form least (P.looked pages.old) }
    requires key { length key.now ≡ form.key }
    requires value { length value.now ≡ form.value }
    requires middle { length middle.old ≡ form.key }
    requires counted { ¬ IsUncounted (P.count pages.old) page }
    ensures grown { (low high : ℕ) (free : List ℕ) → IsWithin low high (rows_in form (P.looked pages.old)) → low ≤ number key.now → number key.now < high
        → IsSupplied (view (P.pages pages.old) (P.count pages.old) (P.first pages.old) free)
        → ((n : ℕ) → one_at page n + spare free (P.count pages.old) n ≤ 1)
        → IfOk result (λ grown. IsGrown form least (view (P.pages pages.old) (P.count pages.old) (P.first pages.old) free) (one_at page) (P.pages pages.new) (P.count pages.new) (P.first pages.new)
        0 page low high (put (number key.now) value.now (rows_in form (P.looked pages.old))) grown.right (number middle.new)) }
    ensures had { (low high : ℕ) → IsWithin low high (rows_in form (P.looked pages.old)) → low ≤ number key.now → number key.now < high
        → IfOk result (λ grown. grown.had ≡ is_some (lookup (number key.now) (rows_in form (P.looked pages.old)))) }

    ensures kept { AreReadable (P.pages pages.old) (P.count pages.old) → IfOk result (λ grown. KeepsOthers page (P.pages pages.old) (P.count pages.old) (P.pages pages.new) (P.count pages.new)) }
    ensures no_false_damage { (free : List ℕ) → IsSupplied (view (P.pages pages.old) (P.count pages.old) (P.first pages.old) free) → (damage : Damage) → result ≢ Err (PageFault.Damaged damage) }
    ensures damaged { (damage : Damage) → IsErrOf result (PageFault.Damaged damage) → IsRefusedTake (P.pages pages.new) (P.count pages.new) (P.first pages.new) damage }
    ensures takes { TakesAtMost P.Pages 1 pages.old pages.new result }
    ensures fails { FailsChanging P.Pages pages.old pages.new result }
    ensures frame { Changes P.Pages pages.old pages.new }
    ensures asked { P.asked pages.new ≡ P.asked pages.old }
{
    let width = form.key + form.value;
    let at = place(pages.looked(), key, false, width, count);
    let gone = gone_at(pages.looked(), form, count, at, key);
    let room = room_for(form, count, gone);
    let mut buffer = [0; 5120];
    let right = put_at(
        pages,
        form,
        least,
        page,
        count,
        at,
        gone,
        key,
        value,
        middle,
        &mut buffer[..room],
    )?;
    Ok(Grown {
        right,
        had: gone == 1,
    })
}

/// Puts a row into the leaf looked at, which is `page`. If it is split, the first key of the page that was split off is left in
/// `middle`.
///
/// Refuses the rule that the page breaks between these bounds, and what a `take` refuses. Its cells are copied once into a buffer,
/// and one page is written, or one taken and two written.
#[inline(never)]
pub fn put_leaf<P: Pages>(
    pages: &mut P,
    form: Form,
    least: usize,
    page: u32,
    low: &[u8],
    high: &[u8],
    key: &[u8],
    value: &[u8],
    middle: &mut [u8],
) -> Result<Grown, PageFault>
    requires least { 1 ≤ least }
    requires low { length low.now ≡ form.key }
    requires high { 0 < length high.now → length high.now ≡ form.key }
    requires key { length key.now ≡ form.key }
    requires from { number low.now ≤ number key.now }
    requires to { number key.now < upper_of form.key high.now }
    requires value { length value.now ≡ form.value }
    requires middle { length middle.old ≡ form.key }
    requires counted { ¬ IsUncounted (P.count pages.old) page }
    ensures grown { (free : List ℕ) → IsSupplied (view (P.pages pages.old) (P.count pages.old) (P.first pages.old) free)
        → ((n : ℕ) → one_at page n + spare free (P.count pages.old) n ≤ 1)
        → IfOk result (λ grown. IsGrown form least (view (P.pages pages.old) (P.count pages.old) (P.first pages.old) free) (one_at page) (P.pages pages.new) (P.count pages.new) (P.first pages.new)
        0 page (number low.now) (upper_of form.key high.now) (put (number key.now) value.now (rows_in form (P.looked pages.old))) grown.right (number middle.new)) }
    ensures had { IfOk result (λ grown. grown.had ≡ is_some (lookup (number key.now) (rows_in form (P.looked pages.old)))) }

    ensures sound { IfOk result (λ grown. IsLeaf form least (P.looked pages.old)) }
    ensures kept { AreReadable (P.pages pages.old) (P.count pages.old) → IfOk result (λ grown. KeepsOthers page (P.pages pages.old) (P.count pages.old) (P.pages pages.new) (P.count pages.new)) }
    ensures supplied { (free : List ℕ) → IsSupplied (view (P.pages pages.old) (P.count pages.old) (P.first pages.old) free) → (damage : Damage) → IsErrOf result (PageFault.Damaged damage)
        → (damage.page ≡ page) × BreaksLeaf damage.rule form least (number low.now) (upper_of form.key high.now) (P.looked pages.old) }
    ensures damaged { (damage : Damage) → IsErrOf result (PageFault.Damaged damage)
        → ((damage.page ≡ page) × BreaksLeaf damage.rule form least (number low.now) (upper_of form.key high.now) (P.looked pages.old))
        ⊎ IsRefusedTake (P.pages pages.new) (P.count pages.new) (P.first pages.new) damage }
    ensures stays { (damage : Damage) → IsErrOf result (PageFault.Damaged damage)
        → ((P.pages pages.new ≡ P.pages pages.old) × (P.count pages.new ≡ P.count pages.old))
        ⊎ IsRefusedTake (P.pages pages.new) (P.count pages.new) (P.first pages.new) damage }
    ensures takes { TakesAtMost P.Pages 1 pages.old pages.new result }
    ensures fails { FailsChanging P.Pages pages.old pages.new result }
    ensures frame { Changes P.Pages pages.old pages.new }
    ensures asked { P.asked pages.new ≡ P.asked pages.old }
{
    match leaf_count(pages, form, least, low, high) {
        Ok(count) => put_row(pages, form, least, page, count, key, value, middle),
        Err(rule) => Err(damaged(page, rule)),
    }
}
