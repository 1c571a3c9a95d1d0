//! The check of a page of a map, and what is left of it if the page is known to be sound.
ghost use Rattle.std.specs.Prelude.{◌≡◌, ◌↔◌, ◌+◌, ◌*◌, ◌<◌, ◌≤◌, length, IfOk, IfErr, IsTrue};
ghost use Rattle.page_face.specs.Number.{number};
ghost use Rattle.page_face.specs.Cells.{IsAscending, key_at};
ghost use Rattle.btree_nodes.specs.Rows.{IsWithin};
ghost use Rattle.page_face.specs.Nodes.{count_of};
ghost use Rattle.btree_nodes.specs.Nodes.{IsLeaf, IsInner, rows_in};
ghost use Rattle.btree_nodes.specs.Bounds.{upper_of};
ghost use Rattle.btree_nodes.specs.Damages.{BreaksLeaf, BreaksInner, IsOrdered};
ghost use Rattle.page_face.specs.Sound.{IsSound};

use crate::{Form, check_inner, check_leaf, compare, count, is_below, key_of};
use page_face::{Page, Rule, Seal};
use std::cmp::Ordering;

/// What a page of a form and level is sealed as.
pub fn seal_of(form: Form, level: u8) -> Seal
    ensures { result ≡ record { map = form.map; key = form.key; value = form.value; level = level } }
{
    Seal {
        map: form.map,
        key: form.key,
        value: form.value,
        level,
    }
}

// Whether the rows of a leaf, whose keys ascend, keep to the bounds. Looks at the first and the last one.
#[tactic(auto, using(crate::proofs::Spots::fits_at))]
fn has_bounded_rows(page: &Page, form: Form, count: usize, low: &[u8], high: &[u8]) -> bool
    requires count { count ≡ count_of page.now }
    requires some { 0 < count }
    requires fits { 16 + (form.key + form.value) * count ≤ 4096 }
    requires low { length low.now ≡ form.key }
    requires high { 0 < length high.now → length high.now ≡ form.key }
    requires order { IsAscending form.key (form.key + form.value) page.now 0 count }
    ensures { IsTrue result ↔ IsWithin (number low.now) (upper_of form.key high.now) (rows_in form page.now) }
{
    let width = form.key + form.value;
    let first = key_of(page, form.key, width, 0);
    if let Ordering::Less = compare(first, low) {
        return false;
    }
    is_below(key_of(page, form.key, width, count - 1), high)
}

// Whether the entries of an inner page, whose first key is zero and whose others ascend, keep to the bounds. Looks at the second
// and the last one.
#[tactic(auto, using(crate::proofs::Spots::fits_at))]
fn has_bounded_entries(page: &Page, form: Form, count: usize, low: &[u8], high: &[u8]) -> bool
    requires count { count ≡ count_of page.now }
    requires some { 1 < count }
    requires fits { 16 + (form.key + 4) * count ≤ 4096 }
    requires low { length low.now ≡ form.key }
    requires high { 0 < length high.now → length high.now ≡ form.key }
    requires first { key_at form.key (form.key + 4) page.now 0 ≡ 0 }
    requires order { IsAscending form.key (form.key + 4) page.now 1 count }
    ensures { IsTrue result ↔ IsOrdered form (number low.now) (upper_of form.key high.now) page.now }
{
    let width = form.key + 4;
    match compare(low, key_of(page, form.key, width, 1)) {
        Ordering::Less => {}
        _ => return false,
    }
    let last = key_of(page, form.key, width, count - 1);
    is_below(last, high)
}

/// The count of a sealed leaf: as `check_leaf`, but only the count and the first and the last key are looked at.
pub fn recheck_leaf(
    page: &Page,
    form: Form,
    least: usize,
    low: &[u8],
    high: &[u8],
) -> Result<usize, Rule>
    requires least { 1 ≤ least }
    requires low { length low.now ≡ form.key }
    requires high { 0 < length high.now → length high.now ≡ form.key }
    requires sealed { IsSound (record { map = form.map; key = form.key; value = form.value; level = 0 }) page.now }
    ensures count { IfOk result (λ n. n ≡ count_of page.now) }
    ensures sound { IfOk result (λ n. IsLeaf form least page.now) }
    ensures order { IfOk result (λ n. IsWithin (number low.now) (upper_of form.key high.now) (rows_in form page.now)) }
    ensures breaks { IfErr result (λ rule. BreaksLeaf rule form least (number low.now) (upper_of form.key high.now) page.now) }
{
    let count = count(page);
    if count < least {
        return Err(Rule::Fill);
    }
    if !has_bounded_rows(page, form, count, low, high) {
        return Err(Rule::Order);
    }
    Ok(count)
}

/// The count of a sealed inner page: as `check_inner`, but only the count, the second and the last key are looked at.
pub fn recheck_inner(
    page: &Page,
    form: Form,
    least: usize,
    level: u8,
    low: &[u8],
    high: &[u8],
) -> Result<usize, Rule>
    requires least { 2 ≤ least }
    requires level { 0 < level }
    requires low { length low.now ≡ form.key }
    requires high { 0 < length high.now → length high.now ≡ form.key }
    requires sealed { IsSound (record { map = form.map; key = form.key; value = form.value; level = level }) page.now }
    ensures count { IfOk result (λ n. n ≡ count_of page.now) }
    ensures sound { IfOk result (λ n. IsInner form least level page.now) }
    ensures order { IfOk result (λ n. IsOrdered form (number low.now) (upper_of form.key high.now) page.now) }
    ensures breaks { IfErr result (λ rule. BreaksInner rule form least level (number low.now) (upper_of form.key high.now) page.now) }
{
    let count = count(page);
    if count < least {
        return Err(Rule::Fill);
    }
    if !has_bounded_entries(page, form, count, low, high) {
        return Err(Rule::Order);
    }
    Ok(count)
}

/// The count of a leaf that isn't known to be sound; after `Ok` it is.
pub fn check_new_leaf(
    page: &Page,
    form: Form,
    least: usize,
    low: &[u8],
    high: &[u8],
) -> Result<usize, Rule>
    requires least { 1 ≤ least }
    requires low { length low.now ≡ form.key }
    requires high { 0 < length high.now → length high.now ≡ form.key }
    ensures count { IfOk result (λ n. n ≡ count_of page.now) }
    ensures sound { IfOk result (λ n. IsLeaf form least page.now) }
    ensures sealed { IfOk result (λ n. IsSound (record { map = form.map; key = form.key; value = form.value; level = 0 }) page.now) }
    ensures order { IfOk result (λ n. IsWithin (number low.now) (upper_of form.key high.now) (rows_in form page.now)) }
    ensures breaks { IfErr result (λ rule. BreaksLeaf rule form least (number low.now) (upper_of form.key high.now) page.now) }
{
    match check_leaf(page, form, least, low, high) {
        Ok(count) => Ok(count),
        Err(rule) => Err(rule),
    }
}

/// The count of an inner page that isn't known to be sound; after `Ok` it is.
pub fn check_new_inner(
    page: &Page,
    form: Form,
    least: usize,
    level: u8,
    low: &[u8],
    high: &[u8],
) -> Result<usize, Rule>
    requires least { 2 ≤ least }
    requires level { 0 < level }
    requires low { length low.now ≡ form.key }
    requires high { 0 < length high.now → length high.now ≡ form.key }
    ensures count { IfOk result (λ n. n ≡ count_of page.now) }
    ensures sound { IfOk result (λ n. IsInner form least level page.now) }
    ensures sealed { IfOk result (λ n. IsSound (record { map = form.map; key = form.key; value = form.value; level = level }) page.now) }
    ensures order { IfOk result (λ n. IsOrdered form (number low.now) (upper_of form.key high.now) page.now) }
    ensures breaks { IfErr result (λ rule. BreaksInner rule form least level (number low.now) (upper_of form.key high.now) page.now) }
{
    match check_inner(page, form, least, level, low, high) {
        Ok(count) => Ok(count),
        Err(rule) => Err(rule),
    }
}
