//! The page that was looked at last, in its place in a tree.
ghost use Rattle.std.specs.Prelude.{◌≡◌, ◌+◌, ◌*◌, ◌<◌, ◌≤◌, length, take, drop, IfOk, IfErr, Some, None, if◌then◌else◌};
ghost use Rattle.page_face.specs.Number.{number};
ghost use Rattle.btree_nodes.specs.Rows.{IsWithin, lookup};
ghost use Rattle.page_face.specs.Nodes.{count_of};
ghost use Rattle.btree_nodes.specs.Nodes.{IsLeaf, IsInner, rows_in, entries_in};
ghost use Rattle.btree_nodes.specs.Tree.{IsPlaceFor};
ghost use Rattle.btree_nodes.specs.Bounds.{upper_of};
ghost use Rattle.btree_nodes.specs.Damages.{BreaksLeaf, BreaksInner, IsOrdered};
ghost use Rattle.page_face.specs.Calls.{Reads};
ghost use Rattle.btree_nodes.specs.Steps.{StepsTo};

use crate::narrowing::Bounds;
use crate::recheck::{check_new_inner, check_new_leaf, recheck_inner, recheck_leaf, seal_of};
use crate::{Form, child_at, compare, key_of, place};
use page_face::{Page, Pages, Rule};
use std::cmp::Ordering;

/// The count of the leaf looked at, whose keys keep to the bounds. It is checked whole once, and then sealed.
pub fn leaf_count<P: Pages>(
    pages: &mut P,
    form: Form,
    least: usize,
    low: &[u8],
    high: &[u8],
) -> Result<usize, Rule>
    requires least { 1 ≤ least }
    requires low { length low.now ≡ form.key }
    requires high { 0 < length high.now → length high.now ≡ form.key }
    ensures count { IfOk result (λ n. n ≡ count_of (P.looked pages.old)) }
    ensures sound { IfOk result (λ n. IsLeaf form least (P.looked pages.old)) }
    ensures order { IfOk result (λ n. IsWithin (number low.now) (upper_of form.key high.now) (rows_in form (P.looked pages.old))) }
    ensures breaks { IfErr result (λ rule. BreaksLeaf rule form least (number low.now) (upper_of form.key high.now) (P.looked pages.old)) }
    ensures looked { P.looked pages.new ≡ P.looked pages.old }
    ensures asked { P.asked pages.new ≡ P.asked pages.old }
    ensures frame { Reads P.Pages pages.old pages.new }
    ensures faults { P.faults pages.new ≡ P.faults pages.old }
{
    let seal = seal_of(form, 0);
    if pages.is_sealed(seal) {
        return recheck_leaf(pages.looked(), form, least, low, high);
    }
    match check_new_leaf(pages.looked(), form, least, low, high) {
        Ok(count) => {
            pages.seal(seal);
            Ok(count)
        }
        Err(rule) => Err(rule),
    }
}

/// The count of the inner page looked at, whose keys keep to the bounds. It is checked whole once, and then sealed.
pub fn inner_count<P: Pages>(
    pages: &mut P,
    form: Form,
    least: usize,
    level: u8,
    low: &[u8],
    high: &[u8],
) -> Result<usize, Rule>
    requires least { 2 ≤ least }
    requires level { 0 < level }
    requires low { length low.now ≡ form.key }
    requires high { 0 < length high.now → length high.now ≡ form.key }
    ensures count { IfOk result (λ n. n ≡ count_of (P.looked pages.old)) }
    ensures sound { IfOk result (λ n. IsInner form least level (P.looked pages.old)) }
    ensures order { IfOk result (λ n. IsOrdered form (number low.now) (upper_of form.key high.now) (P.looked pages.old)) }
    ensures breaks { IfErr result (λ rule. BreaksInner rule form least level (number low.now) (upper_of form.key high.now) (P.looked pages.old)) }
    ensures looked { P.looked pages.new ≡ P.looked pages.old }
    ensures asked { P.asked pages.new ≡ P.asked pages.old }
    ensures frame { Reads P.Pages pages.old pages.new }
    ensures faults { P.faults pages.new ≡ P.faults pages.old }
{
    let seal = seal_of(form, level);
    if pages.is_sealed(seal) {
        return recheck_inner(pages.looked(), form, least, level, low, high);
    }
    match check_new_inner(pages.looked(), form, least, level, low, high) {
        Ok(count) => {
            pages.seal(seal);
            Ok(count)
        }
        Err(rule) => Err(rule),
    }
}

/// Copies the value of the row at this place of a leaf into `value`.
pub fn copy_value(page: &Page, form: Form, at: usize, value: &mut [u8])
    requires value { length value.old ≡ form.value }
    requires fits { 16 + (form.key + form.value) * at + (form.key + form.value) ≤ 4096 }
    ensures { value.new ≡ drop form.key (take (form.key + form.value) (drop (16 + (form.key + form.value) * at) page.now)) }
{
    let from = 16 + (form.key + form.value) * at + form.key;
    value.copy_from_slice(&page[from..from + form.value]);
}

/// Whether a leaf of `count` rows has a row at the key, whose value is then left in `value`.
///
/// Searches the rows by halves in the page itself. Looks at no other page, and copies only the value.
#[tactic(auto, using(crate::proofs::Spots::fits_at))]
pub fn row_in(
    page: &Page,
    form: Form,
    count: usize,
    low: &[u8],
    high: &[u8],
    key: &[u8],
    value: &mut [u8],
) -> bool
    requires count { count ≡ count_of page.now }
    requires fits { 16 + (form.key + form.value) * count ≤ 4096 }
    requires order { IsWithin (number low.now) (upper_of form.key high.now) (rows_in form page.now) }
    requires key { length key.now ≡ form.key }
    requires from { number low.now ≤ number key.now }
    requires to { number key.now < upper_of form.key high.now }
    requires value { length value.old ≡ form.value }
    ensures { lookup (number key.now) (rows_in form page.now) ≡ (if result then Some value.new else None) }
{
    let width = form.key + form.value;
    let at = place(page, key, false, width, count);
    if at == count {
        return false;
    }
    match compare(key_of(page, form.key, width, at), key) {
        Ordering::Equal => {
            copy_value(page, form, at, value);
            true
        }
        _ => false,
    }
}

/// The place of the entry that a key belongs to, in an inner page of `count` entries.
pub fn place_in(page: &Page, form: Form, count: usize, least: usize, level: u8, key: &[u8]) -> usize
    requires count { count ≡ count_of page.now }
    requires sound { IsInner form least level page.now }
    requires key { length key.now ≡ form.key }
    ensures place { IsPlaceFor (entries_in form page.now) (number key.now) result }
    ensures within { result < count }
{
    let width = form.key + 4;
    let at = place(page, key, true, width, count);
    at - 1
}

/// The child of an inner page that a key belongs to, whose bounds are then in `bounds`.
pub fn descend(
    page: &Page,
    form: Form,
    count: usize,
    least: usize,
    level: u8,
    bounds: &mut Bounds,
    key: &[u8],
) -> u32
    requires count { count ≡ count_of page.now }
    requires sound { IsInner form least level page.now }
    requires key { length key.now ≡ form.key }
    requires top { 0 < bounds.old.top → bounds.old.top ≡ form.key }
    ensures steps { StepsTo form page.now (number key.now)
        (number (take form.key bounds.old.low)) (upper_of form.key (take bounds.old.top bounds.old.high)) result
        (number (take form.key bounds.new.low)) (upper_of form.key (take bounds.new.top bounds.new.high)) }
    ensures top { 0 < bounds.new.top → bounds.new.top ≡ form.key }
{
    let at = place_in(page, form, count, least, level, key);
    bounds.narrow(page, form, count, at);
    child_at(page, form, at)
}

/// The child of the page looked at that a key belongs to.
///
/// Refuses the rule that the page breaks between these bounds.
pub fn step_down<P: Pages>(
    pages: &mut P,
    form: Form,
    least: usize,
    level: u8,
    bounds: &mut Bounds,
    key: &[u8],
) -> Result<u32, Rule>
    requires least { 2 ≤ least }
    requires level { 0 < level }
    requires key { length key.now ≡ form.key }
    requires top { 0 < bounds.old.top → bounds.old.top ≡ form.key }
    ensures steps { IfOk result (λ child. StepsTo form (P.looked pages.old) (number key.now)
        (number (take form.key bounds.old.low)) (upper_of form.key (take bounds.old.top bounds.old.high)) child
        (number (take form.key bounds.new.low)) (upper_of form.key (take bounds.new.top bounds.new.high))) }
    ensures sound { IfOk result (λ child. IsInner form least level (P.looked pages.old)) }
    ensures order { IfOk result (λ child. IsOrdered form (number (take form.key bounds.old.low)) (upper_of form.key (take bounds.old.top bounds.old.high)) (P.looked pages.old)) }
    ensures breaks { IfErr result (λ rule. BreaksInner rule form least level
        (number (take form.key bounds.old.low)) (upper_of form.key (take bounds.old.top bounds.old.high)) (P.looked pages.old)) }
    ensures top { 0 < bounds.new.top → bounds.new.top ≡ form.key }
    ensures asked { P.asked pages.new ≡ P.asked pages.old }
    ensures frame { Reads P.Pages pages.old pages.new }
    ensures faults { P.faults pages.new ≡ P.faults pages.old }
{
    match inner_count(
        pages,
        form,
        least,
        level,
        bounds.low(form),
        bounds.high(form),
    ) {
        Ok(count) => Ok(descend(pages.looked(), form, count, least, level, bounds, key)),
        Err(rule) => Err(rule),
    }
}
