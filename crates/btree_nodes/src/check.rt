//! Which rule a page of a map breaks.
ghost use Rattle.std.specs.Prelude.{◌≡◌, ◌↔◌, ◌+◌, ◌-◌, ◌*◌, ◌<◌, ◌≤◌, length, IfOk, IfErr, IsTrue};
ghost use Rattle.page_face.specs.Number.{number};
ghost use Rattle.btree_nodes.specs.Rows.{IsWithin};
ghost use Rattle.page_face.specs.Nodes.{IsNode, count_of};
ghost use Rattle.btree_nodes.specs.Nodes.{IsLeaf, IsInner, rows_in, half_of_width, half_of, least_of_root};
ghost use Rattle.btree_nodes.specs.Tree.{level_of};
ghost use Rattle.btree_nodes.specs.Bounds.{upper_of};
ghost use Rattle.btree_nodes.specs.Damages.{Breaks, BreaksLeaf, BreaksInner, IsOrdered};

use crate::bounds::is_below;
use crate::{Form, Shape, ascends, compare, key_of};
use page_face::{Page, Rule, are_zero};
use std::cmp::Ordering;

// Whether a key is the least one, all of whose bytes are zero.
fn is_least(key: &[u8]) -> bool
    ensures { IsTrue result ↔ (number key.now ≡ 0) }
{
    are_zero(key)
}

/// Returns the number of cells in a page's header.
#[tactic(auto, unfolding(page_face::specs::Nodes::count_of))]
pub fn count(page: &Page) -> usize
    ensures is { result ≡ count_of page.now }
    ensures small { result < 65536 }
{
    u16::from_be_bytes([page[2], page[3]]) as usize
}

/// The level in a page's header.
pub fn level(page: &Page) -> u8
    ensures { result ≡ level_of page.now }
{
    page[4]
}

#[tactic(auto, unfolding(crate::specs::Nodes::half_of_width))]
/// Half of the greatest number of cells of this width in a page, rounded down.
pub fn half(width: usize) -> usize
    requires some { 1 ≤ width }
    requires short { width ≤ 1020 }
    ensures is { result ≡ half_of_width width }
    ensures least { 2 ≤ result }
{
    4080 / width / 2
}

/// The least number of cells of a page of this level that isn't the root.
pub fn least_at(form: Form, level: u8) -> usize
    ensures is { result ≡ half_of form level }
    ensures some { least_of_root level ≤ result }
{
    if level == 0 {
        half(form.key + form.value)
    } else {
        half(form.key + 4)
    }
}

/// The least number of cells of a root of this level.
pub fn root_least(level: u8) -> usize
    ensures { result ≡ least_of_root level }
{
    if level == 0 { 1 } else { 2 }
}

// The count of a page of this shape with at least `least` cells, whatever their order.
fn check(page: &Page, shape: Shape, least: usize) -> Result<usize, Rule>
    requires some { 1 ≤ shape.width }
    requires short { shape.width ≤ 1020 }
    requires least { 1 ≤ least }
    ensures sound { IfOk result (λ n. (n ≡ count_of page.now) × IsNode shape.number shape.kind shape.level shape.width least page.now) }
    ensures breaks { IfErr result (λ rule. Breaks rule shape.number shape.kind shape.level shape.width least (Unit {0}) page.now) }
{
    if page[0] != shape.kind {
        return Err(Rule::Kind);
    }
    if page[1] != shape.number {
        return Err(Rule::Kind);
    }
    if page[4] != shape.level {
        return Err(Rule::Level);
    }
    let count = count(page);
    if count < least {
        return Err(Rule::Fill);
    }
    if 16 + shape.width * count > 4096 {
        return Err(Rule::Fill);
    }
    if !are_zero(&page[5..16]) {
        return Err(Rule::Spare);
    }
    if !are_zero(&page[16 + shape.width * count..]) {
        return Err(Rule::Spare);
    }
    Ok(count)
}

// Whether the rows of a leaf ascend strictly between the bounds.
#[tactic(auto, using(crate::proofs::Spots::fits_at))]
fn has_ordered_rows(page: &Page, form: Form, count: usize, low: &[u8], high: &[u8]) -> bool
    requires count { count ≡ count_of page.now }
    requires some { 0 < count }
    requires fits { 16 + (form.key + form.value) * count ≤ 4096 }
    requires low { length low.now ≡ form.key }
    requires high { 0 < length high.now → length high.now ≡ form.key }
    ensures { IsTrue result ↔ IsWithin (number low.now) (upper_of form.key high.now) (rows_in form page.now) }
{
    let width = form.key + form.value;
    let first = key_of(page, form.key, width, 0);
    if let Ordering::Less = compare(first, low) {
        return false;
    }
    if !is_below(key_of(page, form.key, width, count - 1), high) {
        return false;
    }
    ascends(page, form.key, width, 0, count)
}

// Whether the first key of an inner page is all zeros and the others ascend strictly between the bounds.
#[tactic(auto, using(crate::proofs::Spots::fits_at))]
fn has_ordered_entries(page: &Page, form: Form, count: usize, low: &[u8], high: &[u8]) -> bool
    requires count { count ≡ count_of page.now }
    requires some { 1 < count }
    requires fits { 16 + (form.key + 4) * count ≤ 4096 }
    requires low { length low.now ≡ form.key }
    requires high { 0 < length high.now → length high.now ≡ form.key }
    ensures { IsTrue result ↔ IsOrdered form (number low.now) (upper_of form.key high.now) page.now }
{
    let width = form.key + 4;
    if !is_least(key_of(page, form.key, width, 0)) {
        return false;
    }
    match compare(low, key_of(page, form.key, width, 1)) {
        Ordering::Less => {}
        _ => return false,
    }
    if !is_below(key_of(page, form.key, width, count - 1), high) {
        return false;
    }
    ascends(page, form.key, width, 1, count)
}

/// The count of a leaf with at least `least` rows, whose keys keep to the bounds. An empty `high` is no bound.
///
/// Refuses the rule that the page breaks there: `Kind`, `Level`, `Fill`, `Spare`, `Order`, in this order. Costs a
/// comparison for each row.
pub fn check_leaf(
    page: &Page,
    form: Form,
    least: usize,
    low: &[u8],
    high: &[u8],
) -> Result<usize, Rule>
    requires least { 1 ≤ least }
    requires low { length low.now ≡ form.key }
    requires high { 0 < length high.now → length high.now ≡ form.key }
    ensures count { IfOk result (λ n. n ≡ count_of page.now) }
    ensures sound { IfOk result (λ n. IsLeaf form least page.now) }
    ensures order { IfOk result (λ n. IsWithin (number low.now) (upper_of form.key high.now) (rows_in form page.now)) }
    ensures breaks { IfErr result (λ rule. BreaksLeaf rule form least (number low.now) (upper_of form.key high.now) page.now) }
{
    let count = check(page, form.leaf(), least)?;
    if !has_ordered_rows(page, form, count, low, high) {
        return Err(Rule::Order);
    }
    Ok(count)
}

/// The count of an inner page of this level with at least `least` entries, whose keys keep to the bounds. An empty
/// `high` is no bound.
///
/// Refuses the rule that the page breaks there: `Kind`, `Level`, `Fill`, `Spare`, `Order`, in this order. Costs a
/// comparison for each entry.
pub fn check_inner(
    page: &Page,
    form: Form,
    least: usize,
    level: u8,
    low: &[u8],
    high: &[u8],
) -> Result<usize, Rule>
    requires least { 2 ≤ least }
    requires low { length low.now ≡ form.key }
    requires high { 0 < length high.now → length high.now ≡ form.key }
    ensures count { IfOk result (λ n. n ≡ count_of page.now) }
    ensures sound { IfOk result (λ n. IsInner form least level page.now) }
    ensures order { IfOk result (λ n. IsOrdered form (number low.now) (upper_of form.key high.now) page.now) }
    ensures breaks { IfErr result (λ rule. BreaksInner rule form least level (number low.now) (upper_of form.key high.now) page.now) }
{
    let count = check(page, form.inner(level), least)?;
    if !has_ordered_entries(page, form, count, low, high) {
        return Err(Rule::Order);
    }
    Ok(count)
}
