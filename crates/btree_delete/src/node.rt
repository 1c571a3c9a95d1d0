//! A page in its place in a tree.
ghost use Rattle.std.specs.Prelude.{◌≡◌, ◌↔◌, ◌+◌, ◌*◌, ◌<◌, ◌≤◌, length, IfOk, IfErr, IsTrue};
ghost use Rattle.page_face.specs.Number.{number};
ghost use Rattle.page_face.specs.Cells.{key_at};
ghost use Rattle.page_face.specs.Nodes.{count_of};
ghost use Rattle.btree_nodes.specs.Nodes.{width_of};
ghost use Rattle.btree_nodes.specs.Bounds.{upper_of};
ghost use Rattle.btree_delete.specs.Removal.{BreaksAt};

use btree_nodes::{Form, check_inner, check_leaf, compare, key_of, place};
use page_face::{Damage, Page, PageFault, Rule};
use std::cmp::Ordering;

/// Whether the row at this place of a leaf has the key.
#[tactic(auto, using(btree_nodes::proofs::Spots::fits_at))]
pub fn has_key(page: &Page, form: Form, count: usize, at: usize, key: &[u8]) -> bool
    requires fits { 16 + (form.key + form.value) * count ≤ 4096 }
    requires key { length key.now ≡ form.key }
    ensures { IsTrue result ↔ ((at < count) × (key_at form.key (form.key + form.value) page.now at ≡ number key.now)) }
{
    if at >= count {
        return false;
    }
    match compare(key_of(page, form.key, form.key + form.value, at), key) {
        Ordering::Equal => true,
        _ => false,
    }
}

/// The count of a page of this level, in its place in a tree.
///
/// Refuses the rule that the page breaks there.
pub fn check_child(
    page: &Page,
    form: Form,
    least: usize,
    level: u8,
    low: &[u8],
    high: &[u8],
) -> Result<usize, Rule>
    requires least { 2 ≤ least }
    requires low { length low.now ≡ form.key }
    requires high { 0 < length high.now → length high.now ≡ form.key }
    ensures count { IfOk result (λ n. (n ≡ count_of page.now) × (least ≤ n) × (16 + width_of form level * n ≤ 4096)) }
    ensures breaks { IfErr result (λ rule. BreaksAt rule form least level (number low.now) (upper_of form.key high.now) page.now) }
{
    if level == 0 {
        return check_leaf(page, form, least, low, high);
    }
    check_inner(page, form, least, level, low, high)
}
