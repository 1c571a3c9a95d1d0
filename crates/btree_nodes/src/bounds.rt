//! The bounds of a page's keys. A lower bound is a key. An upper bound is a key too, or empty if there is none.
ghost use Rattle.std.specs.Prelude.{◌≡◌, ◌↔◌, ℕ, ◌+◌, ◌*◌, ◌<◌, ◌≤◌, length, take, drop, IsTrue};
ghost use Rattle.page_face.specs.Number.{number};
ghost use Rattle.std.specs.Int.{from_be_bytes, w32};
ghost use Rattle.page_face.specs.Nodes.{count_of};
ghost use Rattle.btree_nodes.specs.Nodes.{entries_in};
ghost use Rattle.btree_nodes.specs.Tree.{IsPlaceFor};
ghost use Rattle.btree_nodes.specs.Bounds.{upper_of, low_at, high_at, child_of};

use crate::{Form, compare, key_of};
use page_face::Page;
use std::cmp::Ordering;

/// Whether a key is below an upper bound.
pub fn is_below(key: &[u8], high: &[u8]) -> bool
    requires { 0 < length high.now → length high.now ≡ length key.now }
    ensures { IsTrue result ↔ number key.now < upper_of (length key.now) high.now }
{
    if high.is_empty() {
        return true;
    }
    match compare(key, high) {
        Ordering::Less => true,
        _ => false,
    }
}

// The page's number in the four bytes from this offset on.
fn number_at(page: &Page, from: usize) -> u32
    requires { from + 4 ≤ 4096 }
    ensures { result ≡ from_be_bytes w32 (take 4 (drop from page.now)) }
{
    u32::from_be_bytes([page[from], page[from + 1], page[from + 2], page[from + 3]])
}

/// The page that the entry at this place of an inner page names.
pub fn child_at(page: &Page, form: Form, at: usize) -> u32
    requires at { at < count_of page.now }
    requires fits { 16 + (form.key + 4) * count_of page.now ≤ 4096 }
    ensures { result ≡ child_of form page.now at }
{
    number_at(page, 16 + (form.key + 4) * at + form.key)
}

/// The lower bound of the child at this place, if the page's own one is `low`.
pub fn lower<'a>(page: &'a Page, form: Form, at: usize, low: &'a [u8]) -> &'a [u8]
    requires at { at < count_of page.now }
    requires fits { 16 + (form.key + 4) * count_of page.now ≤ 4096 }
    requires low { length low.now ≡ form.key }
    ensures is { number result.now ≡ low_at form page.now (number low.now) at }
    ensures from { (key : ℕ) → IsPlaceFor (entries_in form page.now) key at → number low.now ≤ key → number result.now ≤ key }
    ensures length { length result.now ≡ form.key }
{
    if at == 0 {
        return low;
    }
    key_of(page, form.key, form.key + 4, at)
}

/// The upper bound of the child at this place of an inner page with `count` entries, if the page's own one is `high`.
pub fn upper<'a>(page: &'a Page, form: Form, count: usize, at: usize, high: &'a [u8]) -> &'a [u8]
    requires at { at < count }
    requires count { count ≡ count_of page.now }
    requires fits { 16 + (form.key + 4) * count ≤ 4096 }
    requires high { 0 < length high.now → length high.now ≡ form.key }
    ensures is { upper_of form.key result.now ≡ high_at form page.now (upper_of form.key high.now) at }
    ensures to { (key : ℕ) → IsPlaceFor (entries_in form page.now) key at → key < upper_of form.key high.now → key < upper_of form.key result.now }
    ensures length { 0 < length result.now → length result.now ≡ form.key }
{
    if at + 1 == count {
        return high;
    }
    key_of(page, form.key, form.key + 4, at + 1)
}
