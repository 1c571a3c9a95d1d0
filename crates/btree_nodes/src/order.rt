//! The order of a page's keys.
ghost use Rattle.std.specs.Prelude.{◌↔◌, ◌<◌, ◌≤◌, ◌+◌, ◌*◌, IsTrue};
ghost use Rattle.page_face.specs.Cells.{key_at, IsAscending};

use crate::key::{compare, key_of};
use crate::pairs::ascends_by_pairs;
use page_face::Page;
use std::cmp::Ordering;

// Whether the key at a place is less than that at another one.
fn is_less(page: &Page, key: usize, width: usize, first: usize, second: usize) -> bool
    requires wide { key ≤ width }
    requires first { 16 + width * first + width ≤ 4096 }
    requires second { 16 + width * second + width ≤ 4096 }
    ensures { IsTrue result ↔ key_at key width page.now first < key_at key width page.now second }
{
    match compare(
        key_of(page, key, width, first),
        key_of(page, key, width, second),
    ) {
        Ordering::Less => true,
        _ => false,
    }
}

// Whether the keys ascend, found by a comparison of each key's bytes.
fn ascends_by_bytes(page: &Page, key: usize, width: usize, from: usize, count: usize) -> bool
    requires wide { key ≤ width }
    requires fits { 16 + width * count ≤ 4096 }
    requires some { 1 ≤ count }
    ensures { IsTrue result ↔ IsAscending key width page.now from count }
{
    for at in from..count - 1 {
        if !is_less(page, key, width, at, at + 1) {
            return false;
        }
    }
    true
}

/// Whether the keys of the cells from `from` up to `count` ascend strictly. Costs two loads a key if keys have 8 to 16 bytes.
pub fn ascends(page: &Page, key: usize, width: usize, from: usize, count: usize) -> bool
    requires wide { key ≤ width }
    requires fits { 16 + width * count ≤ 4096 }
    requires some { 1 ≤ count }
    ensures { IsTrue result ↔ IsAscending key width page.now from count }
{
    if 8 <= key && key <= 16 && from < count {
        return ascends_by_pairs(page, key, width, from, count);
    }
    ascends_by_bytes(page, key, width, from, count)
}
