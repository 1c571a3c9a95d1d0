//! Pages by their numbers.
ghost use Rattle.std.specs.Prelude.{◌≡◌, ◌≢◌, ◌+◌, ◌-◌, ◌^◌, ◌<◌, ◌≤◌, ℕ, None, Some, [], IsSome, IsTrue, IfSome, IfNone, OnOk, OnErr, IfErr, length, nat_eq, option_copied, suc};
ghost use Rattle.indexmap.specs.IndexMap.{Updates, get, spare};
ghost use Rattle.page_cache.specs.Pages.{IsSized, first_page, page_at, page_in};

use indexmap::IndexMap;
use page_face::{Page, PageFault};
use std::alloc::Global;

/// Pages by their numbers, each in a box of its own. A page is found by one look-up and then lent by its index.
pub type PageTable = IndexMap<u32, Box<Page>>;

// Whether the page is at an index. Costs no look-up.
#[inline(always)]
pub(crate) fn is_at(table: &PageTable, index: usize, number: u32) -> bool
    ensures { IsTrue result → IsSome (page_in table.now number) × (page_at table.now index ≡ page_in table.now number) }
{
    match table.get_index(index) {
        Some((found, _)) => *found == number,
        None => false,
    }
}

// The index of a page. Costs one look-up, and none in an empty table.
#[inline(always)]
pub(crate) fn index_of(table: &PageTable, number: u32) -> Option<usize>
    ensures none { IfNone result (page_in table.now number ≡ None) }
    ensures some { IfSome result (λ index. IsSome (page_in table.now number) × (page_at table.now index ≡ page_in table.now number)) }
{
    if table.is_empty() {
        return None;
    }
    match table.get_full(&number) {
        Some((index, _, _)) => Some(index),
        None => None,
    }
}

// The page at an index. Costs no look-up.
#[inline(always)]
pub(crate) fn page_of(table: &PageTable, index: usize) -> Option<&Page>
    ensures { option_copied result ≡ page_at table.now index }
{
    match table.get_index(index) {
        Some((_, page)) => Some(&**page),
        None => None,
    }
}

// Puts a page into a table of fewer than 2^32 - 1 pages, which then still has fewer. If memory runs out, the table is as it was.
pub(crate) fn put(
    alloc: Global,
    table: &mut PageTable,
    number: u32,
    bytes: &Page,
) -> Result<(), PageFault>
    requires few { length table.old.entries < 2 ^ 32 - 1 }
    requires sized { IsSized table.old }
    ensures put { OnOk result (page_in table.new number ≡ Some bytes.now) }
    ensures others { (n : ℕ) → n ≢ number → page_in table.new n ≡ page_in table.old n }
    ensures kept { OnErr result (table.new.entries ≡ table.old.entries) }
    ensures few { length table.new.entries < 2 ^ 32 - 1 }
    ensures sized { IsSized table.new }
    ensures memory { IfErr result (λ fault. fault ≡ PageFault.Memory) }
{
    if let Some(page) = table.get_mut(&number) {
        **page = *bytes;
        return Ok(());
    }
    if table.len() >= u32::MAX as usize - 1 {
        return Err(PageFault::Memory);
    }
    let Ok(page) = Box::new(alloc, *bytes) else {
        return Err(PageFault::Memory);
    };
    let Ok(_) = table.insert(number, page) else {
        return Err(PageFault::Memory);
    };
    Ok(())
}

// Takes out the page that was put in last.
pub(crate) fn pop(table: &mut PageTable) -> Option<(u32, Box<Page>)>
    ensures value { IfSome result (λ p. get nat_eq table.old p.0 ≡ Some p.1) }
    ensures updates { IfSome result (λ p. Updates nat_eq table.old table.new p.0 None) }
    ensures len { IfSome result (λ p. length table.old.entries ≡ suc (length table.new.entries)) }
    ensures empty { IfNone result (table.new.entries ≡ []) }
    ensures same { IfNone result (table.new.entries ≡ table.old.entries) }
{
    table.pop()
}

// Puts a page into a table that has room for it.
pub(crate) fn put_one(table: &mut PageTable, number: u32, page: Box<Page>)
    requires room { 0 < spare table.old }
    ensures updates { Updates nat_eq table.old table.new number (Some page) }
    ensures room { spare table.old ≤ spare table.new + 1 }
    ensures len { length table.new.entries ≤ length table.old.entries + 1 }
{
    let _put = table.insert(number, page);
}

/// Moves the pages of a table into another that has room for them, replacing those with the same numbers, and leaves the first one empty.
/// Costs two look-ups for each. Takes no memory.
pub fn move_all(from: &mut PageTable, to: &mut PageTable)
    requires room { length from.old.entries ≤ spare to.old }
    ensures moved { (n : ℕ) → page_in to.new n ≡ first_page (page_in from.old n) (page_in to.old n) }
    ensures empty { from.new.entries ≡ [] }
    ensures len { length to.new.entries ≤ length to.old.entries + length from.old.entries }
{
    while let Some((number, page)) = pop(from) {
        put_one(to, number, page);
    }
}
