//! The pages of a table in the order of their numbers.
ghost use Rattle.std.specs.Prelude.{◌≡◌, ◌+◌, ◌≤◌, ℕ, [], IsTrue, length};
ghost use Rattle.std.specs.BTreeMap.{IsOrdered};
ghost use Rattle.std.specs.Ordering.{nat_cmp};
ghost use Rattle.indexmap.specs.IndexMap.{spare};
ghost use Rattle.page_cache.specs.Pages.{first_page, page_in};
ghost use Rattle.page_cache.specs.Rooms.{ordered_page};

use crate::table::{PageTable, pop, put_one};
use page_face::Page;
use std::collections::BTreeMap;

/// Moves the pages of a table into an ordered map, and returns whether there was memory for all of them.
///
/// The page for which there was no memory goes into `left`, which has room, and the others stay. Costs a search of the map for each page.
pub fn put_in_order(
    table: &mut PageTable,
    ordered: &mut BTreeMap<u32, Box<Page>>,
    left: &mut PageTable,
) -> bool
    requires room { length table.old.entries + length ordered.old.entries ≤ spare left.old }
    requires ordered { IsOrdered nat_cmp ordered.old }
    ensures together { (n : ℕ) → first_page (page_in table.new n) (first_page (ordered_page ordered.new n) (page_in left.new n))
        ≡ first_page (page_in table.old n) (first_page (ordered_page ordered.old n) (page_in left.old n)) }
    ensures all { IsTrue result → (table.new.entries ≡ []) × (left.new ≡ left.old) }
    ensures room { length table.new.entries + length ordered.new.entries ≤ spare left.new }
    ensures len { length table.new.entries + (length ordered.new.entries + length left.new.entries)
        ≤ length table.old.entries + (length ordered.old.entries + length left.old.entries) }
    ensures ordered { IsOrdered nat_cmp ordered.new }
{
    while let Some((number, page)) = pop(table) {
        match ordered.insert(number, page) {
            Ok(_) => {}
            Err(failed) => {
                let (number, page) = failed.value;
                put_one(left, number, page);
                return false;
            }
        }
    }
    true
}

/// Moves the pages of an ordered map back into a table that has room for them, replacing those with the same numbers.
/// Costs a look-up for each. Takes no memory.
pub fn put_back(table: &mut PageTable, ordered: &mut BTreeMap<u32, Box<Page>>)
    requires room { length ordered.old.entries ≤ spare table.old }
    ensures moved { (n : ℕ) → page_in table.new n ≡ first_page (ordered_page ordered.old n) (page_in table.old n) }
    ensures room { spare table.old ≤ spare table.new + length ordered.old.entries }
    ensures len { length table.new.entries ≤ length table.old.entries + length ordered.old.entries }
{
    while let Some((number, page)) = ordered.pop_first() {
        put_one(table, number, page);
    }
}
