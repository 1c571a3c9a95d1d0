//! Rooms for pages in the order of their numbers, so that putting pages in order takes no memory.
ghost use Rattle.std.specs.Prelude.{◌≡◌, ◌≢◌, [], ℕ, List, None, Some, IsSome, OnOk, IfErr};
ghost use Rattle.std.specs.BTreeMap.{get, IsOrdered};
ghost use Rattle.std.specs.Ordering.{nat_cmp};
ghost use Rattle.page_cache.specs.Pairs.{bytes_at, pairs_of, room_of};
ghost use Rattle.page_cache.specs.Pages.{first_page, page_in};
ghost use Rattle.page_cache.specs.Rooms.{HasRoomFor, boxed, room_page};

use crate::cache::Cache;
use crate::table::{PageTable, pop};
use page_face::{Page, PageFault};
use std::collections::BTreeMap;

/// Takes the memory for the rooms of a table's pages, and leaves the pages that are in rooms.
///
/// Refuses `Memory`. Costs one or two searches of the rooms for each page.
pub fn make_room(
    rooms: &mut BTreeMap<u32, Option<Box<Page>>>,
    table: &PageTable,
) -> Result<(), PageFault>
    requires ordered { IsOrdered nat_cmp rooms.old }
    ensures kept { (n : ℕ) → room_page rooms.new n ≡ room_page rooms.old n }
    ensures room { OnOk result (HasRoomFor table.now rooms.new) }
    ensures others { (n : ℕ) → IsSome (get nat_cmp rooms.old n) → IsSome (get nat_cmp rooms.new n) }
    ensures ordered { IsOrdered nat_cmp rooms.new }
    ensures memory { IfErr result (λ fault. fault ≡ PageFault.Memory) }
{
    for number in table.keys() {
        add_room(rooms, *number)?;
    }
    Ok(())
}

// Takes the memory for one room.
fn add_room(rooms: &mut BTreeMap<u32, Option<Box<Page>>>, number: u32) -> Result<(), PageFault>
    requires ordered { IsOrdered nat_cmp rooms.old }
    ensures kept { (n : ℕ) → room_page rooms.new n ≡ room_page rooms.old n }
    ensures room { OnOk result (IsSome (get nat_cmp rooms.new number)) }
    ensures others { (n : ℕ) → IsSome (get nat_cmp rooms.old n) → IsSome (get nat_cmp rooms.new n) }
    ensures ordered { IsOrdered nat_cmp rooms.new }
    ensures memory { IfErr result (λ fault. fault ≡ PageFault.Memory) }
{
    if rooms.contains_key(&number) {
        return Ok(());
    }
    let Ok(_) = rooms.insert(number, None) else {
        return Err(PageFault::Memory);
    };
    Ok(())
}

/// Moves the pages of a table into their rooms, and leaves the table empty. Costs a search of the rooms for each. Takes no memory.
pub fn fill(rooms: &mut BTreeMap<u32, Option<Box<Page>>>, table: &mut PageTable)
    requires room { HasRoomFor table.old rooms.old }
    requires ordered { IsOrdered nat_cmp rooms.old }
    ensures filled { (n : ℕ) → room_page rooms.new n ≡ first_page (page_in table.old n) (room_page rooms.old n) }
    ensures empty { table.new.entries ≡ [] }
    ensures ordered { IsOrdered nat_cmp rooms.new }
{
    while let Some((number, page)) = pop(table) {
        fill_one(rooms, number, page);
    }
}

// Puts a page into its room.
fn fill_one(rooms: &mut BTreeMap<u32, Option<Box<Page>>>, number: u32, page: Box<Page>)
    requires room { IsSome (get nat_cmp rooms.old number) }
    ensures here { get nat_cmp rooms.new number ≡ Some (Some page) }
    ensures others { (n : ℕ) → n ≢ number → get nat_cmp rooms.new n ≡ get nat_cmp rooms.old n }
    ensures ordered { IsOrdered nat_cmp rooms.new }
{
    if let Some(room) = rooms.get_mut(&number) {
        *room = Some(page);
    }
}

/// Moves the pages in the rooms into the cache, replacing older images of them, and leaves no room.
///
/// Pages for which the cache has no room are dropped. Costs a look-up in the cache for each page.
pub fn retire(rooms: &mut BTreeMap<u32, Option<Box<Page>>>, cache: &mut Cache)
    requires ordered { IsOrdered nat_cmp rooms.old }
    ensures empty { rooms.new.entries ≡ [] }
    ensures ordered { IsOrdered nat_cmp rooms.new }
    ensures shrinks { (n : ℕ) (page : List ℕ) → bytes_at n (pairs_of cache.new) ≡ Some page
        → first_page (room_page rooms.old n) (bytes_at n (pairs_of cache.old)) ≡ Some page }
    ensures room { room_of cache.new ≡ room_of cache.old }
{
    while let Some((number, page)) = rooms.pop_first() {
        retire_one(cache, number, page);
    }
}

// Moves one page into the cache.
fn retire_one(cache: &mut Cache, number: u32, page: Option<Box<Page>>)
    ensures here { (held : List ℕ) → bytes_at number (pairs_of cache.new) ≡ Some held → first_page (boxed page) (bytes_at number (pairs_of cache.old)) ≡ Some held }
    ensures others { (n : ℕ) (held : List ℕ) → n ≢ number → bytes_at n (pairs_of cache.new) ≡ Some held → bytes_at n (pairs_of cache.old) ≡ Some held }
    ensures room { room_of cache.new ≡ room_of cache.old }
{
    let Some(page) = page else {
        return;
    };
    // Running out of memory is no fault: it happens only if no older image of the page is cached.
    let _kept = cache.keep_boxed(number, page);
}
