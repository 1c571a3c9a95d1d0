//! Gathering the record of an overlay, and taking the memory that keeping its pages needs.
ghost use Rattle.std.specs.Prelude.{◌≡◌, ◌+◌, ◌*◌, ◌<◌, ◌≤◌, ◌-◌, ◌^◌, ℕ, IsSome, [], IfOk, OnOk, IfErr, length};
ghost use Rattle.std.specs.BTreeMap.{get, IsOrdered};
ghost use Rattle.std.specs.Ordering.{nat_cmp};
ghost use Rattle.page_cache.specs.Pages.{first_page, page_in, spare};
ghost use Rattle.page_cache.specs.Rooms.{HasRoomFor, ordered_page, room_page};
ghost use Rattle.page_store.specs.Held.{IsRecordOfTable};

use page_cache::{PageTable, make_room, move_all, put_back, put_in_order};
use page_face::{Page, PageFault};
use page_journal::Record;
use std::alloc::Global;
use std::collections::BTreeMap;

// Gathers the record of an overlay, page 0 among its pages, which are put in order for it and back again. Refuses `Memory`. Costs a search
// of an ordered map and two look-ups for each page, and a copy of it into the record.
pub(crate) fn gather(alloc: Global, overlay: &mut PageTable) -> Result<Record, PageFault>
    requires few { length overlay.old.entries < 2 ^ 32 - 1 }
    requires head { IsSome (page_in overlay.old 0) }
    ensures same { (n : ℕ) → page_in overlay.new n ≡ page_in overlay.old n }
    ensures few { length overlay.new.entries ≤ length overlay.old.entries }
    ensures gathered { IfOk result (λ gathered. IsRecordOfTable overlay.old gathered.bytes.items) }
    ensures size { IfOk result (λ gathered. length gathered.bytes.items ≤ 5 + 4100 * length overlay.old.entries) }
    ensures memory { IfErr result (λ fault. fault ≡ PageFault.Memory) }
{
    let Ok(mut left) = PageTable::with_capacity(alloc, overlay.len()) else {
        return Err(PageFault::Memory);
    };
    let mut ordered = BTreeMap::new(alloc);
    let gathered = gather_ordered(alloc, overlay, &mut ordered, &mut left);
    put_back(&mut left, &mut ordered);
    move_all(overlay, &mut left);
    *overlay = left;
    gathered
}

// Gathers the record, and leaves each page in the overlay, the ordered map or `left`.
fn gather_ordered(
    alloc: Global,
    overlay: &mut PageTable,
    ordered: &mut BTreeMap<u32, Box<Page>>,
    left: &mut PageTable,
) -> Result<Record, PageFault>
    requires few { length overlay.old.entries < 2 ^ 32 - 1 }
    requires head { IsSome (page_in overlay.old 0) }
    requires fresh { (ordered.old.entries ≡ []) × (left.old.entries ≡ []) }
    requires room { length overlay.old.entries ≤ spare left.old }
    requires ordered { IsOrdered nat_cmp ordered.old }
    ensures together { (n : ℕ) → first_page (page_in overlay.new n) (first_page (ordered_page ordered.new n) (page_in left.new n)) ≡ page_in overlay.old n }
    ensures room { length overlay.new.entries + length ordered.new.entries ≤ spare left.new }
    ensures len { length overlay.new.entries + (length ordered.new.entries + length left.new.entries) ≤ length overlay.old.entries }
    ensures gathered { IfOk result (λ gathered. IsRecordOfTable overlay.old gathered.bytes.items) }
    ensures size { IfOk result (λ gathered. length gathered.bytes.items ≤ 5 + 4100 * length overlay.old.entries) }
    ensures memory { IfErr result (λ fault. fault ≡ PageFault.Memory) }
{
    if !put_in_order(overlay, ordered, left) {
        return Err(PageFault::Memory);
    }
    match Record::gather(alloc, ordered) {
        Ok(gathered) => Ok(gathered),
        Err(_) => Err(PageFault::Memory),
    }
}

// Takes the memory for an overlay's pages among those of the journal, and for their rooms, and leaves the pages that are there. Refuses
// `Memory`.
pub(crate) fn take_room(
    rooms: &mut BTreeMap<u32, Option<Box<Page>>>,
    journal: &mut PageTable,
    overlay: &PageTable,
) -> Result<(), PageFault>
    requires ordered { IsOrdered nat_cmp rooms.old }
    ensures kept { (n : ℕ) → room_page rooms.new n ≡ room_page rooms.old n }
    ensures others { (n : ℕ) → IsSome (get nat_cmp rooms.old n) → IsSome (get nat_cmp rooms.new n) }
    ensures ordered { IsOrdered nat_cmp rooms.new }
    ensures same { journal.new.entries ≡ journal.old.entries }
    ensures rooms { OnOk result (HasRoomFor overlay.now rooms.new) }
    ensures spare { OnOk result (length overlay.now.entries ≤ spare journal.new) }
    ensures memory { IfErr result (λ fault. fault ≡ PageFault.Memory) }
{
    make_room(rooms, overlay)?;
    let Ok(()) = journal.reserve(overlay.len()) else {
        return Err(PageFault::Memory);
    };
    Ok(())
}
