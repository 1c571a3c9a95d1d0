//! Pages that are written or dropped, and their seals.
ghost use Rattle.std.specs.Prelude.{◌≡◌, ◌≢◌, ◌<◌, ◌-◌, ◌^◌, ℕ, Some, [], OnOk, OnErr, IfErr, length};
ghost use Rattle.page_cache.specs.declared.cache.Cache.{Cache as Cached};
ghost use Rattle.page_face.specs.Sound.{IsSound};
ghost use Rattle.page_cache.specs.Pages.{IsSized, PageTable as Table, page_in};
ghost use Rattle.page_cache.specs.Places.{AreTrue};

use crate::seals::Seals;
use crate::table;
use crate::table::PageTable;
use page_face::{Page, PageFault, Seal};
use std::alloc::Global;

/// Puts a page into an overlay of fewer than 2^32 - 1 pages, which then still has fewer. The page has no seal then.
///
/// Refuses `Memory`, and then the overlay is as before. Costs one or two look-ups and a copy of the page; a page that is there already is
/// written in place.
pub fn write(
    alloc: Global,
    overlay: &mut PageTable,
    seals: &mut Seals,
    number: u32,
    bytes: &Page,
) -> Result<(), PageFault>
    requires few { length overlay.old.entries < 2 ^ 32 - 1 }
    requires sized { IsSized overlay.old }
    ensures put { OnOk result (page_in overlay.new number ≡ Some bytes.now) }
    ensures others { (n : ℕ) → n ≢ number → page_in overlay.new n ≡ page_in overlay.old n }
    ensures kept { OnErr result (overlay.new.entries ≡ overlay.old.entries) }
    ensures few { length overlay.new.entries < 2 ^ 32 - 1 }
    ensures sized { IsSized overlay.new }
    ensures memory { IfErr result (λ fault. fault ≡ PageFault.Memory) }
    ensures sealed { (journal : Table) (cache : Cached) → AreTrue seals.old overlay.old journal cache → AreTrue seals.new overlay.new journal cache }
{
    seals.forget(number);
    table::put(alloc, overlay, number, bytes)
}

/// Puts a page that is sound into an overlay, as [`write`], and notes its seal, unless there is no memory for that.
///
/// Refuses `Memory`, and then the overlay is as before. Costs as much as `write`.
pub fn write_sealed(
    alloc: Global,
    overlay: &mut PageTable,
    seals: &mut Seals,
    number: u32,
    bytes: &Page,
    seal: Seal,
) -> Result<(), PageFault>
    requires few { length overlay.old.entries < 2 ^ 32 - 1 }
    requires sized { IsSized overlay.old }
    requires sound { IsSound seal bytes.now }
    ensures put { OnOk result (page_in overlay.new number ≡ Some bytes.now) }
    ensures others { (n : ℕ) → n ≢ number → page_in overlay.new n ≡ page_in overlay.old n }
    ensures kept { OnErr result (overlay.new.entries ≡ overlay.old.entries) }
    ensures few { length overlay.new.entries < 2 ^ 32 - 1 }
    ensures sized { IsSized overlay.new }
    ensures memory { IfErr result (λ fault. fault ≡ PageFault.Memory) }
    ensures sealed { (journal : Table) (cache : Cached) → AreTrue seals.old overlay.old journal cache → AreTrue seals.new overlay.new journal cache }
{
    match write(alloc, overlay, seals, number, bytes) {
        Ok(()) => {
            seals.note(number, seal);
            Ok(())
        }
        Err(fault) => Err(fault),
    }
}

/// Drops the pages of an overlay, and all seals with them, since what is held below the overlay was sealed before they were written.
/// If the overlay has no page, no seal is dropped.
pub fn clear(overlay: &mut PageTable, seals: &mut Seals)
    ensures empty { overlay.new.entries ≡ [] }
    ensures few { length overlay.new.entries < 2 ^ 32 - 1 }
    ensures sized { IsSized overlay.new }
    ensures sealed { (journal : Table) (cache : Cached) → AreTrue seals.old overlay.old journal cache → AreTrue seals.new overlay.new journal cache }
{
    if overlay.is_empty() {
        return;
    }
    overlay.clear();
    seals.clear();
}
