//! The place of a page in memory.
ghost use Rattle.std.specs.Prelude.{◌≡◌, ◌≢◌, ◌↔◌, ℕ, List, None, Some, IsTrue, option_copied};
ghost use Rattle.page_cache.specs.Pairs.{bytes_at, first_bytes, pairs_of, room_of};
ghost use Rattle.page_cache.specs.Pages.{first_of};
ghost use Rattle.page_cache.specs.Places.{held_page, looked_page};

use crate::cache::Cache;
use crate::hints::Hints;
use crate::table::{PageTable, index_of, is_at, page_of};
use page_face::Page;

/// The place of the page looked at last.
#[derive(Clone, Copy, Debug, PartialEq, Eq)]
pub enum Place {
    /// At this index of the pages that wait for a commit.
    Overlay(usize),
    /// At this index of the journal's pages.
    Journal(usize),
    /// First in the cache.
    Cache,
    /// Not held by its number.
    Spare,
}

impl Place {
    /// Whether the page is held by its number.
    #[inline(always)]
    pub fn is_held(self) -> bool
        ensures { IsTrue result ↔ (self ≢ Place.Spare) }
    {
        match self {
            Place::Overlay(_) | Place::Journal(_) | Place::Cache => true,
            Place::Spare => false,
        }
    }
}

/// The place of a page in memory: the overlay, else the journal's pages, else the cache, in which it becomes the page used last.
///
/// Costs one look-up in each of the three up to the one that has it. Costs none for a page of the overlay that is at the index at which
/// it was found before.
#[inline(always)]
pub fn find(
    hints: &mut Hints,
    overlay: &PageTable,
    journal: &PageTable,
    cache: &mut Cache,
    page: u32,
) -> Place
    ensures none { result ≡ Place.Spare → held_page overlay.now journal.now cache.old page ≡ None }
    ensures some { result ≢ Place.Spare → (spare : List ℕ) → held_page overlay.now journal.now cache.new page ≡ Some (looked_page result overlay.now journal.now cache.new spare) }
    ensures same { (n : ℕ) → bytes_at n (pairs_of cache.new) ≡ bytes_at n (pairs_of cache.old) }
    ensures room { room_of cache.new ≡ room_of cache.old }
{
    let hint = hints.index_of(page);
    if is_at(overlay, hint, page) {
        return Place::Overlay(hint);
    }
    if let Some(index) = index_of(overlay, page) {
        hints.note(page, index);
        return Place::Overlay(index);
    }
    if let Some(index) = index_of(journal, page) {
        return Place::Journal(index);
    }
    if cache.look(page) {
        return Place::Cache;
    }
    Place::Spare
}

/// Keeps a page that was read in the cache, and returns its place. Costs two look-ups and a copy of the page.
pub fn keep(cache: &mut Cache, page: u32, bytes: &Page) -> Place
    ensures place { result ≢ Place.Spare → result ≡ Place.Cache }
    ensures some { result ≢ Place.Spare → (bytes_at page (pairs_of cache.new) ≡ Some bytes.now) × (first_bytes (pairs_of cache.new) ≡ Some bytes.now) }
    ensures here { (held : List ℕ) → bytes_at page (pairs_of cache.new) ≡ Some held → held ≡ bytes.now }
    ensures others { (n : ℕ) (held : List ℕ) → n ≢ page → bytes_at n (pairs_of cache.new) ≡ Some held → bytes_at n (pairs_of cache.old) ≡ Some held }
    ensures room { room_of cache.new ≡ room_of cache.old }
{
    // Running out of memory is no fault: the page is then lent from the buffer into which it was read.
    let _kept = cache.keep(page, bytes);
    if cache.look(page) {
        return Place::Cache;
    }
    Place::Spare
}

// The page, or the spare one if there is none.
#[inline(always)]
fn or_spare<'a>(page: Option<&'a Page>, spare: &'a Page) -> &'a Page
    ensures { result.now ≡ first_of (option_copied page.entry) spare.now }
{
    match page {
        Some(page) => page,
        None => spare,
    }
}

/// Lends the page at a place, or the spare one if no page is held there. Costs no look-up and no copy.
#[inline(always)]
pub fn lend<'a>(
    place: Place,
    overlay: &'a PageTable,
    journal: &'a PageTable,
    cache: &'a Cache,
    spare: &'a Page,
) -> &'a Page
    ensures { result.now ≡ looked_page place overlay.now journal.now cache.now spare.now }
{
    match place {
        Place::Overlay(index) => or_spare(page_of(overlay, index), spare),
        Place::Journal(index) => or_spare(page_of(journal, index), spare),
        Place::Cache => or_spare(cache.looked(), spare),
        Place::Spare => spare,
    }
}
