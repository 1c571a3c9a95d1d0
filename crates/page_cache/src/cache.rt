//! The cache, which may have no room at all.
ghost use Rattle.std.specs.Prelude.{◌≡◌, ◌≢◌, ℕ, List, [], None, Some, IfOk, OnOk, OnErr, IsTrue, is_some, option_copied};
ghost use Rattle.page_cache.specs.Pairs.{bytes_at, first_bytes, without, to_front, with_first, pairs_of, room_of};

use crate::shelf;
use lru::LruCache;
use page_face::Page;
use std::alloc::Global;
use std::num::NonZeroUsize;

/// A call of the cache ran out of memory.
#[derive(Clone, Copy, Debug, PartialEq, Eq)]
pub struct Memory;

/// Pages and their bytes, at most as many as the cache was made for, the one used last first.
///
/// A cache of 0 pages holds nothing. No call looks at the disk. The cache takes the memory of the pages that it holds, and of one more
/// once it is full.
#[derive(Drop)]
pub struct Cache {
    alloc: Global,
    shelf: Option<LruCache<u32, Box<Page>>>,
    // the box of the page that was dropped last, into which the next one is copied
    spare: Option<Box<Page>>,
}

impl Cache {
    /// A cache of at most `pages` pages. Takes no memory for pages yet.
    pub fn new(alloc: Global, pages: u32) -> Result<Cache, Memory>
        ensures pairs { IfOk result (λ cache. pairs_of cache ≡ []) }
        ensures room { IfOk result (λ cache. room_of cache ≡ pages) }
    {
        let Some(room) = NonZeroUsize::new(pages as usize) else {
            return Ok(Cache::empty(alloc));
        };
        match LruCache::sparse(alloc, room) {
            Ok(shelf) => Ok(Cache {
                alloc,
                shelf: Some(shelf),
                spare: None,
            }),
            Err(_) => Err(Memory),
        }
    }

    /// A cache of 0 pages. Takes no memory.
    pub fn empty(alloc: Global) -> Cache
        ensures pairs { pairs_of result ≡ [] }
        ensures room { room_of result ≡ 0 }
    {
        Cache {
            alloc,
            shelf: None,
            spare: None,
        }
    }

    /// Makes a page the one used last, so that `looked` lends it, and returns whether it is there. Costs one look-up and no copy.
    pub fn look(&mut self, page: u32) -> bool
        ensures found { result ≡ is_some (bytes_at page (pairs_of self.old)) }
        ensures front { pairs_of self.new ≡ to_front page (pairs_of self.old) }
        ensures first { IsTrue result → first_bytes (pairs_of self.new) ≡ bytes_at page (pairs_of self.old) }
        ensures same { (n : ℕ) → bytes_at n (pairs_of self.new) ≡ bytes_at n (pairs_of self.old) }
        ensures room { room_of self.new ≡ room_of self.old }
    {
        match &mut self.shelf {
            Some(shelf) => shelf::recall(shelf, page),
            None => false,
        }
    }

    /// The bytes of the page used last, or `None` if there is no page. Costs no look-up and no copy.
    pub fn looked(&self) -> Option<&Page>
        ensures { option_copied result ≡ first_bytes (pairs_of self.now) }
    {
        match &self.shelf {
            Some(shelf) => shelf::first(shelf),
            None => None,
        }
    }

    /// Puts a page and its bytes first, replacing the bytes held of it, and drops the page used least recently if there are too many.
    ///
    /// Runs out of memory only for a page that isn't held; then everything is as before. Costs a look-up and a copy of the page. No page is
    /// allocated for one that is held, or once a page has been dropped.
    pub fn keep(&mut self, page: u32, bytes: &Page) -> Result<(), Memory>
        ensures kept { OnOk result (pairs_of self.new ≡ with_first (room_of self.old) page bytes.now (pairs_of self.old)) }
        ensures memory { OnErr result (bytes_at page (pairs_of self.old) ≡ None) }
        ensures left { OnErr result (pairs_of self.new ≡ pairs_of self.old) }
        ensures here { (held : List ℕ) → bytes_at page (pairs_of self.new) ≡ Some held → held ≡ bytes.now }
        ensures others { (n : ℕ) (held : List ℕ) → n ≢ page → bytes_at n (pairs_of self.new) ≡ Some held → bytes_at n (pairs_of self.old) ≡ Some held }
        ensures room { room_of self.new ≡ room_of self.old }
    {
        let Some(shelf) = &mut self.shelf else {
            return Ok(());
        };
        if shelf::refill(shelf, page, bytes) {
            return Ok(());
        }
        let held = shelf::filled(self.alloc, self.spare.take(), bytes)?;
        let (result, spare) = shelf::put(shelf, page, held);
        self.spare = spare;
        result
    }

    /// As `keep`, for a page in a box, which isn't copied. The box is dropped if the cache runs out of memory or has no room.
    pub fn keep_boxed(&mut self, page: u32, bytes: Box<Page>) -> Result<(), Memory>
        ensures kept { OnOk result (pairs_of self.new ≡ with_first (room_of self.old) page bytes.value (pairs_of self.old)) }
        ensures memory { OnErr result (bytes_at page (pairs_of self.old) ≡ None) }
        ensures left { OnErr result (pairs_of self.new ≡ pairs_of self.old) }
        ensures here { (held : List ℕ) → bytes_at page (pairs_of self.new) ≡ Some held → held ≡ bytes.value }
        ensures others { (n : ℕ) (held : List ℕ) → n ≢ page → bytes_at n (pairs_of self.new) ≡ Some held → bytes_at n (pairs_of self.old) ≡ Some held }
        ensures room { room_of self.new ≡ room_of self.old }
    {
        let Some(shelf) = &mut self.shelf else {
            return Ok(());
        };
        let (result, _spare) = shelf::put(shelf, page, bytes);
        result
    }

    /// Takes a page out, if it is there. Costs a look-up.
    pub fn forget(&mut self, page: u32)
        ensures pairs { pairs_of self.new ≡ without page (pairs_of self.old) }
        ensures gone { bytes_at page (pairs_of self.new) ≡ None }
        ensures others { (n : ℕ) → n ≢ page → bytes_at n (pairs_of self.new) ≡ bytes_at n (pairs_of self.old) }
        ensures room { room_of self.new ≡ room_of self.old }
    {
        if let Some(shelf) = &mut self.shelf {
            shelf::forget(shelf, page);
        }
    }
}
