//! The pages of a cache that has room, each in a box.
ghost use Rattle.std.specs.Prelude.{◌≡◌, ◌≢◌, ℕ, List, None, Some, IsTrue, false, IfOk, OnOk, OnErr, is_some, option_copied};
ghost use Rattle.page_cache.specs.Pairs.{bytes_at, first_bytes, without, to_front, with_first, pairs_in};

use crate::Memory;
use lru::LruCache;
use page_face::Page;
use std::alloc::Global;

// Makes a page the one used last, and returns whether it is there.
pub(crate) fn recall(shelf: &mut LruCache<u32, Box<Page>>, page: u32) -> bool
    ensures found { result ≡ is_some (bytes_at page (pairs_in shelf.old.entries)) }
    ensures front { pairs_in shelf.new.entries ≡ to_front page (pairs_in shelf.old.entries) }
    ensures first { IsTrue result → first_bytes (pairs_in shelf.new.entries) ≡ bytes_at page (pairs_in shelf.old.entries) }
    ensures same { (n : ℕ) → bytes_at n (pairs_in shelf.new.entries) ≡ bytes_at n (pairs_in shelf.old.entries) }
    ensures room { shelf.new.cap ≡ shelf.old.cap }
{
    shelf.promote(&page)
}

// The bytes of the page used last.
pub(crate) fn first(shelf: &LruCache<u32, Box<Page>>) -> Option<&Page>
    ensures { option_copied result ≡ first_bytes (pairs_in shelf.now.entries) }
{
    match shelf.peek_mru() {
        Some((_, held)) => Some(&**held),
        None => None,
    }
}

// Copies the bytes of a page that is there into its box, makes it the one used last, and returns whether it is there.
pub(crate) fn refill(shelf: &mut LruCache<u32, Box<Page>>, page: u32, bytes: &Page) -> bool
    ensures found { result ≡ is_some (bytes_at page (pairs_in shelf.old.entries)) }
    ensures kept { IsTrue result → pairs_in shelf.new.entries ≡ with_first shelf.old.cap page bytes.now (pairs_in shelf.old.entries) }
    ensures left { result ≡ false → pairs_in shelf.new.entries ≡ pairs_in shelf.old.entries }
    ensures here { (held : List ℕ) → bytes_at page (pairs_in shelf.new.entries) ≡ Some held → held ≡ bytes.now }
    ensures others { (n : ℕ) (held : List ℕ) → n ≢ page → bytes_at n (pairs_in shelf.new.entries) ≡ Some held → bytes_at n (pairs_in shelf.old.entries) ≡ Some held }
    ensures room { shelf.new.cap ≡ shelf.old.cap }
{
    let _size = shelf.len();
    match shelf.get_mut(&page) {
        Some(held) => {
            **held = *bytes;
            true
        }
        None => false,
    }
}

// A box with the bytes of a page: the spare box, if there is one.
pub(crate) fn filled(
    alloc: Global,
    spare: Option<Box<Page>>,
    bytes: &Page,
) -> Result<Box<Page>, Memory>
    ensures { IfOk result (λ held. held.value ≡ bytes.now) }
{
    match spare {
        Some(mut held) => {
            *held = *bytes;
            Ok(held)
        }
        None => match Box::new(alloc, *bytes) {
            Ok(held) => Ok(held),
            Err(_) => Err(Memory),
        },
    }
}

// Puts a page and its bytes first, and returns the box that is left over, if any.
pub(crate) fn put(
    shelf: &mut LruCache<u32, Box<Page>>,
    page: u32,
    bytes: Box<Page>,
) -> (Result<(), Memory>, Option<Box<Page>>)
    ensures kept { OnOk result.0 (pairs_in shelf.new.entries ≡ with_first shelf.old.cap page bytes.value (pairs_in shelf.old.entries)) }
    ensures memory { OnErr result.0 (bytes_at page (pairs_in shelf.old.entries) ≡ None) }
    ensures left { OnErr result.0 (pairs_in shelf.new.entries ≡ pairs_in shelf.old.entries) }
    ensures here { (held : List ℕ) → bytes_at page (pairs_in shelf.new.entries) ≡ Some held → held ≡ bytes.value }
    ensures others { (n : ℕ) (held : List ℕ) → n ≢ page → bytes_at n (pairs_in shelf.new.entries) ≡ Some held → bytes_at n (pairs_in shelf.old.entries) ≡ Some held }
    ensures room { shelf.new.cap ≡ shelf.old.cap }
{
    let _size = shelf.len();
    match shelf.push(page, bytes) {
        Ok(Some((_, dropped))) => (Ok(()), Some(dropped)),
        Ok(None) => (Ok(()), None),
        Err(failed) => {
            let (_, unused) = failed.value;
            (Err(Memory), Some(unused))
        }
    }
}

// Takes a page out.
pub(crate) fn forget(shelf: &mut LruCache<u32, Box<Page>>, page: u32)
    ensures pairs { pairs_in shelf.new.entries ≡ without page (pairs_in shelf.old.entries) }
    ensures gone { bytes_at page (pairs_in shelf.new.entries) ≡ None }
    ensures others { (n : ℕ) → n ≢ page → bytes_at n (pairs_in shelf.new.entries) ≡ bytes_at n (pairs_in shelf.old.entries) }
    ensures room { shelf.new.cap ≡ shelf.old.cap }
{
    let _size = shelf.len();
    let _held = shelf.pop(&page);
}
