//! Seals of pages in memory: what the pages were found to be.
ghost use Rattle.std.specs.Prelude.{◌≡◌, ◌≢◌, ◌⊎◌, ◌%◌, ◌<◌, ℕ, None, Some, IfSome, IsTrue, length, slice_index_or};
ghost use Rattle.page_face.specs.declared.seal.Seal.{Seal as Sealed};
ghost use Rattle.page_cache.specs.Places.{seal_in, seal_of};

use page_face::Seal;
use std::alloc::Global;

// The greatest number of slots: the pages of 256 MiB, so that the seals of a larger store still take little memory beside a cache.
const SLOTS_MAX: u32 = 65_536;

// A page and its seal. A slot is 16 bytes, so that looks at slots seldom miss the processor's caches.
#[derive(Clone, Copy, Debug, PartialEq, Eq)]
struct SealedPage {
    page: u32,
    map: u8,
    level: u8,
    key: u16,
    value: u16,
}

/// A seal for some of the pages, by their numbers.
///
/// Each page has one slot, its number modulo 65,536, which it shares with others. A page that is sealed takes the slot from the one that
/// had it, which must then be checked again. There are as many slots as the last one noted needs, of 16 bytes each: 1 MiB at most.
#[derive(Drop)]
pub struct Seals {
    slots: Vec<Option<SealedPage>>,
}

// Whether a slot has a page's seal.
#[inline(always)]
fn is_sealed(sealed: SealedPage, page: u32, seal: Seal) -> bool
    ensures { IsTrue result → seal_in page (Some sealed) ≡ Some seal }
{
    sealed.page == page
        && sealed.map == seal.map
        && sealed.level == seal.level
        && usize::from(sealed.key) == seal.key
        && usize::from(sealed.value) == seal.value
}

// The slot's content for a page, or `None` if its keys or values have more than 65,535 bytes, for which no page has room.
#[inline(always)]
fn sealed_page(page: u32, seal: Seal) -> Option<SealedPage>
    ensures seal { IfSome result (λ sealed. seal_in page (Some sealed) ≡ Some seal) }
    ensures page { IfSome result (λ sealed. sealed.page ≡ page) }
{
    let Ok(key) = u16::try_from(seal.key) else {
        return None;
    };
    let Ok(value) = u16::try_from(seal.value) else {
        return None;
    };
    Some(SealedPage {
        page,
        map: seal.map,
        level: seal.level,
        key,
        value,
    })
}

// The slot of a page, in seals and in hints.
#[inline(always)]
pub(crate) fn slot_of(page: u32) -> usize
    ensures { result ≡ page % 65536 }
{
    (page % SLOTS_MAX) as usize
}

// Makes enough slots for this one to be among them, and returns whether there was memory for it.
#[inline(always)]
fn has_slot(slots: &mut Vec<Option<SealedPage>>, slot: usize) -> bool
    requires { slot < 65536 }
    ensures same { (k : ℕ) → slice_index_or slots.new.items k None ≡ slice_index_or slots.old.items k None }
    ensures within { IsTrue result → slot < length slots.new.items }
{
    slot < slots.len() || slots.resize(slot + 1, None).is_ok()
}

impl Seals {
    /// Seals of no page. Takes no memory.
    pub fn new(alloc: Global) -> Seals
        ensures { (n : ℕ) → seal_of result n ≡ None }
    {
        Seals {
            slots: Vec::new(alloc),
        }
    }

    /// Whether the page is sealed so. Costs a look at one slot.
    pub fn has(&self, page: u32, seal: Seal) -> bool
        ensures { IsTrue result → seal_of self.now page ≡ Some seal }
    {
        let slot = slot_of(page);
        if slot >= self.slots.len() {
            return false;
        }
        match self.slots[slot] {
            Some(sealed) => is_sealed(sealed, page, seal),
            None => false,
        }
    }

    /// Notes a seal, unless memory runs out, and drops that of another page with the same slot.
    ///
    /// Costs a look at one slot, and the filling of those that are new.
    pub fn note(&mut self, page: u32, seal: Seal)
        ensures { (n : ℕ) (known : Sealed) → seal_of self.new n ≡ Some known → ((n ≡ page) × (known ≡ seal)) ⊎ (seal_of self.old n ≡ Some known) }
    {
        let slot = slot_of(page);
        let sealed = sealed_page(page, seal);
        // Without memory the page stays as it was.
        if sealed.is_some() && has_slot(&mut self.slots, slot) {
            self.slots[slot] = sealed;
        }
    }

    /// Drops the seal of a page. Costs a look at one slot.
    pub fn forget(&mut self, page: u32)
        ensures gone { seal_of self.new page ≡ None }
        ensures others { (n : ℕ) → n ≢ page → seal_of self.new n ≡ seal_of self.old n }
    {
        let slot = slot_of(page);
        if slot >= self.slots.len() {
            return;
        }
        if let Some(sealed) = self.slots[slot]
            && sealed.page == page
        {
            self.slots[slot] = None;
        }
    }

    /// Drops all seals, and keeps the memory of their slots, which are filled anew as seals are noted.
    pub fn clear(&mut self)
        ensures { (n : ℕ) → seal_of self.new n ≡ None }
    {
        self.slots.clear();
    }
}
