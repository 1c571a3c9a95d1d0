//! The store as one object.
ghost use Rattle.std.specs.Prelude.{◌≡◌, ◌≢◌, ℕ, Some, IsErrOf, ◌<◌, ◌≤◌, ◌-◌, ◌^◌, ◌⊎◌, IsTrue, None, false, [], IfOk, IfErr, OnOk, length};
ghost use Rattle.std.proofs.Props.{props};
ghost use Rattle.disk_model.specs.World.{LeavesOnly, HasSaid, HasSinkCause};
ghost use Rattle.page_journal.specs.Record.{IsBad, StandsAlike};
ghost use Rattle.page_store.specs.declared.superblock.HeadFault.TheVariants as heads;
ghost use Rattle.page_cache.specs.Pairs.{pairs_of, room_of};
ghost use Rattle.page_cache.specs.Pages.{IsSized};
ghost use Rattle.page_cache.specs.Places.{AreTrue, held_page, looked_page};
ghost use Rattle.page_cache.specs.Rooms.{room_page};
ghost use Rattle.page_cache.specs.declared.place.Place.TheVariants as places;
ghost use Rattle.page_store.specs.Contents.{IsCommitted};
ghost use Rattle.page_store.specs.Held.{AreCached, AreImages, AreKept};
ghost use Rattle.page_store.specs.Opening.{IsOpened, IsOpenedVersion1, IsNoStore, IsNoStoreOfVersion1, Recovers, SaysNothingReadsHead, head_damage};
ghost use Rattle.page_store.specs.Superblock.{IsInRange, in_version2};

use crate::opening::{OpenFault, recover_superblock, recover_version1};
use crate::superblock::Superblock;
use disk_model::{Disk, Failed, Station};
use page_cache::{Cache, Hints, PageTable, Place, Seals};
use page_face::{Damage, Head, Page, PageFault, Version};
use std::alloc::Global;
use std::collections::BTreeMap;

/// Pages on a disk that it borrows, committed whole or dropped.
///
/// What is written is held in an overlay until [`Store::commit_all`] makes it safe in one commit, a record of the journal, or
/// [`Store::abandon`] drops it. The last image of each page of the journal is kept in memory until a checkpoint writes it in its place. A
/// commit or a checkpoint that fails stops the store: from then on every call of the pages returns `Stopped`, and the store has to be
/// opened again. No call of the pages changes the head.
///
/// Cost of a `look`: one look-up in a hash table for a page of the overlay, or none if it is still where a `look` last found it. A page
/// of the journal costs a second look-up, and a cached page a third. None of these calls the disk or copies a page. A page that is in
/// none of the three is read from the disk, in one call, and copied once into the cache.
///
/// Cost of other calls: `looked`, `is_sealed` and `seal` make no look-up: `look` notes the page's place, and a seal has its slot by the
/// page's number. `read` is a `look` and a copy of the page, and a `take` of a free page is a `look` at it. `write`, `write_sealed` and
/// `give_back` put one page into the overlay, which is two look-ups at most; they make no call of the disk.
///
/// The overlay holds each page written since the last commit once. The journal's pages take some 16 MiB at most beside those of one commit.
/// The cache holds as many pages as it was made for, and seals and hints take 1.25 MiB at most. Pages are put in the order of their numbers
/// for a commit and for a checkpoint, which is a search of an ordered map for each. A checkpoint moves the journal's pages into the cache.
#[derive(Drop)]
pub struct Store<'d, D: Disk> {
    pub(crate) alloc: Global,
    pub(crate) disk: &'d mut D,
    // pages written since the last commit
    pub(crate) overlay: PageTable,
    // the last image of each page of the journal
    pub(crate) journal: PageTable,
    // rooms for the journal's pages, in which a checkpoint puts them in order
    pub(crate) rooms: BTreeMap<u32, Option<Box<Page>>>,
    // the offset of the next record of the journal
    pub(crate) end: u64,
    // page 0 as it is now, and as it was committed last
    pub(crate) current: Superblock,
    pub(crate) last: Superblock,
    pub(crate) asked: Vec<u32>,
    pub(crate) refused: u64,
    // how many pages may still be taken
    pub(crate) takes_left: u64,
    pub(crate) stopped: bool,
    // committed pages, the one used last first
    pub(crate) cache: Cache,
    pub(crate) seals: Seals,
    // the indexes at which pages of the overlay were found last
    pub(crate) hints: Hints,
    // number and place of the page looked at last, and the page itself if memory holds it by no number
    pub(crate) at: u32,
    pub(crate) place: Place,
    pub(crate) spare: Page,
    ghost current_first: { current.first_free < current.counted },
    ghost last_first: { last.first_free < last.counted },
    ghost few: { length overlay.entries < 2 ^ 32 - 1 },
    ghost sized: { IsSized overlay },
    ghost in_order: { AreKept journal rooms } by { Prim.hlevel props },
    ghost bare: { stopped ≡ false → (n : ℕ) → room_page rooms n ≡ None },
    ghost ready: { IsTrue D.readable → stopped ≡ false → IsCommitted last end (D.world disk.now) },
    ghost images: { IsTrue D.readable → stopped ≡ false → AreImages journal (D.world disk.now).seen } by { Prim.hlevel props },
    ghost cached: { IsTrue D.readable → stopped ≡ false → AreCached journal cache (D.world disk.now).seen } by { Prim.hlevel props },
    ghost sealed: { AreTrue seals overlay journal cache } by { Prim.hlevel props },
    ghost lies: { place ≢ places.Spare → held_page overlay journal cache at ≡ Some (looked_page place overlay journal cache spare) },
}

// A cache of at most `pages` pages, or of none if there is no memory for it.
fn cache_of(alloc: Global, pages: u32) -> Cache
    ensures pairs { pairs_of result ≡ [] }
    ensures room { (room_of result ≡ pages) ⊎ (room_of result ≡ 0) }
{
    match Cache::new(alloc, pages) {
        Ok(cache) => cache,
        Err(_) => Cache::empty(alloc),
    }
}

impl<'d, D: Disk> Store<'d, D> {
    /// Opens a store: recovers the journal and reads page 0. `cache` is the number of pages that the cache may hold; 0 is none.
    ///
    /// Refuses as [`recover_superblock`] does, and costs as much.
    pub fn open(alloc: Global, disk: &'d mut D, cache: u32) -> Result<Store<'d, D>, OpenFault>
        ensures same_loan { IfOk result (λ store. store.disk.ghost_name ≡ disk.entry.ghost_name) }

        // A crash at any moment leaves what a crash could leave as the call began, or an image that holds the same pages.
        ensures any_moment { IsTrue D.readable → IfOk result (λ store. LeavesOnly (D.world disk.old) (D.world store.disk.now) (StandsAlike (D.world disk.old))) }
        ensures quiet { IsTrue D.readable → IfOk result (λ store. SaysNothingReadsHead (D.world disk.old) (D.world store.disk.now)) }
        ensures stays { IfOk result (λ store. (D.world store.disk.now).faults ≡ (D.world disk.old).faults) }
        ensures sink { IfOk result (λ store. (D.world store.disk.now).sink_faults ≡ (D.world disk.old).sink_faults) }
        ensures room { IfOk result (λ store. D.room_of store.disk.now ≡ D.room_of disk.old) }

        ensures opened { IsTrue D.readable → IfOk result (λ store. IsOpened store.last (D.world disk.old) (D.world store.disk.now)) }
        ensures recovers { IsTrue D.readable → IfOk result (λ store. Recovers (D.world disk.old) (D.world store.disk.now)) }
        ensures clean { IfOk result (λ store. (store.overlay.entries ≡ []) × (store.current ≡ store.last)) }
        ensures fresh { IfOk result (λ store. (store.asked.items ≡ []) × (store.refused ≡ 0) × (store.stopped ≡ false)) }
        ensures allowed { IfOk result (λ store. store.takes_left ≡ 2 ^ 64 - 1) }

        // The cache may hold as many pages as `cache`, or none if memory ran out for it.
        ensures cache_room { IfOk result (λ store. (room_of store.cache ≡ cache) ⊎ (room_of store.cache ≡ 0)) }
        ensures not_a_store { IsTrue D.readable → IsErrOf result OpenFault.NotAStore → IsNoStore heads.NotAStore (D.world disk.old).seen }
        ensures version1 { IsTrue D.readable → IsErrOf result OpenFault.Version1 → IsNoStore heads.Version1 (D.world disk.old).seen }
        ensures damaged { (damage : Damage) → IsErrOf result (OpenFault.Damaged damage)
            → (damage ≡ head_damage) × (IsTrue D.readable → IsNoStore heads.Broken (D.world disk.old).seen) }
        ensures bad { IsTrue D.readable → (at : ℕ) → IsErrOf result (OpenFault.BadJournal at) → IsBad (D.world disk.old).seen at }
        ensures memory { result ≢ Err OpenFault.Memory }
    {
        let block = recover_superblock(&mut *disk)?;
        Ok(Store::over(alloc, disk, block, cache))
    }

    /// Opens a store of version 1, as [`Store::open`] opens one of version 2. Its head says that it is of version 1; the next commit
    /// writes page 0 with the magic of the head's version.
    ///
    /// Refuses as [`recover_version1`] does, and costs as much.
    pub fn open_version1(
        alloc: Global,
        disk: &'d mut D,
        cache: u32,
    ) -> Result<Store<'d, D>, OpenFault>
        ensures same_loan { IfOk result (λ store. store.disk.ghost_name ≡ disk.entry.ghost_name) }

        // A crash at any moment leaves what a crash could leave as the call began, or an image that holds the same pages.
        ensures any_moment { IsTrue D.readable → IfOk result (λ store. LeavesOnly (D.world disk.old) (D.world store.disk.now) (StandsAlike (D.world disk.old))) }
        ensures quiet { IsTrue D.readable → IfOk result (λ store. SaysNothingReadsHead (D.world disk.old) (D.world store.disk.now)) }
        ensures stays { IfOk result (λ store. (D.world store.disk.now).faults ≡ (D.world disk.old).faults) }
        ensures sink { IfOk result (λ store. (D.world store.disk.now).sink_faults ≡ (D.world disk.old).sink_faults) }
        ensures room { IfOk result (λ store. D.room_of store.disk.now ≡ D.room_of disk.old) }

        ensures opened { IsTrue D.readable → IfOk result (λ store. IsOpenedVersion1 store.last (D.world disk.old) (D.world store.disk.now)) }
        ensures in_range { IfOk result (λ store. IsInRange (in_version2 store.last)) }
        ensures recovers { IsTrue D.readable → IfOk result (λ store. Recovers (D.world disk.old) (D.world store.disk.now)) }
        ensures clean { IfOk result (λ store. (store.overlay.entries ≡ []) × (store.current ≡ store.last)) }
        ensures fresh { IfOk result (λ store. (store.asked.items ≡ []) × (store.refused ≡ 0) × (store.stopped ≡ false)) }
        ensures allowed { IfOk result (λ store. store.takes_left ≡ 2 ^ 64 - 1) }
        ensures cache_room { IfOk result (λ store. (room_of store.cache ≡ cache) ⊎ (room_of store.cache ≡ 0)) }
        ensures not_a_store { IsTrue D.readable → IsErrOf result OpenFault.NotAStore → IsNoStoreOfVersion1 heads.NotAStore (D.world disk.old).seen }
        ensures damaged { (damage : Damage) → IsErrOf result (OpenFault.Damaged damage)
            → (damage ≡ head_damage) × (IsTrue D.readable → IsNoStoreOfVersion1 heads.Broken (D.world disk.old).seen) }
        ensures bad { IsTrue D.readable → (at : ℕ) → IsErrOf result (OpenFault.BadJournal at) → IsBad (D.world disk.old).seen at }
        ensures version1 { result ≢ Err OpenFault.Version1 }
        ensures memory { result ≢ Err OpenFault.Memory }
    {
        let block = recover_version1(&mut *disk)?;
        Ok(Store::over(alloc, disk, block, cache))
    }

    /// The store over a disk for which [`recover_superblock`] has returned this superblock, with a cache of at most `cache` pages.
    ///
    /// If it runs out of memory for the cache, the store has none. Makes no call of the disk.
    pub fn over(alloc: Global, disk: &'d mut D, block: Superblock, cache: u32) -> Store<'d, D>
        requires in_range { block.first_free < block.counted }
        requires committed { IsTrue D.readable → IsCommitted block 0 (D.world disk.old) }
        ensures same_loan { result.disk.ghost_name ≡ disk.entry.ghost_name }
        ensures disk { result.disk.now ≡ disk.old }
        ensures block { result.last ≡ block }
        ensures clean { (result.overlay.entries ≡ []) × (result.current ≡ result.last) }
        ensures fresh { (result.asked.items ≡ []) × (result.refused ≡ 0) × (result.stopped ≡ false) }
        ensures allowed { result.takes_left ≡ 2 ^ 64 - 1 }
        ensures cache_room { (room_of result.cache ≡ cache) ⊎ (room_of result.cache ≡ 0) }
    {
        Store {
            alloc,
            disk,
            overlay: PageTable::new(alloc),
            journal: PageTable::new(alloc),
            rooms: BTreeMap::new(alloc),
            end: 0,
            current: block,
            last: block,
            asked: Vec::new(alloc),
            refused: 0,
            takes_left: u64::MAX,
            stopped: false,
            cache: cache_of(alloc, cache),
            seals: Seals::new(alloc),
            hints: Hints::new(alloc),
            at: 0,
            place: Place::Spare,
            spare: [0; 4096],
        }
    }

    /// Gives the loan back; what wasn't committed is dropped. Makes no call of the disk.
    pub fn into_disk(self) -> &'d mut D
        ensures same_loan { result.ghost_name ≡ self.entry.disk.ghost_name }
        ensures disk { result.now ≡ self.entry.disk.now }
    {
        let Store {
            alloc: _,
            disk,
            overlay: _,
            journal: _,
            rooms: _,
            end: _,
            current: _,
            last: _,
            asked: _,
            refused: _,
            takes_left: _,
            stopped: _,
            cache: _,
            seals: _,
            hints: _,
            at: _,
            place: _,
            spare: _,
        } = self;
        disk
    }

    /// The current head, with what `set_head` set since the last commit.
    pub fn head(&self) -> Head
        ensures { result ≡ self.now.current.head }
    {
        self.current.head
    }

    /// Replaces the head. The next commit makes it safe.
    pub fn set_head(&mut self, head: &Head)
        ensures current { self.new.current ≡ record self.old.current { head = head.now } }
        ensures last { self.new.last ≡ self.old.last }
        ensures overlay { self.new.overlay ≡ self.old.overlay }
        ensures journal { self.new.journal ≡ self.old.journal }
        ensures disk { self.new.disk ≡ self.old.disk }
        ensures log { self.new.asked.items ≡ self.old.asked.items }
        ensures refused { self.new.refused ≡ self.old.refused }
        ensures takes { self.new.takes_left ≡ self.old.takes_left }
        ensures stopped { self.new.stopped ≡ self.old.stopped }
    {
        self.current.head = *head;
    }

    /// Makes the head one of version 2. The next commit writes page 0 with the magic of version 2.
    pub fn set_version2(&mut self)
        ensures current { self.new.current ≡ in_version2 self.old.current }
        ensures last { self.new.last ≡ self.old.last }
        ensures overlay { self.new.overlay ≡ self.old.overlay }
        ensures journal { self.new.journal ≡ self.old.journal }
        ensures disk { self.new.disk ≡ self.old.disk }
        ensures log { self.new.asked.items ≡ self.old.asked.items }
        ensures refused { self.new.refused ≡ self.old.refused }
        ensures takes { self.new.takes_left ≡ self.old.takes_left }
        ensures stopped { self.new.stopped ≡ self.old.stopped }
    {
        self.current.head.version = Version::Two;
    }

    /// The pages given to `read` and `look` since `clear_log`, the last one last.
    pub fn read_log(&self) -> &[u32]
        ensures { result.now ≡ self.now.asked.items }
    {
        &self.asked
    }

    /// Empties the log of reads.
    pub fn clear_log(&mut self)
        ensures log { self.new.asked.items ≡ [] }
        ensures current { self.new.current ≡ self.old.current }
        ensures last { self.new.last ≡ self.old.last }
        ensures overlay { self.new.overlay ≡ self.old.overlay }
        ensures journal { self.new.journal ≡ self.old.journal }
        ensures disk { self.new.disk ≡ self.old.disk }
        ensures refused { self.new.refused ≡ self.old.refused }
        ensures takes { self.new.takes_left ≡ self.old.takes_left }
        ensures stopped { self.new.stopped ≡ self.old.stopped }
    {
        self.asked.clear();
    }

    /// Allows `takes` more takes from now on, replacing what was left of those allowed before. A new store allows 2^64 - 1.
    ///
    /// It is a fuse for a change that would take page after page without end. After that many takes the next one is refused as `Memory`,
    /// if it isn't refused for another cause, until takes are allowed again. So a change that was allowed `takes` counts at most that
    /// many more pages, and meets `NoRoom` only if no more than these were left. A sound change takes far fewer.
    ///
    /// Refuses `Memory` exactly when 2^64 - 1 takes were refused, so that a further one wouldn't be counted; then nothing changes.
    pub fn allow(&mut self, takes: u64) -> Result<(), PageFault>
        ensures takes { OnOk result (self.new.takes_left ≡ takes) }
        ensures counts { OnOk result (self.old.refused < 2 ^ 64 - 1) }
        ensures worn { IfErr result (λ fault. (fault ≡ PageFault.Memory) × (self.old.refused ≡ 2 ^ 64 - 1) × (self.new.takes_left ≡ self.old.takes_left)) }
        ensures log { self.new.asked.items ≡ self.old.asked.items }
        ensures current { self.new.current ≡ self.old.current }
        ensures last { self.new.last ≡ self.old.last }
        ensures overlay { self.new.overlay ≡ self.old.overlay }
        ensures journal { self.new.journal ≡ self.old.journal }
        ensures disk { self.new.disk ≡ self.old.disk }
        ensures refused { self.new.refused ≡ self.old.refused }
        ensures stopped { self.new.stopped ≡ self.old.stopped }
    {
        if self.refused == u64::MAX {
            return Err(PageFault::Memory);
        }
        self.takes_left = takes;
        Ok(())
    }
}

impl<'d, D: Station> Store<'d, D> {
    /// Passes `bytes`, which aren't empty, to the station in one call, and returns what the station returns. Changes nothing else.
    pub fn say(&mut self, bytes: &[u8]) -> Result<usize, Failed>
        requires { 0 < length bytes.now }
        ensures same_loan { self.new.disk.ghost_name ≡ self.old.disk.ghost_name }
        ensures count { IfOk result (λ n. (0 < n) × (n ≤ length bytes.now)) }
        ensures told { IsTrue D.readable → HasSaid bytes.now (D.world self.old.disk.now) (D.world self.new.disk.now) result }
        ensures cause { HasSinkCause (D.world self.old.disk.now) (D.world self.new.disk.now) result }
        ensures room { D.room_of self.new.disk.now ≡ D.room_of self.old.disk.now }
        ensures current { self.new.current ≡ self.old.current }
        ensures last { self.new.last ≡ self.old.last }
        ensures overlay { self.new.overlay ≡ self.old.overlay }
        ensures log { self.new.asked.items ≡ self.old.asked.items }
        ensures refused { self.new.refused ≡ self.old.refused }
        ensures takes { self.new.takes_left ≡ self.old.takes_left }
        ensures stopped { self.new.stopped ≡ self.old.stopped }
    {
        self.disk.say(bytes)
    }
}
