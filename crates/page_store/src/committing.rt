//! Committing the overlay, dropping it, and writing the journal's pages in their places.
ghost use Rattle.std.specs.Prelude.{◌≡◌, ◌≢◌, ◌↔◌, ◌≤◌, ◌<◌, ◌^◌, ℕ, IsTrue, false, true, [], OnOk, OnErr, IfErr, IsErrOf, ◌⊎◌, length};
ghost use Rattle.disk_model.specs.World.{LeavesOnly, Rose};
ghost use Rattle.disk_model.specs.declared.disk.Area.TheVariants as areas;
ghost use Rattle.page_journal.specs.Record.{SaysNothing, LeavesPages, applied};
ghost use Rattle.page_cache.specs.Pages.{spare};
ghost use Rattle.page_cache.specs.Rooms.{HasRoomFor};
ghost use Rattle.page_store.specs.Contents.{contents_in, contents_of, HoldsOneOf, page_in};

use crate::gathering::{gather, take_room};
use crate::store::Store;
use disk_model::Disk;
use page_cache::{PageTable, Place};
use page_face::{PageFault, Pages};
use page_journal::{append, checkpoint};
use std::collections::BTreeMap;

/// The length of the journal, in bytes, past which a commit makes a checkpoint first: 16 MiB.
///
/// It is so great that many commits share a checkpoint's two syncs, and so small that recovery after a crash is short and the pages kept
/// in memory are few.
pub const JOURNAL_MAX: u64 = 16_777_216;

impl<'d, D: Disk> Store<'d, D> {
    /// Makes the overlay and the head safe in one commit, a record of the journal.
    ///
    /// Returns `Stopped` if an earlier commit or checkpoint failed. Returns `Memory` if it runs out of memory, and then everything is as
    /// before. Returns `Disk` if a call of the disk fails, and then the store is stopped. The memory is taken before the first write. If
    /// the journal has grown past [`JOURNAL_MAX`], a checkpoint comes first.
    ///
    /// With n pages in the overlay, costs two writes, one of n + 1 pages and one of a byte, and two syncs. Each page costs two searches
    /// of ordered maps. From time to time it also costs a checkpoint, which writes each page of the journal once, with two more syncs.
    pub fn commit_all(&mut self) -> Result<(), PageFault>
        ensures same_loan { self.new.disk.ghost_name ≡ self.old.disk.ghost_name }

        // A crash at any moment leaves the contents of the last commit, or everything that the overlay holds.
        ensures any_moment { IsTrue D.readable → LeavesOnly (D.world self.old.disk.now) (D.world self.new.disk.now)
            (HoldsOneOf (contents_in (applied (D.world self.old.disk.now).seen))
            (contents_of (applied (D.world self.old.disk.now).seen) self.old.overlay self.old.current) (D.world self.old.disk.now)) }

        ensures committed { IsTrue D.readable → OnOk result (contents_in (applied (D.world self.new.disk.now).seen)
            ≡ contents_of (applied (D.world self.old.disk.now).seen) self.old.overlay self.old.current) }
        ensures clean { OnOk result ((self.new.overlay.entries ≡ []) × (self.new.last ≡ self.old.current)) }
        ensures current { self.new.current ≡ self.old.current }
        ensures pages { IsTrue D.readable → result ≢ Err PageFault.Disk → ⟦<Store<'d, D> as Pages>⟧.pages self.new ≡ ⟦<Store<'d, D> as Pages>⟧.pages self.old }

        // A checkpoint comes first exactly if the journal has grown past its limit: else the pages area stays as it is.
        ensures area { IsTrue D.readable → self.old.end ≤ 2 ^ 24 → (D.world self.new.disk.now).seen areas.Pages ≡ (D.world self.old.disk.now).seen areas.Pages }
        ensures in_place { IsTrue D.readable → 2 ^ 24 < self.old.end → OnOk result ((D.world self.new.disk.now).seen areas.Pages ≡ applied (D.world self.old.disk.now).seen) }

        ensures stopped { IsErrOf result PageFault.Stopped ↔ IsTrue self.old.stopped }
        ensures stops { IsErrOf result PageFault.Disk → self.new.stopped ≡ true }
        ensures goes_on { result ≢ Err PageFault.Disk → self.new.stopped ≡ self.old.stopped }
        ensures kept { OnErr result (self.new.last ≡ self.old.last) }
        ensures untouched { result ≢ Err PageFault.Disk → OnErr result (self.new.disk ≡ self.old.disk) }
        ensures waiting { result ≢ Err PageFault.Disk → OnErr result ((n : ℕ) → n ≢ 0 → page_in self.new.overlay n ≡ page_in self.old.overlay n) }
        ensures causes { IfErr result (λ fault. (fault ≡ PageFault.Stopped) ⊎ (fault ≡ PageFault.Memory) ⊎ (fault ≡ PageFault.Disk)) }
        ensures cause { IsErrOf result PageFault.Disk → Rose (D.world self.old.disk.now).faults (D.world self.new.disk.now).faults }
        ensures stays { result ≢ Err PageFault.Disk → (D.world self.new.disk.now).faults ≡ (D.world self.old.disk.now).faults }
        ensures faults { (D.world self.old.disk.now).faults ≤ (D.world self.new.disk.now).faults }
        ensures sink { (D.world self.new.disk.now).sink_faults ≡ (D.world self.old.disk.now).sink_faults }

        ensures quiet { IsTrue D.readable → SaysNothing (D.world self.old.disk.now) (D.world self.new.disk.now) }
        ensures reads { IsTrue D.readable → (D.world self.new.disk.now).reads ≡ (D.world self.old.disk.now).reads }
        ensures room { D.room_of self.new.disk.now ≡ D.room_of self.old.disk.now }
        ensures asked { self.new.asked.items ≡ self.old.asked.items }
        ensures refused { self.new.refused ≡ self.old.refused }
        ensures takes { self.new.takes_left ≡ self.old.takes_left }
    {
        if self.stopped {
            return Err(PageFault::Stopped);
        }
        self.place = Place::Spare;
        page_cache::write(
            self.alloc,
            &mut self.overlay,
            &mut self.seals,
            0,
            &self.current.encode(),
        )?;
        let Ok(gathered) = gather(self.alloc, &mut self.overlay) else {
            return Err(PageFault::Memory);
        };
        self.make_room()?;
        // Until the commit has succeeded the store is stopped.
        self.stopped = true;
        let Ok(end) = append(&mut *self.disk, self.end, &gathered) else {
            return Err(PageFault::Disk);
        };
        self.place = Place::Spare;
        page_cache::move_all(&mut self.overlay, &mut self.journal);
        self.end = end;
        self.last = self.current;
        self.stopped = false;
        Ok(())
    }

    // Takes the memory for the overlay's pages among those of the journal. Makes a checkpoint if the journal has grown past its limit.
    fn make_room(&mut self) -> Result<(), PageFault>
        requires { self.old.stopped ≡ false }
        ensures same_loan { self.new.disk.ghost_name ≡ self.old.disk.ghost_name }
        ensures any_moment { IsTrue D.readable → LeavesOnly (D.world self.old.disk.now) (D.world self.new.disk.now)
            (LeavesPages (applied (D.world self.old.disk.now).seen) (D.world self.old.disk.now)) }
        ensures same { IsTrue D.readable → OnOk result (applied (D.world self.new.disk.now).seen ≡ applied (D.world self.old.disk.now).seen) }
        ensures area { IsTrue D.readable → self.old.end ≤ 2 ^ 24 → (D.world self.new.disk.now).seen areas.Pages ≡ (D.world self.old.disk.now).seen areas.Pages }
        ensures in_place { IsTrue D.readable → 2 ^ 24 < self.old.end → OnOk result ((D.world self.new.disk.now).seen areas.Pages ≡ applied (D.world self.old.disk.now).seen) }
        ensures has_rooms { OnOk result (HasRoomFor self.new.overlay self.new.rooms) }
        ensures has_spare { OnOk result (length self.new.overlay.entries ≤ spare self.new.journal) }
        ensures short { OnOk result (self.new.end ≤ 2 ^ 24) }
        ensures on { OnOk result (self.new.stopped ≡ false) }

        ensures stops { IsErrOf result PageFault.Disk → self.new.stopped ≡ true }
        ensures goes_on { result ≢ Err PageFault.Disk → self.new.stopped ≡ false }
        ensures causes { IfErr result (λ fault. (fault ≡ PageFault.Memory) ⊎ (fault ≡ PageFault.Disk)) }
        ensures cause { IsErrOf result PageFault.Disk → Rose (D.world self.old.disk.now).faults (D.world self.new.disk.now).faults }
        ensures stays { result ≢ Err PageFault.Disk → (D.world self.new.disk.now).faults ≡ (D.world self.old.disk.now).faults }
        ensures faults { (D.world self.old.disk.now).faults ≤ (D.world self.new.disk.now).faults }
        ensures sink { (D.world self.new.disk.now).sink_faults ≡ (D.world self.old.disk.now).sink_faults }
        ensures untouched { result ≢ Err PageFault.Disk → OnErr result (self.new.disk ≡ self.old.disk) }

        ensures overlay { self.new.overlay ≡ self.old.overlay }
        ensures current { self.new.current ≡ self.old.current }
        ensures last { self.new.last ≡ self.old.last }
        ensures quiet { IsTrue D.readable → SaysNothing (D.world self.old.disk.now) (D.world self.new.disk.now) }
        ensures reads { IsTrue D.readable → (D.world self.new.disk.now).reads ≡ (D.world self.old.disk.now).reads }
        ensures room { D.room_of self.new.disk.now ≡ D.room_of self.old.disk.now }
        ensures asked { self.new.asked.items ≡ self.old.asked.items }
        ensures refused { self.new.refused ≡ self.old.refused }
        ensures takes { self.new.takes_left ≡ self.old.takes_left }
    {
        self.place = Place::Spare;
        if self.end <= JOURNAL_MAX {
            return take_room(&mut self.rooms, &mut self.journal, &self.overlay);
        }
        let mut rooms = BTreeMap::new(self.alloc);
        let mut journal = PageTable::new(self.alloc);
        take_room(&mut rooms, &mut journal, &self.overlay)?;
        match self.settle() {
            Ok(()) => {
                self.place = Place::Spare;
                self.rooms = rooms;
                self.journal = journal;
                Ok(())
            }
            Err(fault) => Err(fault),
        }
    }

    /// Writes the pages of the journal in their places, so that the next record begins at offset 0. Leaves the overlay and the head.
    ///
    /// Returns `Stopped` if an earlier commit or checkpoint failed, and `Disk` if a call of the disk fails; then the store is stopped. At
    /// every moment an image that a crash may leave holds the same pages. It needs no memory, and takes that of 16 pages meanwhile if there
    /// is some.
    ///
    /// Costs a write for each run of at most 16 neighbouring pages of the journal, one of a byte, and two syncs; for each page a copy and a
    /// search of an ordered map. If the journal holds no record, the disk isn't called. The pages move into the cache, uncopied, as far as
    /// it has room for them.
    pub fn settle(&mut self) -> Result<(), PageFault>
        ensures same_loan { self.new.disk.ghost_name ≡ self.old.disk.ghost_name }
        ensures any_moment { IsTrue D.readable → self.old.stopped ≡ false → LeavesOnly (D.world self.old.disk.now) (D.world self.new.disk.now)
            (LeavesPages (applied (D.world self.old.disk.now).seen) (D.world self.old.disk.now)) }
        ensures same { IsTrue D.readable → OnOk result (applied (D.world self.new.disk.now).seen ≡ applied (D.world self.old.disk.now).seen) }
        ensures in_place { IsTrue D.readable → OnOk result ((D.world self.new.disk.now).seen areas.Pages ≡ applied (D.world self.old.disk.now).seen) }
        ensures front { OnOk result (self.new.end ≡ 0) }
        ensures retired { self.old.end ≢ 0 → OnOk result (self.new.journal.entries ≡ []) }
        ensures at_rest { self.old.end ≡ 0 → self.new.disk ≡ self.old.disk }

        ensures stopped { IsErrOf result PageFault.Stopped ↔ IsTrue self.old.stopped }
        ensures stops { IsErrOf result PageFault.Disk → self.new.stopped ≡ true }
        ensures goes_on { result ≢ Err PageFault.Disk → self.new.stopped ≡ self.old.stopped }
        ensures causes { IfErr result (λ fault. (fault ≡ PageFault.Stopped) ⊎ (fault ≡ PageFault.Disk)) }
        ensures cause { IsErrOf result PageFault.Disk → Rose (D.world self.old.disk.now).faults (D.world self.new.disk.now).faults }
        ensures stays { result ≢ Err PageFault.Disk → (D.world self.new.disk.now).faults ≡ (D.world self.old.disk.now).faults }
        ensures faults { (D.world self.old.disk.now).faults ≤ (D.world self.new.disk.now).faults }
        ensures sink { (D.world self.new.disk.now).sink_faults ≡ (D.world self.old.disk.now).sink_faults }
        ensures untouched { result ≢ Err PageFault.Disk → OnErr result (self.new.disk ≡ self.old.disk) }

        ensures overlay { self.new.overlay ≡ self.old.overlay }
        ensures current { self.new.current ≡ self.old.current }
        ensures last { self.new.last ≡ self.old.last }
        ensures quiet { IsTrue D.readable → SaysNothing (D.world self.old.disk.now) (D.world self.new.disk.now) }
        ensures reads { IsTrue D.readable → (D.world self.new.disk.now).reads ≡ (D.world self.old.disk.now).reads }
        ensures room { D.room_of self.new.disk.now ≡ D.room_of self.old.disk.now }
        ensures asked { self.new.asked.items ≡ self.old.asked.items }
        ensures refused { self.new.refused ≡ self.old.refused }
        ensures takes { self.new.takes_left ≡ self.old.takes_left }
    {
        if self.stopped {
            return Err(PageFault::Stopped);
        }
        if self.end == 0 {
            return Ok(());
        }
        // Until the checkpoint has succeeded the store is stopped.
        self.stopped = true;
        self.place = Place::Spare;
        page_cache::fill(&mut self.rooms, &mut self.journal);
        let Ok(()) = checkpoint(self.alloc, &mut *self.disk, &self.rooms) else {
            // An older image of a page that is cached may have the seal of the journal's image.
            self.seals.clear();
            return Err(PageFault::Disk);
        };
        page_cache::retire(&mut self.rooms, &mut self.cache);
        self.end = 0;
        self.stopped = false;
        Ok(())
    }

    /// Drops the overlay: the pages and the head are again those of the last commit. Makes no call of the disk.
    pub fn abandon(&mut self)
        ensures disk { self.new.disk ≡ self.old.disk }
        ensures clean { self.new.overlay.entries ≡ [] }
        ensures current { self.new.current ≡ self.old.last }
        ensures last { self.new.last ≡ self.old.last }

        // The pages and the head are now those that the disk holds.
        ensures committed { IsTrue D.readable → self.old.stopped ≡ false
            → contents_of (applied (D.world self.new.disk.now).seen) self.new.overlay self.new.current ≡ contents_in (applied (D.world self.new.disk.now).seen) }

        ensures stopped { self.new.stopped ≡ self.old.stopped }
        ensures asked { self.new.asked.items ≡ self.old.asked.items }
        ensures refused { self.new.refused ≡ self.old.refused }
        ensures takes { self.new.takes_left ≡ self.old.takes_left }
    {
        self.place = Place::Spare;
        page_cache::clear(&mut self.overlay, &mut self.seals);
        self.current = self.last;
    }
}
