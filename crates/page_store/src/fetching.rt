//! Looking at a page, from memory or from the disk.
ghost use Rattle.std.specs.Prelude.{◌≡◌, ◌<◌, None, Some, IsTrue, IsSome, false, is_some, OnOk, length};
ghost use Rattle.disk_model.specs.World.{HasDiskCause};
ghost use Rattle.disk_model.specs.declared.disk.Area.TheVariants as areas;
ghost use Rattle.page_journal.specs.Record.{applied};
ghost use Rattle.page_store.specs.Contents.{page_bytes, shown};
ghost use Rattle.page_cache.specs.Places.{held_page, looked_page};
ghost use Rattle.page_store.specs.Store.{ReadsPage};

use crate::page::read_page;
use crate::store::Store;
use disk_model::{Disk, Failed};
use page_cache::Place;

impl<'d, D: Disk> Store<'d, D> {
    // Looks at a page and doesn't note it in the log. A page that memory holds costs no call of the disk.
    pub(crate) fn fetch(&mut self, page: u32) -> Result<(), Failed>
        requires on { self.old.stopped ≡ false }
        ensures gives { OnOk result (0 < length (shown D.readable (applied (D.world self.old.disk.now).seen) self.old.overlay page)
            → looked_page self.new.place self.new.overlay self.new.journal self.new.cache self.new.spare ≡ shown D.readable (applied (D.world self.old.disk.now).seen) self.old.overlay page) }
        ensures in_memory { IsSome (held_page self.old.overlay self.old.journal self.old.cache page) → self.new.disk ≡ self.old.disk }
        ensures same_loan { self.new.disk.ghost_name ≡ self.old.disk.ghost_name }
        ensures reads { IsTrue D.readable → ReadsPage page (D.world self.old.disk.now) (D.world self.new.disk.now) }
        ensures cause { HasDiskCause (D.world self.old.disk.now) (D.world self.new.disk.now) result }
        ensures room { D.room_of self.new.disk.now ≡ D.room_of self.old.disk.now }
        ensures overlay { self.new.overlay ≡ self.old.overlay }
        ensures current { self.new.current ≡ self.old.current }
        ensures last { self.new.last ≡ self.old.last }
        ensures asked { self.new.asked ≡ self.old.asked }
        ensures refused { self.new.refused ≡ self.old.refused }
        ensures takes { self.new.takes_left ≡ self.old.takes_left }
        ensures stopped { self.new.stopped ≡ self.old.stopped }
    {
        if self.find(page) {
            return Ok(());
        }
        self.load(page)
    }

    // Looks at a page in memory, and returns whether it is held there.
    fn find(&mut self, page: u32) -> bool
        ensures found { result ≡ is_some (held_page self.old.overlay self.old.journal self.old.cache page) }
        ensures gives { IsTrue result → held_page self.old.overlay self.old.journal self.old.cache page
            ≡ Some (looked_page self.new.place self.new.overlay self.new.journal self.new.cache self.new.spare) }
        ensures none { result ≡ false → held_page self.new.overlay self.new.journal self.new.cache page ≡ None }
        ensures disk { self.new.disk ≡ self.old.disk }
        ensures overlay { self.new.overlay ≡ self.old.overlay }
        ensures current { self.new.current ≡ self.old.current }
        ensures last { self.new.last ≡ self.old.last }
        ensures asked { self.new.asked ≡ self.old.asked }
        ensures refused { self.new.refused ≡ self.old.refused }
        ensures takes { self.new.takes_left ≡ self.old.takes_left }
        ensures stopped { self.new.stopped ≡ self.old.stopped }
    {
        self.at = page;
        self.place = page_cache::find(
            &mut self.hints,
            &self.overlay,
            &self.journal,
            &mut self.cache,
            page,
        );
        self.place.is_held()
    }

    // Looks at a page that memory doesn't hold: reads it from the disk, and keeps it in the cache.
    fn load(&mut self, page: u32) -> Result<(), Failed>
        requires none { held_page self.old.overlay self.old.journal self.old.cache page ≡ None }
        ensures gives { OnOk result (IsTrue D.readable → looked_page self.new.place self.new.overlay self.new.journal self.new.cache self.new.spare
            ≡ page_bytes ((D.world self.old.disk.now).seen areas.Pages) page) }
        ensures same_loan { self.new.disk.ghost_name ≡ self.old.disk.ghost_name }
        ensures reads { IsTrue D.readable → ReadsPage page (D.world self.old.disk.now) (D.world self.new.disk.now) }
        ensures cause { HasDiskCause (D.world self.old.disk.now) (D.world self.new.disk.now) result }
        ensures room { D.room_of self.new.disk.now ≡ D.room_of self.old.disk.now }
        ensures overlay { self.new.overlay ≡ self.old.overlay }
        ensures current { self.new.current ≡ self.old.current }
        ensures last { self.new.last ≡ self.old.last }
        ensures asked { self.new.asked ≡ self.old.asked }
        ensures refused { self.new.refused ≡ self.old.refused }
        ensures takes { self.new.takes_left ≡ self.old.takes_left }
        ensures stopped { self.new.stopped ≡ self.old.stopped }
    {
        self.place = Place::Spare;
        match read_page(&mut *self.disk, page, &mut self.spare) {
            Ok(()) => {
                self.seals.forget(page);
                self.at = page;
                self.place = page_cache::keep(&mut self.cache, page, &self.spare);
                Ok(())
            }
            Err(failed) => Err(failed),
        }
    }
}
