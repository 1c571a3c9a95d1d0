//! The pages of a store.
ghost use Rattle.std.specs.Prelude.{◌≡◌, ◌≢◌, ◌↔◌, ◌≤◌, ◌+◌, ◌⊎◌, IsTrue, IfOk, IfErr, OnOk, OnErr, IsErrOf};
ghost use Rattle.page_face.specs.Causes.{IsUncounted, Rose};
ghost use Rattle.page_store.specs.Store.{kept_of};

use crate::store::Store;
use disk_model::Disk;
use page_cache::Place;
use page_face::{Damage, Page, PageFault, Pages, Seal, free_next, free_page, unlinked};

fn is_uncounted(counted: u32, page: u32) -> bool
    ensures { IsTrue result ↔ IsUncounted counted page }
{
    page == 0 || page >= counted
}

impl<'d, D: Disk> Pages for Store<'d, D> {
    ghost use Rattle.std.specs.Prelude.{◌≡◌, ◌≤◌};
    ghost use Rattle.page_journal.specs.Record.{applied};
    ghost use Rattle.page_store.specs.Contents.{shown, counted_pages};
    ghost use Rattle.page_cache.specs.Places.{looked_page};
    ghost use Rattle.page_store.specs.Takes.{counts_of};
    ghost use Rattle.page_store.specs.Store.{GoesOn, OnlyReads, goes_nowhere, goes_further, reads_nothing, reads_further};

    ghost pages = { λ s. counted_pages s.current.counted (shown D.readable (applied (D.world s.disk.now).seen) s.overlay) };

    ghost count = { λ s. s.current.counted };

    ghost first = { λ s. s.current.first_free };

    ghost room = { λ s. D.room_of s.disk.now };

    ghost asked = { λ s. s.asked.items };

    ghost looked = { λ s. looked_page s.place s.overlay s.journal s.cache s.spare };

    ghost faults = { λ s. (D.world s.disk.now).faults };

    ghost refused = { λ s. s.refused };

    ghost is_stopped = { λ s. s.stopped };

    ghost follows_from = { λ a b. GoesOn D.readable D.world D.room_of (kept_of a.current a.last) (kept_of b.current b.last)
        (counts_of a.current.counted a.takes_left a.refused) (counts_of b.current.counted b.takes_left b.refused) a.disk b.disk };

    ghost only_reads = { λ a b. OnlyReads D.readable D.world a.overlay b.overlay a.asked.items b.asked.items a.disk.now b.disk.now };

    ghost first_is_counted = { λ s. s.current_first };

    ghost stays = { λ s. goes_nowhere D.readable D.world D.room_of (kept_of s.current s.last) (counts_of s.current.counted s.takes_left s.refused) s.disk };

    ghost goes_further = { λ a b c f g. goes_further D.readable D.world D.room_of (kept_of a.current a.last) (kept_of b.current b.last) (kept_of c.current c.last)
        (counts_of a.current.counted a.takes_left a.refused) (counts_of b.current.counted b.takes_left b.refused) (counts_of c.current.counted c.takes_left c.refused)
        a.disk b.disk c.disk f g };

    ghost reads_nothing = { λ s. reads_nothing D.readable D.world s.overlay s.asked.items s.disk.now };

    ghost reads_further = { λ a b c f g. reads_further D.readable D.world a.overlay b.overlay c.overlay a.asked.items b.asked.items c.asked.items a.disk.now b.disk.now c.disk.now f g };

    fn counted(&self) -> u32 {
        self.current.counted
    }

    fn first_free(&self) -> u32 {
        self.current.first_free
    }

    // Inlined, so that a page in memory is copied once, straight to the caller's buffer.
    #[inline(always)]
    fn read(&mut self, page: u32) -> Result<Page, PageFault> {
        match self.look(page) {
            Ok(()) => Ok(*self.looked()),
            Err(fault) => Err(fault),
        }
    }

    fn look(&mut self, page: u32) -> Result<(), PageFault> {
        if self.stopped {
            return Err(PageFault::Stopped);
        }
        if self.asked.push(page).is_err() {
            return Err(PageFault::Memory);
        }
        if is_uncounted(self.current.counted, page) {
            return Err(unlinked(page));
        }
        match self.fetch(page) {
            Ok(()) => Ok(()),
            Err(_) => Err(PageFault::Disk),
        }
    }

    fn looked(&self) -> &Page {
        page_cache::lend(
            self.place,
            &self.overlay,
            &self.journal,
            &self.cache,
            &self.spare,
        )
    }

    fn is_sealed(&self, seal: Seal) -> bool {
        self.place.is_held() && self.seals.has(self.at, seal)
    }

    fn seal(&mut self, seal: Seal) {
        if self.place.is_held() {
            self.seals.note(self.at, seal);
        }
    }

    fn write(&mut self, page: u32, bytes: &Page) -> Result<(), PageFault> {
        if self.stopped {
            return Err(PageFault::Stopped);
        }
        if is_uncounted(self.current.counted, page) {
            return Err(unlinked(page));
        }
        self.place = Place::Spare;
        page_cache::write(self.alloc, &mut self.overlay, &mut self.seals, page, bytes)
    }

    fn write_sealed(&mut self, page: u32, bytes: &Page, seal: Seal) -> Result<(), PageFault> {
        if self.stopped {
            return Err(PageFault::Stopped);
        }
        if is_uncounted(self.current.counted, page) {
            return Err(unlinked(page));
        }
        self.place = Place::Spare;
        page_cache::write_sealed(
            self.alloc,
            &mut self.overlay,
            &mut self.seals,
            page,
            bytes,
            seal,
        )
    }

    fn take(&mut self) -> Result<u32, PageFault> {
        if self.stopped {
            return Err(PageFault::Stopped);
        }
        if self.current.first_free == 0 {
            return self.count_one();
        }
        if self.takes_left == 0 {
            return Err(PageFault::Memory);
        }
        let page = self.current.first_free;
        let Ok(()) = self.fetch(page) else {
            return Err(PageFault::Disk);
        };
        match free_next(self.looked()) {
            Ok(next) => {
                if next >= self.current.counted {
                    return Err(unlinked(next));
                }
                self.current.first_free = next;
                self.takes_left -= 1;
                Ok(page)
            }
            Err(rule) => Err(PageFault::Damaged(Damage { page, rule })),
        }
    }

    fn give_back(&mut self, page: u32) -> Result<(), PageFault> {
        if self.stopped {
            return Err(PageFault::Stopped);
        }
        if is_uncounted(self.current.counted, page) {
            return Err(unlinked(page));
        }
        self.place = Place::Spare;
        page_cache::write(
            self.alloc,
            &mut self.overlay,
            &mut self.seals,
            page,
            &free_page(self.current.first_free),
        )?;
        self.current.first_free = page;
        Ok(())
    }
}

impl<'d, D: Disk> Store<'d, D> {
    // Counts one more page, if there is room and a take is left.
    fn count_one(&mut self) -> Result<u32, PageFault>
        requires { self.old.current.first_free ≡ 0 }
        ensures counts { IfOk result (λ page. (page ≡ self.old.current.counted) × (self.new.current.counted ≡ self.old.current.counted + 1)) }
        ensures full { IsErrOf result PageFault.NoRoom ↔ (D.room_of self.old.disk.now ≤ self.old.current.counted) }
        ensures other { IfErr result (λ fault. (fault ≡ PageFault.NoRoom) ⊎ (fault ≡ PageFault.Memory)) }
        ensures spent { IsErrOf result PageFault.Memory → self.old.takes_left ≡ 0 }
        ensures used { OnOk result (self.new.takes_left + 1 ≡ self.old.takes_left) }
        ensures unused { OnErr result (self.new.takes_left ≡ self.old.takes_left) }
        ensures kept { OnErr result (self.new.current ≡ self.old.current) }
        ensures refused_more { IsErrOf result PageFault.NoRoom → Rose self.old.refused self.new.refused }
        ensures refused { result ≢ Err PageFault.NoRoom → self.new.refused ≡ self.old.refused }
        ensures refused_later { self.old.refused ≤ self.new.refused }
        ensures first { self.new.current.first_free ≡ 0 }
        ensures head { kept_of self.new.current self.new.last ≡ kept_of self.old.current self.old.last }
        ensures disk { self.new.disk ≡ self.old.disk }
        ensures overlay { self.new.overlay ≡ self.old.overlay }
        ensures journal { self.new.journal ≡ self.old.journal }
        ensures asked { self.new.asked ≡ self.old.asked }
        ensures stopped { self.new.stopped ≡ self.old.stopped }
    {
        let page = self.current.counted;
        if page >= self.disk.room() {
            self.refused = self.refused.saturating_add(1);
            return Err(PageFault::NoRoom);
        }
        if self.takes_left == 0 {
            return Err(PageFault::Memory);
        }
        self.takes_left -= 1;
        self.current.counted = page + 1;
        Ok(page)
    }
}
