//! Writing runs of neighbouring pages.
ghost use Rattle.std.specs.Prelude.{◌≡◌, ◌≤◌, ◌+◌, ◌*◌, ◌^◌, IsTrue, ℕ, List, [], ◌∷◌, OnOk, length, vec_capacity};
ghost use Rattle.disk_model.specs.World.{HasDiskCause, HasWritten};
ghost use Rattle.disk_model.specs.declared.disk.Area.TheVariants as areas;
ghost use Rattle.page_journal.specs.Record.{AllButPages, Batch, Spares};
ghost use Rattle.page_journal.specs.Runs.{LeadsTo, IsWithin};

use disk_model::{Area, Disk, Failed};
use std::alloc::Global;

/// The greatest length of a run, in bytes: 16 pages. Longer runs would save few calls of the disk more.
const RUN_MAX: usize = 65_536;

// Neighbouring pages that one write will write.
#[derive(Drop)]
pub(crate) struct Run {
    // the offset of the first page
    at: u64,
    bytes: Vec<u8>,
}

impl Run {
    // A run of no pages. Takes the memory of the longest run. If there is none, each page will be a run of its own.
    pub(crate) fn new(alloc: Global) -> Run
        ensures at { result.at ≡ 0 }
        ensures bytes { result.bytes.items ≡ [] }
    {
        match Vec::with_capacity(alloc, RUN_MAX) {
            Ok(bytes) => Run { at: 0, bytes },
            Err(_) => Run {
                at: 0,
                bytes: Vec::new(alloc),
            },
        }
    }

    // Whether a page at this offset continues the run, and there is room for it.
    fn takes(&self, at: u64) -> bool
        requires { self.now.at + length self.now.bytes.items ≤ 2 ^ 44 }
        ensures { IsTrue result → (self.now.at + length self.now.bytes.items ≡ at) × (length self.now.bytes.items + 4096 ≤ vec_capacity self.now.bytes) }
    {
        self.at + self.bytes.len() as u64 == at && self.bytes.len() + 4096 <= self.bytes.capacity()
    }

    // Writes the run, which is then empty.
    pub(crate) fn write<D: Disk>(&mut self, disk: &mut D) -> Result<(), Failed>
        requires { self.old.at + length self.old.bytes.items ≤ 2 ^ 44 }
        ensures written { IsTrue D.readable → HasWritten areas.Pages self.old.at self.old.bytes.items (D.world disk.old) (D.world disk.new) result }
        ensures empty { OnOk result (self.new.bytes.items ≡ []) }
        ensures cause { HasDiskCause (D.world disk.old) (D.world disk.new) result }
        ensures room { D.room_of disk.new ≡ D.room_of disk.old }
    {
        if self.bytes.is_empty() {
            return Ok(());
        }
        disk.write(Area::Pages, self.at, &self.bytes)?;
        self.bytes.clear();
        Ok(())
    }

    // Adds a page to the run. If the page doesn't continue it, the run is written first.
    pub(crate) fn add<D: Disk>(
        &mut self,
        disk: &mut D,
        number: u32,
        page: &[u8],
    ) -> Result<(), Failed>
        requires size { length page.now ≡ 4096 }
        requires fits { self.old.at + length self.old.bytes.items ≤ 2 ^ 44 }
        ensures fits { OnOk result (self.new.at + length self.new.bytes.items ≤ 2 ^ 44) }
        // It writes no place but those of a batch that has the run's pages and this one, and so does the run that it leaves.
        ensures spares { IsTrue D.readable → (batch : Batch) → IsWithin batch self.old.at (length self.old.bytes.items) → IsWithin batch (4096 * number) 4096
            → Spares (AllButPages batch) (D.world disk.old) (D.world disk.new) }
        ensures within { OnOk result ((batch : Batch) → IsWithin batch self.old.at (length self.old.bytes.items) → IsWithin batch (4096 * number) 4096
            → IsWithin batch self.new.at (length self.new.bytes.items)) }
        ensures leads { IsTrue D.readable → OnOk result ((rest : List (ℕ × List ℕ)) (target : ℕ → ℕ)
            → LeadsTo self.old.at self.old.bytes.items ((number, page.now) ∷ rest) (D.world disk.old).seen target
            → LeadsTo self.new.at self.new.bytes.items rest (D.world disk.new).seen target) }
        ensures reads { IsTrue D.readable → (D.world disk.new).reads ≡ (D.world disk.old).reads }
        ensures cause { HasDiskCause (D.world disk.old) (D.world disk.new) result }
        ensures room { D.room_of disk.new ≡ D.room_of disk.old }
    {
        let at = 4096 * number as u64;
        if self.takes(at) {
            let _appended = self.bytes.extend_from_slice(page);
            return Ok(());
        }
        self.write(disk)?;
        self.at = at;
        match self.bytes.extend_from_slice(page) {
            Ok(()) => Ok(()),
            Err(_) => disk.write(Area::Pages, at, page),
        }
    }
}
