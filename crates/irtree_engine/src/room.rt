//! Whether more pages are free than a change may take.
ghost use Rattle.std.specs.Prelude.{◌≡◌, ◌≢◌, ◌⊎◌, ℕ, ◌+◌, ◌≤◌, List, [], length, IfOk, IsTrue};
ghost use Rattle.disk_model.specs.World as worlds;
ghost use Rattle.page_face.specs.Calls.{FailsReading, Reads};
ghost use Rattle.page_face.specs.FreeList.{IsFreeList};
ghost use Rattle.page_store.specs.Store.{Rests};

use crate::EngineFault;
use disk_model::Station;
use page_face::{PageFault, Pages, free_next};
use page_store::Store;

/// Returns why a change stops after a take found no page, if `counted` pages were counted before it and it may take `most`.
///
/// It is `NoRoom` only if the free list ends within the pages that the change could still have taken, and else `Memory` or `Disk`. Drops
/// the change. Looks at the pages of the free list, and at no more of them than that.
pub(crate) fn want_room<'d, D: Station>(
    store: &mut Store<'d, D>,
    counted: u32,
    most: u64,
) -> EngineFault
    requires more { counted ≤ store.old.current.counted }
    requires within { store.old.current.counted ≤ counted + most }
    ensures same_loan { store.new.disk.ghost_name ≡ store.old.disk.ghost_name }
    ensures current { store.new.current ≡ store.old.last }
    ensures last { store.new.last ≡ store.old.last }
    ensures clean { store.new.overlay.entries ≡ [] }
    ensures cause { (result ≡ EngineFault.NoRoom) ⊎ (result ≡ EngineFault.Memory) ⊎ (result ≡ EngineFault.Disk) }
    ensures disk { result ≡ EngineFault.Disk → worlds.Rose (D.world store.old.disk.now).faults (D.world store.new.disk.now).faults }
    ensures stays { result ≢ EngineFault.Disk → (D.world store.new.disk.now).faults ≡ (D.world store.old.disk.now).faults }
    ensures free_left { result ≡ EngineFault.NoRoom → (free : List ℕ)
        → IsFreeList (⟦<Store<'d, D> as Pages>⟧.pages store.new) store.new.current.counted store.new.current.first_free free
        → store.old.current.counted + length free ≤ counted + most }
    ensures rests { IsTrue D.readable → Rests (D.world store.old.disk.now) (D.world store.new.disk.now) }
    ensures silent { IsTrue D.readable → (D.world store.new.disk.now).said ≡ (D.world store.old.disk.now).said }
    ensures later { (D.world store.old.disk.now).faults ≤ (D.world store.new.disk.now).faults }
    ensures sink { (D.world store.new.disk.now).sink_faults ≡ (D.world store.old.disk.now).sink_faults }
    ensures refused { store.new.refused ≡ store.old.refused }
    ensures room { D.room_of store.new.disk.now ≡ D.room_of store.old.disk.now }
    ensures stopped { store.new.stopped ≡ store.old.stopped }
{
    let more = store.counted() - counted;
    store.abandon();
    match ends_within(store, most - u64::from(more)) {
        Ok(true) => EngineFault::NoRoom,
        Err(PageFault::Disk) => EngineFault::Disk,
        _ => EngineFault::Memory,
    }
}

// Returns whether the free list ends within `most` pages.
fn ends_within<P: Pages>(pages: &mut P, most: u64) -> Result<bool, PageFault>
    ensures few { IfOk result (λ ends. IsTrue ends → (free : List ℕ) → IsFreeList (P.pages pages.old) (P.count pages.old) (P.first pages.old) free → length free ≤ most) }
    ensures fails { FailsReading P.Pages pages.old pages.new result }
    ensures frame { Reads P.Pages pages.old pages.new }
{
    let mut next = pages.first_free();
    let mut left = most;
    'chain: while next != 0 {
        if left == 0 {
            return Ok(false);
        }
        left -= 1;
        match pages.look(next) {
            Ok(()) => {}
            Err(fault) => return Err(fault),
        }
        match free_next(pages.looked()) {
            Ok(after) => next = after,
            Err(_) => return Ok(false),
        }
    }
    Ok(true)
}
