//! Carrying a store of version 1 over to version 2.
ghost use Rattle.std.specs.Prelude.{◌≡◌, ◌≢◌, ◌≤◌, ℕ, Some, None, [], false, length, IsTrue, IfOk, IfErr, OnOk, OnErr, IsErrOf};
ghost use Rattle.disk_model.specs.World.{LeavesOnly, Rose};
ghost use Rattle.page_journal.specs.Record.{IsBad, IsReady, StandsAlike};
ghost use Rattle.page_store.specs.Store.{Rests};
ghost use Rattle.place_values.specs.State.{Contents};
ghost use Rattle.store_model.specs.Stands.{PagesStand};
ghost use Rattle.table_updates.specs.Version1.{StandsVersion1};
ghost use Rattle.irtree_engine.specs.Changes.{block_with};
ghost use Rattle.irtree_engine.specs.Holding.{HoldsState, IsForeign, LeavesState};
ghost use Rattle.irtree_engine.specs.Opening.{IsRecovered};
ghost use Rattle.irtree_engine.specs.Upgrades.{IsOpenableVersion1, IsOpenedFor, IsReadyVersion1, IsUpgradeDamage, IsUpgradeFault, IsVersion1Damage, IsVersion1Fault, LacksRoomToCarry, LeavesEither, LeavesUnchanged, StandsForNeither, StandsForNoneVersion1, fault_of_opening};
ghost use Rattle.irtree_engine.specs.Updates.{IsCommitFault};

use crate::EngineFault;
use crate::opening::recover_superblock;
use crate::room::want_room;
use disk_model::Station;
use page_face::{Damage, Head, PageFault, Pages, Rule};
use page_store::{OpenFault, Store, recover_version1};
use std::alloc::Global;
use table_updates::carry_over;

// A put into the new place map takes at most a page for each level, of which there are 256, and one for a new root.
const TAKES_A_PLACE: u64 = 257;

/// Carries a store of version 1 over to version 2: each place, with the empty label, and the next serial and the update number stay.
/// Returns the number of live places. For a store of version 2, also an empty one, returns `None`, and what it holds stays.
///
/// All is stored in one commit: a crash at any moment leaves the state in version 1, or all of it in version 2. The commit is brought to
/// its place before the call returns. The cache holds as many pages as `cache`, or none if memory runs out for it.
///
/// Refuses `NotAStore`, `BadJournal` and `Damaged` with the rule Head at page 0 as [`recover_superblock`] does; `Damaged` by another rule,
/// never if the image holds a state; `Disk`; `Memory`. Refuses `NoRoom` only for a store of version 1. Then the free pages, and those that
/// the disk has room for beside the pages counted, are together no more than 257 for each place. It looks at each page of the free list
/// first, and at no more of them than that. After a bad journal nothing was written. After every other refusal but `Disk` the journal is
/// recovered, and the store has the pages that it had before, also at every crash.
///
/// Costs two recoveries, and for each place a look-up and a removal in the old place map and a put into the new one. Then it costs a commit
/// and a checkpoint of all pages of both maps, which are in memory until then.
pub fn upgrade<D: Station>(
    alloc: Global,
    disk: &mut D,
    cache: u32,
) -> Result<Option<u32>, EngineFault>
    // A store of version 1.
    ensures upgraded { IsTrue D.readable → (state : Contents) → StandsVersion1 (D.world disk.old).seen state
        → IfOk result (λ count. (count ≡ Some (length state.places)) × HoldsState (D.world disk.new) state) }
    ensures any_moment { IsTrue D.readable → (state : Contents) → StandsVersion1 (D.world disk.old).seen state
        → LeavesOnly (D.world disk.old) (D.world disk.new) (LeavesEither state (D.world disk.old)) }

    // A store of version 2.
    ensures present { IsTrue D.readable → (state : Contents) → HoldsState (D.world disk.old) state
        → IfOk result (λ count. (count ≡ None) × HoldsState (D.world disk.new) state) }
    ensures still { IsTrue D.readable → (state : Contents) → HoldsState (D.world disk.old) state
        → LeavesOnly (D.world disk.old) (D.world disk.new) (LeavesState state (D.world disk.old)) }

    // Whatever the image holds: which version it is opened by, and why it is refused.
    ensures opened { IsTrue D.readable → IfOk result (λ count. IsOpenedFor count (D.world disk.old).seen) }
    ensures not_a_store { IsTrue D.readable → IsErrOf result EngineFault.NotAStore → StandsForNeither (D.world disk.old).seen × IsForeign (D.world disk.old).seen }
    ensures bad { IsTrue D.readable → (at : ℕ) → IsErrOf result (EngineFault.BadJournal at) → StandsForNeither (D.world disk.old).seen × IsBad (D.world disk.old).seen at }
    ensures damaged { IsTrue D.readable → (damage : Damage) → IsErrOf result (EngineFault.Damaged damage)
        → StandsForNeither (D.world disk.old).seen × IsUpgradeDamage damage (D.world disk.old).seen }
    ensures room_left { IsTrue D.readable → IsErrOf result EngineFault.NoRoom → IsOpenableVersion1 (D.world disk.old).seen }
    ensures lacks { IsTrue D.readable → IsErrOf result EngineFault.NoRoom → LacksRoomToCarry (D.room_of disk.new) (D.world disk.new).seen }
    ensures causes { IfErr result IsUpgradeFault }

    // What is refused is left alone, and so is every image that isn't opened by version 1.
    ensures left { IsTrue D.readable → IfErr result (λ fault. LeavesUnchanged fault (D.world disk.old) (D.world disk.new)) }
    ensures alike { IsTrue D.readable → result ≢ Err EngineFault.Disk → OnErr result (LeavesOnly (D.world disk.old) (D.world disk.new) (StandsAlike (D.world disk.old))) }
    ensures unopened { IsTrue D.readable → ¬ IsOpenableVersion1 (D.world disk.old).seen → LeavesOnly (D.world disk.old) (D.world disk.new) (StandsAlike (D.world disk.old)) }
    ensures room { D.room_of disk.new ≡ D.room_of disk.old }

    ensures silent { IsTrue D.readable → (D.world disk.new).said ≡ (D.world disk.old).said }
    ensures disk { IsErrOf result EngineFault.Disk → Rose (D.world disk.old).faults (D.world disk.new).faults }
    ensures stays { result ≢ Err EngineFault.Disk → (D.world disk.new).faults ≡ (D.world disk.old).faults }
    ensures later { (D.world disk.old).faults ≤ (D.world disk.new).faults }
    ensures sink { (D.world disk.new).sink_faults ≡ (D.world disk.old).sink_faults }
    ensures at_rest { IsTrue D.readable → OnOk result (IsReady 0 (D.world disk.new)) }
{
    match recover_superblock(&mut *disk) {
        Ok(_) => Ok(None),
        Err(EngineFault::Version1) => match upgrade_version1(alloc, disk, cache) {
            Ok(count) => Ok(Some(count)),
            Err(fault) => Err(fault),
        },
        Err(EngineFault::Disk) => Err(EngineFault::Disk),
        Err(EngineFault::NotAStore) => Err(EngineFault::NotAStore),
        Err(EngineFault::BadJournal(at)) => Err(EngineFault::BadJournal(at)),
        Err(EngineFault::Damaged(damage)) => Err(EngineFault::Damaged(damage)),
        // An opening is refused for no other cause.
        Err(_) => Err(EngineFault::Memory),
    }
}

// Carries a store of version 1 over, whose journal holds nothing. Returns the number of live places.
fn upgrade_version1<D: Station>(alloc: Global, disk: &mut D, cache: u32) -> Result<u32, EngineFault>
    requires magic { IsTrue D.readable → IsReadyVersion1 (D.world disk.old) }
    ensures upgraded { IsTrue D.readable → (state : Contents) → StandsVersion1 (D.world disk.old).seen state
        → IfOk result (λ count. (count ≡ length state.places) × HoldsState (D.world disk.new) state) }
    ensures any_moment { IsTrue D.readable → (state : Contents) → StandsVersion1 (D.world disk.old).seen state
        → LeavesOnly (D.world disk.old) (D.world disk.new) (LeavesEither state (D.world disk.old)) }
    ensures opened { IsTrue D.readable → OnOk result (IsOpenableVersion1 (D.world disk.old).seen) }
    ensures damaged { IsTrue D.readable → (damage : Damage) → IsErrOf result (EngineFault.Damaged damage)
        → StandsForNoneVersion1 (D.world disk.old).seen × IsVersion1Damage damage (D.world disk.old).seen }
    ensures room_left { IsTrue D.readable → IsErrOf result EngineFault.NoRoom → IsOpenableVersion1 (D.world disk.old).seen }
    ensures lacks { IsTrue D.readable → IsErrOf result EngineFault.NoRoom → LacksRoomToCarry (D.room_of disk.new) (D.world disk.new).seen }
    ensures left { IsTrue D.readable → result ≢ Err EngineFault.Disk → OnErr result (IsRecovered (D.world disk.old) (D.world disk.new)) }
    ensures alike { IsTrue D.readable → result ≢ Err EngineFault.Disk → OnErr result (LeavesOnly (D.world disk.old) (D.world disk.new) (StandsAlike (D.world disk.old))) }
    ensures unopened { IsTrue D.readable → ¬ IsOpenableVersion1 (D.world disk.old).seen → LeavesOnly (D.world disk.old) (D.world disk.new) (StandsAlike (D.world disk.old)) }
    ensures room { D.room_of disk.new ≡ D.room_of disk.old }
    ensures causes { IsTrue D.readable → IfErr result IsVersion1Fault }
    ensures faults { IfErr result IsUpgradeFault }
    ensures silent { IsTrue D.readable → (D.world disk.new).said ≡ (D.world disk.old).said }
    ensures disk { IsErrOf result EngineFault.Disk → Rose (D.world disk.old).faults (D.world disk.new).faults }
    ensures stays { result ≢ Err EngineFault.Disk → (D.world disk.new).faults ≡ (D.world disk.old).faults }
    ensures later { (D.world disk.old).faults ≤ (D.world disk.new).faults }
    ensures sink { (D.world disk.new).sink_faults ≡ (D.world disk.old).sink_faults }
    ensures at_rest { IsTrue D.readable → OnOk result (IsReady 0 (D.world disk.new)) }
{
    let block = match recover_version1(&mut *disk) {
        Ok(block) => block,
        Err(fault) => return Err(opening_fault(fault)),
    };
    let mut store = Store::over(alloc, disk, block, cache);
    let end = carry_store(&mut store);
    let _disk = store.into_disk();
    end
}

// The engine's name of a fault of an opening.
fn opening_fault(fault: OpenFault) -> EngineFault
    ensures { result ≡ fault_of_opening fault }
{
    match fault {
        OpenFault::Disk => EngineFault::Disk,
        OpenFault::NotAStore => EngineFault::NotAStore,
        OpenFault::BadJournal(at) => EngineFault::BadJournal(at),
        OpenFault::Damaged(damage) => EngineFault::Damaged(damage),
        OpenFault::Version1 => EngineFault::Version1,
        OpenFault::Memory => EngineFault::Memory,
    }
}

// Carries the places of a store of version 1 over, and makes that safe. Returns the number of live places.
fn carry_store<'d, D: Station>(store: &mut Store<'d, D>) -> Result<u32, EngineFault>
    requires on { store.old.stopped ≡ false }
    requires clean { store.old.overlay.entries ≡ [] }
    requires settled { store.old.current ≡ store.old.last }
    ensures same_loan { store.new.disk.ghost_name ≡ store.old.disk.ghost_name }
    ensures upgraded { IsTrue D.readable → (state : Contents) → StandsVersion1 (D.world store.old.disk.now).seen state
        → IfOk result (λ count. (count ≡ length state.places) × HoldsState (D.world store.new.disk.now) state) }
    ensures any_moment { IsTrue D.readable → (state : Contents) → StandsVersion1 (D.world store.old.disk.now).seen state
        → LeavesOnly (D.world store.old.disk.now) (D.world store.new.disk.now) (LeavesEither state (D.world store.old.disk.now)) }
    ensures no_false_damage { IsTrue D.readable → (state : Contents) → StandsVersion1 (D.world store.old.disk.now).seen state
        → (damage : Damage) → ¬ IsErrOf result (EngineFault.Damaged damage) }
    ensures no_head { IsTrue D.readable → (damage : Damage) → IsErrOf result (EngineFault.Damaged damage) → damage.rule ≢ Rule.Head }
    ensures causes { IfErr result IsVersion1Fault }
    ensures lacks { IsTrue D.readable → IsErrOf result EngineFault.NoRoom → LacksRoomToCarry (D.room_of store.new.disk.now) (D.world store.new.disk.now).seen }
    ensures rests { IsTrue D.readable → result ≢ Err EngineFault.Disk → OnErr result (Rests (D.world store.old.disk.now) (D.world store.new.disk.now)) }
    ensures room { D.room_of store.new.disk.now ≡ D.room_of store.old.disk.now }
    ensures silent { IsTrue D.readable → (D.world store.new.disk.now).said ≡ (D.world store.old.disk.now).said }
    ensures disk { IsErrOf result EngineFault.Disk → Rose (D.world store.old.disk.now).faults (D.world store.new.disk.now).faults }
    ensures stays { result ≢ Err EngineFault.Disk → (D.world store.new.disk.now).faults ≡ (D.world store.old.disk.now).faults }
    ensures later { (D.world store.old.disk.now).faults ≤ (D.world store.new.disk.now).faults }
    ensures sink { (D.world store.new.disk.now).sink_faults ≡ (D.world store.old.disk.now).sink_faults }
    ensures at_rest { IsTrue D.readable → OnOk result (IsReady 0 (D.world store.new.disk.now)) }
{
    let mut head = store.head();
    let counted = store.counted();
    let most = TAKES_A_PLACE * u64::from(head.live);
    match carry_over(store, &mut head) {
        Ok(()) => {}
        Err(PageFault::NoRoom) => return Err(want_room(store, counted, most)),
        Err(PageFault::Damaged(damage)) => return Err(EngineFault::Damaged(damage)),
        Err(PageFault::Memory) => return Err(EngineFault::Memory),
        Err(PageFault::Disk) => return Err(EngineFault::Disk),
        Err(PageFault::Stopped) => return Err(EngineFault::Stopped),
    }
    commit_carried(store, &head)?;
    Ok(head.live)
}

// Makes what was carried over safe in one commit with this head, and brings it to its place.
fn commit_carried<'d, D: Station>(store: &mut Store<'d, D>, head: &Head) -> Result<(), EngineFault>
    requires on { store.old.stopped ≡ false }
    ensures same_loan { store.new.disk.ghost_name ≡ store.old.disk.ghost_name }
    ensures stored { IsTrue D.readable → (state : Contents)
        → PagesStand (block_with store.old.current.counted store.old.current.first_free head.now) (⟦<Store<'d, D> as Pages>⟧.pages store.old) state
        → OnOk result (HoldsState (D.world store.new.disk.now) state) }
    ensures any_moment { IsTrue D.readable → (state : Contents) → StandsVersion1 (D.world store.old.disk.now).seen state
        → PagesStand (block_with store.old.current.counted store.old.current.first_free head.now) (⟦<Store<'d, D> as Pages>⟧.pages store.old) state
        → LeavesOnly (D.world store.old.disk.now) (D.world store.new.disk.now) (LeavesEither state (D.world store.old.disk.now)) }
    ensures causes { IfErr result IsCommitFault }
    ensures untouched { result ≢ Err EngineFault.Disk → OnErr result (store.new.disk ≡ store.old.disk) }
    ensures room { D.room_of store.new.disk.now ≡ D.room_of store.old.disk.now }
    ensures silent { IsTrue D.readable → (D.world store.new.disk.now).said ≡ (D.world store.old.disk.now).said }
    ensures disk { IsErrOf result EngineFault.Disk → Rose (D.world store.old.disk.now).faults (D.world store.new.disk.now).faults }
    ensures stays { result ≢ Err EngineFault.Disk → (D.world store.new.disk.now).faults ≡ (D.world store.old.disk.now).faults }
    ensures later { (D.world store.old.disk.now).faults ≤ (D.world store.new.disk.now).faults }
    ensures sink { (D.world store.new.disk.now).sink_faults ≡ (D.world store.old.disk.now).sink_faults }
    ensures at_rest { IsTrue D.readable → OnOk result (IsReady 0 (D.world store.new.disk.now)) }
{
    store.set_head(head);
    store.commit_all()?;
    store.settle()?;
    Ok(())
}
