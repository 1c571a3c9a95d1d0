//! The engine, its count, and its output.
ghost use Rattle.std.specs.Prelude.{◌≡◌, ◌≤◌, ◌<◌, ◌⊎◌, false, IsTrue, IfOk, IfErr, OnOk, IsErrOf, ◌↔◌, ℕ, [], length};
ghost use Rattle.disk_model.specs.World.{LeavesOnly, HasSaid, HasSinkCause, ReadsJournalOnly};
ghost use Rattle.page_journal.specs.Record.{IsBad, applied};
ghost use Rattle.page_store.specs.Contents.{IsCommitted};
ghost use Rattle.page_store.specs.Opening.{Recovers, SaysNothingReadsHead, head_damage};
ghost use Rattle.page_store.specs.Held.{room_of};
ghost use Rattle.place_values.specs.State.{Contents};
ghost use Rattle.irtree_engine.specs.Holding.{HasBrokenHead, HoldsState, IsForeign, IsVersion1, LeavesState, StandsForNone};
ghost use Rattle.irtree_engine.specs.Faults.{IsOpenFault, IsSettleFault};
ghost use Rattle.page_store.specs.Superblock.{IsInRange};
ghost use Rattle.irtree_engine.specs.Changes.{AreHeadNumbers};

use crate::{EngineFault, recover_superblock};
use disk_model::{Failed, Station};
use page_face::{Damage, PageFault};
use page_store::{Store, Superblock};
use split_policy::SplitPolicy;
use std::alloc::Global;

/// A store of places on a station that it borrows, and the policy that shapes its tree.
///
/// Between calls nothing waits to be committed: unless the engine is stopped, the station's image holds its state. The policy is a box of
/// any [`SplitPolicy`]. It decides the tree's shape, and no answer.
#[derive(Drop)]
pub struct Engine<'d, D: Station, P: Drop = Box<dyn SplitPolicy>> {
    pub(crate) alloc: Global,
    pub(crate) store: Store<'d, D>,
    pub(crate) policy: P,
    // an earlier commit failed
    pub(crate) stopped: bool,
    ghost clean: { store.overlay.entries ≡ [] },
    ghost settled: { store.current ≡ store.last },
    ghost stops: { stopped ≡ store.stopped },
    ghost numbers: { AreHeadNumbers store.current.head },
    ghost in_range: { IsInRange store.current },
}

impl<'d, D: Station> Engine<'d, D> {
    ghost use Rattle.irtree_engine.specs.Engine.{OnlySettles, RefusesSettling, block_of, world_of};

    /// Recovers the journal and reads page 0. `cache` is the number of pages that the cache may hold; 0 is none. The tree changes under the
    /// policy, which a store doesn't keep: another may be handed in at each opening.
    ///
    /// Refuses as [`recover_superblock`] does, and costs as much; the policy is dropped then. The contract of [`recover_superblock`] gives
    /// what a refusal leaves. A bad journal is left alone. For a store that is refused the journal is recovered, and the disk holds the
    /// pages that it held before.
    pub fn open(
        alloc: Global,
        disk: &'d mut D,
        cache: u32,
        policy: Box<dyn SplitPolicy>,
    ) -> Result<Engine<'d, D>, EngineFault>
        ensures same_loan { IfOk result (λ engine. engine.store.disk.ghost_name ≡ disk.entry.ghost_name) }
        ensures holds { IsTrue D.readable → (state : Contents) → HoldsState (D.world disk.old) state → IfOk result (λ engine. HoldsState (D.world engine.store.disk.now) state) }
        ensures any_moment { IsTrue D.readable → (state : Contents) → HoldsState (D.world disk.old) state
            → IfOk result (λ engine. LeavesOnly (D.world disk.old) (D.world engine.store.disk.now) (LeavesState state (D.world disk.old))) }
        ensures fresh { IfOk result (λ engine. engine.stopped ≡ false) }
        ensures policy { IfOk result (λ engine. engine.policy ≡ policy) }
        ensures cache_room { IfOk result (λ engine. (room_of engine.store.cache ≡ cache) ⊎ (room_of engine.store.cache ≡ 0)) }
        ensures not_a_store { IsTrue D.readable → IsErrOf result EngineFault.NotAStore → StandsForNone (D.world disk.old).seen }
        ensures bad { IsTrue D.readable → (at : ℕ) → IsErrOf result (EngineFault.BadJournal at) → IsBad (D.world disk.old).seen at × StandsForNone (D.world disk.old).seen }
        ensures damaged { (damage : Damage) → IsErrOf result (EngineFault.Damaged damage)
            → (damage ≡ head_damage) × (IsTrue D.readable → StandsForNone (D.world disk.old).seen) }
        ensures foreign { IsTrue D.readable → IsErrOf result EngineFault.NotAStore → IsForeign (D.world disk.old).seen }
        ensures version1 { IsTrue D.readable → IsErrOf result EngineFault.Version1 → StandsForNone (D.world disk.old).seen × IsVersion1 (D.world disk.old).seen }
        ensures broken_head { IsTrue D.readable → (damage : Damage) → IsErrOf result (EngineFault.Damaged damage) → HasBrokenHead (D.world disk.old).seen }
        ensures causes { IfErr result IsOpenFault }

        ensures quiet { IsTrue D.readable → IfOk result (λ engine. SaysNothingReadsHead (D.world disk.old) (D.world engine.store.disk.now)) }
        ensures recovers { IsTrue D.readable → IfOk result (λ engine. Recovers (D.world disk.old) (D.world engine.store.disk.now)) }
        ensures stays { IfOk result (λ engine. (D.world engine.store.disk.now).faults ≡ (D.world disk.old).faults) }
        ensures sink { IfOk result (λ engine. (D.world engine.store.disk.now).sink_faults ≡ (D.world disk.old).sink_faults) }
        ensures room { IfOk result (λ engine. D.room_of engine.store.disk.now ≡ D.room_of disk.old) }
    {
        match recover_superblock(&mut *disk) {
            Ok(block) => Ok(Engine::over(alloc, disk, block, cache, policy)),
            Err(fault) => Err(fault),
        }
    }

    /// Makes the engine over a disk for which [`recover_superblock`] has returned this superblock. The cache has at most `cache` pages, or
    /// none if it runs out of memory for it. The tree changes under the policy. Makes no call of the disk.
    pub fn over(
        alloc: Global,
        disk: &'d mut D,
        block: Superblock,
        cache: u32,
        policy: Box<dyn SplitPolicy>,
    ) -> Engine<'d, D>
        requires in_range { IsInRange block }
        requires committed { IsTrue D.readable → IsCommitted block 0 (D.world disk.old) }
        ensures same_loan { result.store.disk.ghost_name ≡ disk.entry.ghost_name }
        ensures disk { result.store.disk.now ≡ disk.old }
        ensures block { result.store.last ≡ block }
        ensures fresh { result.stopped ≡ false }
        ensures policy { result.policy ≡ policy }
        ensures cache_room { (room_of result.store.cache ≡ cache) ⊎ (room_of result.store.cache ≡ 0) }
    {
        Engine {
            alloc,
            store: Store::over(alloc, disk, block, cache),
            policy,
            stopped: false,
        }
    }

    /// Gives the loan back, and drops the policy. Makes no call of the disk.
    pub fn into_disk(self) -> &'d mut D
        ensures same_loan { result.ghost_name ≡ self.entry.store.disk.ghost_name }
        ensures disk { result.now ≡ self.entry.store.disk.now }
    {
        let Engine {
            alloc: _,
            store,
            policy: _,
            stopped: _,
        } = self;
        store.into_disk()
    }

    /// Lets the tree change under another policy from now on, and drops the old one. All else stays: the store, its tree, and whether the
    /// engine is stopped. Makes no call of the disk.
    pub fn set_policy(&mut self, policy: Box<dyn SplitPolicy>)
        ensures same_loan { self.new.store.disk.ghost_name ≡ self.old.store.disk.ghost_name }
        ensures store { self.new.store ≡ self.old.store }
        ensures stopped { self.new.stopped ≡ self.old.stopped }
        ensures policy { self.new.policy ≡ policy }
    {
        self.policy = policy;
    }

    /// Returns how many splits the policy has made, as it counts them. Makes no call of the disk.
    pub fn splits(&self) -> u64
        ensures { result ≡ count self.now.policy }
    {
        self.policy.splits()
    }

    /// Returns how many places live. Makes no call of the disk.
    pub fn count(&self) -> u32
        ensures live { result ≡ (block_of self.now).head.live }
        ensures counted { IsTrue D.readable → self.now.stopped ≡ false → (state : Contents) → HoldsState (world_of self.now) state → result ≡ length state.places }
    {
        self.store.head().live
    }

    /// Passes a piece, which isn't empty, to the station, in one call. Changes nothing that the store holds. Returns what the station does.
    pub fn say(&mut self, bytes: &[u8]) -> Result<usize, Failed>
        requires { 0 < length bytes.now }
        ensures same_loan { self.new.store.disk.ghost_name ≡ self.old.store.disk.ghost_name }
        ensures count { IfOk result (λ n. (0 < n) × (n ≤ length bytes.now)) }
        ensures told { IsTrue D.readable → HasSaid bytes.now (D.world self.old.store.disk.now) (D.world self.new.store.disk.now) result }
        ensures cause { HasSinkCause (D.world self.old.store.disk.now) (D.world self.new.store.disk.now) result }
        ensures room { D.room_of self.new.store.disk.now ≡ D.room_of self.old.store.disk.now }
        ensures goes_on { self.new.stopped ≡ self.old.stopped }
        ensures log { self.new.store.asked.items ≡ self.old.store.asked.items }
        ensures head { self.new.store.current ≡ self.old.store.current }
    {
        self.store.say(bytes)
    }

    /// Returns the numbers of the pages that the last answer, show, verify, apply or apply_batch requested, in order. Each read of the
    /// device that an answer, a show or a verify makes is of one of these pages. Makes no call of the disk.
    pub fn read_log(&self) -> &[u32]
        ensures { result.now ≡ self.now.store.asked.items }
    {
        self.store.read_log()
    }

    /// Brings what the journal holds to its place, and changes no place.
    ///
    /// Refuses `Stopped` exactly if an earlier commit of this engine failed, before all else. Refuses `Disk`: then the engine is stopped,
    /// and the store is to be opened again. The image holds the same state at any moment. Takes no memory.
    ///
    /// Costs a checkpoint: a write for each page of the journal, one of a byte, and two syncs. Makes no call of the disk if the journal
    /// holds no record.
    pub fn settle(&mut self) -> Result<(), EngineFault>
        ensures frame { OnlySettles self.old self.new }
        ensures holds { IsTrue D.readable → (state : Contents) → HoldsState (world_of self.old) state → OnOk result (HoldsState (world_of self.new) state) }
        ensures any_moment { IsTrue D.readable → (state : Contents) → HoldsState (world_of self.old) state
            → LeavesOnly (world_of self.old) (world_of self.new) (LeavesState state (world_of self.old)) }
        ensures same { IsTrue D.readable → OnOk result (applied (world_of self.new).seen ≡ applied (world_of self.old).seen) }
        ensures front { OnOk result (self.new.store.end ≡ 0) }
        ensures at_rest { self.old.store.end ≡ 0 → self.new.store.disk ≡ self.old.store.disk }
        ensures reads { IsTrue D.readable → ReadsJournalOnly (world_of self.old) (world_of self.new) }
        ensures fails { RefusesSettling self.old self.new result }
    {
        if self.stopped {
            return Err(EngineFault::Stopped);
        }
        match self.store.settle() {
            Ok(()) => Ok(()),
            Err(fault) => {
                self.stopped = fault == PageFault::Disk;
                Err(EngineFault::from(fault))
            }
        }
    }

    /// Ends the engine, and drops the policy. Refuses as [`Engine::settle`] does, and costs as much.
    pub fn close(mut self) -> Result<(), EngineFault>
        ensures stopped { IsErrOf result EngineFault.Stopped ↔ IsTrue self.entry.stopped }
        ensures causes { IfErr result IsSettleFault }
    {
        let ended = self.settle();
        let _disk = self.into_disk();
        ended
    }
}
