//! Updates, each in one commit.
ghost use Rattle.std.specs.Prelude.{◌≡◌, ◌≢◌, ◌⊎◌, ◌↔◌, ◌<◌, ◌≤◌, ◌+◌, ◌-◌, ◌^◌, Ok, IsTrue, true, false, [], IfOk, IfErr, OnOk, OnErr, IsErrOf, length};
ghost use Rattle.std.specs.List.{AllByRecursion};
ghost use Rattle.disk_model.specs.World.{LeavesOnly};
ghost use Rattle.disk_model.specs.World as worlds;
ghost use Rattle.page_face.specs.Causes.{Rose};
ghost use Rattle.page_store.specs.Store.{Rests};
ghost use Rattle.page_store.specs.Superblock.{IsInRange};
ghost use Rattle.place_values.specs.State.{Contents};
ghost use Rattle.place_values.specs.Update.{NamesText, effect_of};
ghost use Rattle.store_model.specs.Stands.{PagesStand};
ghost use Rattle.irtree_engine.specs.Changes.{block_with};
ghost use Rattle.irtree_engine.specs.Holding.{HoldsState};
ghost use Rattle.irtree_engine.specs.Updates.{LeavesOneOf, LeavesAllOrNone, StandsForOutcome, IsCommitFault, IsDueTo, IsAtLimit, IsLater, most_takes, state_after_all};

use crate::room::want_room;
use crate::{Engine, EngineFault, change};
use disk_model::Station;
use page_face::{Head, PageFault, Pages};
use page_store::Store;
use place_values::{Applied, Update};

// How many takes of a page are allowed to a commit. The next two constants add to it for each update and for each page counted.
const TAKES: u64 = 65_536;

const TAKES_AN_UPDATE: u64 = 128;

const TAKES_A_PAGE: u64 = 8;

impl<'d, D: Station> Engine<'d, D> {
    ghost use Rattle.irtree_engine.specs.Engine.{LeavesAlone, RaisesByAtMost, RefusesUpdates, StandsRefused, block_of, world_of};

    /// Stores one update in one commit, in the place table and in the tree. A removal of a key at which no place lives makes none. A key
    /// that a Put names is a text key.
    ///
    /// Refuses `Stopped` exactly if an earlier commit of this engine failed, before all else. Refuses `Full` exactly if 1,000,000 or more
    /// places live and a Put's key is new. Refuses `Worn` exactly if the update number is 2^40 and the update would change the map. Refuses
    /// `NoRoom` if no page is left for it. Then the free pages, and those that the disk has room for beside the pages counted, are together
    /// no more than an update is allowed to take. Refuses `Disk`, and `Damaged`, never if the image holds a state or with the rule Head.
    /// Refuses `Memory`, which also stops an update that would take more pages than it is allowed. After `Disk` in the commit the engine is
    /// stopped, and the store is to be opened again. After every other refusal the map is as before.
    ///
    /// If no page is left, looks at each page of the free list, and at no more of them than an update is allowed to take. Else an update
    /// costs a look-up of the key, and a put or a removal in the place table. Each word that the update changes costs a look-up and a put
    /// in the tables of words. One commit of the pages that changed costs two writes and two syncs. From time to time a checkpoint comes
    /// first, which writes each page of the journal to its place, with two syncs more.
    ///
    /// In the tree a new place costs one way down. For each level a page and a row for each of the place's words are read, and those that
    /// change are written. A place that moves or whose words change also costs a search for its old entry and the rows of its way. The
    /// search goes through each node whose rectangle holds the old point. A removal costs such a search and its rows. A node that is left
    /// with fewer than 12 entries costs a way down for each of them. A place that is put where it was with the words that it had costs
    /// nothing there.
    pub fn apply(&mut self, update: &Update) -> Result<Applied, EngineFault>
        requires { NamesText update.now }
        ensures frame { LeavesAlone self.old self.new }
        ensures applied { IsTrue D.readable → (state : Contents) → HoldsState (world_of self.old) state
            → IfOk result (λ applied. ((effect_of state update.now).answer ≡ Ok applied) × HoldsState (world_of self.new) (effect_of state update.now).state) }

        // A crash at any moment leaves the state before the update or the one after it.
        ensures any_moment { IsTrue D.readable → (state : Contents) → HoldsState (world_of self.old) state
            → LeavesOnly (world_of self.old) (world_of self.new) (LeavesOneOf state (effect_of state update.now).state (world_of self.old)) }
        ensures rises { RaisesByAtMost 1 self.old self.new }

        // Nothing is committed for a removal of a key that isn't there.
        ensures absent { IsTrue D.readable → IfOk result (λ applied. applied ≡ Applied.Absent → Rests (world_of self.old) (world_of self.new)) }
        ensures fails { RefusesUpdates 1 self.old self.new result }
        ensures due { IsTrue D.readable → (state : Contents) → HoldsState (world_of self.old) state → IfErr result (IsDueTo (effect_of state update.now).answer) }
        ensures limits { IfErr result (IsAtLimit (block_of self.old).head.live (block_of self.old).head.number) }
        ensures refused { StandsRefused self.old self.new result }
    {
        match begin(&mut self.store, self.stopped, 1) {
            Ok(()) => {}
            Err(fault) => return Err(fault),
        }
        let counted = self.store.counted();
        let mut head = self.store.head();
        let applied = match change::update(
            self.alloc,
            &mut self.store,
            &mut head,
            &mut *self.policy,
            update,
        ) {
            Ok(applied) => applied,
            Err(EngineFault::NoRoom) => {
                return Err(want_room(&mut self.store, counted, takes_for(1, counted)));
            }
            Err(fault) => {
                self.store.abandon();
                return Err(fault);
            }
        };
        match commit(&mut self.store, &mut self.stopped, &head) {
            Ok(()) => Ok(applied),
            Err(fault) => Err(fault),
        }
    }

    /// Stores all updates in one commit, or none. There are at most 10,000, and a key that a Put names is a text key. An empty batch stores
    /// nothing.
    ///
    /// Refuses as [`Engine::apply`], for the first update that meets a cause; then none is stored. A batch is allowed to take 128 pages
    /// more for each of its updates than an empty one.
    ///
    /// Costs in the place table and in the tree as much as each update by itself, with one commit of the pages that changed. A word of the
    /// batch costs a look-up and one or two puts in the tables of words, however many of its places hold it. Each word of a place that is
    /// replaced or removed costs a look-up and a put.
    pub fn apply_batch(&mut self, updates: &[Update]) -> Result<(), EngineFault>
        requires few { length updates.now ≤ 10000 }
        requires keys { AllByRecursion NamesText updates.now }
        ensures frame { LeavesAlone self.old self.new }
        ensures applied { IsTrue D.readable → (state : Contents) → HoldsState (world_of self.old) state
            → OnOk result (StandsForOutcome (state_after_all state updates.now) (world_of self.new).seen) }

        // A crash at any moment leaves the state before the updates or the one after all of them.
        ensures any_moment { IsTrue D.readable → (state : Contents) → HoldsState (world_of self.old) state
            → LeavesOnly (world_of self.old) (world_of self.new) (LeavesAllOrNone state updates.now (world_of self.old)) }
        ensures rises { RaisesByAtMost (length updates.now) self.old self.new }
        ensures fails { RefusesUpdates (length updates.now) self.old self.new result }
        ensures due { IsTrue D.readable → (state : Contents) → HoldsState (world_of self.old) state → IfErr result (IsDueTo (state_after_all state updates.now)) }
        ensures limits { IfErr result (IsAtLimit ((block_of self.old).head.live + length updates.now) ((block_of self.old).head.number + length updates.now)) }
        ensures refused { StandsRefused self.old self.new result }
    {
        match begin(&mut self.store, self.stopped, updates.len()) {
            Ok(()) => {}
            Err(fault) => return Err(fault),
        }
        let counted = self.store.counted();
        let mut head = self.store.head();
        match change::update_all(
            self.alloc,
            &mut self.store,
            &mut head,
            &mut *self.policy,
            updates,
        ) {
            Ok(()) => {}
            Err(EngineFault::NoRoom) => {
                return Err(want_room(&mut self.store, counted, takes_for(updates.len(), counted)));
            }
            Err(fault) => {
                self.store.abandon();
                return Err(fault);
            }
        }
        commit(&mut self.store, &mut self.stopped, &head)
    }
}

// How many takes so many updates in one commit are allowed, if so many pages are counted.
fn takes_for(updates: usize, counted: u32) -> u64
    requires few { updates ≤ 10000 }
    ensures { result ≡ most_takes updates counted }
{
    TAKES + TAKES_AN_UPDATE * updates as u64 + TAKES_A_PAGE * counted as u64
}

// Empties the log of reads, and allows the takes for so many updates. Refuses `Stopped` exactly if the engine is stopped, and `Memory` if
// no further refusal of a take would be counted.
fn begin<'d, D: Station>(
    store: &mut Store<'d, D>,
    stopped: bool,
    updates: usize,
) -> Result<(), EngineFault>
    requires few { updates ≤ 10000 }
    ensures stopped { IsErrOf result EngineFault.Stopped ↔ IsTrue stopped }
    ensures on { OnOk result (stopped ≡ false) }
    ensures causes { IfErr result (λ fault. (fault ≡ EngineFault.Stopped) ⊎ (fault ≡ EngineFault.Memory)) }
    ensures takes { OnOk result (store.new.takes_left ≡ most_takes updates store.old.current.counted) }
    ensures counts { OnOk result (store.old.refused < 2 ^ 64 - 1) }
    ensures log { store.new.asked.items ≡ [] }
    ensures current { store.new.current ≡ store.old.current }
    ensures last { store.new.last ≡ store.old.last }
    ensures overlay { store.new.overlay ≡ store.old.overlay }
    ensures disk { store.new.disk ≡ store.old.disk }
    ensures refused { store.new.refused ≡ store.old.refused }
    ensures as_before { store.new.stopped ≡ store.old.stopped }
{
    store.clear_log();
    if stopped {
        return Err(EngineFault::Stopped);
    }
    let takes = takes_for(updates, store.counted());
    match store.allow(takes) {
        Ok(()) => Ok(()),
        Err(_) => Err(EngineFault::Memory),
    }
}

// Makes what changed safe in one commit, with this head. If the update number hasn't risen there is nothing to commit. After a refusal what
// changed is dropped. After `Disk` the store is stopped, and so is the engine.
fn commit<'d, D: Station>(
    store: &mut Store<'d, D>,
    stopped: &mut bool,
    head: &Head,
) -> Result<(), EngineFault>
    requires on { store.old.stopped ≡ false }
    requires going { stopped.old ≡ false }
    requires head { store.old.current.head ≡ store.old.last.head }
    requires last { IsInRange store.old.last }
    requires in_range { IsInRange (block_with store.old.current.counted store.old.current.first_free head.now) }
    ensures same_loan { store.new.disk.ghost_name ≡ store.old.disk.ghost_name }
    ensures stored { IsTrue D.readable → (before after : Contents) → HoldsState (D.world store.old.disk.now) before
        → PagesStand (block_with store.old.current.counted store.old.current.first_free head.now) (⟦<Store<'d, D> as Pages>⟧.pages store.old) after → IsLater before after
        → OnOk result (HoldsState (D.world store.new.disk.now) after) }
    ensures any_moment { IsTrue D.readable → (before after : Contents) → HoldsState (D.world store.old.disk.now) before
        → PagesStand (block_with store.old.current.counted store.old.current.first_free head.now) (⟦<Store<'d, D> as Pages>⟧.pages store.old) after
        → LeavesOnly (D.world store.old.disk.now) (D.world store.new.disk.now) (LeavesOneOf before after (D.world store.old.disk.now)) }
    ensures idle { IsTrue D.readable → head.now.number ≡ store.old.current.head.number → Rests (D.world store.old.disk.now) (D.world store.new.disk.now) }
    ensures clean { store.new.overlay.entries ≡ [] }
    ensures settled { store.new.current ≡ store.new.last }
    ensures in_range { IsInRange store.new.current }
    ensures causes { IfErr result IsCommitFault }
    ensures disk { IsErrOf result EngineFault.Disk → worlds.Rose (D.world store.old.disk.now).faults (D.world store.new.disk.now).faults }
    ensures stays { result ≢ Err EngineFault.Disk → (D.world store.new.disk.now).faults ≡ (D.world store.old.disk.now).faults }
    ensures stops { IsErrOf result EngineFault.Disk → stopped.new ≡ true }
    ensures as_the_store { stopped.new ≡ store.new.stopped }
    ensures goes_on { result ≢ Err EngineFault.Disk → store.new.stopped ≡ false }
    ensures untouched { result ≢ Err EngineFault.Disk → OnErr result (store.new.disk ≡ store.old.disk) }
    ensures silent { IsTrue D.readable → (D.world store.new.disk.now).said ≡ (D.world store.old.disk.now).said }
    ensures later { (D.world store.old.disk.now).faults ≤ (D.world store.new.disk.now).faults }
    ensures sink { (D.world store.new.disk.now).sink_faults ≡ (D.world store.old.disk.now).sink_faults }
    ensures refused { store.new.refused ≡ store.old.refused }
    ensures room { D.room_of store.new.disk.now ≡ D.room_of store.old.disk.now }
    ensures new_head { (store.new.current.head ≡ head.now) ⊎ (store.new.current.head ≡ store.old.last.head) }
{
    if head.number == store.head().number {
        store.abandon();
        return Ok(());
    }
    store.set_head(head);
    match store.commit_all() {
        Ok(()) => Ok(()),
        Err(fault) => {
            *stopped = fault == PageFault::Disk;
            store.abandon();
            Err(EngineFault::from(fault))
        }
    }
}
