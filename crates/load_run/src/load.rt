// A load, item by item, over an engine.
ghost use Rattle.std.specs.Prelude.{◌≡◌, ◌≤◌, ◌<◌, ◌+◌, ◌^◌, ◌∷◌, [], List, length, max, false, IsTrue, IfOk, IfErr, IsErrOf, OnOk};
ghost use Rattle.std.specs.List.{AllByRecursion};
ghost use Rattle.place_values.specs.State.{Contents};
ghost use Rattle.place_values.specs.declared.update.Update.{Update};
ghost use Rattle.geojson_points.specs.Takes.{Item, Placed, Skipped, HasTextKey, item_of, place_of};
ghost use Rattle.irtree_engine.specs.Holding.{HoldsState};
ghost use Rattle.place_values.specs.Update.{NamesText};
ghost use Rattle.run_outcome.specs.Causes.{GoesOn, HasEngineEnd, LacksRoomIn};
ghost use Rattle.run_outcome.specs.Load.{Closing, Step, Store, places_among, put_of, says_loaded};
ghost use Rattle.run_outcome.specs.Said.{SaysAll};
ghost use Rattle.load_run.specs.Loading.{CanWait, Concludes, HasStored, Moves, RisesBy, StoresAll, acted_on, closing_of, stage, stage_at_start, stage_before};

use crate::lines::{write_loaded, write_skip, write_stored};
use disk_model::Station;
use geojson_points::{Draft, SkipReason, Taken};
use irtree_engine::Engine;
use place_values::Update;
use query_replies::write_bytes;
use run_outcome::{Ended, LimitFault, ended_by, say_all};
use std::alloc::Global;
use std::mem;
use term_impacts::{Label, impacts};

/// How many bytes of skips wait to be printed at most, except for the last line.
const TEXT_KEPT: usize = 65_536;

/// A load between two of its items: the places that wait for a full batch, how many items were acted on, and the text that waits to be
/// printed.
#[derive(Drop)]
pub struct Load {
    alloc: Global,
    batch: u32,
    waiting: Vec<Update>,
    stored: u64,
    skipped: u64,
    text: Vec<u8>,
}

// Prints what waits to be printed.
fn say_text<'d, T: Station>(text: &mut Vec<u8>, engine: &mut Engine<'d, T>) -> Result<(), Ended>
    requires on { engine.old.stopped ≡ false }
    ensures same_loan { engine.new.store.disk.ghost_name ≡ engine.old.store.disk.ghost_name }
    ensures none { OnOk result (text.new.items ≡ []) }
    ensures said { IsTrue T.readable → SaysAll text.old.items (T.world engine.old.store.disk.now) (T.world engine.new.store.disk.now) result }
    ensures ends { IfErr result (λ end. end ≡ Ended.Sink) }
    ensures head { engine.new.store.current ≡ engine.old.store.current }
    ensures goes_on { GoesOn engine.new.stopped result }
    ensures cause { HasEngineEnd T.readable (T.world engine.old.store.disk.now) (T.world engine.new.store.disk.now) result }
{
    match say_all(engine, &*text) {
        Ok(()) => {
            text.clear();
            Ok(())
        }
        Err(_) => Err(Ended::Sink),
    }
}

// Stores updates in one commit.
fn store_batch<'d, T: Station>(engine: &mut Engine<'d, T>, updates: &[Update]) -> Result<(), Ended>
    requires on { engine.old.stopped ≡ false }
    requires few { length updates.now ≤ 10000 }
    requires keys { AllByRecursion NamesText updates.now }
    ensures same_loan { engine.new.store.disk.ghost_name ≡ engine.old.store.disk.ghost_name }
    ensures told { IsTrue T.readable → (state : Contents) → HoldsState (T.world engine.old.store.disk.now) state
        → StoresAll state updates.now (T.world engine.old.store.disk.now) (T.world engine.new.store.disk.now) result }
    ensures goes_on { GoesOn engine.new.stopped result }
    ensures cause { HasEngineEnd T.readable (T.world engine.old.store.disk.now) (T.world engine.new.store.disk.now) result }
    ensures rises { RisesBy (length updates.now) 0 0 engine.old.store.current.head engine.new.store.current.head result }
    ensures lacks { IsTrue T.readable → IsErrOf result (Ended.Limit LimitFault.NoRoom) → LacksRoomIn (length updates.now) (T.room_of engine.new.store.disk.now) (T.world engine.new.store.disk.now).seen }
{
    match engine.apply_batch(updates) {
        Ok(()) => Ok(()),
        Err(fault) => Err(ended_by(fault)),
    }
}

// The update that stores a place.
fn update_of(alloc: Global, draft: Draft) -> Result<Update, Ended>
    ensures ok { IfOk result (λ update. update ≡ put_of (place_of draft)) }
    ensures err { IfErr result (λ end. end ≡ Ended.Memory) }
{
    match impacts(alloc, draft.text.as_str()) {
        Ok(words) => Ok(Update::Put {
            key: draft.id,
            point: draft.point,
            words,
            label: Label::of_text(draft.text.as_str()),
        }),
        Err(_) => Err(Ended::Memory),
    }
}

impl Load {
    /// Makes a load that has acted on no item, with this many places in a batch.
    pub fn new(alloc: Global, batch: u32) -> Load
        requires { batch ≤ 10000 }
        ensures stage { (closing : Closing) (state : Contents) (items : List Item) → stage_before closing result state items ≡ stage_at_start closing batch state items }
        ensures batch { result.batch ≡ batch }
        ensures none { acted_on result ≡ 0 }
        ensures waits { CanWait result }
    {
        Load {
            alloc,
            batch,
            waiting: Vec::new(alloc),
            stored: 0,
            skipped: 0,
            text: Vec::new(alloc),
        }
    }

    /// Acts on an item: prints that it is skipped, or stores its place as soon as a batch is full.
    pub(crate) fn take_item<'d, T: Station>(
        &mut self,
        engine: &mut Engine<'d, T>,
        item: Taken,
    ) -> Result<(), Ended>
        requires on { engine.old.stopped ≡ false }
        requires count { acted_on self.old < 2 ^ 32 }
        requires waits { CanWait self.old }
        requires key { HasTextKey (item_of item) }
        ensures same_loan { engine.new.store.disk.ghost_name ≡ engine.old.store.disk.ghost_name }
        ensures told { IsTrue T.readable → (closing : Closing) (state : Contents) (items : List Item) → HoldsState (T.world engine.old.store.disk.now) state
            → Moves (stage_before closing self.old state (item_of item ∷ items)) (λ after. stage_before closing self.new after items)
            (T.world engine.old.store.disk.now) (T.world engine.new.store.disk.now) result }
        ensures goes_on { GoesOn engine.new.stopped result }
        ensures count { OnOk result (acted_on self.new ≡ acted_on self.old + 1) }
        ensures batch { OnOk result (self.new.batch ≡ self.old.batch) }
        ensures waits { OnOk result (CanWait self.new) }
        ensures cause { HasEngineEnd T.readable (T.world engine.old.store.disk.now) (T.world engine.new.store.disk.now) result }
        ensures rises { RisesBy (places_among (item_of item ∷ [])) (length self.old.waiting.items) (length self.new.waiting.items) engine.old.store.current.head engine.new.store.current.head result }
        ensures lacks { IsTrue T.readable → IsErrOf result (Ended.Limit LimitFault.NoRoom) → LacksRoomIn (max self.old.batch 1) (T.room_of engine.new.store.disk.now) (T.world engine.new.store.disk.now).seen }
    {
        match item {
            Taken::Place(draft) => self.place(engine, draft),
            Taken::Skipped(index, reason) => self.skip(engine, index, reason),
        }
    }

    // Prints that an item is skipped, or keeps that line to be printed with what comes next.
    fn skip<'d, T: Station>(
        &mut self,
        engine: &mut Engine<'d, T>,
        index: u32,
        reason: SkipReason,
    ) -> Result<(), Ended>
        requires on { engine.old.stopped ≡ false }
        requires count { acted_on self.old < 2 ^ 32 }
        requires waits { CanWait self.old }
        ensures same_loan { engine.new.store.disk.ghost_name ≡ engine.old.store.disk.ghost_name }
        ensures told { IsTrue T.readable → (closing : Closing) (state : Contents) (items : List Item) → HoldsState (T.world engine.old.store.disk.now) state
            → Moves (stage_before closing self.old state (Skipped index reason ∷ items)) (λ after. stage_before closing self.new after items)
            (T.world engine.old.store.disk.now) (T.world engine.new.store.disk.now) result }
        ensures goes_on { GoesOn engine.new.stopped result }
        ensures count { OnOk result (acted_on self.new ≡ acted_on self.old + 1) }
        ensures batch { OnOk result (self.new.batch ≡ self.old.batch) }
        ensures waits { OnOk result (CanWait self.new) }
        ensures cause { HasEngineEnd T.readable (T.world engine.old.store.disk.now) (T.world engine.new.store.disk.now) result }
        ensures rises { RisesBy 0 (length self.old.waiting.items) (length self.new.waiting.items) engine.old.store.current.head engine.new.store.current.head result }
        ensures room { ¬ IsErrOf result (Ended.Limit LimitFault.NoRoom) }
    {
        match write_skip(index, reason, &mut self.text) {
            Ok(()) => {}
            Err(_) => return Err(Ended::Memory),
        }
        self.skipped += 1;
        if self.text.len() < TEXT_KEPT {
            return Ok(());
        }
        say_text(&mut self.text, engine)
    }

    /// Lets a place wait, and stores all that wait if they are a batch: in one commit, whose line is printed once it is safe.
    ///
    /// Fails as `Memory`. If a batch is stored it fails also as `Sink` or `Disk`, as `Limit` if the batch meets one, or as
    /// `Store(Damaged)`, never if the image holds a state. Of a batch that meets a limit nothing is stored.
    pub fn place<'d, T: Station>(
        &mut self,
        engine: &mut Engine<'d, T>,
        draft: Draft,
    ) -> Result<(), Ended>
        requires on { engine.old.stopped ≡ false }
        requires count { acted_on self.old < 2 ^ 32 }
        requires waits { CanWait self.old }
        requires key { HasTextKey (Placed (place_of draft)) }
        ensures same_loan { engine.new.store.disk.ghost_name ≡ engine.old.store.disk.ghost_name }
        ensures told { IsTrue T.readable → (closing : Closing) (state : Contents) (items : List Item) → HoldsState (T.world engine.old.store.disk.now) state
            → Moves (stage_before closing self.old state (Placed (place_of draft) ∷ items)) (λ after. stage_before closing self.new after items)
            (T.world engine.old.store.disk.now) (T.world engine.new.store.disk.now) result }
        ensures goes_on { GoesOn engine.new.stopped result }
        ensures count { OnOk result (acted_on self.new ≡ acted_on self.old + 1) }
        ensures batch { OnOk result (self.new.batch ≡ self.old.batch) }
        ensures waits { OnOk result (CanWait self.new) }
        ensures cause { HasEngineEnd T.readable (T.world engine.old.store.disk.now) (T.world engine.new.store.disk.now) result }
        ensures rises { RisesBy 1 (length self.old.waiting.items) (length self.new.waiting.items) engine.old.store.current.head engine.new.store.current.head result }
        ensures lacks { IsTrue T.readable → IsErrOf result (Ended.Limit LimitFault.NoRoom) → LacksRoomIn (max self.old.batch 1) (T.room_of engine.new.store.disk.now) (T.world engine.new.store.disk.now).seen }
    {
        let update = match update_of(self.alloc, draft) {
            Ok(update) => update,
            Err(end) => return Err(end),
        };
        let mut updates = mem::replace(&mut self.waiting, Vec::new(self.alloc));
        match updates.push(update) {
            Ok(()) => {}
            Err(_) => return Err(Ended::Memory),
        }
        if updates.len() < self.batch as usize {
            self.waiting = updates;
            return Ok(());
        }
        self.store(engine, &updates)
    }

    // Prints what waits to be printed, stores the places, and prints that they are stored.
    fn store<'d, T: Station>(
        &mut self,
        engine: &mut Engine<'d, T>,
        updates: &[Update],
    ) -> Result<(), Ended>
        requires on { engine.old.stopped ≡ false }
        requires count { self.old.stored < 2 ^ 33 }
        requires few { length updates.now ≤ 10000 }
        requires keys { AllByRecursion NamesText updates.now }
        ensures same_loan { engine.new.store.disk.ghost_name ≡ engine.old.store.disk.ghost_name }
        ensures told { IsTrue T.readable → (closing : Closing) (state : Contents) (rest : List Step) → HoldsState (T.world engine.old.store.disk.now) state
            → Moves (stage closing self.old state (Store updates.now ∷ rest)) (λ after. stage closing self.new after rest)
            (T.world engine.old.store.disk.now) (T.world engine.new.store.disk.now) result }
        ensures goes_on { GoesOn engine.new.stopped result }
        ensures counts { OnOk result (HasStored (length updates.now) self.old self.new) }
        ensures cause { HasEngineEnd T.readable (T.world engine.old.store.disk.now) (T.world engine.new.store.disk.now) result }
        ensures rises { RisesBy (length updates.now) 0 0 engine.old.store.current.head engine.new.store.current.head result }
        ensures lacks { IsTrue T.readable → IsErrOf result (Ended.Limit LimitFault.NoRoom) → LacksRoomIn (length updates.now) (T.room_of engine.new.store.disk.now) (T.world engine.new.store.disk.now).seen }
    {
        match say_text(&mut self.text, &mut *engine) {
            Ok(()) => {}
            Err(end) => return Err(end),
        }
        match store_batch(&mut *engine, updates) {
            Ok(()) => {}
            Err(end) => return Err(end),
        }
        self.stored += updates.len() as u64;
        match write_stored(self.stored, &mut self.text) {
            Ok(()) => say_text(&mut self.text, engine),
            Err(_) => Err(Ended::Memory),
        }
    }

    /// Stores the places that are left over after the last item, if there are any, and prints that they are stored.
    ///
    /// Fails as [`place`](Load::place) does. It costs one commit or none.
    pub fn store_rest<'d, T: Station>(&mut self, engine: &mut Engine<'d, T>) -> Result<(), Ended>
        requires on { engine.old.stopped ≡ false }
        requires count { acted_on self.old < 2 ^ 33 }
        requires waits { CanWait self.old }
        ensures same_loan { engine.new.store.disk.ghost_name ≡ engine.old.store.disk.ghost_name }
        ensures told { IsTrue T.readable → (closing : Closing) (state : Contents) → HoldsState (T.world engine.old.store.disk.now) state
            → Moves (stage_before closing self.old state []) (λ after. stage closing self.new after [])
            (T.world engine.old.store.disk.now) (T.world engine.new.store.disk.now) result }
        ensures goes_on { GoesOn engine.new.stopped result }
        ensures cause { HasEngineEnd T.readable (T.world engine.old.store.disk.now) (T.world engine.new.store.disk.now) result }
        ensures rises { RisesBy 0 (length self.old.waiting.items) 0 engine.old.store.current.head engine.new.store.current.head result }
        ensures lacks { IsTrue T.readable → IsErrOf result (Ended.Limit LimitFault.NoRoom) → LacksRoomIn (max self.old.batch 1) (T.room_of engine.new.store.disk.now) (T.world engine.new.store.disk.now).seen }
    {
        let updates = mem::replace(&mut self.waiting, Vec::new(self.alloc));
        if updates.is_empty() {
            return Ok(());
        }
        self.store(engine, &updates)
    }

    /// Prints what waits to be printed, and this line after it, which is the last.
    ///
    /// Fails as `Memory` or `Sink`, after a prefix of that text. What the engine holds stays.
    pub fn say_last<'d, T: Station>(
        &mut self,
        engine: &mut Engine<'d, T>,
        line: &[u8],
    ) -> Result<(), Ended>
        requires on { engine.old.stopped ≡ false }
        ensures same_loan { engine.new.store.disk.ghost_name ≡ engine.old.store.disk.ghost_name }
        ensures told { IsTrue T.readable → (closing : Closing) (state : Contents) → HoldsState (T.world engine.old.store.disk.now) state → line.now ≡ closing_of closing self.old state
            → Concludes (stage closing self.old state []) (T.world engine.old.store.disk.now) (T.world engine.new.store.disk.now) result }
        ensures goes_on { GoesOn engine.new.stopped result }
        ensures cause { HasEngineEnd T.readable (T.world engine.old.store.disk.now) (T.world engine.new.store.disk.now) result }
        ensures rises { RisesBy 0 0 0 engine.old.store.current.head engine.new.store.current.head result }
        ensures room { ¬ IsErrOf result (Ended.Limit LimitFault.NoRoom) }
    {
        match write_bytes(line, &mut self.text) {
            Ok(()) => say_text(&mut self.text, engine),
            Err(_) => Err(Ended::Memory),
        }
    }

    /// Stores the places that are left over, and prints how many were stored and skipped.
    pub(crate) fn end<'d, T: Station>(&mut self, engine: &mut Engine<'d, T>) -> Result<(), Ended>
        requires on { engine.old.stopped ≡ false }
        requires count { acted_on self.old < 2 ^ 33 }
        requires waits { CanWait self.old }
        ensures same_loan { engine.new.store.disk.ghost_name ≡ engine.old.store.disk.ghost_name }
        ensures told { IsTrue T.readable → (state : Contents) → HoldsState (T.world engine.old.store.disk.now) state
            → Concludes (stage_before says_loaded self.old state []) (T.world engine.old.store.disk.now) (T.world engine.new.store.disk.now) result }
        ensures goes_on { GoesOn engine.new.stopped result }
        ensures cause { HasEngineEnd T.readable (T.world engine.old.store.disk.now) (T.world engine.new.store.disk.now) result }
        ensures rises { RisesBy 0 (length self.old.waiting.items) 0 engine.old.store.current.head engine.new.store.current.head result }
        ensures lacks { IsTrue T.readable → IsErrOf result (Ended.Limit LimitFault.NoRoom) → LacksRoomIn (max self.old.batch 1) (T.room_of engine.new.store.disk.now) (T.world engine.new.store.disk.now).seen }
    {
        match self.store_rest(&mut *engine) {
            Ok(()) => self.conclude(engine),
            Err(end) => Err(end),
        }
    }

    // Prints how many places were stored and how many items were skipped.
    fn conclude<'d, T: Station>(&mut self, engine: &mut Engine<'d, T>) -> Result<(), Ended>
        requires on { engine.old.stopped ≡ false }
        ensures same_loan { engine.new.store.disk.ghost_name ≡ engine.old.store.disk.ghost_name }
        ensures told { IsTrue T.readable → (state : Contents) → HoldsState (T.world engine.old.store.disk.now) state
            → Concludes (stage says_loaded self.old state []) (T.world engine.old.store.disk.now) (T.world engine.new.store.disk.now) result }
        ensures goes_on { GoesOn engine.new.stopped result }
        ensures cause { HasEngineEnd T.readable (T.world engine.old.store.disk.now) (T.world engine.new.store.disk.now) result }
        ensures rises { RisesBy 0 0 0 engine.old.store.current.head engine.new.store.current.head result }
        ensures room { ¬ IsErrOf result (Ended.Limit LimitFault.NoRoom) }
    {
        let mut line = Vec::new(self.alloc);
        match write_loaded(self.stored, self.skipped, &mut line) {
            Ok(()) => self.say_last(engine, &line),
            Err(_) => Err(Ended::Memory),
        }
    }
}
