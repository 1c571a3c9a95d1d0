//! A make, from its first place to its last line.
ghost use Rattle.std.specs.Prelude.{◌≡◌, ◌≤◌, max, [], false, IsErrOf, IsTrue};
ghost use Rattle.disk_model.specs.World.{LeavesOnly};
ghost use Rattle.place_values.specs.State.{Contents};
ghost use Rattle.irtree_engine.specs.Holding.{HoldsState};
ghost use Rattle.run_outcome.specs.Causes.{GoesOn, HasEngineEnd, LacksRoomIn};
ghost use Rattle.load_run.specs.Loading.{Concludes, RisesBy, stage, stage_at_start};
ghost use Rattle.load_run.specs.Making.{EndsMake, LeftByMake, ReachLimit, items_from, says_made};

use crate::Load;
use crate::asking::ask_places;
use crate::line::write_made;
use crate::storing::store_places;
use disk_model::Station;
use irtree_engine::Engine;
use run_outcome::{Ended, LimitFault};
use std::alloc::Global;

/// For how many places a make queries at most.
const QUERIES_MAX: u32 = 100;

// Queries for the first places, and prints how many were made and what was found.
fn conclude<'d, T: Station>(
    alloc: Global,
    seed: u64,
    count: u32,
    load: &mut Load,
    engine: &mut Engine<'d, T>,
) -> Result<(), Ended>
    requires on { engine.old.stopped ≡ false }
    ensures same_loan { engine.new.store.disk.ghost_name ≡ engine.old.store.disk.ghost_name }
    ensures told { IsTrue T.readable → (state : Contents) → HoldsState (T.world engine.old.store.disk.now) state
        → Concludes (stage (says_made seed count) load.old state []) (T.world engine.old.store.disk.now) (T.world engine.new.store.disk.now) result }
    ensures goes_on { GoesOn engine.new.stopped result }
    ensures cause { HasEngineEnd T.readable (T.world engine.old.store.disk.now) (T.world engine.new.store.disk.now) result }
    ensures rises { RisesBy 0 0 0 engine.old.store.current.head engine.new.store.current.head result }
    ensures room { ¬ IsErrOf result (Ended.Limit LimitFault.NoRoom) }
{
    let queries = count.min(QUERIES_MAX);
    let found = match ask_places(alloc, seed, queries, &mut *engine) {
        Ok(found) => found,
        Err(end) => return Err(end),
    };
    let mut line = Vec::new(alloc);
    match write_made(count, queries, &found, &mut line) {
        Ok(()) => load.say_last(engine, &line),
        Err(_) => Err(Ended::Memory),
    }
}

// Makes places, stores them and queries for some of them.
fn make_places<'d, T: Station>(
    alloc: Global,
    batch: u32,
    seed: u64,
    count: u32,
    engine: &mut Engine<'d, T>,
) -> Result<(), Ended>
    requires on { engine.old.stopped ≡ false }
    requires few { batch ≤ 10000 }
    requires count { count ≤ 100000 }
    ensures same_loan { engine.new.store.disk.ghost_name ≡ engine.old.store.disk.ghost_name }
    ensures told { IsTrue T.readable → (state : Contents) → HoldsState (T.world engine.old.store.disk.now) state
        → Concludes (stage_at_start (says_made seed count) batch state (items_from seed 0 count)) (T.world engine.old.store.disk.now) (T.world engine.new.store.disk.now) result }
    ensures goes_on { GoesOn engine.new.stopped result }
    ensures cause { HasEngineEnd T.readable (T.world engine.old.store.disk.now) (T.world engine.new.store.disk.now) result }
    ensures rises { RisesBy count 0 0 engine.old.store.current.head engine.new.store.current.head result }
    ensures lacks { IsTrue T.readable → IsErrOf result (Ended.Limit LimitFault.NoRoom) → LacksRoomIn (max batch 1) (T.room_of engine.new.store.disk.now) (T.world engine.new.store.disk.now).seen }
{
    let mut load = Load::new(alloc, batch);
    match store_places(alloc, seed, count, &mut load, &mut *engine) {
        Ok(()) => conclude(alloc, seed, count, &mut load, engine),
        Err(end) => Err(end),
    }
}

/// Runs a make to its end, over an engine that isn't stopped. Makes the first `count` places of a seed and stores them, `batch` in a batch,
/// each batch in one commit whose line is printed once it is safe. Then queries for the first of them, a hundred at most, and prints how
/// many hits they have and what these cost.
///
/// Returns `Ok` if all of that was done and printed. Errors:
///
/// - `Limit(Full)` or `Limit(Worn)` if a batch meets that limit; then the places are enough to reach it. `Limit(NoRoom)` if no page is left
///   for a batch. Then the free pages, and those that the station has room for beside the pages counted, are together no more than a batch
///   is allowed to take. Nothing of that batch is stored, and all text before its line was printed.
/// - `Disk`, `Sink` and `Memory` if one of them fails, after a prefix of the text.
/// - `Store(Damaged)` if a page breaks a rule other than Head; never if the image holds a state.
pub fn run_make<'d, T: Station>(
    alloc: Global,
    batch: u32,
    seed: u64,
    count: u32,
    engine: &mut Engine<'d, T>,
) -> Result<(), Ended>
    requires on { engine.old.stopped ≡ false }
    requires few { batch ≤ 10000 }
    requires count { count ≤ 100000 }
    ensures same_loan { engine.new.store.disk.ghost_name ≡ engine.old.store.disk.ghost_name }
    ensures told { IsTrue T.readable → (state : Contents) → HoldsState (T.world engine.old.store.disk.now) state
        → EndsMake batch seed count state (T.world engine.old.store.disk.now) (T.world engine.new.store.disk.now) result }
    // A crash at any moment leaves one of the states around a batch, and what comes before it was printed whole.
    ensures any_moment { IsTrue T.readable → (state : Contents) → HoldsState (T.world engine.old.store.disk.now) state
        → LeavesOnly (T.world engine.old.store.disk.now) (T.world engine.new.store.disk.now) (LeftByMake batch seed count state (T.world engine.old.store.disk.now).said) }
    // Only a disk that failed stops the engine.
    ensures goes_on { GoesOn engine.new.stopped result }
    ensures cause { HasEngineEnd T.readable (T.world engine.old.store.disk.now) (T.world engine.new.store.disk.now) result }
    // Whatever the image holds, a limit ends the run only if the places reach it.
    ensures limit { (fault : LimitFault) → IsErrOf result (Ended.Limit fault)
        → ReachLimit count fault engine.old.store.current.head.live engine.old.store.current.head.number }
    // It runs out of room only if the station has room for no more pages than those counted and as many as a batch is allowed to take.
    ensures lacks { IsTrue T.readable → IsErrOf result (Ended.Limit LimitFault.NoRoom) → LacksRoomIn (max batch 1) (T.room_of engine.new.store.disk.now) (T.world engine.new.store.disk.now).seen }
{
    make_places(alloc, batch, seed, count, engine)
}
