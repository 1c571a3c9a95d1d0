//! A load, from its source to its end.
ghost use Rattle.std.specs.Prelude.{◌≡◌, ◌≤◌, ◌<◌, ◌^◌, [], length, map, max, option_copied, false, Err, IfOk, OnOk, IsErrOf, IsTrue};
ghost use Rattle.std.specs.List.{All};
ghost use Rattle.disk_model.specs.World.{LeavesOnly};
ghost use Rattle.place_values.specs.State.{Contents};
ghost use Rattle.geojson_points.specs.Takes.{HasTextKey, item_of};
ghost use Rattle.irtree_engine.specs.Holding.{HoldsState};
ghost use Rattle.run_outcome.specs.Causes.{GoesOn, HasEngineEnd, HasJobEnd, LacksRoomIn};
ghost use Rattle.run_outcome.specs.Left.{LeftByLoad};
ghost use Rattle.run_outcome.specs.Load.{GivesItems, IsTaken, ReachesLimit, places_among, says_loaded};
ghost use Rattle.load_run.specs.Loading.{Concludes, EndsLoad, HasReadEnd, HasText, RefusesSo, RisesBy, stage_at_start};

use crate::load::Load;
use disk_model::{Source, Station};
use geojson_points::{LoadFault, Taken, take};
use irtree_engine::Engine;
use json_spelled::JsonFault;
use run_outcome::{Ended, InputFault, LimitFault, PIECE_LEN};
use std::alloc::Global;

/// The greatest number of bytes of the text of a load.
pub const LOAD_MAX: usize = 67_108_864;

// The whole input, read to its end.
fn read_text<S: Source>(alloc: Global, source: &mut S) -> Result<Vec<u8>, Ended>
    ensures told { IsTrue S.readable → HasText (S.left source.old) (S.left source.new) result }
    ensures short { IfOk result (λ text. length text.items ≤ 67108864) }
    ensures cause { HasReadEnd (S.faults source.old) (S.faults source.new) result }
{
    let mut text = Vec::new(alloc);
    let mut piece = match vec![in alloc; 0; PIECE_LEN] {
        Ok(piece) => piece,
        Err(_) => return Err(Ended::Memory),
    };
    'pieces: loop {
        let n = match source.read(&mut piece) {
            Ok(n) => n,
            Err(_) => return Err(Ended::Source),
        };
        if n == 0 {
            return Ok(text);
        }
        if n > LOAD_MAX - text.len() {
            return Err(Ended::Input(InputFault::Long));
        }
        let (came, _) = piece.as_slice().split_at(n);
        match text.extend_from_slice(came) {
            Ok(()) => {}
            Err(_) => return Err(Ended::Memory),
        }
    }
}

// Stores the places of some items, and prints that they are stored.
fn store_items<'d, T: Station>(
    alloc: Global,
    batch: u32,
    items: Vec<Taken>,
    engine: &mut Engine<'d, T>,
) -> Result<(), Ended>
    requires on { engine.old.stopped ≡ false }
    requires few { batch ≤ 10000 }
    requires count { length items.items < 2 ^ 32 }
    requires keys { All (λ item. HasTextKey (item_of item)) items.items }
    ensures same_loan { engine.new.store.disk.ghost_name ≡ engine.old.store.disk.ghost_name }
    ensures told { IsTrue T.readable → (state : Contents) → HoldsState (T.world engine.old.store.disk.now) state
        → Concludes (stage_at_start says_loaded batch state (map item_of items.items)) (T.world engine.old.store.disk.now) (T.world engine.new.store.disk.now) result }
    ensures goes_on { GoesOn engine.new.stopped result }
    ensures cause { HasEngineEnd T.readable (T.world engine.old.store.disk.now) (T.world engine.new.store.disk.now) result }
    ensures rises { RisesBy (places_among (map item_of items.items)) 0 0 engine.old.store.current.head engine.new.store.current.head result }
    ensures lacks { IsTrue T.readable → IsErrOf result (Ended.Limit LimitFault.NoRoom) → LacksRoomIn (max batch 1) (T.room_of engine.new.store.disk.now) (T.world engine.new.store.disk.now).seen }
{
    let mut load = Load::new(alloc, batch);
    for item in items {
        match load.take_item(&mut *engine, item) {
            Ok(()) => {}
            Err(end) => return Err(end),
        }
    }
    load.end(engine)
}

// How a text that gives no items ends a load.
fn refusal(fault: LoadFault) -> Ended
    ensures { RefusesSo fault result }
{
    match fault {
        LoadFault::Json(JsonFault::NotUtf8(at)) => Ended::Input(InputFault::NotUtf8(at)),
        LoadFault::Json(JsonFault::Syntax(at)) => Ended::Input(InputFault::Syntax(at)),
        LoadFault::Json(JsonFault::TooDeep(at)) => Ended::Input(InputFault::TooDeep(at)),
        LoadFault::NotFeatures => Ended::Input(InputFault::NotFeatures),
        LoadFault::Json(JsonFault::Memory) | LoadFault::Memory => Ended::Memory,
    }
}

/// Runs a load to its end, over an engine that isn't stopped: reads the whole text, then acts on its items in their order, with `batch`
/// places in a batch. The text of a place is the strings of its properties, or with `only` that of the property of this name.
///
/// Returns `Ok` if the text gives items and each of them was acted on; then the source was read to its end. Errors:
///
/// - `Input` if the text is refused, for its first offence, or is longer than 67,108,864 bytes. Nothing is stored or printed.
/// - `Limit(Full)` or `Limit(Worn)` if a batch meets that limit; then the text has enough places to reach it. `Limit(NoRoom)` if no page is
///   left for a batch. Then the free pages, and those that the station has room for beside the pages counted, are together no more than a
///   batch is allowed to take. Nothing of that batch is stored, and all text before its line was printed.
/// - `Source` if the source fails. Nothing is stored or printed.
/// - `Disk`, `Sink` and `Memory` if one of them fails, after a prefix of the text.
/// - `Store(Damaged)` if a page breaks a rule other than Head; never if the image holds a state.
pub fn run_load<'d, S: Source, T: Station>(
    alloc: Global,
    batch: u32,
    only: Option<&str>,
    source: &mut S,
    engine: &mut Engine<'d, T>,
) -> Result<(), Ended>
    requires on { engine.old.stopped ≡ false }
    requires few { batch ≤ 10000 }
    ensures same_loan { engine.new.store.disk.ghost_name ≡ engine.old.store.disk.ghost_name }
    ensures told { IsTrue S.readable → IsTrue T.readable → (state : Contents) → HoldsState (T.world engine.old.store.disk.now) state
        → EndsLoad batch (option_copied only.entry) state (S.left source.old) (S.left source.new) (T.world engine.old.store.disk.now) (T.world engine.new.store.disk.now) result }
    // A crash at any moment leaves one of the states around a batch, and what comes before it was printed whole.
    ensures any_moment { IsTrue S.readable → IsTrue T.readable → (state : Contents) → HoldsState (T.world engine.old.store.disk.now) state
        → LeavesOnly (T.world engine.old.store.disk.now) (T.world engine.new.store.disk.now) (LeftByLoad batch (option_copied only.entry) state (S.left source.old) (T.world engine.old.store.disk.now).said) }
    // Only a disk that failed stops the engine.
    ensures goes_on { GoesOn engine.new.stopped result }
    ensures cause { HasJobEnd T.readable (S.faults source.old) (S.faults source.new) (T.world engine.old.store.disk.now) (T.world engine.new.store.disk.now) result }

    // Whatever the image holds, the text and a limit end the run only for their cause, and else the text was read to its end.
    ensures input { IsTrue S.readable → (fault : InputFault) → IsErrOf result (Ended.Input fault) → IsTaken (option_copied only.entry) (S.left source.old) (Err fault) }
    ensures whole { IsTrue S.readable → OnOk result ((S.left source.new ≡ []) × GivesItems (option_copied only.entry) (S.left source.old)) }
    ensures limit { IsTrue S.readable → (fault : LimitFault) → IsErrOf result (Ended.Limit fault)
        → ReachesLimit fault engine.old.store.current.head.live engine.old.store.current.head.number (option_copied only.entry) (S.left source.old) }
    // It runs out of room only if the station has room for no more pages than those counted and as many as a batch is allowed to take.
    ensures lacks { IsTrue T.readable → IsErrOf result (Ended.Limit LimitFault.NoRoom) → LacksRoomIn (max batch 1) (T.room_of engine.new.store.disk.now) (T.world engine.new.store.disk.now).seen }
{
    let text = match read_text(alloc, source) {
        Ok(text) => text,
        Err(end) => return Err(end),
    };
    match take(alloc, &text, only) {
        Ok(items) => store_items(alloc, batch, items, engine),
        Err(fault) => Err(refusal(fault)),
    }
}
