// Places made from a seed, stored batch by batch.
ghost use Rattle.std.specs.Prelude.{◌≡◌, ◌≤◌, max, [], false, IsTrue, OnOk, IsErrOf};
ghost use Rattle.place_generator.specs.Makers.{place_in};
ghost use Rattle.place_values.specs.State.{Contents};
ghost use Rattle.geojson_points.specs.Takes.{place_of};
ghost use Rattle.irtree_engine.specs.Holding.{HoldsState};
ghost use Rattle.run_outcome.specs.Causes.{GoesOn, HasEngineEnd, LacksRoomIn};
ghost use Rattle.run_outcome.specs.Load.{Closing};
ghost use Rattle.load_run.specs.Loading.{CanWait, Moves, RisesBy, acted_on, stage, stage_before};
ghost use Rattle.load_run.specs.Making.{given, items_from};

use crate::Load;
use disk_model::Station;
use geojson_points::Draft;
use irtree_engine::Engine;
use place_generator::{Made, Maker};
use run_outcome::{Ended, LimitFault};
use spatial_base::Memory;
use std::alloc::Global;

// A place that was made, as a text gives one.
fn draft_of(made: Made) -> Draft
    ensures { place_of result ≡ given (place_in made) }
{
    let Made {
        key,
        point,
        text,
        ..
    } = made;
    Draft {
        id: Some(key),
        point,
        text,
    }
}

/// Makes the first places of a seed, one after another, and stores them batch by batch.
pub(crate) fn store_places<'d, T: Station>(
    alloc: Global,
    seed: u64,
    count: u32,
    load: &mut Load,
    engine: &mut Engine<'d, T>,
) -> Result<(), Ended>
    requires on { engine.old.stopped ≡ false }
    requires fresh { acted_on load.old ≡ 0 }
    requires waits { CanWait load.old }
    requires count { count ≤ 100000 }
    ensures same_loan { engine.new.store.disk.ghost_name ≡ engine.old.store.disk.ghost_name }
    ensures told { IsTrue T.readable → (closing : Closing) (state : Contents) → HoldsState (T.world engine.old.store.disk.now) state
        → Moves (stage_before closing load.old state (items_from seed 0 count)) (λ after. stage closing load.new after [])
        (T.world engine.old.store.disk.now) (T.world engine.new.store.disk.now) result }
    ensures goes_on { GoesOn engine.new.stopped result }
    ensures cause { HasEngineEnd T.readable (T.world engine.old.store.disk.now) (T.world engine.new.store.disk.now) result }
    ensures rises { RisesBy count 0 0 engine.old.store.current.head engine.new.store.current.head result }
    ensures lacks { IsTrue T.readable → IsErrOf result (Ended.Limit LimitFault.NoRoom) → LacksRoomIn (max load.old.batch 1) (T.room_of engine.new.store.disk.now) (T.world engine.new.store.disk.now).seen }
{
    let mut maker = Maker::new(seed);
    for _number in 0..count {
        let made = match maker.make(alloc) {
            Ok(made) => made,
            Err(Memory) => return Err(Ended::Memory),
        };
        match load.place(&mut *engine, draft_of(made)) {
            Ok(()) => {}
            Err(end) => return Err(end),
        }
    }
    load.store_rest(engine)
}
