// Queries for the places of a seed, over an engine.
ghost use Rattle.std.specs.Prelude.{◌≡◌, ◌≤◌, ◌*◌, ◌^◌, false, IsTrue, IfErr, IfOk, IsErrOf};
ghost use Rattle.place_generator.specs.Makers.{place_in};
ghost use Rattle.page_store.specs.Store.{Rests};
ghost use Rattle.place_values.specs.Answer.{answer_of};
ghost use Rattle.place_values.specs.State.{Contents};
ghost use Rattle.irtree_engine.specs.Holding.{HoldsState};
ghost use Rattle.run_outcome.specs.Causes.{HasEngineEnd};
ghost use Rattle.load_run.specs.Loading.{RisesBy};
ghost use Rattle.load_run.specs.Asking as spec;
ghost use Rattle.load_run.specs.Asking.{Counts, found_in, hits_in};
ghost use Rattle.load_run.specs.Making.{IsAskingEnd};

use crate::found::{Found, counted};
use crate::query::query_for;
use disk_model::Station;
use irtree_engine::Engine;
use place_generator::{Made, Maker};
use run_outcome::{Ended, LimitFault, ended_by};
use spatial_base::Memory;
use std::alloc::Global;

// Queries for a place, and counts what is found.
fn ask<'d, T: Station>(
    alloc: Global,
    made: &Made,
    engine: &mut Engine<'d, T>,
) -> Result<Found, Ended>
    requires on { engine.old.stopped ≡ false }
    ensures same_loan { engine.new.store.disk.ghost_name ≡ engine.old.store.disk.ghost_name }
    ensures told { IsTrue T.readable → (state : Contents) → HoldsState (T.world engine.old.store.disk.now) state
        → IfOk result (Counts (hits_in (answer_of state (spec.query_for (place_in made.now))))) }
    ensures few { IfOk result (λ found. (found.hits ≤ 10) × (found.cost ≤ 10 * 2 ^ 64)) }
    ensures rests { IsTrue T.readable → Rests (T.world engine.old.store.disk.now) (T.world engine.new.store.disk.now) }
    ensures ends { IsTrue T.readable → (state : Contents) → HoldsState (T.world engine.old.store.disk.now) state → IfErr result IsAskingEnd }
    ensures on { engine.new.stopped ≡ false }
    ensures cause { HasEngineEnd T.readable (T.world engine.old.store.disk.now) (T.world engine.new.store.disk.now) result }
    ensures rises { RisesBy 0 0 0 engine.old.store.current.head engine.new.store.current.head result }
    ensures room { ¬ IsErrOf result (Ended.Limit LimitFault.NoRoom) }
{
    let query = match query_for(alloc, made) {
        Ok(query) => query,
        Err(Memory) => return Err(Ended::Memory),
    };
    match engine.answer(&query) {
        Ok(answer) => Ok(counted(&answer)),
        Err(fault) => Err(ended_by(fault)),
    }
}

/// Queries for the first places of a seed, which are made anew, and counts what is found.
pub(crate) fn ask_places<'d, T: Station>(
    alloc: Global,
    seed: u64,
    queries: u32,
    engine: &mut Engine<'d, T>,
) -> Result<Found, Ended>
    requires on { engine.old.stopped ≡ false }
    requires few { queries ≤ 100 }
    ensures same_loan { engine.new.store.disk.ghost_name ≡ engine.old.store.disk.ghost_name }
    ensures told { IsTrue T.readable → (state : Contents) → HoldsState (T.world engine.old.store.disk.now) state → IfOk result (Counts (found_in state seed queries)) }
    ensures rests { IsTrue T.readable → Rests (T.world engine.old.store.disk.now) (T.world engine.new.store.disk.now) }
    ensures ends { IsTrue T.readable → (state : Contents) → HoldsState (T.world engine.old.store.disk.now) state → IfErr result IsAskingEnd }
    ensures on { engine.new.stopped ≡ false }
    ensures cause { HasEngineEnd T.readable (T.world engine.old.store.disk.now) (T.world engine.new.store.disk.now) result }
    ensures rises { RisesBy 0 0 0 engine.old.store.current.head engine.new.store.current.head result }
    ensures room { ¬ IsErrOf result (Ended.Limit LimitFault.NoRoom) }
{
    let mut maker = Maker::new(seed);
    let mut found = Found { hits: 0, cost: 0 };
    for _number in 0..queries {
        let made = match maker.make(alloc) {
            Ok(made) => made,
            Err(Memory) => return Err(Ended::Memory),
        };
        let here = match ask(alloc, &made, &mut *engine) {
            Ok(here) => here,
            Err(end) => return Err(end),
        };
        found.hits += here.hits;
        found.cost += here.cost;
    }
    Ok(found)
}
