//! That a script's updates and queries go through the engine alone: the station is read as often as by the engine's own calls.
ghost use Rattle.std.specs.Prelude.{◌≡◌};
ghost use Rattle.query_lang.specs.Plain.{IsSound};

use crate::runs::{reads_with, stored_by};
use disk_model::{MemoryStation, Tear};
use irtree_engine::Engine;
use query_lang::{Line, read_line};
use split_policy::Quadratic;
use std::alloc::Global;
use std::test::Fail;

// Does what a line calls for by the engine's own call.
fn follow(engine: &mut Engine<'_, MemoryStation>, line: Line) -> Result<(), Fail>
    requires { IsSound line }
    ensures { engine.new.store.disk.ghost_name ≡ engine.old.store.disk.ghost_name }
{
    match line {
        Line::Do(update) => {
            let _applied = engine.apply(&update)?;
            Ok(())
        }
        Line::Ask { query, explain: _ } => {
            let _answer = engine.answer(&query)?;
            Ok(())
        }
        _ => Err(Fail::new("another line")),
    }
}

// Acts on a line's text.
fn act(alloc: Global, engine: &mut Engine<'_, MemoryStation>, text: &[u8]) -> Result<(), Fail>
    ensures { engine.new.store.disk.ghost_name ≡ engine.old.store.disk.ghost_name }
{
    match read_line(alloc, text) {
        Ok(line) => follow(engine, line),
        Err(_) => Err(Fail::new("no line")),
    }
}

// Acts on the script's lines, one call each.
fn act_on_all(alloc: Global, engine: &mut Engine<'_, MemoryStation>) -> Result<(), Fail>
    ensures { engine.new.store.disk.ghost_name ≡ engine.old.store.disk.ghost_name }
{
    act(alloc, engine, b"add z 0 0 a1")?;
    act(alloc, engine, b"nearest 0 0 5")?;
    act(alloc, engine, b"group 0 0 words a1 b1")
}

static SCRIPT: &[u8] = b"add z 0 0 a1\nnearest 0 0 5\ngroup 0 0 words a1 b1\n";

// How often a store's station is read by an engine without a cache, from its opening to its close.
fn reads_by_calls(alloc: Global, made: &MemoryStation) -> Result<u64, Fail> {
    let mut station = made.crashed(Tear::Kept)?;
    let policy = Box::new(alloc, Quadratic::new())?;
    let mut engine = Engine::open(alloc, &mut station, 0, policy)?;
    let outcome = act_on_all(alloc, &mut engine);
    let settled = engine.settle();
    let _loan = engine.into_disk();
    outcome?;
    settled?;
    Ok(station.reads())
}

#[test]
fn a_script_reads_what_the_engine_reads(rt: HostRuntime) -> Result<(), Fail> {
    let made = stored_by(rt.alloc(), &["-", "make", "--count=5000"], b"")?;
    let wanted = reads_by_calls(rt.alloc(), &made)?;
    assert_eq!(rt; reads_with(rt.alloc(), "0", SCRIPT, &made)?, wanted);
    Ok(())
}
