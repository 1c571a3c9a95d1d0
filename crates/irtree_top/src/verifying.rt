//! A check of the whole store.
ghost use Rattle.std.specs.Prelude.{◌≡◌, ◌++◌, false, IfOk, IsErrOf, IsTrue, OnOk};
ghost use Rattle.disk_model.specs.World.{LeavesOnly};
ghost use Rattle.page_face.specs.declared.fault.Damage.{Damage as Broken};
ghost use Rattle.place_values.specs.State.{Contents};
ghost use Rattle.query_replies.specs.Written.{Adds};
ghost use Rattle.irtree_engine.specs.Holding.{HoldsState};
ghost use Rattle.irtree_engine.specs.Verified.{HoldsSome};
ghost use Rattle.run_outcome.specs.Causes.{GoesOn, HasEngineEnd};
ghost use Rattle.run_outcome.specs.Ended.{broken_line};
ghost use Rattle.irtree_top.specs.Verify.{EndsVerify, LeftByVerify, SaysBroken, whole_line};

use crate::{Ended, LimitFault, StoreFault};
use disk_model::Station;
use irtree_engine::{Engine, Verdict};
use page_face::Damage;
use run_outcome::{ended_by, say_all, write_broken};
use spatial_base::Memory;
use std::alloc::Global;

// The line that says which page breaks which rule.
fn line_of(alloc: Global, damage: &Damage) -> Result<Vec<u8>, Memory>
    ensures { IfOk result (λ line. line.items ≡ broken_line damage.now) }
{
    let mut line = Vec::new(alloc);
    write_broken(damage, &mut line)?;
    Ok(line)
}

/// Checks the whole store of an engine that isn't stopped, and prints the verdict: `whole`, or `broken PAGE RULE`.
///
/// Returns `Ok` exactly if the image holds a state and that was printed. Ends `Store(Damaged)` after a line that names a page and a rule
/// that it breaks, other than Head; `Disk`, `Sink` and `Memory` if one of them fails, after a prefix of the line. Writes nothing.
pub(crate) fn run_verify<'d, T: Station>(
    alloc: Global,
    engine: &mut Engine<'d, T>,
) -> Result<(), Ended>
    requires on { engine.old.stopped ≡ false }
    ensures same_loan { engine.new.store.disk.ghost_name ≡ engine.old.store.disk.ghost_name }
    ensures told { IsTrue T.readable → (state : Contents) → HoldsState (T.world engine.old.store.disk.now) state
        → EndsVerify state (T.world engine.old.store.disk.now) (T.world engine.new.store.disk.now) result }
    ensures any_moment { IsTrue T.readable → (state : Contents) → HoldsState (T.world engine.old.store.disk.now) state
        → LeavesOnly (T.world engine.old.store.disk.now) (T.world engine.new.store.disk.now) (LeftByVerify state (T.world engine.old.store.disk.now).said) }
    ensures goes_on { GoesOn engine.new.stopped result }
    ensures cause { HasEngineEnd T.readable (T.world engine.old.store.disk.now) (T.world engine.new.store.disk.now) result }
    ensures unlimited { (fault : LimitFault) → ¬ IsErrOf result (Ended.Limit fault) }
    // Whatever the image holds.
    ensures verified { IsTrue T.readable → OnOk result (HoldsSome (T.world engine.old.store.disk.now).seen) }
    ensures named { IsTrue T.readable → (damage : Broken) → IsErrOf result (Ended.Store (StoreFault.Damaged damage))
        → SaysBroken damage (T.world engine.old.store.disk.now) (T.world engine.new.store.disk.now) }
    ensures stays { IsTrue T.readable → (T.world engine.new.store.disk.now).seen ≡ (T.world engine.old.store.disk.now).seen }
{
    let verdict = match engine.verify() {
        Ok(verdict) => verdict,
        Err(fault) => return Err(ended_by(fault)),
    };
    match verdict {
        Verdict::Whole => match say_all(engine, b"whole\n") {
            Ok(()) => Ok(()),
            Err(_) => Err(Ended::Sink),
        },
        Verdict::Broken(damage) => match line_of(alloc, &damage) {
            Ok(line) => match say_all(engine, &line) {
                Ok(()) => Err(Ended::Store(StoreFault::Damaged(damage))),
                Err(_) => Err(Ended::Sink),
            },
            Err(_) => Err(Ended::Memory),
        },
    }
}
