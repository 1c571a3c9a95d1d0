//! Whether the store is whole.
ghost use Rattle.std.specs.Prelude.{◌≡◌, ◌≢◌, ◌↔◌, IsTrue, IfOk, IsErrOf};
ghost use Rattle.irtree_engine.specs.Verified.{HoldsSome, IsBrokenIn};

use crate::{Engine, EngineFault};
use disk_model::Station;
use page_face::{Damage, Rule};
use store_verify::{Verdict, verify};

impl<'d, D: Station> Engine<'d, D> {
    ghost use Rattle.irtree_engine.specs.Engine.{OnlyLooks, RefusesLook, world_of};

    /// Decides whether the store is whole: whether its image holds a state.
    ///
    /// Returns `Whole` exactly if it does, whatever bytes the pages have. `Broken` names a page, and a rule of the format that is broken
    /// there, by what the image holds. The rule is never Head: an engine is opened over a page 0 that keeps it, and no
    /// update commits one that doesn't.
    ///
    /// Refuses `Stopped` exactly if an earlier commit of this engine failed, before all else. Refuses `Disk` whenever a read failed,
    /// whatever else happened; and `Memory`. Writes nothing.
    ///
    /// Costs what [`store_verify::verify`] does: a look at each page of the tables, the rows' map and the free list, and at most three at
    /// each of the tree. Then it costs a way down the place table for each entry of the leaves, and one down the rows' map for each node
    /// and slot. Takes memory as [`store_verify::verify`] does, and 4 bytes a look for the log.
    pub fn verify(&mut self) -> Result<Verdict, EngineFault>
        ensures frame { OnlyLooks self.old self.new }
        // `Whole` exactly if the image holds a state.
        ensures whole { IsTrue D.readable → IfOk result (λ verdict. (verdict ≡ Verdict.Whole) ↔ HoldsSome (world_of self.old).seen) }
        // What is named is broken there, by what the image holds.
        ensures broken { IsTrue D.readable → IfOk result (λ verdict. (damage : Damage) → verdict ≡ Verdict.Broken damage → IsBrokenIn (world_of self.old).seen damage) }
        ensures no_head { IsTrue D.readable → IfOk result (λ verdict. (damage : Damage) → verdict ≡ Verdict.Broken damage → damage.rule ≢ Rule.Head) }
        ensures fails { RefusesLook self.old self.new result }
        ensures undamaged { (damage : Damage) → ¬ IsErrOf result (EngineFault.Damaged damage) }
    {
        self.store.clear_log();
        if self.stopped {
            return Err(EngineFault::Stopped);
        }
        let head = self.store.head();
        Ok(verify(self.alloc, &mut self.store, &head)?)
    }
}
