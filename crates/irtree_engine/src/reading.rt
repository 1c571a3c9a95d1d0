//! The place at a key.
ghost use Rattle.std.specs.Prelude.{◌≡◌, IsTrue, IfOk, IsErrOf, []};
ghost use Rattle.place_values.specs.State.{Contents, place_at};
ghost use Rattle.store_model.specs.Stands.{tables_in};
ghost use Rattle.irtree_engine.specs.Damages.{IsShownDamage, IsShownDamageIn};
ghost use Rattle.irtree_engine.specs.Holding.{HoldsState};
ghost use Rattle.irtree_engine.specs.Queries.{contents_held};
ghost use Rattle.irtree_engine.specs.Shown.{IsShownBy};

use crate::change::tables_of;
use crate::{Engine, EngineFault};
use disk_model::Station;
use page_face::Damage;
use place_values::Place;
use spatial_base::Key;
use table_updates::place_at;

impl<'d, D: Station> Engine<'d, D> {
    ghost use Rattle.irtree_engine.specs.Engine.{OnlyLooks, RefusesLook, block_of, log_of, pages_of, world_of};

    /// Returns the place at a key, or `None` if none lives there.
    ///
    /// Refuses `Stopped` exactly if an earlier commit of this engine failed, before all else. Refuses `Disk` whenever a read failed,
    /// whatever else happened; `Damaged`, never if the image holds a state; and `Memory`. Reads a page a level of the place table, and a
    /// page a level of the words by number for each word.
    pub fn show(&mut self, key: &Key) -> Result<Option<Place>, EngineFault>
        ensures frame { OnlyLooks self.old self.new }
        ensures shown { IsTrue D.readable → (state : Contents) → HoldsState (world_of self.old) state
            → IfOk result (λ shown. shown ≡ place_at key.now state.places) }
        // Whatever the image holds, each page on the ways kept the rules in its place. The place, or none, is what the rows there give.
        ensures kept { IsTrue D.readable → IfOk result (IsShownBy (contents_held (world_of self.old).seen) key.now) }
        ensures fails { RefusesLook self.old self.new result }
        ensures no_false_damage { IsTrue D.readable → (state : Contents) → HoldsState (world_of self.old) state
            → (damage : Damage) → ¬ IsErrOf result (EngineFault.Damaged damage) }

        // What breaks a rule is a page of the log, of the table or of the words by number. Or it is the row that was read at the key, or
        // that at a number of the place there.
        ensures damaged { IsTrue D.readable → (damage : Damage) → IsErrOf result (EngineFault.Damaged damage)
            → IsShownDamage (pages_of self.old) (block_of self.old).counted (tables_in (block_of self.old).head) key.now [] (log_of self.new) damage }
        // The same by what the image holds, whether or not it holds a state.
        ensures broken { IsTrue D.readable → (damage : Damage) → IsErrOf result (EngineFault.Damaged damage)
            → IsShownDamageIn (contents_held (world_of self.old).seen) damage }
    {
        self.store.clear_log();
        if self.stopped {
            return Err(EngineFault::Stopped);
        }
        let tables = tables_of(&self.store.head());
        Ok(place_at(self.alloc, &mut self.store, &tables, key)?)
    }
}
