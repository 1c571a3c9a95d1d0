//! The answer to a query.
ghost use Rattle.std.specs.Prelude.{◌≡◌, IsTrue, IfOk, OnOk, IsErrOf, []};
ghost use Rattle.place_values.specs.Answer.{answer_of};
ghost use Rattle.place_values.specs.Query.{IsWithinLimits};
ghost use Rattle.place_values.specs.State.{Contents};
ghost use Rattle.irtree_engine.specs.Damages.{IsQueryDamage, IsQueryDamageIn};
ghost use Rattle.irtree_engine.specs.Holding.{HoldsState};
ghost use Rattle.irtree_engine.specs.Queries.{EachRead, IsFoundByFew, IsReadForQuery, contents_held};

use crate::queries::answer_in;
use crate::{Engine, EngineFault};
use disk_model::Station;
use page_face::Damage;
use place_values::{Answer, Query};

impl<'d, D: Station> Engine<'d, D> {
    ghost use Rattle.irtree_engine.specs.Engine.{OnlyLooks, RefusesLook, block_of, log_of, pages_of, world_of};

    /// Returns the answer to a query over the places of the state. It comes from the tree; no call of it reads the place table.
    ///
    /// Refuses `Stopped` exactly if an earlier commit of this engine failed, before all else. Refuses `Disk` whenever a read failed,
    /// whatever else happened; `Damaged`, never if the image holds a state; and `Memory`.
    ///
    /// For each word of the query, looks at one page a level of the words by text. Then opens the nodes that may hold an answer. Each costs
    /// a look at its page, and one page a level of the rows of words for each word of the query that the store knows. A query by rarity
    /// looks first at one page a level of the words by number for each of its words. A group query makes one search for each of its words,
    /// and more in the cases that `collective_query::group` lists; a gather query one for each set of its words.
    pub fn answer(&mut self, query: &Query) -> Result<Answer, EngineFault>
        requires { IsWithinLimits query.now }
        ensures frame { OnlyLooks self.old self.new }
        ensures answered { IsTrue D.readable → (state : Contents) → HoldsState (world_of self.old) state
            → IfOk result (λ answer. answer ≡ answer_of state query.now) }

        // Few nodes were opened: each page of the log is one of the words by text or of the rows of words, or a node that the query needs.
        ensures opened { IsTrue D.readable → (state : Contents) → HoldsState (world_of self.old) state
            → IfOk result (IsFoundByFew (pages_of self.old) (block_of self.old) state query.now [] (log_of self.new)) }
        // The same by what the image holds: each read of the device is of a page in such a log.
        ensures opens_few { IsTrue D.readable → (state : Contents) → HoldsState (world_of self.old) state
            → OnOk result (EachRead (IsReadForQuery (contents_held (world_of self.old).seen) state query.now) (world_of self.old) (world_of self.new)) }
        ensures fails { RefusesLook self.old self.new result }
        ensures no_false_damage { IsTrue D.readable → (state : Contents) → HoldsState (world_of self.old) state
            → (damage : Damage) → ¬ IsErrOf result (EngineFault.Damaged damage) }

        // A page of the log breaks a rule, as reads give it.
        ensures damaged { IsTrue D.readable → (damage : Damage) → IsErrOf result (EngineFault.Damaged damage)
            → IsQueryDamage (pages_of self.old) (block_of self.old) query.now [] (log_of self.new) damage }
        // The same by what the image holds, whether or not it holds a state.
        ensures broken { IsTrue D.readable → (damage : Damage) → IsErrOf result (EngineFault.Damaged damage)
            → IsQueryDamageIn (contents_held (world_of self.old).seen) query.now damage }
    {
        self.store.clear_log();
        if self.stopped {
            return Err(EngineFault::Stopped);
        }
        let head = self.store.head();
        Ok(answer_in(self.alloc, &mut self.store, &head, query)?)
    }
}
