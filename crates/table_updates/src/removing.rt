//! A place that is taken out.
ghost use Rattle.std.specs.Prelude.{◌≡◌, ℕ, List, Some, OnOk, OnErr, IsErrOf};
ghost use Rattle.page_face.specs.Calls.{FailsReading, TakesNone};
ghost use Rattle.btree_nodes.specs.Supply.{view};
ghost use Rattle.btree_nodes.specs.Damages.{AreReadable};
ghost use Rattle.row_codec.specs.Stored.{IsStored};
ghost use Rattle.store_tables.specs.Entries.{Entries, place_of_key};
ghost use Rattle.store_tables.specs.Holding.{Holds, IsApart, IsChanged};
ghost use Rattle.store_tables.specs.Words.{WordTablesAgree, holders};
ghost use Rattle.store_model.specs.Stands.{IsCounting};
ghost use Rattle.store_model.specs.Updates.{after_remove};
ghost use Rattle.store_tables.specs.Broken.{SparesHead};

use crate::pairs::held_pairs;
use crate::releasing::release_words;
use page_face::{Damage, PageFault, Pages};
use spatial_base::Key;
use store_tables::{Stored, Tables};

/// Takes a key's place out; `old` is that place. One place fewer holds each of its words.
///
/// Refuses as [`Tables::remove_place`] and [`Tables::release`] do. After a refusal the tables are as before, and pages may have
/// changed. Costs a removal from the place table, and for each word a look-up and a put, or two removals if no other place holds
/// it.
pub fn remove_place<P: Pages>(
    pages: &mut P,
    tables: &mut Tables,
    key: &Key,
    old: &Stored,
) -> Result<(), PageFault>
    requires form { IsStored old.now }
    ensures removed { (entries : Entries) (free : List ℕ) → Holds (P.pages pages.old) tables.old entries → IsApart (view (P.pages pages.old) (P.count pages.old) (P.first pages.old) free) tables.old
        → place_of_key key.now entries.places ≡ Some old.now
        → OnOk result (IsChanged (view (P.pages pages.old) (P.count pages.old) (P.first pages.old) free) tables.old
        (P.pages pages.new) (P.count pages.new) (P.first pages.new) tables.new (after_remove key.now entries)) }

    // On tables that agree with the places, and with what is held ahead beside them, no damage is found.
    ensures no_false_damage { (entries : Entries) (free : List ℕ) → Holds (P.pages pages.old) tables.old entries → IsApart (view (P.pages pages.old) (P.count pages.old) (P.first pages.old) free) tables.old
        → place_of_key key.now entries.places ≡ Some old.now
        → (claims : ℕ → ℕ → ℕ) → IsCounting claims → WordTablesAgree (λ n. claims n (holders n entries.places)) entries.texts entries.numbers tables.old.next_word
        → AreReadable (P.pages pages.old) (P.count pages.old) → (damage : Damage) → ¬ IsErrOf result (PageFault.Damaged damage) }
    ensures no_head { ((p : P) → AreReadable (P.pages p) (P.count p)) → SparesHead result }
    ensures next { tables.new.next_word ≡ tables.old.next_word }
    ensures kept { OnErr result (tables.new ≡ tables.old) }
    ensures fails { FailsReading P.Pages pages.old pages.new result }
    ensures frame { TakesNone P.Pages pages.old pages.new }
{
    let mut next = *tables;
    next.remove_place(pages, key)?;
    release_words(pages, &mut next, &[], held_pairs(Some(old)))?;
    *tables = next;
    Ok(())
}
