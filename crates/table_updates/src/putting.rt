//! The put of a place at a key.
ghost use Rattle.std.specs.Prelude.{◌≡◌, ℕ, ◌≤◌, ◌<◌, ◌+◌, ◌*◌, ◌^◌, List, length, IfSome, IfOk, OnErr, IsErrOf, OnOk};
ghost use Rattle.std.specs.Option.{option_copied};
ghost use Rattle.page_face.specs.Calls.{FailsChanging, Changes, TakesAtMost};
ghost use Rattle.btree_nodes.specs.Supply.{view};
ghost use Rattle.btree_nodes.specs.Damages.{AreReadable};
ghost use Rattle.row_codec.specs.Stored.{IsStored};
ghost use Rattle.store_tables.specs.Entries.{Entries, place_of_key, without_place};
ghost use Rattle.store_tables.specs.Holding.{Holds, IsApart, IsChanged};
ghost use Rattle.store_tables.specs.Words.{WordsAgree};
ghost use Rattle.store_model.specs.Updates.{after_put, by_number, numbered_for, stored_with};
ghost use Rattle.store_tables.specs.Broken.{SparesHead};

use crate::numbering::number_words;
use crate::pairs::{held_pairs, place_with};
use crate::releasing::release_words;
use page_face::{Damage, PageFault, Pages};
use spatial_base::{Key, Point};
use std::alloc::Global;
use std::collections::BTreeMap;
use store_tables::{Stored, Tables};
use term_impacts::{Label, Words};

/// Puts a place with these words and this label at a key. `old` is what lives there now. Returns the place as the place table keeps it.
///
/// Each of its words that the old place doesn't hold is held by one more place. Each word of the old place that the new one doesn't hold
/// is held by one place fewer.
///
/// Refuses as [`Tables::hold`], [`Tables::put_place`] and [`Tables::release`] do, and `Memory`. After a refusal the tables are as before,
/// and pages may have changed. Costs a put into the place table. Each word costs a look-up, and two more and one or two puts if the old
/// place doesn't hold it. Each other word of the old place costs a release.
pub fn put_place<P: Pages>(
    alloc: Global,
    pages: &mut P,
    tables: &mut Tables,
    key: &Key,
    old: Option<&Stored>,
    point: Point,
    words: &Words,
    label: Label,
) -> Result<Stored, PageFault>
    requires next { tables.old.next_word ≤ 2 ^ 62 }
    requires form { IfSome (option_copied old) IsStored }
    ensures put { (entries : Entries) (free : List ℕ) → Holds (P.pages pages.old) tables.old entries → IsApart (view (P.pages pages.old) (P.count pages.old) (P.first pages.old) free) tables.old
        → option_copied old.entry ≡ place_of_key key.now entries.places
        → IfOk result (λ stored. (stored ≡ stored_with point (by_number (numbered_for key.now words.now tables.old.next_word entries).pairs) label)
        × (tables.new.next_word ≡ (numbered_for key.now words.now tables.old.next_word entries).next_word)
        × IsChanged (view (P.pages pages.old) (P.count pages.old) (P.first pages.old) free) tables.old
        (P.pages pages.new) (P.count pages.new) (P.first pages.new) tables.new (after_put key.now point words.now label tables.old.next_word entries)) }

    // On tables that agree no damage is found, if each word has room for one more place.
    ensures no_false_damage { (entries : Entries) (free : List ℕ) → Holds (P.pages pages.old) tables.old entries → IsApart (view (P.pages pages.old) (P.count pages.old) (P.first pages.old) free) tables.old
        → option_copied old.entry ≡ place_of_key key.now entries.places
        → WordsAgree entries tables.old.next_word → length (without_place key.now entries.places) + 1 < 2 ^ 32
        → AreReadable (P.pages pages.old) (P.count pages.old) → (damage : Damage) → ¬ IsErrOf result (PageFault.Damaged damage) }
    ensures rises { OnOk result (tables.new.next_word ≤ tables.old.next_word + 64) }
    ensures no_head { ((p : P) → AreReadable (P.pages p) (P.count p)) → SparesHead result }
    ensures kept { OnErr result (tables.new ≡ tables.old) }

    // A put into a table takes at most a page for each level, and one for a new root: 257, since a page holds its level in one byte.
    ensures at_most { TakesAtMost P.Pages (257 + 514 * length words.now) pages.old pages.new result }
    ensures fails { FailsChanging P.Pages pages.old pages.new result }
    ensures frame { Changes P.Pages pages.old pages.new }
{
    let held = held_pairs(old);
    let mut next = *tables;
    let mut numbers = BTreeMap::new(alloc);
    number_words(pages, &mut next, held, words.pairs(), &mut numbers)?;
    let stored = place_with(point, &numbers, label);
    next.put_place(pages, key, &stored)?;
    release_words(pages, &mut next, held_pairs(Some(&stored)), held)?;
    *tables = next;
    Ok(stored)
}
