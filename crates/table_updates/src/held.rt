//! The put of a place whose words were held ahead.
ghost use Rattle.std.specs.Prelude.{◌≡◌, ℕ, ◌≤◌, ◌<◌, ◌+◌, ◌*◌, ◌^◌, ◌==◌, List, ◌∷◌, Option, length, option_map, IfSome, IfOk, IfErr, OnOk, OnErr, IsErrOf, All, IsSome};
ghost use Rattle.std.specs.List.{AllByRecursion};
ghost use Rattle.std.specs.Map.{keys_of};
ghost use Rattle.std.specs.Option.{option_copied};
ghost use Rattle.page_face.specs.Calls.{FailsChanging, Changes, TakesAtMost};
ghost use Rattle.btree_nodes.specs.Supply.{view};
ghost use Rattle.btree_nodes.specs.Damages.{AreReadable};
ghost use Rattle.spatial_base.specs.Key.{Name};
ghost use Rattle.place_values.specs.declared.update.Update.{Update};
ghost use Rattle.place_values.specs.declared.update.Update.TheVariants.{Put};
ghost use Rattle.row_codec.specs.Stored.{IsStored};
ghost use Rattle.store_tables.specs.Entries.{Entries, place_of_key, without_place};
ghost use Rattle.store_tables.specs.Holding.{Holds, IsApart, IsChanged};
ghost use Rattle.store_tables.specs.Words.{WordTablesAgree, holders};
ghost use Rattle.store_model.specs.Ahead.{AreNamedBy, IsNamed, after_put_by, claimed, next_by, number_in, pairs_by, pairs_for, place_count};
ghost use Rattle.store_model.specs.Updates.{after_held, by_number, placed, stored_with};
ghost use Rattle.table_updates.specs.Numbers.{HasTermImpact, IsNumberMap, IsKnownIn, IsPairFault};
ghost use Rattle.store_tables.specs.Broken.{SparesHead};

use crate::pairs::{held_pairs, place_with, put_pair};
use crate::putting::put_place;
use crate::releasing::release_words;
use indexmap::IndexMap;
use page_face::{Damage, PageFault, Pages};
use spatial_base::{Key, Point};
use std::alloc::Global;
use std::collections::BTreeMap;
use store_tables::{Stored, Tables, disagreement};
use term_impacts::{Label, Word, Words};

// Maps the number that each word has in the map to the word's impact.
fn pair_words(
    words: &[(Word, u8)],
    numbers: &IndexMap<Word, u64>,
    pairs: &mut BTreeMap<u64, u8>,
) -> Result<(), PageFault>
    requires room { length pairs.old.entries + length words.now ≤ 64 }
    requires impacts { All HasTermImpact words.now }
    requires map { IsNumberMap pairs.old.entries }
    ensures paired { OnOk result (pairs.new.entries ≡ placed pairs.old.entries (pairs_for numbers.now.entries words.now)) }
    ensures map { OnOk result (IsNumberMap pairs.new.entries) }
    ensures no_false_damage { AllByRecursion (IsKnownIn numbers.now.entries) (keys_of words.now) → (damage : Damage) → ¬ IsErrOf result (PageFault.Damaged damage) }
    ensures causes { IfErr result IsPairFault }
{
    let Some(((word, impact), rest)) = words.split_first() else {
        return Ok(());
    };
    let Some(number) = numbers.get(word) else {
        return Err(disagreement());
    };
    put_pair(pairs, *number, *impact)?;
    pair_words(rest, numbers, pairs)
}

/// Puts a place with this label, whose words were held ahead, by these numbers, at a key. `old` is what lives there now. Each word of
/// the old place is held by one place fewer. Returns the place as the place table keeps it.
///
/// Refuses as [`Tables::put_place`] and [`Tables::release`] do, `Memory`, and `Damaged` with `Words` at page 0 if a word has no
/// number. After a refusal the tables are as before, and pages may have changed. Costs a put into the place table, a release for
/// each word of the old place, and for each word of the new one a look-up by hash in memory.
pub fn put_held<P: Pages>(
    alloc: Global,
    pages: &mut P,
    tables: &mut Tables,
    key: &Key,
    old: Option<&Stored>,
    point: Point,
    words: &Words,
    label: Label,
    numbers: &IndexMap<Word, u64>,
) -> Result<Stored, PageFault>
    requires form { IfSome (option_copied old) IsStored }
    ensures put { (entries : Entries) (free : List ℕ) → Holds (P.pages pages.old) tables.old entries → IsApart (view (P.pages pages.old) (P.count pages.old) (P.first pages.old) free) tables.old
        → option_copied old.entry ≡ place_of_key key.now entries.places
        → IfOk result (λ stored. (stored ≡ stored_with point (by_number (pairs_for numbers.now.entries words.now)) label)
        × IsChanged (view (P.pages pages.old) (P.count pages.old) (P.first pages.old) free) tables.old
        (P.pages pages.new) (P.count pages.new) (P.first pages.new) tables.new (after_held key.now point (pairs_for numbers.now.entries words.now) label entries)) }

    // On tables that agree with the places and with what else is held ahead, no damage is found if the words were held ahead.
    ensures no_false_damage { (entries : Entries) (free : List ℕ) → Holds (P.pages pages.old) tables.old entries → IsApart (view (P.pages pages.old) (P.count pages.old) (P.first pages.old) free) tables.old
        → option_copied old.entry ≡ place_of_key key.now entries.places
        → (rest : ℕ → ℕ) → WordTablesAgree (λ n. holders n entries.places + (place_count (λ word. number_in numbers.now.entries word == n) words.now + rest n)) entries.texts entries.numbers tables.old.next_word
        → AllByRecursion (IsNamed numbers.now.entries entries.numbers) (keys_of words.now)
        → AreReadable (P.pages pages.old) (P.count pages.old) → (damage : Damage) → ¬ IsErrOf result (PageFault.Damaged damage) }
    ensures no_head { ((p : P) → AreReadable (P.pages p) (P.count p)) → SparesHead result }
    ensures next { tables.new.next_word ≡ tables.old.next_word }
    ensures kept { OnErr result (tables.new ≡ tables.old) }
    ensures at_most { TakesAtMost P.Pages 257 pages.old pages.new result }
    ensures fails { FailsChanging P.Pages pages.old pages.new result }
    ensures frame { Changes P.Pages pages.old pages.new }
{
    let mut pairs = BTreeMap::new(alloc);
    pair_words(words.pairs(), numbers, &mut pairs)?;
    let stored = place_with(point, &pairs, label);
    let mut next = *tables;
    next.put_place(pages, key, &stored)?;
    release_words(pages, &mut next, &[], held_pairs(old))?;
    *tables = next;
    Ok(stored)
}

/// Puts a place at a key in a batch: as [`put_held`] by the numbers of its words, if they were held ahead, and otherwise as
/// [`put_place`].
pub fn put_in_batch<P: Pages>(
    alloc: Global,
    pages: &mut P,
    tables: &mut Tables,
    key: &Key,
    old: Option<&Stored>,
    point: Point,
    words: &Words,
    label: Label,
    held: &Option<IndexMap<Word, u64>>,
) -> Result<Stored, PageFault>
    requires next { tables.old.next_word ≤ 2 ^ 62 }
    requires form { IfSome (option_copied old) IsStored }
    ensures put { (entries : Entries) (free : List ℕ) → Holds (P.pages pages.old) tables.old entries → IsApart (view (P.pages pages.old) (P.count pages.old) (P.first pages.old) free) tables.old
        → option_copied old.entry ≡ place_of_key key.now entries.places
        → IfOk result (λ stored. (stored ≡ stored_with point (by_number (pairs_by (option_map (λ numbers. numbers.entries) held.now) key.now words.now tables.old.next_word entries)) label)
        × (tables.new.next_word ≡ next_by (option_map (λ numbers. numbers.entries) held.now) key.now words.now tables.old.next_word entries)
        × IsChanged (view (P.pages pages.old) (P.count pages.old) (P.first pages.old) free) tables.old
        (P.pages pages.new) (P.count pages.new) (P.first pages.new) tables.new (after_put_by (option_map (λ numbers. numbers.entries) held.now) key.now point words.now label tables.old.next_word entries)) }

    // On tables that agree with the places and with what is held ahead beside them, no damage is found if each word has room for one more
    // place.
    ensures no_false_damage { (entries : Entries) (free : List ℕ) → Holds (P.pages pages.old) tables.old entries → IsApart (view (P.pages pages.old) (P.count pages.old) (P.first pages.old) free) tables.old
        → option_copied old.entry ≡ place_of_key key.now entries.places → length (without_place key.now entries.places) + 1 < 2 ^ 32
        → (name : Option Name) (left : List Update) → WordTablesAgree (λ n. claimed (option_map (λ numbers. numbers.entries) held.now) (Put name point words.now label ∷ left) n (holders n entries.places)) entries.texts entries.numbers tables.old.next_word
        → AreNamedBy (option_map (λ numbers. numbers.entries) held.now) entries.numbers (Put name point words.now label ∷ left)
        → AreReadable (P.pages pages.old) (P.count pages.old) → (damage : Damage) → ¬ IsErrOf result (PageFault.Damaged damage) }
    ensures rises { OnOk result (tables.new.next_word ≤ tables.old.next_word + 64) }
    ensures none_new { IsSome held.now → tables.new.next_word ≡ tables.old.next_word }
    ensures no_head { ((p : P) → AreReadable (P.pages p) (P.count p)) → SparesHead result }
    ensures kept { OnErr result (tables.new ≡ tables.old) }
    ensures at_most { TakesAtMost P.Pages (257 + 514 * length words.now) pages.old pages.new result }
    ensures at_most_held { IsSome held.now → TakesAtMost P.Pages 257 pages.old pages.new result }
    ensures fails { FailsChanging P.Pages pages.old pages.new result }
    ensures frame { Changes P.Pages pages.old pages.new }
{
    match held {
        Some(numbers) => put_held(alloc, pages, tables, key, old, point, words, label, numbers),
        None => put_place(alloc, pages, tables, key, old, point, words, label),
    }
}
