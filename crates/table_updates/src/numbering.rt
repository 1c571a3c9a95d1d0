//! The numbers of a place's words.
ghost use Rattle.std.specs.Prelude.{◌≡◌, ℕ, ◌≤◌, ◌<◌, ◌+◌, ◌*◌, ◌^◌, false, if◌then◌else◌, List, length, IfOk, OnOk, IsErrOf, All};
ghost use Rattle.page_face.specs.Calls.{FailsChanging, Changes, TakesAtMost};
ghost use Rattle.btree_nodes.specs.Supply.{view};
ghost use Rattle.btree_nodes.specs.Damages.{AreReadable};
ghost use Rattle.store_tables.specs.Entries.{Entries, number_of_word};
ghost use Rattle.store_tables.specs.Holding.{Holds, IsApart, IsChanged};
ghost use Rattle.store_tables.specs.Words.{CanHold, next_after, number_for, with_hold};
ghost use Rattle.store_model.specs.Updates.{CanNumber, has_pair as is_among, numbered, placed};
ghost use Rattle.table_updates.specs.Numbers.{HasTermImpact, IsNumberMap};
ghost use Rattle.store_tables.specs.Broken.{SparesHead};

use crate::pairs::{has_pair, put_pair};
use page_face::{Damage, PageFault, Pages};
use std::collections::BTreeMap;
use store_tables::Tables;
use term_impacts::Word;

// The number of a word. One more place holds the word, unless its number is among the old pairs.
//
// Looks the word up by text once. If its number isn't among the old pairs, goes on as `Tables::hold_numbered`.
fn take_hold<P: Pages>(
    pages: &mut P,
    tables: &mut Tables,
    old: &[(u64, u8)],
    word: &Word,
) -> Result<u64, PageFault>
    requires next { tables.old.next_word < 2 ^ 63 }
    ensures held { (entries : Entries) (free : List ℕ) → Holds (P.pages pages.old) tables.old entries → IsApart (view (P.pages pages.old) (P.count pages.old) (P.first pages.old) free) tables.old
        → IfOk result (λ number. (number ≡ number_for word.now tables.old.next_word entries.texts)
        × (tables.new.next_word ≡ (if is_among number old.now then tables.old.next_word else next_after (number_of_word word.now entries.texts) tables.old.next_word))
        × IsChanged (view (P.pages pages.old) (P.count pages.old) (P.first pages.old) free) tables.old
        (P.pages pages.new) (P.count pages.new) (P.first pages.new) tables.new (if is_among number old.now then entries else with_hold word.now tables.old.next_word entries)) }
    ensures no_false_damage { (entries : Entries) (free : List ℕ) → Holds (P.pages pages.old) tables.old entries → IsApart (view (P.pages pages.old) (P.count pages.old) (P.first pages.old) free) tables.old
        → (is_among (number_for word.now tables.old.next_word entries.texts) old.now ≡ false → CanHold word.now tables.old.next_word entries)
        → AreReadable (P.pages pages.old) (P.count pages.old) → (damage : Damage) → ¬ IsErrOf result (PageFault.Damaged damage) }
    ensures no_head { ((p : P) → AreReadable (P.pages p) (P.count p)) → SparesHead result }
    ensures rises { OnOk result (tables.new.next_word ≤ tables.old.next_word + 1) }
    ensures at_most { TakesAtMost P.Pages 514 pages.old pages.new result }
    ensures fails { FailsChanging P.Pages pages.old pages.new result }
    ensures frame { Changes P.Pages pages.old pages.new }
{
    let found = tables.number_of(pages, word)?;
    let number = found.unwrap_or(tables.next_word);
    if has_pair(number, old) {
        return Ok(number);
    }
    tables.hold_numbered(pages, word, found, 1)
}

/// Numbers the words in their order, and maps each number to the word's impact. One more place holds each word whose number
/// isn't among the old pairs.
///
/// Refuses as the pages do, as [`Tables::hold`] does, and `Memory`. After a refusal pages and the tables may have changed. Takes at most
/// 514 pages a word.
pub(crate) fn number_words<P: Pages>(
    pages: &mut P,
    tables: &mut Tables,
    old: &[(u64, u8)],
    words: &[(Word, u8)],
    pairs: &mut BTreeMap<u64, u8>,
) -> Result<(), PageFault>
    requires next { tables.old.next_word + length words.now ≤ 2 ^ 63 }
    requires room { length pairs.old.entries + length words.now ≤ 64 }
    requires impacts { All HasTermImpact words.now }
    requires map { IsNumberMap pairs.old.entries }
    ensures numbered { (entries : Entries) (free : List ℕ) → Holds (P.pages pages.old) tables.old entries → IsApart (view (P.pages pages.old) (P.count pages.old) (P.first pages.old) free) tables.old
        → OnOk result ((tables.new.next_word ≡ (numbered old.now words.now tables.old.next_word entries).next_word)
        × (pairs.new.entries ≡ placed pairs.old.entries (numbered old.now words.now tables.old.next_word entries).pairs)
        × IsChanged (view (P.pages pages.old) (P.count pages.old) (P.first pages.old) free) tables.old
        (P.pages pages.new) (P.count pages.new) (P.first pages.new) tables.new (numbered old.now words.now tables.old.next_word entries).entries) }
    ensures no_false_damage { (entries : Entries) (free : List ℕ) → Holds (P.pages pages.old) tables.old entries → IsApart (view (P.pages pages.old) (P.count pages.old) (P.first pages.old) free) tables.old
        → CanNumber old.now words.now tables.old.next_word entries
        → AreReadable (P.pages pages.old) (P.count pages.old) → (damage : Damage) → ¬ IsErrOf result (PageFault.Damaged damage) }
    ensures map { OnOk result (IsNumberMap pairs.new.entries) }
    ensures rises { OnOk result (tables.new.next_word ≤ tables.old.next_word + length words.now) }
    ensures no_head { ((p : P) → AreReadable (P.pages p) (P.count p)) → SparesHead result }
    ensures at_most { TakesAtMost P.Pages (514 * length words.now) pages.old pages.new result }
    ensures fails { FailsChanging P.Pages pages.old pages.new result }
    ensures frame { Changes P.Pages pages.old pages.new }
{
    let Some(((word, impact), rest)) = words.split_first() else {
        return Ok(());
    };
    let number = take_hold(pages, tables, old, word)?;
    put_pair(pairs, number, *impact)?;
    number_words(pages, tables, old, rest, pairs)
}
