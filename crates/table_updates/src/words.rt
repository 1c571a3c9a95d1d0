//! The words of a stored place.
ghost use Rattle.std.specs.Prelude.{◌≡◌, ◌≤◌, ◌<◌, ◌+◌, [], length, IfOk, OnOk, OnErr, IsErrOf, All};
ghost use Rattle.std.specs.BTreeMap.{insert_entry};
ghost use Rattle.page_face.specs.Calls.{FailsReading, Reads};
ghost use Rattle.btree_nodes.specs.Tree.{map_uses};
ghost use Rattle.btree_nodes.specs.Damages.{AreReadable, AsksOnly};
ghost use Rattle.paged_map.specs.Maps.{AreCounted};
ghost use Rattle.row_codec.specs.Pairs.{HasImpact};
ghost use Rattle.row_codec.specs.Stored.{IsStored, held_pairs};
ghost use Rattle.store_tables.specs.Entries.{Entries, word_cmp};
ghost use Rattle.store_tables.specs.Holding.{Holds, numbers_form, table_uses};
ghost use Rattle.store_tables.specs.Words.{words_of_pairs, words_of_place};
ghost use Rattle.term_impacts.specs.Pairs.{IsWordMap};
ghost use Rattle.table_updates.specs.Known.{AreKnown, IsWordsDamage};
ghost use Rattle.table_updates.specs.Shown.{AreWordsFound};

use page_face::{Damage, PageFault, Pages};
use std::alloc::Global;
use std::collections::BTreeMap;
use store_tables::{Stored, Tables, disagreement};
use term_impacts::{Word, Words};

/// Returns the words of a stored place with their impacts, each read through the words by number.
///
/// Refuses as the pages do. Refuses `Damaged` by a rule that a page of the words by number breaks, and with `Value` at the leaf whose row
/// is no word's. Refuses `Damaged` with `Words` at page 0 if a number has no word. Costs one look-up for each word.
pub fn words_of<P: Pages>(
    alloc: Global,
    pages: &mut P,
    tables: &Tables,
    stored: &Stored,
) -> Result<Words, PageFault>
    requires form { IsStored stored.now }
    ensures found { (entries : Entries) → Holds (P.pages pages.old) tables.now entries
        → IfOk result (λ words. words ≡ words_of_place entries.numbers stored.now) }
    ensures known { (entries : Entries) → Holds (P.pages pages.old) tables.now entries → OnOk result (AreKnown entries.numbers (held_pairs stored.now)) }

    // Each page on the ways kept the rules in its place. On any pages whose bytes are readable, each word is that of its number's row.
    ensures kept { AreReadable (P.pages pages.old) (P.count pages.old)
        → IfOk result (AreWordsFound (P.pages pages.old) (P.count pages.old) tables.now.numbers (held_pairs stored.now)) }
    ensures no_false_damage { (entries : Entries) → Holds (P.pages pages.old) tables.now entries → AreKnown entries.numbers (held_pairs stored.now)
        → AreReadable (P.pages pages.old) (P.count pages.old) → AreCounted (table_uses (P.pages pages.old) tables.now) (P.count pages.old)
        → (damage : Damage) → ¬ IsErrOf result (PageFault.Damaged damage) }
    ensures damaged { AreReadable (P.pages pages.old) (P.count pages.old)
        → (damage : Damage) → IsErrOf result (PageFault.Damaged damage)
        → IsWordsDamage (P.pages pages.old) (P.count pages.old) tables.now (held_pairs stored.now) (P.asked pages.old) (P.asked pages.new) damage }
    ensures own { AreReadable (P.pages pages.old) (P.count pages.old)
        → AsksOnly (map_uses numbers_form (P.pages pages.old) tables.now.numbers) (P.asked pages.old) (P.asked pages.new) }
    ensures fails { FailsReading P.Pages pages.old pages.new result }
    ensures frame { Reads P.Pages pages.old pages.new }
{
    let held = &stored.pairs[..stored.count as usize];
    let by_word = words_of_pairs(alloc, pages, tables, held)?;
    let mut pairs = Vec::with_capacity(alloc, by_word.len()).map_err(|_| PageFault::Memory)?;
    list_words(&by_word, &mut pairs)?;
    Words::of_pairs(pairs).ok_or(disagreement())
}

// The words of pairs, by word.
fn words_of_pairs<P: Pages>(
    alloc: Global,
    pages: &mut P,
    tables: &Tables,
    pairs: &[(u64, u8)],
) -> Result<BTreeMap<Word, u8>, PageFault>
    requires few { length pairs.now ≤ 64 }
    requires impacts { All HasImpact pairs.now }
    ensures found { (entries : Entries) → Holds (P.pages pages.old) tables.now entries
        → IfOk result (λ words. words.entries ≡ words_of_pairs entries.numbers pairs.now) }
    ensures known { (entries : Entries) → Holds (P.pages pages.old) tables.now entries → OnOk result (AreKnown entries.numbers pairs.now) }
    ensures kept { AreReadable (P.pages pages.old) (P.count pages.old)
        → IfOk result (λ words. AreWordsFound (P.pages pages.old) (P.count pages.old) tables.now.numbers pairs.now words.entries) }
    ensures map { IfOk result (λ words. IsWordMap words.entries) }
    ensures few { IfOk result (λ words. length words.entries ≤ length pairs.now) }
    ensures no_false_damage { (entries : Entries) → Holds (P.pages pages.old) tables.now entries → AreKnown entries.numbers pairs.now
        → AreReadable (P.pages pages.old) (P.count pages.old) → AreCounted (table_uses (P.pages pages.old) tables.now) (P.count pages.old)
        → (damage : Damage) → ¬ IsErrOf result (PageFault.Damaged damage) }
    ensures damaged { AreReadable (P.pages pages.old) (P.count pages.old)
        → (damage : Damage) → IsErrOf result (PageFault.Damaged damage)
        → IsWordsDamage (P.pages pages.old) (P.count pages.old) tables.now pairs.now (P.asked pages.old) (P.asked pages.new) damage }
    ensures own { AreReadable (P.pages pages.old) (P.count pages.old)
        → AsksOnly (map_uses numbers_form (P.pages pages.old) tables.now.numbers) (P.asked pages.old) (P.asked pages.new) }
    ensures fails { FailsReading P.Pages pages.old pages.new result }
    ensures frame { Reads P.Pages pages.old pages.new }
{
    let Some(((number, impact), rest)) = pairs.split_first() else {
        return Ok(BTreeMap::new(alloc));
    };
    let mut words = words_of_pairs(alloc, pages, tables, rest)?;
    let Some(word) = tables.word_of(pages, *number)? else {
        return Err(disagreement());
    };
    put_word(&mut words, word, *impact)?;
    Ok(words)
}

// Maps a word to its impact.
fn put_word(words: &mut BTreeMap<Word, u8>, word: Word, impact: u8) -> Result<(), PageFault>
    requires impact { 1 ≤ impact }
    requires map { IsWordMap words.old.entries }
    requires room { length words.old.entries < 64 }
    ensures put { OnOk result (words.new.entries ≡ insert_entry word_cmp words.old.entries word impact) }
    ensures map { OnOk result (IsWordMap words.new.entries) }
    ensures few { OnOk result (length words.new.entries ≤ length words.old.entries + 1) }
    ensures memory { OnErr result (result ≡ Err PageFault.Memory) }
{
    match words.insert(word, impact) {
        Ok(_) => Ok(()),
        Err(_) => Err(PageFault::Memory),
    }
}

// Lists the words in their order.
fn list_words(words: &BTreeMap<Word, u8>, pairs: &mut Vec<(Word, u8)>) -> Result<(), PageFault>
    requires none { pairs.old.items ≡ [] }
    ensures all { OnOk result (pairs.new.items ≡ words.now.entries) }
    ensures memory { OnErr result (result ≡ Err PageFault.Memory) }
{
    for (word, impact) in words {
        if pairs.push((*word, *impact)).is_err() {
            return Err(PageFault::Memory);
        }
    }
    Ok(())
}
