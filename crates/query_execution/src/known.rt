//! The numbers of a query's words.
ghost use Rattle.std.specs.Prelude.{◌≡◌, ◌++◌, IfOk, OnOk, IsErrOf};
ghost use Rattle.std.specs.List.{AllByRecursion, flat_map};
ghost use Rattle.page_face.specs.Calls.{Reads, FailsReading};
ghost use Rattle.btree_nodes.specs.Damages.{AreReadable, AskedSince, AsksOnly};
ghost use Rattle.btree_nodes.specs.Tree.{map_uses};
ghost use Rattle.paged_map.specs.Maps.{AreCounted, IsMapDamaged};
ghost use Rattle.term_impacts.specs.Form.{IsWordText};
ghost use Rattle.store_tables.specs.Entries.{Entries};
ghost use Rattle.store_tables.specs.Holding.{Holds, table_uses, texts_form};
ghost use Rattle.query_execution.specs.Asked.{asked_in, id_in, AreKnown};

use crate::asked::asked_words;
use node_filter::Ids;
use page_face::{Damage, PageFault, Pages};
use place_values::Query;
use std::alloc::Global;
use store_tables::Tables;
use term_impacts::Word;

// Adds a word's form with its number, if the store knows the word.
fn add_number<P: Pages>(
    pages: &mut P,
    tables: &Tables,
    word: &Word,
    list: &mut Vec<([u8; 33], u64)>,
) -> Result<(), PageFault>
    ensures found { (entries : Entries) → Holds (P.pages pages.old) tables.now entries
        → OnOk result (list.new.items ≡ list.old.items ++ id_in entries.texts word.now) }
    ensures text { OnOk result (IsWordText word.now) }
    ensures no_false_damage { (entries : Entries) → Holds (P.pages pages.old) tables.now entries
        → AreReadable (P.pages pages.old) (P.count pages.old) → AreCounted (table_uses (P.pages pages.old) tables.now) (P.count pages.old)
        → (damage : Damage) → ¬ IsErrOf result (PageFault.Damaged damage) }
    ensures damaged { AreReadable (P.pages pages.old) (P.count pages.old)
        → (damage : Damage) → IsErrOf result (PageFault.Damaged damage)
        → IsMapDamaged texts_form (P.pages pages.old) (P.count pages.old) tables.now.texts damage × AskedSince (P.asked pages.old) (P.asked pages.new) damage.page }
    ensures own { AreReadable (P.pages pages.old) (P.count pages.old)
        → AsksOnly (map_uses texts_form (P.pages pages.old) tables.now.texts) (P.asked pages.old) (P.asked pages.new) }
    ensures fails { FailsReading P.Pages pages.old pages.new result }
    ensures frame { Reads P.Pages pages.old pages.new }
{
    let form = word.bytes();
    match tables.number_of(pages, word) {
        Ok(Some(number)) => match list.push((form, number)) {
            Ok(()) => Ok(()),
            Err(_) => Err(PageFault::Memory),
        },
        Ok(None) => Ok(()),
        Err(fault) => Err(fault),
    }
}

// The forms of those of the words that the store knows, each with its number.
fn numbers_of<P: Pages>(
    alloc: Global,
    pages: &mut P,
    tables: &Tables,
    words: &[Word],
) -> Result<Vec<([u8; 33], u64)>, PageFault>
    ensures found { (entries : Entries) → Holds (P.pages pages.old) tables.now entries
        → IfOk result (λ list. list.items ≡ flat_map (id_in entries.texts) words.now) }
    ensures texts { OnOk result (AllByRecursion IsWordText words.now) }
    ensures no_false_damage { (entries : Entries) → Holds (P.pages pages.old) tables.now entries
        → AreReadable (P.pages pages.old) (P.count pages.old) → AreCounted (table_uses (P.pages pages.old) tables.now) (P.count pages.old)
        → (damage : Damage) → ¬ IsErrOf result (PageFault.Damaged damage) }
    ensures damaged { AreReadable (P.pages pages.old) (P.count pages.old)
        → (damage : Damage) → IsErrOf result (PageFault.Damaged damage)
        → IsMapDamaged texts_form (P.pages pages.old) (P.count pages.old) tables.now.texts damage × AskedSince (P.asked pages.old) (P.asked pages.new) damage.page }
    ensures own { AreReadable (P.pages pages.old) (P.count pages.old)
        → AsksOnly (map_uses texts_form (P.pages pages.old) tables.now.texts) (P.asked pages.old) (P.asked pages.new) }
    ensures fails { FailsReading P.Pages pages.old pages.new result }
    ensures frame { Reads P.Pages pages.old pages.new }
{
    let mut list = Vec::new(alloc);
    for word in words {
        add_number(pages, tables, word, &mut list)?;
    }
    Ok(list)
}

// The numbers of some words. Each is looked up once for each time that it is listed.
fn ids_among<P: Pages>(
    alloc: Global,
    pages: &mut P,
    tables: &Tables,
    words: &[Word],
) -> Result<Ids, PageFault>
    ensures known { (entries : Entries) → Holds (P.pages pages.old) tables.now entries
        → IfOk result (λ ids. AreKnown ids entries.texts words.now) }
    ensures no_false_damage { (entries : Entries) → Holds (P.pages pages.old) tables.now entries
        → AreReadable (P.pages pages.old) (P.count pages.old) → AreCounted (table_uses (P.pages pages.old) tables.now) (P.count pages.old)
        → (damage : Damage) → ¬ IsErrOf result (PageFault.Damaged damage) }
    ensures damaged { AreReadable (P.pages pages.old) (P.count pages.old)
        → (damage : Damage) → IsErrOf result (PageFault.Damaged damage)
        → IsMapDamaged texts_form (P.pages pages.old) (P.count pages.old) tables.now.texts damage × AskedSince (P.asked pages.old) (P.asked pages.new) damage.page }
    ensures own { AreReadable (P.pages pages.old) (P.count pages.old)
        → AsksOnly (map_uses texts_form (P.pages pages.old) tables.now.texts) (P.asked pages.old) (P.asked pages.new) }
    ensures fails { FailsReading P.Pages pages.old pages.new result }
    ensures frame { Reads P.Pages pages.old pages.new }
{
    match numbers_of(alloc, pages, tables, words) {
        Ok(list) => Ok(Ids::from_vec(list)),
        Err(fault) => Err(fault),
    }
}

/// Returns the numbers of the words that a query asks about: those of its filter, or the words that it lists. Each word is looked up once
/// in the words by text, in ascending order; a word that the store doesn't know has no number.
///
/// Refuses as the pages do, and `Damaged` by a rule that a page of the words by text breaks. Looks at one page a level of the words by text
/// for each word, and at no other page.
pub fn ids_of<P: Pages>(
    alloc: Global,
    pages: &mut P,
    tables: &Tables,
    query: &Query,
) -> Result<Ids, PageFault>
    ensures known { (entries : Entries) → Holds (P.pages pages.old) tables.now entries
        → IfOk result (λ ids. AreKnown ids entries.texts (asked_in query.now)) }
    ensures no_false_damage { (entries : Entries) → Holds (P.pages pages.old) tables.now entries
        → AreReadable (P.pages pages.old) (P.count pages.old) → AreCounted (table_uses (P.pages pages.old) tables.now) (P.count pages.old)
        → (damage : Damage) → ¬ IsErrOf result (PageFault.Damaged damage) }
    ensures damaged { AreReadable (P.pages pages.old) (P.count pages.old)
        → (damage : Damage) → IsErrOf result (PageFault.Damaged damage)
        → IsMapDamaged texts_form (P.pages pages.old) (P.count pages.old) tables.now.texts damage × AskedSince (P.asked pages.old) (P.asked pages.new) damage.page }
    ensures own { AreReadable (P.pages pages.old) (P.count pages.old)
        → AsksOnly (map_uses texts_form (P.pages pages.old) tables.now.texts) (P.asked pages.old) (P.asked pages.new) }
    ensures fails { FailsReading P.Pages pages.old pages.new result }
    ensures frame { Reads P.Pages pages.old pages.new }
{
    let words = match asked_words(alloc, query) {
        Ok(words) => words,
        Err(_) => return Err(PageFault::Memory),
    };
    ids_among(alloc, pages, tables, words.as_slice())
}
