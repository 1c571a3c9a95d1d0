//! The weights of a query's words by how few of the live places hold them.
ghost use Rattle.std.specs.Prelude.{◌≡◌, ◌<◌, ◌≤◌, ℕ, List, length, map, All, IfOk, IsErrOf, unwrap_or};
ghost use Rattle.page_face.specs.Calls.{Reads, FailsReading};
ghost use Rattle.btree_nodes.specs.Damages.{AreReadable, AsksOnly};
ghost use Rattle.btree_nodes.specs.Tree.{map_uses};
ghost use Rattle.paged_map.specs.Maps.{AreCounted};
ghost use Rattle.place_values.specs.Answer.{asked_of};
ghost use Rattle.place_values.specs.Query.{IsWeight, IsWithinLimits};
ghost use Rattle.place_values.specs.Rarity.{rarity as rarity_of};
ghost use Rattle.store_model.specs.Stands.{state_in};
ghost use Rattle.node_filter.specs.Numbers.{by_number, number_of};
ghost use Rattle.store_tables.specs.Broken.{IsNumberDamage};
ghost use Rattle.store_tables.specs.Entries.{Entries, number_of_word};
ghost use Rattle.store_tables.specs.Holding.{Holds, numbers_form, table_uses};
ghost use Rattle.store_tables.specs.Words.{WordsAgree, places_of_number};
ghost use Rattle.query_execution.specs.Asked.{AreKnown, asked_in};
ghost use Rattle.query_execution.specs.Damages.{IsCountHarm, IsOvercounted, IsWeighingHarm};
ghost use Rattle.query_execution.specs.Opened.{count_uses};
ghost use Rattle.query_execution.specs.Holders.{places_of_word, weighed_by_tables};

use node_filter::Ids;
use page_face::{Damage, PageFault, Pages};
use place_values::{Query, Weights};
use std::alloc::Global;
use store_tables::{Tables, disagreement};
use term_impacts::Word;
use topk_query::rarity;

// How many places hold a word, if the words have these numbers: 0 for a word without a number.
fn places_with<P: Pages>(
    pages: &mut P,
    tables: &Tables,
    ids: &Ids,
    word: &Word,
) -> Result<u32, PageFault>
    ensures found { (entries : Entries) → Holds (P.pages pages.old) tables.now entries
        → IfOk result (λ places. places ≡ by_number (λ number. places_of_number number entries.numbers) (number_of ids.now word.now)) }
    ensures kept { AreReadable (P.pages pages.old) (P.count pages.old)
        → IfOk result (λ places. (live : ℕ) → live < places → IsOvercounted (P.pages pages.old) (P.count pages.old) live tables.now) }
    ensures no_false_damage { (entries : Entries) → Holds (P.pages pages.old) tables.now entries
        → AreReadable (P.pages pages.old) (P.count pages.old) → AreCounted (table_uses (P.pages pages.old) tables.now) (P.count pages.old)
        → (damage : Damage) → ¬ IsErrOf result (PageFault.Damaged damage) }
    ensures damaged { AreReadable (P.pages pages.old) (P.count pages.old) → (damage : Damage) → IsErrOf result (PageFault.Damaged damage)
        → (number : ℕ) × IsNumberDamage (P.pages pages.old) (P.count pages.old) tables.now.numbers number (P.asked pages.old) (P.asked pages.new) damage }
    ensures own { AreReadable (P.pages pages.old) (P.count pages.old)
        → AsksOnly (map_uses numbers_form (P.pages pages.old) tables.now.numbers) (P.asked pages.old) (P.asked pages.new) }
    ensures fails { FailsReading P.Pages pages.old pages.new result }
    ensures frame { Reads P.Pages pages.old pages.new }
{
    match ids.number(word) {
        Some(number) => tables.places_of(pages, number),
        None => Ok(0),
    }
}

// A word's weight by rarity, if the words have these numbers and so many places live.
fn weight_of<P: Pages>(
    pages: &mut P,
    tables: &Tables,
    live: u32,
    ids: &Ids,
    word: &Word,
) -> Result<u8, PageFault>
    ensures weight { IfOk result (λ weight. IsWeight (word.now, weight)) }
    ensures weighed { (entries : Entries) → Holds (P.pages pages.old) tables.now entries → number_of ids.now word.now ≡ number_of_word word.now entries.texts
        → IfOk result (λ weight. weight ≡ rarity_of live (places_of_word entries word.now)) }
    ensures no_false_damage { (entries : Entries) → Holds (P.pages pages.old) tables.now entries → number_of ids.now word.now ≡ number_of_word word.now entries.texts
        → places_of_word entries word.now ≤ live
        → AreReadable (P.pages pages.old) (P.count pages.old) → AreCounted (table_uses (P.pages pages.old) tables.now) (P.count pages.old)
        → (damage : Damage) → ¬ IsErrOf result (PageFault.Damaged damage) }
    ensures damaged { AreReadable (P.pages pages.old) (P.count pages.old) → (damage : Damage) → IsErrOf result (PageFault.Damaged damage)
        → IsCountHarm (P.pages pages.old) (P.count pages.old) live tables.now (P.asked pages.old) (P.asked pages.new) damage }
    ensures own { AreReadable (P.pages pages.old) (P.count pages.old)
        → AsksOnly (map_uses numbers_form (P.pages pages.old) tables.now.numbers) (P.asked pages.old) (P.asked pages.new) }
    ensures fails { FailsReading P.Pages pages.old pages.new result }
    ensures frame { Reads P.Pages pages.old pages.new }
{
    let places = match places_with(pages, tables, ids, word) {
        Ok(places) => places,
        Err(fault) => return Err(fault),
    };
    if live < places {
        return Err(disagreement());
    }
    Ok(rarity(live, places))
}

// Some words with their weights by rarity, if they have these numbers and so many places live.
fn weights_of<P: Pages>(
    alloc: Global,
    pages: &mut P,
    tables: &Tables,
    live: u32,
    ids: &Ids,
    words: &[Word],
) -> Result<Vec<(Word, u8)>, PageFault>
    ensures words { IfOk result (λ weights. map (λ term. term.0) weights.items ≡ words.now) }
    ensures weights { IfOk result (λ weights. All IsWeight weights.items) }
    ensures weighed { (entries : Entries) → Holds (P.pages pages.old) tables.now entries → AreKnown ids.now entries.texts words.now
        → IfOk result (λ weights. weights.items ≡ weighed_by_tables entries live words.now) }
    ensures no_false_damage { (entries : Entries) → Holds (P.pages pages.old) tables.now entries → AreKnown ids.now entries.texts words.now
        → ((word : List ℕ) → places_of_word entries word ≤ live)
        → AreReadable (P.pages pages.old) (P.count pages.old) → AreCounted (table_uses (P.pages pages.old) tables.now) (P.count pages.old)
        → (damage : Damage) → ¬ IsErrOf result (PageFault.Damaged damage) }
    ensures damaged { AreReadable (P.pages pages.old) (P.count pages.old) → (damage : Damage) → IsErrOf result (PageFault.Damaged damage)
        → IsCountHarm (P.pages pages.old) (P.count pages.old) live tables.now (P.asked pages.old) (P.asked pages.new) damage }
    ensures own { AreReadable (P.pages pages.old) (P.count pages.old)
        → AsksOnly (map_uses numbers_form (P.pages pages.old) tables.now.numbers) (P.asked pages.old) (P.asked pages.new) }
    ensures fails { FailsReading P.Pages pages.old pages.new result }
    ensures frame { Reads P.Pages pages.old pages.new }
{
    let mut weights = Vec::new(alloc);
    for word in words {
        let weight = match weight_of(pages, tables, live, ids, word) {
            Ok(weight) => weight,
            Err(fault) => return Err(fault),
        };
        match weights.push((*word, weight)) {
            Ok(()) => {}
            Err(_) => return Err(PageFault::Memory),
        }
    }
    Ok(weights)
}

/// Returns the query as which another one is asked: this one, or itself.
pub(crate) fn asked_as<'a>(top: &'a Option<Query>, query: &'a Query) -> &'a Query
    ensures { result.now ≡ unwrap_or top.now query.now }
{
    match top {
        Some(top) => top,
        None => query,
    }
}

/// Returns the top query that a query by rarity is asked as: its words have the weights that the live places give them. Returns `None` for
/// any other query, which is asked as it is. `live` is the number of live places, and the query's words have the numbers `ids`.
///
/// Refuses as [`Tables::places_of`] does, and `Damaged` with `Words` at page 0 if more places hold a word than live. Looks at one page a
/// level of the words by number for each word that the store knows of a query by rarity, and at no other page.
pub(crate) fn weighed<P: Pages>(
    alloc: Global,
    pages: &mut P,
    tables: &Tables,
    live: u32,
    ids: &Ids,
    query: &Query,
) -> Result<Option<Query>, PageFault>
    ensures limits { IsWithinLimits query.now → IfOk result (λ top. IsWithinLimits (unwrap_or top query.now)) }
    ensures asked { (entries : Entries) → Holds (P.pages pages.old) tables.now entries → AreKnown ids.now entries.texts (asked_in query.now)
        → (next_word serial number : ℕ) → WordsAgree entries next_word → live ≡ length entries.places
        → IfOk result (λ top. unwrap_or top query.now ≡ asked_of (state_in entries serial number) query.now) }
    ensures no_false_damage { (entries : Entries) → Holds (P.pages pages.old) tables.now entries → AreKnown ids.now entries.texts (asked_in query.now)
        → (next_word : ℕ) → WordsAgree entries next_word → live ≡ length entries.places
        → AreReadable (P.pages pages.old) (P.count pages.old) → AreCounted (table_uses (P.pages pages.old) tables.now) (P.count pages.old)
        → (damage : Damage) → ¬ IsErrOf result (PageFault.Damaged damage) }
    ensures damaged { AreReadable (P.pages pages.old) (P.count pages.old) → (damage : Damage) → IsErrOf result (PageFault.Damaged damage)
        → IsWeighingHarm (P.pages pages.old) (P.count pages.old) live tables.now query.now (P.asked pages.old) (P.asked pages.new) damage }
    ensures own { AreReadable (P.pages pages.old) (P.count pages.old)
        → AsksOnly (count_uses (P.pages pages.old) tables.now query.now) (P.asked pages.old) (P.asked pages.new) }
    ensures fails { FailsReading P.Pages pages.old pages.new result }
    ensures frame { Reads P.Pages pages.old pages.new }
{
    match query {
        Query::Rare {
            at,
            scale,
            k,
            alpha,
            reach,
            words,
        } => match weights_of(alloc, pages, tables, live, ids, words.as_slice()) {
            Ok(weights) => Ok(Some(Query::Top {
                at: *at,
                scale: *scale,
                k: *k,
                alpha: *alpha,
                reach: *reach,
                words: Weights::from_vec(weights),
            })),
            Err(fault) => Err(fault),
        },
        Query::Range { .. }
        | Query::Inside { .. }
        | Query::Nearest { .. }
        | Query::Top { .. }
        | Query::Group { .. }
        | Query::Gather { .. } => Ok(None),
    }
}
