// Weighs words by how few places have them.
ghost use Rattle.std.specs.Prelude.{◌≡◌, ◌≤◌, ◌<◌, ◌^◌, length, IfOk};
ghost use Rattle.place_values.specs.Query.{IsTerms, IsWeights};
ghost use Rattle.place_values.specs.Rarity.{holders_of, weighed_by_rarity};

use place_values::{Place, rarity};
use spatial_base::Key;
use std::alloc::{AllocError, Global};
use std::collections::BTreeMap;
use term_impacts::Word;

// How many places have a word.
fn holders(places: &BTreeMap<Key, Place>, word: &Word) -> u32
    requires { length places.now.entries < 2 ^ 32 }
    ensures count { result ≡ length (holders_of word.now places.now.entries) }
    ensures few { result ≤ length places.now.entries }
{
    let mut count = 0;
    for (_, place) in places {
        if place.has(word) {
            count += 1;
        }
    }
    count
}

/// Returns the words with their weights by rarity. It goes over all places once for each word.
pub(crate) fn weighed(
    alloc: Global,
    places: &BTreeMap<Key, Place>,
    words: &[Word],
) -> Result<Vec<(Word, u8)>, AllocError>
    requires places { length places.now.entries < 2 ^ 32 }
    requires words { IsTerms words.now }
    ensures weights { IfOk result (λ terms. terms.items ≡ weighed_by_rarity places.now.entries words.now) }
    ensures sound { IfOk result (λ terms. IsWeights terms.items) }
{
    let live = places.len() as u32;
    let mut terms = Vec::new(alloc);
    for word in words {
        terms.push((*word, rarity(live, holders(places, word))))?;
    }
    Ok(terms)
}
