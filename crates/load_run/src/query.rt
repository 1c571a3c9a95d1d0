// The query for a place that was made.
ghost use Rattle.std.specs.Prelude.{◌≡◌, ◌≤◌, ◌++◌, codes, decimal, length, IfOk};
ghost use Rattle.place_generator.specs.Makers.{place_in};
ghost use Rattle.place_values.specs.Query.{IsWithinLimits};
ghost use Rattle.load_run.specs.Asking as spec;

use crate::found::HITS_MAX;
use place_generator::Made;
use place_values::{Query, Weights};
use spatial_base::{Memory, SCALE_MAX};
use std::alloc::Global;
use term_impacts::{WORD_MAX, Word};

// The share of the distance, in thousandths: as much as that of the words.
const ALPHA: u16 = 500;

// The distance that weighs as much as the words, in units of 10^-7 degrees: one degree.
const REACH: u64 = 10_000_000;

// The word of a text.
fn word_of(text: &str) -> Word
    requires some { 1 ≤ length text.now }
    requires fits { length text.now ≤ 32 }
    ensures { result ≡ text.now }
{
    let len = text.len();
    let mut form = [0; 33];
    form[..len].copy_from_slice(text.as_bytes());
    form[WORD_MAX] = len as u8;
    match Word::of_bytes(&form) {
        Some(word) => word,
        None => unreachable!(),
    }
}

// The word of the kind a that has this number.
fn own_word(alloc: Global, number: u8) -> Result<Word, Memory>
    ensures { IfOk result (λ word. word ≡ codes "a" ++ decimal number) }
{
    match format!(in alloc; "a{number}") {
        Ok(text) => Ok(word_of(text.as_str())),
        Err(_) => Err(Memory),
    }
}

/// The query for a place: ten hits, by the word `place` and by the place's own word of the kind a, which weighs twice as much. Longitudes
/// count in full.
///
/// Fails only if it runs out of memory.
#[tactic(auto, unfolding(crate::specs::Asking::query_for))]
pub(crate) fn query_for(alloc: Global, made: &Made) -> Result<Query, Memory>
    ensures query { IfOk result (λ query. query ≡ spec.query_for (place_in made.now)) }
    ensures limits { IfOk result IsWithinLimits }
{
    let own = own_word(alloc, made.first)?;
    let words = match vec![in alloc; (word_of("place"), 1), (own, 2)] {
        Ok(words) => words,
        Err(_) => return Err(Memory),
    };
    Ok(Query::Top {
        at: made.point,
        scale: SCALE_MAX,
        k: HITS_MAX,
        alpha: ALPHA,
        reach: REACH,
        words: Weights::from_vec(words),
    })
}
