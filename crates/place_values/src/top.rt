// The cost of a place in a top query.
ghost use Rattle.std.specs.Prelude.{◌≡◌, ◌≤◌, ◌<◌, ◌*◌, ◌^◌, length, All};
ghost use Rattle.place_values.specs.Query.{IsBlend, IsWeight};
ghost use Rattle.place_values.specs.Top.{weight_sum, relevance, holds_some, top_cost};

use crate::Place;
use term_impacts::Word;

/// Returns the sum of a query's weights.
pub fn sum_of_weights(words: &[(Word, u8)]) -> u32
    requires few { length words.now ≤ 8 }
    requires weights { All IsWeight words.now }
    ensures sum { result ≡ weight_sum words.now }
    ensures most { result ≤ 160 }
{
    let mut sum = 0;
    for (_, weight) in words {
        sum += u32::from(*weight);
    }
    sum
}

/// Returns the relevance of a place: the sum over the words of weight times impact.
pub fn relevance_of(words: &[(Word, u8)], place: &Place) -> u32
    requires { length words.now ≤ 8 }
    ensures { result ≡ relevance words.now place.now }
{
    let mut sum = 0;
    for (word, weight) in words {
        sum += u32::from(*weight) * u32::from(place.words.impact(word));
    }
    sum
}

/// Returns whether a place has at least one of the words.
pub fn has_some(words: &[(Word, u8)], place: &Place) -> bool
    ensures { result ≡ holds_some words.now place.now }
{
    words.iter().any(|term| place.has(&term.0))
}

/// Returns the cost of a place with this distance and relevance, below 2^59.
///
/// The distance counts with `alpha` thousandths, and the relevance that is missing with the rest. They are scaled so that the distance
/// `reach` counts as much as all the relevance.
pub fn cost_of(alpha: u16, reach: u64, weight: u32, dist: u64, text: u32) -> u64
    requires blend { IsBlend alpha reach }
    requires weight { weight ≤ 160 }
    requires dist { dist ≤ 2545584412 }
    ensures cost { result ≡ top_cost alpha reach weight dist text }
    ensures most { result < 2 ^ 59 }
{
    let share = u64::from(alpha);
    let weight = u64::from(weight);
    let missing = (255 * weight).saturating_sub(u64::from(text));
    share * dist * 255 * weight + (1000 - share) * reach * missing
}
