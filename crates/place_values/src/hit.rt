// Hits, their order, and lists of them.
ghost use Rattle.std.specs.Prelude.{◌≡◌};
ghost use Rattle.place_values.specs.Hit.{comes_before};

use crate::Listed;
use spatial_base::{Key, Point};
use std::cmp::Ordering;

/// A place in the answer to a query, and how it was ranked.
///
/// Hits are ordered by cost, then by key. No two places of a state have the same key, so the other fields never decide.
#[derive(Clone, Copy, Debug, PartialEq, Eq, PartialOrd, Ord)]
pub struct Hit {
    /// The cost of the place. In a nearest query, this is its distance.
    pub cost: u64,
    /// The place's key.
    pub key: Key,
    /// The distance to the query's point, in degrees times 10^7.
    pub dist: u64,
    /// The relevance of the place: the weight of the query's words that it has.
    pub text: u32,
    /// The position of the place.
    pub point: Point,
}

/// Hits, which contracts see as a list.
pub type Hits = Listed<Hit>;

/// Whether a hit comes before another, by cost and then by key.
#[inline(always)]
pub fn is_before(a: &Hit, b: &Hit) -> bool
    ensures { result ≡ comes_before a.now b.now }
{
    a.cmp(b).is_lt()
}
