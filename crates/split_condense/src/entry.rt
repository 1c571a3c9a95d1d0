//! An entry of a tree.
ghost use Rattle.std.specs.Prelude.{◌≡◌, take};

use row_codec::PAIRS_MAX;
use spatial_base::{Key, Point};

/// A place as a tree keeps it: its key, its point, and its words by their numbers.
///
/// The first `count` pairs are a word's number and its impact, ascending strictly by number with impacts of at least 1. The others are
/// (0, 0). A word that is listed twice has the greater of its impacts.
#[derive(Clone, Copy, Debug)]
pub struct Entry {
    /// The place's key.
    pub key: Key,
    /// Where the place is.
    pub point: Point,
    /// How many words it has, at most 64.
    pub count: u8,
    /// The words' numbers and impacts.
    pub pairs: [(u64, u8); PAIRS_MAX],
}

impl Entry {
    /// Returns the entry's words with their impacts: the first `count` pairs, or all if there are fewer.
    pub fn words(&self) -> &[(u64, u8)]
        ensures { result.now ≡ take self.now.count self.now.pairs }
    {
        match self.pairs.get(..usize::from(self.count)) {
            Some(words) => words,
            None => &self.pairs,
        }
    }
}
