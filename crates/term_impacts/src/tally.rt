//! Counts the words of a text.
ghost use Rattle.std.specs.Prelude.{◌≡◌, ◌+◌, ◌*◌, ◌/◌, ◌^◌, ◌<◌, ◌≤◌, ℕ, List, [], ◌∷◌, ◌++◌, length, IfOk, OnOk};
ghost use Rattle.term_impacts.specs.Impacts.{impacts_of};
ghost use Rattle.term_impacts.specs.Tally.{IsTally};

use crate::word::Word;
use crate::words::{WORDS_MAX, Words};
use indexmap::IndexMap;
use std::alloc::{AllocError, Global};

/// How often each of the first 64 distinct words occurred, in the order of first appearance, and how many words occurred in all.
#[derive(Drop)]
pub(crate) struct Tally {
    counts: IndexMap<Word, u64>,
    total: u64,
}

impl Tally {
    /// Returns the tally of no words.
    pub(crate) fn new(alloc: Global) -> Tally
        ensures { IsTally [] result.counts.entries result.total }
    {
        Tally {
            counts: IndexMap::new(alloc),
            total: 0,
        }
    }

    /// Counts one more word. A word beyond the first 64 distinct ones counts only towards the total.
    #[inline]
    pub(crate) fn add(&mut self, word: Word) -> Result<(), AllocError>
        requires { (words : List (List ℕ)) × IsTally words self.old.counts.entries self.old.total × (length words < 2 ^ 63) }
        ensures { (words : List (List ℕ)) → IsTally words self.old.counts.entries self.old.total
            → OnOk result (IsTally (words ++ word ∷ []) self.new.counts.entries self.new.total) }
    {
        self.total += 1;
        if let Some(at) = self.counts.get_index_of(&word) {
            self.counts[at] += 1;
        } else if self.counts.len() < WORDS_MAX {
            self.counts.insert(word, 1)?;
        }
        Ok(())
    }

    /// Returns the kept words with their impacts, in the order of the words.
    pub(crate) fn impacts(&self, alloc: Global) -> Result<Words, AllocError>
        requires { (words : List (List ℕ)) × IsTally words self.now.counts.entries self.now.total × (length words < 2 ^ 63) }
        ensures { (words : List (List ℕ)) → IsTally words self.now.counts.entries self.now.total
            → IfOk result (λ map. map ≡ impacts_of words) }
    {
        let mut words = Words::with_capacity(alloc, self.counts.len())?;
        for (word, count) in self.counts.iter() {
            words.put(*word, impact(*count, self.total))?;
        }
        Ok(words)
    }
}

/// The impact, 1 to 255, of a word that occurs `count` times among `total` words. The product has at most 71 bits.
fn impact(count: u64, total: u64) -> u8
    requires some { 1 ≤ total }
    requires share { count ≤ total }
    ensures value { result ≡ 1 + 254 * count / total }
    ensures some { 1 ≤ result }
{
    1 + (254 * count as u128 / total as u128) as u8
}
