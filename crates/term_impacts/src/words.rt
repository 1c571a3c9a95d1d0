//! The words of a place with their impacts.
ghost use Rattle.std.specs.Prelude.{◌≡◌, ◌<◌, ◌≤◌, ◌↔◌, [], length, All, IsTrue, IsSome, IfSome, IfOk, OnOk};
ghost use Rattle.std.specs.BTreeMap.{insert_entry};
ghost use Rattle.std.specs.Cmp.Lexicographic.{slice_cmp};
ghost use Rattle.std.specs.List.Sorted.{IsStrictlySortedBy};
ghost use Rattle.std.specs.Map.{keys_of};
ghost use Rattle.std.specs.Ordering.{nat_cmp};
ghost use Rattle.term_impacts.specs.Pairs.{IsWordMap, impact_in};

use crate::word::Word;
use spatial_base::Memory;
use std::alloc::{AllocError, Global};
use std::marker::Model;

/// The most words that a place has.
pub const WORDS_MAX: usize = 64;

/// A map of at most 64 words to impacts of 1 to 255, stored as pairs that ascend by word. Contracts see the list of the pairs.
#[derive(Drop)]
pub struct Words {
    pairs: Vec<(Word, u8)>,
}

impl Model for Words {
    ghost use Rattle.std.specs.Prelude.{ℕ, List};
    ghost use Rattle.term_impacts.specs.Pairs.{IsWordMap};

    ghost Value = { List (List ℕ × ℕ) };

    ghost view = { λ words. words.pairs.items };

    ghost invariant = { λ words. IsWordMap words.pairs.items };
}

impl Words {
    /// Returns the pairs, in the order of their words.
    pub fn pairs(&self) -> &[(Word, u8)]
        ensures pairs { result.now ≡ self.now }
        ensures valid { IsWordMap self.now }
    {
        self.pairs.as_slice()
    }

    /// Returns the impact of a word, 1 to 255, or 0 if the map does not have the word.
    ///
    /// It looks at one pair after another: most places have few words, and most unequal words already differ in their first eight
    /// bytes.
    pub fn impact(&self, word: &Word) -> u8
        ensures { result ≡ impact_in self.now word.now }
    {
        impact_among(self.pairs.as_slice(), word)
    }

    /// Returns a copy of the map in its own memory. Fails only if memory runs out.
    pub fn copy(&self, alloc: Global) -> Result<Words, Memory>
        ensures { IfOk result (λ copy. copy ≡ self.now) }
    {
        let pairs = Vec::from_slice(alloc, self.pairs.as_slice()).map_err(|_| Memory)?;
        Ok(Words { pairs })
    }

    /// Returns the map with these pairs, in the memory of `pairs`, or `None` exactly if they are not such a map.
    ///
    /// They are not one if there are more than 64, if a word is not before the next, or if an impact is 0.
    pub fn of_pairs(pairs: Vec<(Word, u8)>) -> Option<Words>
        ensures same { IfSome result (λ words. words ≡ pairs.items) }
        ensures exact { IsSome result ↔ IsWordMap pairs.items }
    {
        if is_word_map(pairs.as_slice()) {
            Some(Words { pairs })
        } else {
            None
        }
    }

    /// Returns the empty map, with room for `room` pairs.
    pub(crate) fn with_capacity(alloc: Global, room: usize) -> Result<Words, AllocError>
        ensures { IfOk result (λ words. words ≡ []) }
    {
        Ok(Words {
            pairs: Vec::with_capacity(alloc, room)?,
        })
    }

    /// Maps a word to an impact, at its place in the order.
    pub(crate) fn put(&mut self, word: Word, impact: u8) -> Result<(), AllocError>
        requires room { length self.old < 64 }
        requires impact { 1 ≤ impact }
        ensures { OnOk result (self.new ≡ insert_entry (slice_cmp nat_cmp) self.old word impact) }
    {
        let at = match self.pairs.binary_search_by_key(&word, |pair| pair.0) {
            Ok(at) => {
                self.pairs[at].1 = impact;
                return Ok(());
            }
            Err(at) => at,
        };
        self.pairs.insert(at, (word, impact))?;
        Ok(())
    }
}

/// The impact of a word that at most one of the pairs has, or 0 if none has it.
fn impact_among(pairs: &[(Word, u8)], word: &Word) -> u8
    ensures { result ≡ impact_in pairs.now word.now }
{
    match pairs.split_first() {
        Some((pair, others)) => {
            if *word == pair.0 {
                pair.1
            } else {
                impact_among(others, word)
            }
        }
        None => 0,
    }
}

/// Whether the pairs are a map of words: at most 64, ascending by word, with no impact of 0.
fn is_word_map(pairs: &[(Word, u8)]) -> bool
    ensures { IsTrue result ↔ IsWordMap pairs.now }
{
    if pairs.len() > WORDS_MAX || !is_ascending(pairs) {
        return false;
    }
    has_impacts(pairs)
}

/// Whether each word is before the next.
fn is_ascending(pairs: &[(Word, u8)]) -> bool
    ensures { IsTrue result ↔ IsStrictlySortedBy (slice_cmp nat_cmp) (keys_of pairs.now) }
{
    pairs.is_sorted_by(|pair, next| pair.0.cmp(&next.0).is_lt())
}

/// Whether no impact is 0.
fn has_impacts(pairs: &[(Word, u8)]) -> bool
    ensures { IsTrue result ↔ All (λ pair. (1 ≤ pair.1) × (pair.1 ≤ 255)) pairs.now }
{
    pairs.iter().all(|pair| pair.1 >= 1)
}
