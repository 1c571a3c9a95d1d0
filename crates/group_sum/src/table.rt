// The least choice of each set of words.
ghost use Rattle.std.specs.Prelude.{◌≡◌, ◌⊎◌, ℕ, ◌+◌, ◌-◌, ◌*◌, ◌^◌, ◌<◌, ◌≤◌, false, List, [], Some, None, IfOk, IfSome, OnOk, length, slice_index_or};
ghost use Rattle.std.specs.List.{Contains};
ghost use Rattle.std.proofs.Props.{props};
ghost use Rattle.place_values.specs.declared.query.Pick.{Pick};
ghost use Rattle.place_values.specs.declared.query.Chosen.{Chosen};
ghost use Rattle.group_sum.specs.Sets.{in_set};
ghost use Rattle.group_sum.specs.Shared.{AreNamed, IsNearestShared, limit_of, shared_in, shared_picks};
ghost use Rattle.group_sum.specs.Splits.{IsLeastSplit, sides_of, joined_of, comes_first};
ghost use Rattle.group_sum.specs.Tables.{AreLeast, AreLow, picks_kept};

use crate::splits::{Split, offer, put_first};
use place_values::{Chosen, Hit, Pick, Picks};
use spatial_base::Origin;
use std::alloc::{AllocError, Global};
use term_impacts::Word;

// A place as the pick for each of some words.
fn shared(alloc: Global, at: &Origin, words: &[Word], hit: &Hit) -> Result<Vec<Pick>, AllocError>
    ensures { IfOk result (λ picks. picks.items ≡ shared_picks at.now words.now hit.now) }
{
    let mut picks = Vec::new(alloc);
    for word in words {
        picks.push(Pick {
            key: hit.key,
            word: *word,
            dist: at.dist(&hit.point),
            point: hit.point,
        })?;
    }
    Ok(picks)
}

/// The least choice of each set of words, by the set's mask, as far as the sets are dealt with.
///
/// The sets are dealt with in the order of their masks, so that all parts of a set come before it. The next set is the one whose mask is
/// the number of choices kept. It is dealt with in three steps: `least_split` finds the least choice that is joined from two parts; the
/// caller looks for the nearest place that serves all words of the set, no farther than that choice costs; `keep` keeps the better of both.
#[derive(Drop)]
pub(crate) struct Table {
    /// How many words there are, at most 8.
    pub(crate) count: usize,
    /// The choice of each set, or `None` if a word of the set has no place.
    pub(crate) kept: Vec<Option<Chosen>>,
    ghost few: { count ≤ 8 },
    ghost begun: { 0 < length kept.items },
    ghost low: { AreLow kept.items } by { Prim.hlevel props },
}

impl Table {
    /// Returns the table for so many words, with the choice of the empty set.
    pub(crate) fn new(alloc: Global, count: usize) -> Result<Table, AllocError>
        requires { count ≤ 8 }
        ensures count { IfOk result (λ table. table.count ≡ count) }
        ensures one { IfOk result (λ table. length table.kept.items ≡ 1) }
        ensures least { IfOk result (λ table. (lists : List (List Pick)) → AreLeast lists table.kept.items) }
        ensures picks { IfOk result (λ table. picks_kept table.kept.items ≡ []) }
    {
        let mut kept = Vec::new(alloc);
        let picks = Picks::from_vec(Vec::new(alloc));
        kept.push(Some(Chosen { cost: 0, picks }))?;
        Ok(Table { count, kept })
    }

    /// Returns the least choice for the next set that is joined from the choices of two parts, or `None` if no two parts have both a
    /// choice. Its cost is the sum of the costs of both. That is what the choice costs if the parts have no place in common, and no less
    /// in any case.
    pub(crate) fn least_split(&self, alloc: Global) -> Result<Option<Chosen>, AllocError>
        requires { length self.now.kept.items < 2 ^ self.now.count }
        ensures { IfOk result (λ split. IsLeastSplit self.now.count self.now.kept.items (length self.now.kept.items) split) }
    {
        let set = self.kept.len();
        let mut best = None;
        for part in 1..set / 2 + 1 {
            if part & set == part {
                let split = Split {
                    count: self.count,
                    set,
                    part,
                };
                offer(
                    alloc,
                    split,
                    &self.kept[part],
                    &self.kept[set ^ part],
                    &mut best,
                )?;
            }
        }
        Ok(best)
    }

    /// Keeps the least choice for the next set, and returns whether there is one.
    ///
    /// `words` are the words of the set. `split` is the least choice that is joined from two parts, and `hit` the nearest place that serves
    /// all words of the set, if one is no farther than `split` costs. If `split` is `None`, it is the nearest place in any case.
    pub(crate) fn keep(
        &mut self,
        alloc: Global,
        at: &Origin,
        words: &[Word],
        split: Option<Chosen>,
        hit: Option<Hit>,
    ) -> Result<bool, AllocError>
        requires room { length self.old.kept.items < 2 ^ self.old.count }
        requires split { IsLeastSplit self.old.count self.old.kept.items (length self.old.kept.items) split }
        ensures count { self.new.count ≡ self.old.count }
        ensures longer { OnOk result (length self.new.kept.items ≡ length self.old.kept.items + 1) }
        ensures least { OnOk result ((lists : List (List Pick)) → length lists ≡ self.old.count → AreNamed lists → AreLeast lists self.old.kept.items
            → IsNearestShared at.now words.now (in_set (length self.old.kept.items) lists) (limit_of split) hit → AreLeast lists self.new.kept.items) }
        ensures none { IfOk result (λ has. has ≡ false → slice_index_or self.new.kept.items (length self.old.kept.items) None ≡ None) }
        ensures from { OnOk result ((pick : Pick) → Contains (picks_kept self.new.kept.items) pick
            → Contains (picks_kept self.old.kept.items) pick ⊎ Contains (shared_in at.now words.now hit) pick) }
    {
        let mut best = split;
        if let Some(hit) = hit {
            let picks = shared(alloc, at, words, &hit)?;
            put_first(at.dist(&hit.point), picks, &mut best);
        }
        let has = best.is_some();
        self.kept.push(best)?;
        Ok(has)
    }

    /// Returns the choice of the last set that was dealt with.
    pub(crate) fn into_last(self) -> Option<Chosen>
        ensures last { result ≡ slice_index_or self.kept.items (length self.kept.items - 1) None }
    {
        let mut kept = self.kept;
        match kept.pop() {
            Some(last) => last,
            None => None,
        }
    }
}
