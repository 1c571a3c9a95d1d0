// A set of words that is split into two: each part has a choice of its own, and the two are joined in the words' order.
ghost use Rattle.std.specs.Prelude.{◌≡◌, ◌↔◌, ◌+◌, ◌^◌, ◌<◌, ◌≤◌, IsTrue, IfOk, OnOk, Some};
ghost use Rattle.std.specs.List.{list_all};
ghost use Rattle.place_values.specs.Sum.{is_same_place};
ghost use Rattle.group_sum.specs.Splits.{sides_of, joined, is_one_place, joined_of, first_of};
ghost use Rattle.group_sum.specs.Tables.{cost_in, IsDearer};

use crate::sets::has_word;
use place_values::{Chosen, Pick, Picks, choice_order};
use std::alloc::{AllocError, Global};

// Whether all picks are of a pick's place.
fn are_of_place(pick: &Pick, others: &[Pick]) -> bool
    ensures { result ≡ list_all (is_same_place pick.now) others.now }
{
    others.iter().all(|other| pick.key == other.key)
}

/// Returns whether all picks are of one place.
pub(crate) fn is_one_place(picks: &[Pick]) -> bool
    ensures { result ≡ is_one_place picks.now }
{
    match picks.split_first() {
        Some((pick, others)) => are_of_place(pick, others),
        None => true,
    }
}

/// A part of a set of words, of so many words in all.
#[derive(Clone, Copy)]
pub(crate) struct Split {
    /// How many words there are.
    pub(crate) count: usize,
    /// The set.
    pub(crate) set: usize,
    /// The part.
    pub(crate) part: usize,
}

/// Returns the picks for a part of a set and those for the rest of it in the order of the words.
pub(crate) fn joined(
    alloc: Global,
    split: Split,
    left: &[Pick],
    right: &[Pick],
) -> Result<Vec<Pick>, AllocError>
    requires { split.count ≤ 8 }
    ensures { IfOk result (λ picks. picks.items ≡ joined (sides_of split.count split.set split.part) left.now right.now) }
{
    let mut picks = Vec::new(alloc);
    let mut first = left;
    let mut second = right;
    for word in 0..split.count {
        if has_word(split.set, word) {
            if has_word(split.part, word) {
                if let Some((pick, others)) = first.split_first() {
                    picks.push(*pick)?;
                    first = others;
                }
            } else if let Some((pick, others)) = second.split_first() {
                picks.push(*pick)?;
                second = others;
            }
        }
    }
    Ok(picks)
}

/// Puts a choice of this cost in place of the best one if it comes before it, or if there is none.
pub(crate) fn put_first(cost: u64, picks: Vec<Pick>, best: &mut Option<Chosen>)
    ensures { best.new ≡ first_of best.old (Some record { cost = cost; picks = picks.items }) }
{
    let first = match best {
        Some(known) => choice_order(&picks, cost, known).is_lt(),
        None => true,
    };
    if first {
        *best = Some(Chosen {
            cost,
            picks: Picks::from_vec(picks),
        });
    }
}

// Whether the best choice costs less.
fn is_dearer(cost: u64, best: &Option<Chosen>) -> bool
    ensures { IsTrue result ↔ IsDearer cost best.now }
{
    match best {
        Some(known) => known.cost < cost,
        None => false,
    }
}

/// Joins the choices for a part of a set and for the rest of it, and puts the joined choice in place of the best one if it comes before it.
///
/// Does nothing if one of both is missing, or if neither is of one place. Copies picks only if the joined choice costs no more than the
/// best.
pub(crate) fn offer(
    alloc: Global,
    split: Split,
    left: &Option<Chosen>,
    right: &Option<Chosen>,
    best: &mut Option<Chosen>,
) -> Result<(), AllocError>
    requires few { split.count ≤ 8 }
    requires low { cost_in left.now + cost_in right.now < 2 ^ 64 }
    ensures { OnOk result (best.new ≡ first_of best.old (joined_of (sides_of split.count split.set split.part) left.now right.now)) }
{
    let (Some(left), Some(right)) = (left, right) else {
        return Ok(());
    };
    let cost = left.cost + right.cost;
    if is_dearer(cost, best) {
        return Ok(());
    }
    if is_one_place(left.picks.as_slice()) || is_one_place(right.picks.as_slice()) {
        let picks = joined(alloc, split, left.picks.as_slice(), right.picks.as_slice())?;
        put_first(cost, picks, best);
    }
    Ok(())
}
