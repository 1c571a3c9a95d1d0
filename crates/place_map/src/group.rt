// Finds the least choice of a place for each word.
ghost use Rattle.std.specs.Prelude.{◌≡◌, ◌≤◌, ◌+◌, ◌++◌, ◌∷◌, [], if◌then◌else◌, true, ℕ, List, length, map, OnOk, IfOk};
ghost use Rattle.std.specs.List.{AllByRecursion};
ghost use Rattle.place_values.specs.declared.query.Pick.{Pick};
ghost use Rattle.place_values.specs.Group.{picks_for, product, choices, least_by};
ghost use Rattle.place_values.specs.GroupLaws.{IsRising};
ghost use Rattle.place_values.specs.Search.{lists_in, fronted};
ghost use Rattle.place_map.specs.Prices.{price_of, AreNear};

use place_values::{Chosen, Pick, Picks, Place, choice_order, cost_of_choice, sum_of_choice};
use spatial_base::{Key, Origin};
use std::alloc::{AllocError, Global};
use std::collections::BTreeMap;
use term_impacts::Word;

/// What a choice of places costs.
#[derive(Clone, Copy)]
pub(crate) enum Price {
    /// The greatest distance from a point to a place, plus the greatest distance between two of the places.
    Reach(Origin),
    /// The sum of the distances to the places, each of which counts once.
    Sum,
}

impl Price {
    // What these picks cost. At most 8 picks have a cost.
    fn cost(&self, picks: &[Pick]) -> u64
        requires few { length picks.now ≤ 8 }
        requires near { AreNear picks.now }
        ensures { result ≡ price_of self.now picks.now }
    {
        match self {
            Price::Reach(at) => cost_of_choice(at, picks),
            Price::Sum => sum_of_choice(picks),
        }
    }
}

// The picks for a word: the places that have it.
fn picks_of(
    alloc: Global,
    places: &BTreeMap<Key, Place>,
    at: &Origin,
    word: &Word,
) -> Result<Vec<Pick>, AllocError>
    ensures picks { IfOk result (λ picks. picks.items ≡ picks_for places.now.entries at.now word.now) }
    ensures near { IfOk result (λ picks. AreNear picks.items) }
{
    let mut picks = Vec::new(alloc);
    for (key, place) in places {
        if place.has(word) {
            picks.push(Pick {
                key: *key,
                word: *word,
                dist: at.dist(&place.point),
                point: place.point,
            })?;
        }
    }
    Ok(picks)
}

// The picks for each of the words.
fn picks_of_each(
    alloc: Global,
    places: &BTreeMap<Key, Place>,
    at: &Origin,
    words: &[Word],
) -> Result<Vec<Vec<Pick>>, AllocError>
    ensures lists { IfOk result (λ lists. lists_in lists.items ≡ map (picks_for places.now.entries at.now) words.now) }
    ensures near { IfOk result (λ lists. AllByRecursion AreNear (lists_in lists.items)) }
{
    let mut lists = Vec::new(alloc);
    for word in words {
        let picks = picks_of(alloc, places, at, word)?;
        lists.push(picks)?;
    }
    Ok(lists)
}

// Whether no choice that begins with these picks is better than the best one, where further picks never cost less.
fn is_hopeless(front: &[Pick], cost: u64, best: &Option<Chosen>) -> bool
    ensures { result ≡ true → (price : List Pick → ℕ) → IsRising price → cost ≡ price front.now → (tried rest : List (List Pick)) → best.now ≡ least_by price tried → best.now ≡ least_by price (tried ++ fronted front.now rest) }
{
    match best {
        Some(best) => choice_order(front, cost, best).is_gt(),
        None => false,
    }
}

// Whether a choice is better than the best one.
fn is_better(picks: &[Pick], cost: u64, best: &Option<Chosen>) -> bool
    ensures { (price : List Pick → ℕ) → cost ≡ price picks.now → (tried : List (List Pick)) → best.now ≡ least_by price tried → least_by price (tried ++ picks.now ∷ []) ≡ (if result then Some record { cost = cost; picks = picks.now } else best.now) }
{
    match best {
        Some(best) => choice_order(picks, cost, best).is_lt(),
        None => true,
    }
}

// Keeps a choice if it is better than the best one.
fn offer(
    alloc: Global,
    picks: &[Pick],
    cost: u64,
    best: &mut Option<Chosen>,
) -> Result<(), AllocError>
    ensures { OnOk result ((price : List Pick → ℕ) → cost ≡ price picks.now → (tried : List (List Pick)) → best.old ≡ least_by price tried → best.new ≡ least_by price (tried ++ picks.now ∷ [])) }
{
    if is_better(picks, cost, &*best) {
        let picks = Picks::from_vec(Vec::from_slice(alloc, picks)?);
        *best = Some(Chosen { cost, picks });
    }
    Ok(())
}

// Offers each choice that begins with these picks and continues with one of each list. If these picks already come after the best
// choice, all of them are skipped: what completes a choice never makes it come earlier.
fn extend(
    alloc: Global,
    price: Price,
    lists: &[Vec<Pick>],
    front: &mut Vec<Pick>,
    best: &mut Option<Chosen>,
) -> Result<(), AllocError>
    requires few { length front.old.items + length lists.now ≤ 8 }
    requires near { AreNear front.old.items }
    requires all_near { AllByRecursion AreNear (lists_in lists.now) }
    ensures same { OnOk result (front.new.items ≡ front.old.items) }
    ensures least { OnOk result ((tried : List (List Pick)) → best.old ≡ least_by (price_of price) tried → best.new ≡ least_by (price_of price) (tried ++ fronted front.old.items (product (lists_in lists.now)))) }
{
    let cost = price.cost(&*front);
    if is_hopeless(&*front, cost, &*best) {
        return Ok(());
    }
    let Some((list, others)) = lists.split_first() else {
        return offer(alloc, &*front, cost, best);
    };
    for pick in list {
        front.push(*pick)?;
        extend(alloc, price, others, front, best)?;
        front.pop();
    }
    Ok(())
}

/// Returns the choice of least cost of a place for each of at most 8 words, or `None` if a word has no place.
pub(crate) fn least_choice(
    alloc: Global,
    places: &BTreeMap<Key, Place>,
    at: &Origin,
    price: Price,
    words: &[Word],
) -> Result<Option<Chosen>, AllocError>
    requires { length words.now ≤ 8 }
    ensures { IfOk result (λ chosen. chosen ≡ least_by (price_of price) (choices places.now.entries at.now words.now)) }
{
    let lists = picks_of_each(alloc, places, at, words)?;
    let mut front = Vec::new(alloc);
    let mut best = None;
    extend(alloc, price, &lists, &mut front, &mut best)?;
    Ok(best)
}
