//! The choices of a pick for each word, and the search among them for the one that costs least.
ghost use Rattle.std.specs.Prelude.{◌≡◌, ◌++◌, ◌∷◌, [], ◌<◌, ◌≤◌, max, false, List, Vec, Some, IfOk, OnOk};
ghost use Rattle.std.specs.List.{AllByRecursion, Contains};
ghost use Rattle.std.specs.declared.alloc.Global.{Global};
ghost use Rattle.spatial_base.specs.Point.{Viewpoint};
ghost use Rattle.place_values.specs.declared.query.Pick.{Pick};
ghost use Rattle.place_values.specs.Group.{product, choice_cost, least_of};
ghost use Rattle.place_values.specs.Search.{lists_in};
ghost use Rattle.group_search.specs.Picks.{AreNear, AreMeasured};

use crate::costing::least_cost;
use crate::joining::{by_length, closest_lists};
use crate::keys::least_keys;
use place_values::{Chosen, Pick, Picks, choice_order};
use spatial_base::Origin;
use std::alloc::{AllocError, Global};

/// Keeps a choice of this cost if it comes before the best one.
pub(crate) fn offer(
    alloc: Global,
    picks: &[Pick],
    cost: u64,
    best: &mut Chosen,
) -> Result<(), AllocError>
    ensures cost { OnOk result (best.new.cost ≤ max cost best.old.cost) }
    ensures least { OnOk result ((at : Viewpoint) → cost ≡ choice_cost at picks.now → (tried : List (List Pick)) → Some best.old ≡ least_of at tried → Some best.new ≡ least_of at (tried ++ picks.now ∷ [])) }
{
    if choice_order(picks, cost, &*best).is_lt() {
        let picks = Picks::from_vec(Vec::from_slice(alloc, picks)?);
        *best = Chosen { cost, picks };
    }
    Ok(())
}

/// Leaves the least of the best choice so far and all choices of one pick of each list.
///
/// Drops first the picks that can't be in a choice of the best one's cost with any pick of the shortest list. Then the least cost is looked
/// for with the shortest lists first. Last come the least picks with which a choice costs no more, in the lists' order.
pub fn least_choice(
    alloc: Global,
    at: &Origin,
    lists: &[Vec<Pick>],
    best: &mut Chosen,
) -> Result<(), AllocError>
    requires near { AllByRecursion (λ (list : Vec Pick Global). AreNear list.items) lists.now }
    requires cost { best.old.cost ≤ 5091168824 }
    ensures least { OnOk result (AllByRecursion (λ (list : Vec Pick Global). AreMeasured at.now list.items) lists.now → (tried : List (List Pick)) → Some best.old ≡ least_of at.now tried
        → Some best.new ≡ least_of at.now (tried ++ product (lists_in lists.now))) }
    ensures cost { OnOk result (best.new.cost ≤ best.old.cost) }
{
    let kept = closest_lists(alloc, at, lists, best.cost)?;
    let sorted = by_length(alloc, &kept)?;
    let mut front = Vec::new(alloc);
    let least = least_cost(at, &sorted, &mut front, 0, 0, best.cost + 1, 0)?;
    if least > best.cost {
        return Ok(());
    }
    if !least_keys(at, &kept, &sorted, &mut front, 0, 0, least)? {
        return Ok(());
    }
    offer(alloc, &front, least, best)
}

/// Returns whether picks of which each list has one may cost at most `most`. If not, no such picks cost so little.
pub fn may_cost(
    alloc: Global,
    at: &Origin,
    lists: &[Vec<Pick>],
    most: u64,
) -> Result<bool, AllocError>
    requires near { AllByRecursion (λ (list : Vec Pick Global). AreNear list.items) lists.now }
    requires most { most ≤ 5091168824 }
    ensures { IfOk result (λ may. may ≡ false → AllByRecursion (λ (list : Vec Pick Global). AreMeasured at.now list.items) lists.now
        → (picks : List Pick) → ((list : List Pick) → Contains (lists_in lists.now) list → (pick : Pick) × Contains picks pick × Contains list pick) → most < choice_cost at.now picks) }
{
    let sorted = by_length(alloc, lists)?;
    let mut front = Vec::new(alloc);
    let least = least_cost(at, &sorted, &mut front, 0, 0, most + 1, most)?;
    Ok(least <= most)
}
