// What a choice of picks costs, and which of two choices comes first.
ghost use Rattle.std.specs.Prelude.{◌≡◌, ◌≤◌, length};
ghost use Rattle.std.specs.Cmp.Lexicographic.{slice_cmp};
ghost use Rattle.std.specs.List.{AllByRecursion};
ghost use Rattle.std.specs.Ordering.{nat_cmp, ordering_then};
ghost use Rattle.place_values.specs.Group.{farthest, diameter, choice_cost, pick_cmp};
ghost use Rattle.place_values.specs.Sum.{sum_cost};
ghost use Rattle.place_values.specs.SumLaws.{has_place_of};

use crate::{Chosen, Pick};
use spatial_base::Origin;
use std::cmp::Ordering;

/// Returns the greatest distance to a pick, in degrees times 10^7, and 0 if there is no pick.
pub fn farthest_of(from: &Origin, picks: &[Pick]) -> u64
    ensures value { result ≡ farthest from.now picks.now }
    ensures far { result ≤ 2545584412 }
{
    let mut most = 0;
    for pick in picks {
        most = most.max(from.dist(&pick.point));
    }
    most
}

// The greatest distance between two picks, with a scale of longitudes.
fn diameter_of(picks: &[Pick], scale: u16) -> u64
    requires { scale ≤ 1000 }
    ensures value { result ≡ diameter scale picks.now }
    ensures far { result ≤ 2545584412 }
{
    match picks.split_first() {
        Some((pick, others)) => {
            let from = Origin::at(pick.point, scale);
            farthest_of(&from, others).max(diameter_of(others, scale))
        }
        None => 0,
    }
}

/// Returns what a choice costs: the greatest distance to a pick, plus the greatest distance between two picks.
pub fn cost_of_choice(at: &Origin, picks: &[Pick]) -> u64
    ensures value { result ≡ choice_cost at.now picks.now }
    ensures far { result ≤ 5091168824 }
{
    farthest_of(at, picks) + diameter_of(picks, at.scale())
}

// Whether one of some picks is of this pick's place.
fn has_place(picks: &[Pick], pick: &Pick) -> bool
    ensures { result ≡ has_place_of picks.now pick.now }
{
    picks.iter().any(|other| other.key == pick.key)
}

/// Returns the sum of the distances to the places of some picks, in degrees times 10^7. A place of several picks counts once.
pub fn sum_of_choice(picks: &[Pick]) -> u64
    requires few { length picks.now ≤ 8 }
    requires near { AllByRecursion (λ (pick : Pick). pick.dist ≤ 2545584412) picks.now }
    ensures value { result ≡ sum_cost picks.now }
    ensures far { result ≤ 20364675296 }
{
    let mut sum = 0;
    for (i, pick) in picks.iter().enumerate() {
        if !has_place(&picks[..i], pick) {
            sum += pick.dist;
        }
    }
    sum
}

/// Returns the order of a choice of this cost and another one: by cost, and then by the picks, in the words' order.
pub fn choice_order(picks: &[Pick], cost: u64, other: &Chosen) -> Ordering
    ensures { result ≡ ordering_then (nat_cmp cost other.now.cost) (slice_cmp pick_cmp picks.now other.now.picks) }
{
    cost.cmp(&other.cost)
        .then(picks.cmp(other.picks.as_slice()))
}
