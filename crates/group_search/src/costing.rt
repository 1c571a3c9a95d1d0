//! The least cost of the choices that begin with some picks.
ghost use Rattle.std.specs.Prelude.{◌≡◌, ◌++◌, ◌≤◌, ◌<◌, ◌+◌, max, nat_lt, true, false, List, Vec, IfOk, OnOk};
ghost use Rattle.std.specs.List.{AllByRecursion};
ghost use Rattle.std.specs.declared.alloc.Global.{Global};
ghost use Rattle.spatial_base.specs.Point.{seen_from};
ghost use Rattle.place_values.specs.declared.query.Pick.{Pick};
ghost use Rattle.place_values.specs.Group.{farthest, diameter, choice_cost};
ghost use Rattle.place_values.specs.Search.{lists_in};
ghost use Rattle.group_search.specs.Choices.{IsChoice};
ghost use Rattle.group_search.specs.Fronts.{Completes};
ghost use Rattle.group_search.specs.Picks.{AreNear, AreMeasured};

use place_values::{Pick, farthest_of};
use spatial_base::Origin;
use std::alloc::AllocError;

/// Returns the greatest distance from a pick to one of `front`, with the scale of the query's point.
pub(crate) fn farthest_from(at: &Origin, pick: &Pick, front: &[Pick]) -> u64
    ensures value { result ≡ farthest (seen_from pick.now.point at.now.scale) front.now }
    ensures far { result ≤ 2545584412 }
{
    let scale = at.scale();
    farthest_of(&Origin::at(pick.point, scale), front)
}

// Whether `front` with a pick added costs less than `bound`. `far` is the greatest distance to a pick of `front` and `wide` the greatest
// one between two.
fn goes_on(at: &Origin, pick: &Pick, front: &[Pick], far: u64, wide: u64, bound: u64) -> bool
    requires near { pick.now.dist ≤ 2545584412 }
    requires far { far ≤ 2545584412 }
    requires wide { wide ≤ 2545584412 }
    ensures { result ≡ nat_lt (max far pick.now.dist + max wide (farthest (seen_from pick.now.point at.now.scale) front.now)) bound }
{
    let further = far.max(pick.dist);
    further + wide < bound && further + wide.max(farthest_from(at, pick, front)) < bound
}

// Whether `front` with one of the picks added costs less than `bound`.
fn one_goes_on(at: &Origin, list: &[Pick], front: &[Pick], far: u64, wide: u64, bound: u64) -> bool
    requires near { AreNear list.now }
    requires far { far ≤ 2545584412 }
    requires wide { wide ≤ 2545584412 }
    ensures { result ≡ false → AllByRecursion (λ (pick : Pick). bound ≤ max far pick.dist + max wide (farthest (seen_from pick.point at.now.scale) front.now)) list.now }
{
    for pick in list {
        if goes_on(at, pick, front, far, wide, bound) {
            return true;
        }
    }
    false
}

// Whether each list has a pick with which `front` costs less than `bound`. If not, no choice that begins so does.
fn each_goes_on(
    at: &Origin,
    lists: &[Vec<Pick>],
    front: &[Pick],
    far: u64,
    wide: u64,
    bound: u64,
) -> bool
    requires near { AllByRecursion (λ (list : Vec Pick Global). AreNear list.items) lists.now }
    requires far { far ≤ 2545584412 }
    requires wide { wide ≤ 2545584412 }
    ensures { result ≡ false → far ≡ farthest at.now front.now → wide ≡ diameter at.now.scale front.now
        → AllByRecursion (λ (list : Vec Pick Global). AreMeasured at.now list.items) lists.now
        → (choice : List Pick) → IsChoice (lists_in lists.now) choice → bound ≤ choice_cost at.now (front.now ++ choice) }
{
    for list in lists {
        if !one_goes_on(at, list, front, far, wide, bound) {
            return false;
        }
    }
    true
}

/// Returns the cost of the cheapest choice that begins with `front` and goes on with a pick of each list, if it is less than `bound`; else
/// returns `bound`. Once a cost is no greater than `floor` no lesser one is looked for. `far` is the greatest distance to a pick of `front`
/// and `wide` the greatest one between two.
pub(crate) fn least_cost(
    at: &Origin,
    lists: &[Vec<Pick>],
    front: &mut Vec<Pick>,
    far: u64,
    wide: u64,
    bound: u64,
    floor: u64,
) -> Result<u64, AllocError>
    requires near { AllByRecursion (λ (list : Vec Pick Global). AreNear list.items) lists.now }
    requires far { far ≤ 2545584412 }
    requires wide { wide ≤ 2545584412 }
    ensures same { OnOk result (front.new.items ≡ front.old.items) }
    ensures most { IfOk result (λ least. least ≤ bound) }
    ensures least { IfOk result (λ least. floor < least → far ≡ farthest at.now front.old.items → wide ≡ diameter at.now.scale front.old.items
        → AllByRecursion (λ (list : Vec Pick Global). AreMeasured at.now list.items) lists.now
        → (choice : List Pick) → IsChoice (lists_in lists.now) choice → least ≤ choice_cost at.now (front.old.items ++ choice)) }
    ensures found { IfOk result (λ least. least < bound → far ≡ farthest at.now front.old.items → wide ≡ diameter at.now.scale front.old.items
        → AllByRecursion (λ (list : Vec Pick Global). AreMeasured at.now list.items) lists.now → Completes at.now (lists_in lists.now) least front.old.items) }
{
    let cost = far + wide;
    if cost >= bound {
        return Ok(bound);
    }
    if !each_goes_on(at, lists, &*front, far, wide, bound) {
        return Ok(bound);
    }
    let Some((list, others)) = lists.split_first() else {
        return Ok(cost);
    };
    let enough = floor.max(cost);
    let mut least = bound;
    for pick in list {
        if least <= enough {
            return Ok(least);
        }
        let further = far.max(pick.dist);
        let wider = wide.max(farthest_from(at, pick, &*front));
        front.push(*pick)?;
        least = least_cost(at, others, front, further, wider, least, floor)?;
        front.pop();
    }
    Ok(least)
}
