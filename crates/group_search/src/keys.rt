//! The choice of least keys within a cost.
ghost use Rattle.std.specs.Prelude.{◌≡◌, ◌++◌, ◌∷◌, [], ◌≤◌, true, false, List, Vec, IfOk, OnOk, IfSome, IsSomeAnd};
ghost use Rattle.std.specs.List.{AllByRecursion, Contains};
ghost use Rattle.std.specs.Ordering.{is_lt};
ghost use Rattle.std.specs.declared.alloc.Global.{Global};
ghost use Rattle.spatial_base.specs.Point.{distance};
ghost use Rattle.place_values.specs.declared.query.Pick.{Pick};
ghost use Rattle.place_values.specs.Group.{farthest, diameter, pick_cmp};
ghost use Rattle.place_values.specs.Search.{lists_in};
ghost use Rattle.group_search.specs.Fronts.{Completes, IsNext, HasLeastKeys};
ghost use Rattle.group_search.specs.Picks.{AreNear, AreMeasured};

use crate::costing::{farthest_from, least_cost};
use place_values::Pick;
use spatial_base::Origin;
use std::alloc::AllocError;
use std::cmp::Ordering;

// Whether a pick comes before another, or there is no other.
fn comes_first(pick: &Pick, other: &Option<Pick>) -> bool
    ensures before { result ≡ true → IfSome other.now (λ other. is_lt (pick_cmp pick.now other) ≡ true) }
    ensures after { result ≡ false → IsSomeAnd other.now (λ other. is_lt (pick_cmp pick.now other) ≡ false) }
{
    match other {
        Some(other) => pick.cmp(other).is_lt(),
        None => true,
    }
}

// Whether `front` can go on with a pick, and then with one of each list, and cost at most `most`.
fn completes(
    at: &Origin,
    lists: &[Vec<Pick>],
    front: &mut Vec<Pick>,
    pick: &Pick,
    far: u64,
    wide: u64,
    most: u64,
) -> Result<bool, AllocError>
    requires near { AllByRecursion (λ (list : Vec Pick Global). AreNear list.items) lists.now }
    requires far { far ≤ 2545584412 }
    requires wide { wide ≤ 2545584412 }
    requires most { most ≤ 5091168824 }
    requires pick { pick.now.dist ≤ 2545584412 }
    ensures same { OnOk result (front.new.items ≡ front.old.items) }
    ensures completed { IfOk result (λ completed. completed ≡ true → far ≡ farthest at.now front.old.items → wide ≡ diameter at.now.scale front.old.items
        → AllByRecursion (λ (list : Vec Pick Global). AreMeasured at.now list.items) lists.now → pick.now.dist ≡ distance at.now pick.now.point
        → Completes at.now (lists_in lists.now) most (front.old.items ++ pick.now ∷ [])) }
    ensures refused { IfOk result (λ completed. completed ≡ false → far ≡ farthest at.now front.old.items → wide ≡ diameter at.now.scale front.old.items
        → AllByRecursion (λ (list : Vec Pick Global). AreMeasured at.now list.items) lists.now → pick.now.dist ≡ distance at.now pick.now.point
        → Completes at.now (lists_in lists.now) most (front.old.items ++ pick.now ∷ []) → ⊥) }
{
    let further = far.max(pick.dist);
    let wider = wide.max(farthest_from(at, pick, &*front));
    front.push(*pick)?;
    let least = least_cost(at, lists, front, further, wider, most + 1, most)?;
    front.pop();
    Ok(least <= most)
}

// The lesser of the next pick so far and one more. The one more counts only if `front` can go on with it, and then with one of each of the
// lists, and cost at most `most`.
fn next_of(
    at: &Origin,
    pick: &Pick,
    next: Option<Pick>,
    lists: &[Vec<Pick>],
    front: &mut Vec<Pick>,
    far: u64,
    wide: u64,
    most: u64,
) -> Result<Option<Pick>, AllocError>
    requires near { AllByRecursion (λ (list : Vec Pick Global). AreNear list.items) lists.now }
    requires far { far ≤ 2545584412 }
    requires wide { wide ≤ 2545584412 }
    requires most { most ≤ 5091168824 }
    requires pick { pick.now.dist ≤ 2545584412 }
    requires next { IfSome next (λ pick. pick.dist ≤ 2545584412) }
    ensures same { OnOk result (front.new.items ≡ front.old.items) }
    ensures near { IfOk result (λ new. IfSome new (λ pick. pick.dist ≤ 2545584412)) }
    ensures next { IfOk result (λ new. far ≡ farthest at.now front.old.items → wide ≡ diameter at.now.scale front.old.items
        → AllByRecursion (λ (list : Vec Pick Global). AreMeasured at.now list.items) lists.now → pick.now.dist ≡ distance at.now pick.now.point → (picks : List Pick)
        → IsNext at.now (lists_in lists.now) most front.old.items picks next → IsNext at.now (lists_in lists.now) most front.old.items (picks ++ pick.now ∷ []) new) }
{
    if !comes_first(pick, &next) {
        return Ok(next);
    }
    if completes(at, lists, front, pick, far, wide, most)? {
        return Ok(Some(*pick));
    }
    Ok(next)
}

// The least pick of a list that `front` can go on with, and then with one of each of the lists, and cost at most `most`.
fn least_next(
    at: &Origin,
    list: &[Pick],
    lists: &[Vec<Pick>],
    front: &mut Vec<Pick>,
    far: u64,
    wide: u64,
    most: u64,
) -> Result<Option<Pick>, AllocError>
    requires near { AllByRecursion (λ (list : Vec Pick Global). AreNear list.items) lists.now }
    requires far { far ≤ 2545584412 }
    requires wide { wide ≤ 2545584412 }
    requires most { most ≤ 5091168824 }
    requires list { AreNear list.now }
    ensures same { OnOk result (front.new.items ≡ front.old.items) }
    ensures near { IfOk result (λ next. IfSome next (λ pick. pick.dist ≤ 2545584412)) }
    ensures next { IfOk result (λ next. far ≡ farthest at.now front.old.items → wide ≡ diameter at.now.scale front.old.items
        → AllByRecursion (λ (list : Vec Pick Global). AreMeasured at.now list.items) lists.now → AreMeasured at.now list.now
        → IsNext at.now (lists_in lists.now) most front.old.items list.now next) }
{
    let mut next = None;
    for pick in list {
        next = next_of(at, pick, next, lists, front, far, wide, most)?;
    }
    Ok(next)
}

/// Adds to `front` the least pick of each of the first lists in turn that lets it go on with one of each of `lists`, and cost at most
/// `most`. Returns whether there are such picks.
pub(crate) fn least_keys(
    at: &Origin,
    firsts: &[Vec<Pick>],
    lists: &[Vec<Pick>],
    front: &mut Vec<Pick>,
    far: u64,
    wide: u64,
    most: u64,
) -> Result<bool, AllocError>
    requires near { AllByRecursion (λ (list : Vec Pick Global). AreNear list.items) lists.now }
    requires far { far ≤ 2545584412 }
    requires wide { wide ≤ 2545584412 }
    requires most { most ≤ 5091168824 }
    requires firsts { AllByRecursion (λ (list : Vec Pick Global). AreNear list.items) firsts.now }
    ensures found { IfOk result (λ found. found ≡ true → far ≡ farthest at.now front.old.items → wide ≡ diameter at.now.scale front.old.items
        → AllByRecursion (λ (list : Vec Pick Global). AreMeasured at.now list.items) lists.now → AllByRecursion (λ (list : Vec Pick Global). AreMeasured at.now list.items) firsts.now
        → (firsts.now ≡ [] → Completes at.now (lists_in lists.now) most front.old.items)
        → HasLeastKeys at.now (lists_in firsts.now) (lists_in lists.now) most front.old.items front.new.items) }
    ensures none { IfOk result (λ found. found ≡ false → far ≡ farthest at.now front.old.items → wide ≡ diameter at.now.scale front.old.items
        → AllByRecursion (λ (list : Vec Pick Global). AreMeasured at.now list.items) lists.now → AllByRecursion (λ (list : Vec Pick Global). AreMeasured at.now list.items) firsts.now
        → ((list : List Pick) → Contains (lists_in firsts.now) list → Contains (lists_in lists.now) list)
        → Completes at.now (lists_in lists.now) most front.old.items → ⊥) }
{
    let Some((list, others)) = firsts.split_first() else {
        return Ok(true);
    };
    let pick = match least_next(at, list, lists, front, far, wide, most)? {
        Some(pick) => pick,
        None => return Ok(false),
    };
    let further = far.max(pick.dist);
    let wider = wide.max(farthest_from(at, &pick, &*front));
    front.push(pick)?;
    let found = least_keys(at, others, lists, front, further, wider, most)?;
    Ok(found)
}
