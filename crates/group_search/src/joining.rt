//! Candidates that may be in one choice with a candidate for the rarest word.
ghost use Rattle.std.specs.Prelude.{◌≡◌, ◌≤◌, [], List, Vec, map, length, IfOk, IfSome, IfNone};
ghost use Rattle.std.specs.List.{AllByRecursion, Contains, list_any};
ghost use Rattle.std.specs.List.Sorted.{IsPermutation};
ghost use Rattle.std.specs.declared.alloc.Global.{Global};
ghost use Rattle.spatial_base.specs.Point.{Viewpoint};
ghost use Rattle.place_values.specs.declared.query.Pick.{Pick};
ghost use Rattle.group_search.specs.declared.joining.Paired.{Paired};
ghost use Rattle.place_values.specs.Group.{choice_cost};
ghost use Rattle.place_values.specs.Search.{lists_in};
ghost use Rattle.group_search.specs.Choices.{IsChoice, AreCut};
ghost use Rattle.group_search.specs.Joins.{may_join, joined_by};
ghost use Rattle.group_search.specs.Picks.{AreNear, AreMeasured};

use crate::bounding::pair_cost;
use place_values::Pick;
use spatial_base::Origin;
use std::alloc::{AllocError, Global};

/// Returns whether a choice with both picks may cost at most so much.
pub(crate) fn may_join(at: &Origin, pick: &Pick, other: &Pick, most: u64) -> bool
    requires near { pick.now.dist ≤ 2545584412 }
    requires other { other.now.dist ≤ 2545584412 }
    ensures { result ≡ may_join at.now.scale most pick.now other.now }
{
    pair_cost(at, pick, other) <= most
}

// Whether one of the others may join a pick.
fn is_joined(at: &Origin, pick: &Pick, others: &[Pick], most: u64) -> bool
    requires near { pick.now.dist ≤ 2545584412 }
    requires others { AreNear others.now }
    ensures { result ≡ list_any (may_join at.now.scale most pick.now) others.now }
{
    for other in others {
        if may_join(at, pick, other, most) {
            return true;
        }
    }
    false
}

// The picks that one of the others may join.
fn joined(
    alloc: Global,
    at: &Origin,
    picks: &[Pick],
    others: &[Pick],
    most: u64,
) -> Result<Vec<Pick>, AllocError>
    requires picks { AreNear picks.now }
    requires others { AreNear others.now }
    ensures kept { IfOk result (λ kept. kept.items ≡ joined_by at.now.scale most others.now picks.now) }
    ensures near { IfOk result (λ kept. AreNear kept.items) }
{
    let mut kept = Vec::new(alloc);
    for pick in picks {
        if is_joined(at, pick, others, most) {
            kept.push(*pick)?;
        }
    }
    Ok(kept)
}

// The picks of each list that one of the others may join.
fn joined_each(
    alloc: Global,
    at: &Origin,
    lists: &[Vec<Pick>],
    others: &[Pick],
    most: u64,
) -> Result<Vec<Vec<Pick>>, AllocError>
    requires lists { AllByRecursion (λ (list : Vec Pick Global). AreNear list.items) lists.now }
    requires others { AreNear others.now }
    ensures kept { IfOk result (λ kept. lists_in kept.items ≡ map (joined_by at.now.scale most others.now) (lists_in lists.now)) }
    ensures near { IfOk result (λ kept. AllByRecursion (λ (list : Vec Pick Global). AreNear list.items) kept.items) }
{
    let mut kept = Vec::new(alloc);
    for list in lists {
        kept.push(joined(alloc, at, list, others, most)?)?;
    }
    Ok(kept)
}

// A shortest list.
fn shortest(lists: &[Vec<Pick>]) -> Option<&Vec<Pick>>
    ensures among { IfSome result (λ list. Contains lists.now list.now) }
    ensures none { IfNone result (lists.now ≡ []) }
{
    lists.iter().min_by_key(|list| list.len())
}

// A pick with what a choice with it and another one costs at least.
#[derive(Clone, Copy, PartialEq, Eq, PartialOrd, Ord)]
struct Paired {
    cost: u64,
    pick: Pick,
}

// Each pick with what a choice with it and another one costs at least.
fn pairs_with(
    alloc: Global,
    at: &Origin,
    other: &Pick,
    picks: &[Pick],
) -> Result<Vec<Paired>, AllocError>
    requires other { other.now.dist ≤ 2545584412 }
    requires picks { AreNear picks.now }
    ensures { IfOk result (λ pairs. map (λ (pair : Paired). pair.pick) pairs.items ≡ picks.now) }
{
    let mut pairs = Vec::new(alloc);
    for pick in picks {
        let cost = pair_cost(at, other, pick);
        pairs.push(Paired { cost, pick: *pick })?;
    }
    Ok(pairs)
}

// The picks of some pairs.
fn picks_in(alloc: Global, pairs: &[Paired]) -> Result<Vec<Pick>, AllocError>
    ensures { IfOk result (λ picks. picks.items ≡ map (λ (pair : Paired). pair.pick) pairs.now) }
{
    let mut picks = Vec::new(alloc);
    for pair in pairs {
        picks.push(pair.pick)?;
    }
    Ok(picks)
}

// The same picks, those first with which a choice with another pick may cost least.
fn closest(
    alloc: Global,
    at: &Origin,
    other: &Pick,
    picks: &[Pick],
) -> Result<Vec<Pick>, AllocError>
    requires other { other.now.dist ≤ 2545584412 }
    requires picks { AreNear picks.now }
    ensures { IfOk result (λ sorted. IsPermutation picks.now sorted.items) }
{
    let mut pairs = pairs_with(alloc, at, other, picks)?;
    pairs.sort_unstable();
    picks_in(alloc, &pairs)
}

// The same picks of each list, those first with which a choice with another pick may cost least.
fn closest_each(
    alloc: Global,
    at: &Origin,
    other: &Pick,
    lists: &[Vec<Pick>],
) -> Result<Vec<Vec<Pick>>, AllocError>
    requires other { other.now.dist ≤ 2545584412 }
    requires lists { AllByRecursion (λ (list : Vec Pick Global). AreNear list.items) lists.now }
    ensures same { IfOk result (λ sorted. AreCut (λ _. Unit {0}) (lists_in lists.now) (lists_in sorted.items)) }
    ensures near { IfOk result (λ sorted. AllByRecursion (λ (list : Vec Pick Global). AreNear list.items) sorted.items) }
    ensures measured { IfOk result (λ sorted. (from : Viewpoint) → AllByRecursion (λ (list : Vec Pick Global). AreMeasured from list.items) lists.now
        → AllByRecursion (λ (list : Vec Pick Global). AreMeasured from list.items) sorted.items) }
{
    let mut sorted = Vec::new(alloc);
    for list in lists {
        let copy = closest(alloc, at, other, list)?;
        sorted.push(copy)?;
    }
    Ok(sorted)
}

// The lists without the picks that no pick of the shortest list may join: a choice with both would cost more than so much.
fn joined_lists(
    alloc: Global,
    at: &Origin,
    lists: &[Vec<Pick>],
    most: u64,
) -> Result<Vec<Vec<Pick>>, AllocError>
    requires { AllByRecursion (λ (list : Vec Pick Global). AreNear list.items) lists.now }
    ensures near { IfOk result (λ kept. AllByRecursion (λ (list : Vec Pick Global). AreNear list.items) kept.items) }
    ensures measured { IfOk result (λ kept. AllByRecursion (λ (list : Vec Pick Global). AreMeasured at.now list.items) lists.now
        → AllByRecursion (λ (list : Vec Pick Global). AreMeasured at.now list.items) kept.items) }
    ensures own { IfOk result (λ kept. (choice : List Pick) → IsChoice (lists_in kept.items) choice → IsChoice (lists_in lists.now) choice) }
    ensures all { IfOk result (λ kept. AllByRecursion (λ (list : Vec Pick Global). AreMeasured at.now list.items) lists.now
        → (choice : List Pick) → IsChoice (lists_in lists.now) choice → choice_cost at.now choice ≤ most → IsChoice (lists_in kept.items) choice) }
{
    match shortest(lists) {
        Some(others) => joined_each(alloc, at, lists, others, most),
        None => Ok(Vec::new(alloc)),
    }
}

// The first pick of a shortest list.
fn first_of_shortest(lists: &[Vec<Pick>]) -> Option<Pick>
    requires { AllByRecursion (λ (list : Vec Pick Global). AreNear list.items) lists.now }
    ensures { IfSome result (λ pick. pick.dist ≤ 2545584412) }
{
    match shortest(lists) {
        Some(list) => list.first().copied(),
        None => None,
    }
}

/// Returns the lists without the picks that no pick of the shortest list may join: a choice with both would cost more than `most`. In each
/// list those come first with which a choice with the first pick of the shortest one may cost least.
pub(crate) fn closest_lists(
    alloc: Global,
    at: &Origin,
    lists: &[Vec<Pick>],
    most: u64,
) -> Result<Vec<Vec<Pick>>, AllocError>
    requires { AllByRecursion (λ (list : Vec Pick Global). AreNear list.items) lists.now }
    ensures near { IfOk result (λ kept. AllByRecursion (λ (list : Vec Pick Global). AreNear list.items) kept.items) }
    ensures measured { IfOk result (λ kept. AllByRecursion (λ (list : Vec Pick Global). AreMeasured at.now list.items) lists.now
        → AllByRecursion (λ (list : Vec Pick Global). AreMeasured at.now list.items) kept.items) }
    ensures own { IfOk result (λ kept. (choice : List Pick) → IsChoice (lists_in kept.items) choice → IsChoice (lists_in lists.now) choice) }
    ensures all { IfOk result (λ kept. AllByRecursion (λ (list : Vec Pick Global). AreMeasured at.now list.items) lists.now
        → (choice : List Pick) → IsChoice (lists_in lists.now) choice → choice_cost at.now choice ≤ most → IsChoice (lists_in kept.items) choice) }
{
    let kept = joined_lists(alloc, at, lists, most)?;
    match first_of_shortest(&kept) {
        Some(other) => closest_each(alloc, at, &other, &kept),
        None => Ok(kept),
    }
}

// The position of a list of so many picks among lists that are in order.
fn rank_of(lists: &[Vec<Pick>], len: usize) -> usize
    ensures { result ≤ length lists.now }
{
    let mut at = 0;
    while at < lists.len() && lists[at].len() <= len {
        at += 1;
    }
    at
}

/// Returns the lists, the shortest first.
pub(crate) fn by_length(alloc: Global, lists: &[Vec<Pick>]) -> Result<Vec<Vec<Pick>>, AllocError>
    requires { AllByRecursion (λ (list : Vec Pick Global). AreNear list.items) lists.now }
    ensures near { IfOk result (λ sorted. AllByRecursion (λ (list : Vec Pick Global). AreNear list.items) sorted.items) }
    ensures among { IfOk result (λ sorted. (list : List Pick) → Contains (lists_in sorted.items) list → Contains (lists_in lists.now) list) }
    ensures whole { IfOk result (λ sorted. (list : List Pick) → Contains (lists_in lists.now) list → Contains (lists_in sorted.items) list) }
{
    let mut sorted: Vec<Vec<Pick>> = Vec::new(alloc);
    for list in lists {
        let at = rank_of(&sorted, list.len());
        let copy = Vec::from_slice(alloc, list.as_slice())?;
        sorted.insert(at, copy)?;
    }
    Ok(sorted)
}
