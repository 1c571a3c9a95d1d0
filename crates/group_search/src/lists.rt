//! Lists of picks, one for each word.
ghost use Rattle.std.specs.Prelude.{◌≡◌, ◌<◌, ◌∷◌, [], true, Vec, IfOk, IsSomeAnd, length, get_or};
ghost use Rattle.std.specs.List.{AllByRecursion, Contains};
ghost use Rattle.std.specs.declared.alloc.Global.{Global};
ghost use Rattle.spatial_base.specs.Point.{Viewpoint};
ghost use Rattle.place_values.specs.declared.query.Pick.{Pick};
ghost use Rattle.group_search.specs.Leads.{IsBehind};
ghost use Rattle.group_search.specs.Picks.{AreNear, AreMeasured, picks_of};

use place_values::Pick;
use std::alloc::{AllocError, Global};
use std::cmp::Ordering;

/// Returns the picks of one of several lists, or none if there are fewer lists.
pub fn list_at(lists: &[Vec<Pick>], at: usize) -> &[Pick]
    requires { AllByRecursion (λ (list : Vec Pick Global). AreNear list.items) lists.now }
    ensures list { at < length lists.now → (d : Vec Pick Global) → result.now ≡ (get_or lists.now at d).items }
    ensures among { (pick : Pick) → Contains result.now pick → Contains (picks_of lists.now) pick }
    ensures near { AreNear result.now }
    ensures measured { (at : Viewpoint) → AllByRecursion (λ (list : Vec Pick Global). AreMeasured at list.items) lists.now → AreMeasured at result.now }
{
    match lists.get(at) {
        Some(list) => list,
        None => &[],
    }
}

/// Returns a pick alone.
pub fn alone(alloc: Global, pick: &Pick) -> Result<Vec<Pick>, AllocError>
    ensures { IfOk result (λ picks. picks.items ≡ pick.now ∷ []) }
{
    let mut picks = Vec::new(alloc);
    picks.push(*pick)?;
    Ok(picks)
}

// Whether a pick is at the point of another.
fn is_at(pick: &Pick, other: &Pick) -> bool
    ensures { result ≡ true → pick.now.point ≡ other.now.point }
{
    pick.point == other.point
}

/// Returns whether a pick is at the point of another, if there is another, and doesn't come before it.
pub fn is_behind(pick: &Pick, other: &Option<Pick>) -> bool
    ensures { result ≡ true → IsSomeAnd other.now (IsBehind pick.now) }
{
    match other {
        Some(other) => is_at(pick, other) && !pick.cmp(other).is_lt(),
        None => false,
    }
}
